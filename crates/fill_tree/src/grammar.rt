//! Which trees the bounded grammar has.
ghost use Rattle.std.specs.Prelude.{◌≤◌, ◌↔◌, IsTrue, Contains, map};
ghost use Rattle.fill_tokens.specs.TokenSet.{IsPlaceOf};
ghost use Rattle.fill_tree.specs.Tree.{atoms_of};
ghost use Rattle.fill_tree.specs.Grammar.{AreConditions, AreNumbersOf, AreSettings, Allows, HasPart, InGrammar, IsAtom, IsCondition, IsPart, IsSource, atom_depth, source_depth};
ghost use Rattle.fill_tree.specs.Meaning.{source_tree, select_tree, atom_tree, program_tree};

use crate::tree::{Atom, Program, Select, Source};
use crate::user::{Constants, Settings};
use fill_sheet::Sheet;
use fill_tables::Tables;
use fill_text::{Text, is_separator};
use fill_tokens::{Place, is_place};

/// Whether the program is one of the grammar, for the settings, the sheet and the tables.
pub fn in_grammar(p: &Program, settings: &Settings, sheet: &Sheet, tables: &Tables) -> bool
    requires { AreSettings settings.now }
    ensures { IsTrue result ↔ InGrammar settings.now sheet.now tables.now (program_tree p.now) }
{
    for atom in p.atoms.as_slice() {
        if !is_atom(atom, settings, sheet, tables) {
            return false;
        }
    }
    true
}

/// Whether the atom may stand in a program. The depth is tested first, so that a deep tree is not searched to its end.
fn is_atom(atom: &Atom, settings: &Settings, sheet: &Sheet, tables: &Tables) -> bool
    ensures { IsTrue result ↔ IsAtom settings.now sheet.now tables.now (atom_tree atom.now) }
{
    if let Atom::Const(text) = atom {
        if text.len() == 0 {
            return false;
        }
        text.keeps_scalars();
        return allows(settings.constants, text);
    }
    if !is_atom_no_deeper(atom, settings.depth) {
        return false;
    }
    is_condition(atom, settings, sheet, tables)
}

/// Whether a program's constant may have these characters.
fn allows(constants: Constants, text: &Text) -> bool
    ensures { IsTrue result ↔ Allows constants text.now }
{
    match constants {
        Constants::Any => true,
        Constants::Separators => text.as_slice().iter().all(|c| is_separator(*c)),
    }
}

/// Whether lookups stand at most `limit` deep inside each other.
#[cycle(depth)]
fn is_no_deeper(source: &Source, limit: u8) -> bool
    ensures { IsTrue result ↔ (source_depth (source_tree source.now) ≤ limit) }
{
    match source {
        Source::Col(_) => true,
        Source::Select(select) => is_select_no_deeper(select, limit),
    }
}

#[cycle(depth)]
fn is_select_no_deeper(select: &Select, limit: u8) -> bool
    ensures { IsTrue result ↔ (source_depth (select_tree select.now) ≤ limit) }
{
    if limit == 0 {
        return false;
    }
    for condition in select.conditions.as_slice() {
        if !is_atom_no_deeper(condition, limit - 1) {
            return false;
        }
    }
    true
}

#[cycle(depth)]
fn is_atom_no_deeper(atom: &Atom, limit: u8) -> bool
    ensures { IsTrue result ↔ (atom_depth (atom_tree atom.now) ≤ limit) }
{
    match atom {
        Atom::Const(_) => true,
        Atom::Whole(source) => is_no_deeper(source, limit),
        Atom::Sub(source, _, _) => is_no_deeper(source, limit),
    }
}

#[cycle(grammar)]
fn is_source(source: &Source, settings: &Settings, sheet: &Sheet, tables: &Tables) -> bool
    ensures { IsTrue result ↔ IsSource settings.now sheet.now tables.now (source_tree source.now) }
{
    match source {
        Source::Col(column) => is_input(*column, sheet),
        Source::Select(select) => is_lookup(select, settings, sheet, tables),
    }
}

#[cycle(grammar)]
fn is_lookup(select: &Select, settings: &Settings, sheet: &Sheet, tables: &Tables) -> bool
    ensures { IsTrue result ↔ IsSource settings.now sheet.now tables.now (select_tree select.now) }
{
    let conditions = select.conditions.as_slice();
    if !are_numbers_of(
        select.column,
        select.table,
        select.key,
        conditions.len(),
        tables,
    ) {
        return false;
    }
    if !has_part(conditions) {
        return false;
    }
    are_conditions(conditions, settings, sheet, tables)
}

#[cycle(grammar)]
fn are_conditions(atoms: &[Atom], settings: &Settings, sheet: &Sheet, tables: &Tables) -> bool
    ensures { IsTrue result ↔ AreConditions settings.now sheet.now tables.now (atoms_of (map atom_tree atoms.now)) }
{
    for atom in atoms {
        if !is_condition(atom, settings, sheet, tables) {
            return false;
        }
    }
    true
}

/// Whether the atom may be a condition of a lookup.
#[cycle(grammar)]
fn is_condition(atom: &Atom, settings: &Settings, sheet: &Sheet, tables: &Tables) -> bool
    ensures { IsTrue result ↔ IsCondition settings.now sheet.now tables.now (atom_tree atom.now) }
{
    match atom {
        Atom::Const(text) => {
            text.keeps_scalars();
            true
        }
        Atom::Whole(source) => is_source(source, settings, sheet, tables),
        Atom::Sub(source, left, right) => {
            if !is_source(source, settings, sheet, tables) {
                return false;
            }
            is_place_of(left, settings) && is_place_of(right, settings)
        }
    }
}

/// Whether the place is one of the grammar.
fn is_place_of(p: &Place, settings: &Settings) -> bool
    ensures { IsTrue result ↔ IsPlaceOf settings.now.profile.tokens p.now }
{
    is_place(p) && p.is_of(settings.profile.tokens)
}

/// Whether the column is one of the sheet's inputs.
pub fn is_input(column: u32, sheet: &Sheet) -> bool
    ensures { IsTrue result ↔ Contains sheet.now.inputs column }
{
    sheet.inputs().contains(&column)
}

/// Whether the numbers of a lookup by `size` conditions belong to the tables.
fn are_numbers_of(column: u32, table: u32, key: u32, size: usize, tables: &Tables) -> bool
    ensures { IsTrue result ↔ AreNumbersOf tables.now column table key size }
{
    if table == 0 || tables.count() < table {
        return false;
    }
    if key == 0 || tables.keys(table) < key {
        return false;
    }
    if column == 0 || tables.width(table) < column {
        return false;
    }
    let columns = tables.key(table, key);
    columns.len() == size && !columns.contains(&column)
}

/// Whether some condition is no constant.
pub fn has_part(conditions: &[Atom]) -> bool
    ensures { IsTrue result ↔ HasPart (atoms_of (map atom_tree conditions.now)) }
{
    for condition in conditions {
        if is_part(condition) {
            return true;
        }
    }
    false
}

/// Whether the atom is no constant, so that it reads the row.
pub fn is_part(atom: &Atom) -> bool
    ensures { IsTrue result ↔ IsPart (atom_tree atom.now) }
{
    !matches!(atom, Atom::Const(_))
}
