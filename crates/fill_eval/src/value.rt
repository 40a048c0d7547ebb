//! The values of trees on a row.
//!
//! The text of a source is lent by the sheet or the tables, and that of an atom is a piece of it or of the tree's
//! constant: only an answer is copied. So the time is linear in the tree and in the texts that its places are found in;
//! a lookup halves the rows of its table.
ghost use Rattle.std.specs.Prelude.{◌≤◌, ◌<◌, ℕ, List, Some, IfOk, IfSome, IfNone, length, map, option_copied, option_map};
ghost use Rattle.fill_tree.specs.Tree.{atoms_of};
ghost use Rattle.fill_tree.specs.Meaning.{atom_tree, program_tree, select_tree, source_tree};
ghost use Rattle.fill_tree.specs.Value.{AtomIs, ConditionIs, ConditionsAre, IsValue, ProgramIs, SourceIs};
ghost use Rattle.fill_eval.specs.Piece.{IsWithin, piece_text};

use crate::lookup::{found_row, has_key, input_cell, table_cell};
use crate::piece::Piece;
use arrayvec::ArrayVec;
use fill_sheet::Sheet;
use fill_tables::Tables;
use fill_text::{NoMemory, Text};
use fill_tree::{Atom, Program, Select, Source};
use std::alloc::Global;

/// How many columns a key can have.
const MOST_COLUMNS: usize = 3;

/// The source's text on the row, if it has one.
#[cycle(value)]
fn source_text<'a>(s: &Source, row: u32, sheet: &'a Sheet, tables: &'a Tables) -> Option<&'a Text>
    requires first { 1 ≤ row }
    requires last { row ≤ length sheet.now.rows }
    ensures { IsValue (SourceIs sheet.now tables.now row (source_tree s.now)) (option_copied result) }
{
    match s {
        Source::Col(column) => input_cell(row, *column, sheet),
        Source::Select(select) => select_text(select, row, sheet, tables),
    }
}

/// The text that the lookup finds, if it finds one.
#[cycle(value)]
fn select_text<'a>(s: &Select, row: u32, sheet: &'a Sheet, tables: &'a Tables) -> Option<&'a Text>
    requires first { 1 ≤ row }
    requires last { row ≤ length sheet.now.rows }
    ensures { IsValue (SourceIs sheet.now tables.now row (select_tree s.now)) (option_copied result) }
{
    if !has_key(s.table, s.key, tables) {
        return None;
    }
    let cells = condition_texts(s.conditions.as_slice(), row, sheet, tables)?;
    let found = found_row(s.table, s.key, cells.as_slice(), tables)?;
    table_cell(s.table, found, s.column, tables)
}

/// The conditions' texts on the row, if all have one and they are no more than a key can have columns.
#[cycle(value)]
fn condition_texts<'a>(
    conditions: &'a [Atom],
    row: u32,
    sheet: &'a Sheet,
    tables: &'a Tables,
) -> Option<ArrayVec<&'a [char], MOST_COLUMNS>>
    requires first { 1 ≤ row }
    requires last { row ≤ length sheet.now.rows }
    ensures some { IfSome result (λ cells. IsValue (ConditionsAre sheet.now tables.now row (atoms_of (map atom_tree conditions.now))) (Some (map (λ cell. cell.now) cells.items))) }
    ensures none { IfNone result ((texts : List (List ℕ)) → ConditionsAre sheet.now tables.now row (atoms_of (map atom_tree conditions.now)) texts → 3 < length texts) }
{
    let mut cells: ArrayVec<&[char], MOST_COLUMNS> = ArrayVec::new();
    for condition in conditions {
        let Some(piece) = condition_piece(condition, row, sheet, tables) else {
            return None;
        };
        if cells.is_full() {
            return None;
        }
        cells.push(piece.as_slice());
    }
    Some(cells)
}

/// The condition's text on the row, if it has one.
#[cycle(value)]
fn condition_piece<'a>(
    a: &'a Atom,
    row: u32,
    sheet: &'a Sheet,
    tables: &'a Tables,
) -> Option<Piece<'a>>
    requires first { 1 ≤ row }
    requires last { row ≤ length sheet.now.rows }
    ensures value { IsValue (ConditionIs sheet.now tables.now row (atom_tree a.now)) (option_map piece_text result) }
    ensures within { IfSome result IsWithin }
{
    match a {
        Atom::Const(text) => Some(Piece::whole(text)),
        Atom::Whole(source) => {
            let text = source_text(source, row, sheet, tables)?;
            Piece::whole(text).filled()
        }
        Atom::Sub(source, left, right) => {
            let text = source_text(source, row, sheet, tables)?;
            Piece::between(text, left, right)
        }
    }
}

/// The atom's text on the row, if it has one, which then has a character.
fn atom_piece<'a>(a: &'a Atom, row: u32, sheet: &'a Sheet, tables: &'a Tables) -> Option<Piece<'a>>
    requires first { 1 ≤ row }
    requires last { row ≤ length sheet.now.rows }
    ensures value { IsValue (AtomIs sheet.now tables.now row (atom_tree a.now)) (option_map piece_text result) }
    ensures within { IfSome result IsWithin }
{
    condition_piece(a, row, sheet, tables)?.filled()
}

/// The source's text on the row; none exactly where it has none.
pub fn source_value(
    alloc: Global,
    s: &Source,
    row: u32,
    sheet: &Sheet,
    tables: &Tables,
) -> Result<Option<Text>, NoMemory>
    requires first { 1 ≤ row }
    requires last { row ≤ length sheet.now.rows }
    ensures { IfOk result (IsValue (SourceIs sheet.now tables.now row (source_tree s.now))) }
{
    match source_text(s, row, sheet, tables) {
        Some(text) => Ok(Some(Piece::whole(text).copy(alloc)?)),
        None => Ok(None),
    }
}

/// The atom's text on the row; none exactly where it has none, as where the text would be empty.
pub fn atom_value(
    alloc: Global,
    a: &Atom,
    row: u32,
    sheet: &Sheet,
    tables: &Tables,
) -> Result<Option<Text>, NoMemory>
    requires first { 1 ≤ row }
    requires last { row ≤ length sheet.now.rows }
    ensures { IfOk result (IsValue (AtomIs sheet.now tables.now row (atom_tree a.now))) }
{
    match atom_piece(a, row, sheet, tables) {
        Some(piece) => Ok(Some(piece.copy(alloc)?)),
        None => Ok(None),
    }
}

/// The program's text on the row; none exactly where it has none, as where an atom has none.
pub fn program_value(
    alloc: Global,
    p: &Program,
    row: u32,
    sheet: &Sheet,
    tables: &Tables,
) -> Result<Option<Text>, NoMemory>
    requires first { 1 ≤ row }
    requires last { row ≤ length sheet.now.rows }
    ensures { IfOk result (IsValue (ProgramIs sheet.now tables.now row (program_tree p.now))) }
{
    let mut value = Text::new(alloc);
    for atom in p.atoms.as_slice() {
        let Some(piece) = atom_piece(atom, row, sheet, tables) else {
            return Ok(None);
        };
        value.append_piece(piece.text, piece.from, piece.to)?;
    }
    Ok(Some(value))
}
