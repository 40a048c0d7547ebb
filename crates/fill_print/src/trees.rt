//! The notation of trees.
ghost use Rattle.std.specs.Prelude.{◌≡◌, ◌++◌, OnOk, IfOk, map};
ghost use Rattle.fill_tree.specs.Meaning.{source_tree, select_tree, atom_tree, program_tree};
ghost use Rattle.fill_tree.specs.Tree.{atoms_of};
ghost use Rattle.fill_print.specs.Notation.{source_text, atom_text, after_commas, atoms_text, program_text};

use crate::pieces::{put, put_chars, put_number, put_place};
use fill_text::{List, NoMemory};
use fill_tree::{Atom, Program, Select, Source};
use std::alloc::Global;

#[cycle(put)]
fn put_source(to: &mut List<u8>, source: &Source) -> Result<(), NoMemory>
    ensures { OnOk result (to.new ≡ to.old ++ source_text (source_tree source.now)) }
{
    match source {
        Source::Col(column) => {
            put(to, "Col(")?;
            put_number(to, *column)?;
            put(to, ")")
        }
        Source::Select(select) => put_select(to, select),
    }
}

#[cycle(put)]
fn put_select(to: &mut List<u8>, select: &Select) -> Result<(), NoMemory>
    ensures { OnOk result (to.new ≡ to.old ++ source_text (select_tree select.now)) }
{
    put(to, "Select(")?;
    put_number(to, select.column)?;
    put(to, ",")?;
    put_number(to, select.table)?;
    put(to, ",")?;
    put_number(to, select.key)?;
    put_after_commas(to, select.conditions.as_slice())?;
    put(to, ")")
}

#[cycle(put)]
fn put_atom(to: &mut List<u8>, atom: &Atom) -> Result<(), NoMemory>
    ensures { OnOk result (to.new ≡ to.old ++ atom_text (atom_tree atom.now)) }
{
    match atom {
        Atom::Const(text) => {
            put(to, "Const('")?;
            put_chars(to, text)?;
            put(to, "')")
        }
        Atom::Whole(source) => {
            put(to, "Whole(")?;
            put_source(to, source)?;
            put(to, ")")
        }
        Atom::Sub(source, left, right) => {
            put(to, "Sub(")?;
            put_source(to, source)?;
            put(to, ",")?;
            put_place(to, left)?;
            put(to, ",")?;
            put_place(to, right)?;
            put(to, ")")
        }
    }
}

/// Puts atoms at the end, each behind a comma.
#[cycle(put)]
fn put_after_commas(to: &mut List<u8>, atoms: &[Atom]) -> Result<(), NoMemory>
    ensures { OnOk result (to.new ≡ to.old ++ after_commas (atoms_of (map atom_tree atoms.now))) }
{
    for atom in atoms {
        put(to, ",")?;
        put_atom(to, atom)?;
    }
    Ok(())
}

/// Puts atoms at the end, with commas between them.
fn put_atoms(to: &mut List<u8>, atoms: &[Atom]) -> Result<(), NoMemory>
    ensures { OnOk result (to.new ≡ to.old ++ atoms_text (atoms_of (map atom_tree atoms.now))) }
{
    match atoms {
        [] => Ok(()),
        [first, rest @ ..] => {
            put_atom(to, first)?;
            put_after_commas(to, rest)
        }
    }
}

/// Puts a program at the end.
pub(crate) fn put_program(to: &mut List<u8>, program: &Program) -> Result<(), NoMemory>
    ensures { OnOk result (to.new ≡ to.old ++ program_text (program_tree program.now)) }
{
    put(to, "Concat(")?;
    put_atoms(to, program.atoms.as_slice())?;
    put(to, ")")
}

/// The notation of a program, as `Concat(Whole(Col(1)),Const('!'))`.
pub fn print_program(alloc: Global, program: &Program) -> Result<List<u8>, NoMemory>
    ensures { IfOk result (λ bytes. bytes ≡ program_text (program_tree program.now)) }
{
    let mut bytes = List::new(alloc);
    put_program(&mut bytes, program)?;
    Ok(bytes)
}
