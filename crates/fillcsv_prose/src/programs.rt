//! Programs.
use crate::names::{Names, put_number};
use crate::pieces::Piece;
use crate::quotes::put_quoted;
use fill_tree::{Atom, Program, Select, Source};
use std::alloc::{AllocError, Global};

/// A program in plain English, as `Name from the last capital on, " (", City, ")"`.
pub fn program_text(
    alloc: Global,
    program: &Program,
    names: Names<'_>,
) -> Result<String, AllocError> {
    let mut text = String::new(alloc);
    put_program(&mut text, program, names)?;
    Ok(text)
}

/// Puts a program at the end: its atoms, with commas between them.
pub(crate) fn put_program(
    to: &mut String,
    program: &Program,
    names: Names<'_>,
) -> Result<(), AllocError> {
    match program.atoms.as_slice() {
        [] => to.push_str("nothing"),
        [first, rest @ ..] => {
            put_atom(to, first, names)?;
            put_more(to, rest, names)
        }
    }
}

#[cycle(put)]
fn put_source(to: &mut String, source: &Source, names: Names<'_>) -> Result<(), AllocError> {
    match source {
        Source::Col(column) => names.put_column(to, *column),
        Source::Select(select) => put_select(to, select, names),
    }
}

/// Puts a lookup at the end.
#[cycle(put)]
fn put_select(to: &mut String, select: &Select, names: Names<'_>) -> Result<(), AllocError> {
    to.push_str("column ")?;
    put_number(to, select.column)?;
    to.push_str(" of ")?;
    names.put_table(to, select.table)?;
    to.push_str(" where key ")?;
    put_number(to, select.key)?;
    to.push_str(" is (")?;
    match select.conditions.as_slice() {
        [] => {}
        [first, rest @ ..] => {
            put_atom(to, first, names)?;
            put_more(to, rest, names)?;
        }
    }
    to.push_str(")")
}

#[cycle(put)]
fn put_atom(to: &mut String, atom: &Atom, names: Names<'_>) -> Result<(), AllocError> {
    match atom {
        Atom::Const(text) => put_quoted(to, text.as_slice()),
        Atom::Whole(source) => put_source(to, source, names),
        Atom::Sub(source, start, end) => put_piece(to, source, Piece::of(start, end), names),
    }
}

/// Puts a piece of a source's text at the end.
#[cycle(put)]
fn put_piece(
    to: &mut String,
    source: &Source,
    piece: Piece<'_>,
    names: Names<'_>,
) -> Result<(), AllocError> {
    match source {
        Source::Col(column) => piece.put_of_column(to, *column, names),
        Source::Select(select) => {
            piece.put(to)?;
            to.push_str(" of ")?;
            put_select(to, select, names)
        }
    }
}

/// Puts atoms at the end, each behind a comma.
#[cycle(put)]
fn put_more(to: &mut String, atoms: &[Atom], names: Names<'_>) -> Result<(), AllocError> {
    for atom in atoms {
        to.push_str(", ")?;
        put_atom(to, atom, names)?;
    }
    Ok(())
}
