//! The trees of programs.
//!
//! Contracts speak of the plain trees that these stand for: `source_tree`, `atom_tree` and `program_tree`.
use fill_text::{List, Text};
use fill_tokens::Place;

/// Where a text comes from: a cell of the sheet's row, or a cell of a table.
#[cycle(tree)]
#[derive(Debug, Drop)]
pub enum Source {
    /// The cell of an input column, by the column's number in the sheet, from 1.
    Col(u32),
    /// A lookup.
    Select(Box<Select>),
}

/// A lookup: the cell, in a column, of the one row of a table whose key cells are the conditions' texts.
///
/// All numbers count from 1. There is one condition for each column of the key, in the key's order.
#[cycle(tree)]
#[derive(Debug, Drop)]
pub struct Select {
    pub column: u32,
    pub table: u32,
    pub key: u32,
    pub conditions: List<Atom>,
}

/// A part of a program's text, or of a lookup's key.
#[cycle(tree)]
#[derive(Debug, Drop)]
pub enum Atom {
    /// A text that does not depend on the row.
    Const(Text),
    /// The whole text of a source.
    Whole(Source),
    /// The piece of a source's text from one place to another.
    Sub(Source, Place, Place),
}

/// A program: the concatenation of its atoms' texts.
#[derive(Debug, Drop)]
pub struct Program {
    pub atoms: List<Atom>,
}
