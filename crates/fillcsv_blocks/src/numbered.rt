//! Rows of a long sheet by their numbers.
use fill_records::Record;

/// A row of a long sheet.
#[derive(Debug, Drop)]
pub struct Numbered {
    /// Its number there, from 1.
    pub number: u32,
    /// Its record.
    pub fields: Record,
}

/// The rows that a block is opened over, in two lists whose numbers rise. A number that both have is taken once.
#[derive(Clone, Copy)]
pub struct Rows<'a> {
    /// The input columns of the long sheet, in any order.
    pub inputs: &'a [u32],
    /// Its output column, where one is set.
    pub output: Option<u32>,
    pub first: &'a [Numbered],
    pub second: &'a [Numbered],
}
