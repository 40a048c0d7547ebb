//! How answers are written.

/// How answers are written into the records of a sheet.
#[derive(Clone, Copy, Debug, PartialEq, Eq)]
pub struct Form {
    /// The column that is filled, from 1.
    pub column: u32,
    /// The column that gets the states of the cells, from 1, where there is to be one.
    pub states: Option<usize>,
    /// Whether an answer that is not sure is left out.
    pub only_sure: bool,
}
