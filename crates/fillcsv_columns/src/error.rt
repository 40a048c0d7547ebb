//! Why words name no column.

/// Why a word names no column.
#[derive(Clone, Copy, Debug, PartialEq, Eq)]
pub enum ColumnError {
    /// No column has this name or this number.
    Missing,
    /// Several columns have this name.
    Ambiguous,
    /// Out of memory.
    NoMemory,
}

/// Why words choose no columns.
#[derive(Clone, Copy, Debug, PartialEq, Eq)]
pub enum ChoiceError<'a> {
    /// No column has this name or this number.
    Missing(&'a str),
    /// Several columns have this name.
    Ambiguous(&'a str),
    /// The column that is filled is to be read too.
    Filled(&'a str),
    /// The column is named before.
    Again(&'a str),
    /// A new column is to have the name of one that is there.
    Present(&'a str),
    /// After a thousand columns there is no number for a new one.
    Full,
    /// More columns are to be read than a rule may read.
    TooMany,
    /// There is no column to read.
    Nothing,
    /// Out of memory.
    NoMemory,
}
