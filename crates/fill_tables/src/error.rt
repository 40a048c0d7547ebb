//! Why tables took no table or no key.
ghost use Rattle.std.specs.Prelude.{◌≡◌};
ghost use Rattle.fill_tables.specs.declared.error.TableError.TheVariants as table;

use fill_text::NoMemory;
use thiserror::Error;

/// Why a table or a key was not added.
#[derive(Clone, Copy, Debug, PartialEq, Eq, Error)]
pub enum TableError {
    /// There are as many tables as there can be.
    #[error("more than {limit} tables")]
    TooManyTables { limit: u32 },
    /// The table of this number, from 1, has the name.
    #[error("table {first} has this name")]
    SameName { first: u32 },
    /// The file has more records than a table can have.
    #[error("more than {limit} records")]
    TooManyRows { limit: u32 },
    /// A field that is kept is not UTF-8, in the record of this number and this column, both from 1.
    #[error("the field in column {column} of record {number} is not UTF-8")]
    NotUtf8 { number: u32, column: u32 },
    /// No table has the name.
    #[error("no table has this name")]
    NoSuchTable,
    /// A column of the key is past the last of the table, which has this many.
    #[error("the table has only {columns} columns")]
    NoSuchColumn { columns: u32 },
    /// The table has as many keys as it can have.
    #[error("more than {limit} keys")]
    TooManyKeys { limit: u32 },
    /// Two rows, by their numbers from 1, agree in all the columns of the key. The second is the first row that agrees
    /// with an earlier one.
    #[error("rows {row1} and {row2} agree in the key")]
    NotAKey { row1: u32, row2: u32 },
    /// Out of memory.
    #[error("out of memory")]
    NoMemory,
}

impl From<NoMemory> for TableError {
    ghost from_gives = { λ _ e. e ≡ table.NoMemory };

    fn from(_refused: NoMemory) -> TableError {
        TableError::NoMemory
    }
}
