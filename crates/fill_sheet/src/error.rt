//! Why a file is no sheet.
ghost use Rattle.std.specs.Prelude.{◌≡◌};
ghost use Rattle.fill_sheet.specs.declared.error.SheetError.TheVariants as sheet;

use fill_text::NoMemory;
use thiserror::Error;

/// Why a sheet was not read.
#[derive(Clone, Copy, Debug, PartialEq, Eq, Error)]
pub enum SheetError {
    /// The file has more records than a sheet can have.
    #[error("more than {limit} records")]
    TooManyRows { limit: u32 },
    /// A field that is read is not UTF-8, in the record of this number and this column, both from 1.
    #[error("the field in column {column} of record {number} is not UTF-8")]
    NotUtf8 { number: u32, column: u32 },
    /// Out of memory.
    #[error("out of memory")]
    NoMemory,
}

impl From<NoMemory> for SheetError {
    ghost from_gives = { λ _ e. e ≡ sheet.NoMemory };

    fn from(_refused: NoMemory) -> SheetError {
        SheetError::NoMemory
    }
}
