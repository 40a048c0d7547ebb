//! Why a report gives no program.
ghost use Rattle.std.specs.Prelude.{◌≡◌};
ghost use Rattle.fill_apply.specs.declared.error.ApplyError.TheVariants as error;

use fill_text::NoMemory;
use thiserror::Error;

/// Why a report gives no conditional program for the rows of a sheet.
#[derive(Clone, Copy, Debug, PartialEq, Eq, Error)]
pub enum ApplyError {
    /// No record shows one, or the last that does shows that there was none.
    #[error("no switch")]
    NoSwitch,
    /// The text is none of a conditional program; `at` is the length of its longest prefix that begins one.
    #[error("switch is wrong at byte {at}")]
    BadSwitch { at: usize },
    /// The first column that a guard reads and that is no input.
    #[error("column {column} is no input")]
    NoInput { column: u32 },
    /// Out of memory.
    #[error("out of memory")]
    NoMemory,
}

impl From<NoMemory> for ApplyError {
    ghost from_gives = { λ _ e. e ≡ error.NoMemory };

    fn from(_refused: NoMemory) -> ApplyError {
        ApplyError::NoMemory
    }
}
