//! Why a session file has no script.
ghost use Rattle.std.specs.Prelude.{◌≡◌};
ghost use Rattle.fill_script.specs.declared.error.ScriptError.TheVariants as error;

use fill_text::NoMemory;
use thiserror::Error;

/// Why a session file has no script. Lines are its records, which count from 1.
#[derive(Clone, Copy, Debug, PartialEq, Eq, Error)]
pub enum ScriptError {
    /// The file has more lines than a session can have.
    #[error("more than {limit} records")]
    TooManyRecords { limit: u32 },
    /// A line has a field that is not UTF-8.
    #[error("record {number} is not UTF-8")]
    NotUtf8 { number: u32 },
    /// A line has no form of its section.
    #[error("record {number} is not understood")]
    BadRecord { number: u32 },
    /// An earlier line said the same kind of thing, of which a session has one.
    #[error("record {number} comes again")]
    Again { number: u32 },
    /// No line before `begin` names the sheet.
    #[error("no sheet")]
    MissingSheet,
    /// No line before `begin` names the input columns.
    #[error("no inputs")]
    MissingInputs,
    /// No line is `begin`.
    #[error("no begin")]
    MissingBegin,
    /// Out of memory.
    #[error("out of memory")]
    NoMemory,
}

impl From<NoMemory> for ScriptError {
    ghost from_gives = { λ _ e. e ≡ error.NoMemory };

    fn from(_refused: NoMemory) -> ScriptError {
        ScriptError::NoMemory
    }
}
