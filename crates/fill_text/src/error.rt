//! Out of memory, and bytes that are no text.
ghost use Rattle.std.specs.Prelude.{◌≡◌};
ghost use Rattle.fill_text.specs.declared.error.TextError.TheVariants as text;

use std::alloc::{AllocError, AllocFailed};
use thiserror::Error;

/// Out of memory: an allocation was refused.
///
/// A call that answers it leaves what it was lent for writing as it was.
#[derive(Clone, Copy, Debug, PartialEq, Eq, Error)]
#[error("out of memory")]
pub struct NoMemory;

impl From<AllocError> for NoMemory {
    fn from(_refused: AllocError) -> NoMemory {
        NoMemory
    }
}

impl<T: Drop> From<AllocFailed<T>> for NoMemory {
    fn from(_refused: AllocFailed<T>) -> NoMemory {
        NoMemory
    }
}

/// Why bytes were not taken as a text or a name.
#[derive(Clone, Copy, Debug, PartialEq, Eq, Error)]
pub enum TextError {
    /// The bytes are not UTF-8; `at` is the length of their longest prefix that is.
    #[error("not UTF-8 after {at} bytes")]
    NotUtf8 { at: usize },
    /// Out of memory.
    #[error("out of memory")]
    NoMemory,
}

impl From<NoMemory> for TextError {
    ghost from_gives = { λ _ e. e ≡ text.NoMemory };

    fn from(_refused: NoMemory) -> TextError {
        TextError::NoMemory
    }
}
