//! Why the keys of a table were not listed.
ghost use Rattle.std.specs.Prelude.{◌≡◌};
ghost use Rattle.fill_keys.specs.declared.error.KeysError.TheVariants as keys;

use fill_text::NoMemory;
use thiserror::Error;

/// Why the keys of a table were not listed.
#[derive(Clone, Copy, Debug, PartialEq, Eq, Error)]
pub enum KeysError {
    /// The table has this many columns, which are too many.
    #[error("the table has {width} columns, which are too many")]
    TooWide { width: u32 },
    /// Out of memory.
    #[error("out of memory")]
    NoMemory,
}

impl From<NoMemory> for KeysError {
    ghost from_gives = { λ _ e. e ≡ keys.NoMemory };

    fn from(_refused: NoMemory) -> KeysError {
        KeysError::NoMemory
    }
}
