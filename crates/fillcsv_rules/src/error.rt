//! Why a file is no rule.
ghost use Rattle.std.specs.Prelude.{◌≡◌};
ghost use Rattle.fillcsv_rules.specs.declared.error.RuleError.TheVariants as error;

use fill_text::NoMemory;
use thiserror::Error;

/// Why a file's bytes are no rule.
#[derive(Clone, Copy, Debug, PartialEq, Eq, Error)]
pub enum RuleError {
    /// The first line, from 1, that no rule has there. A line after the last one counts as such.
    #[error("line {number} is wrong")]
    BadLine { number: usize },
    /// Out of memory.
    #[error("out of memory")]
    NoMemory,
}

impl From<NoMemory> for RuleError {
    ghost from_gives = { λ _ e. e ≡ error.NoMemory };

    fn from(_refused: NoMemory) -> RuleError {
        RuleError::NoMemory
    }
}
