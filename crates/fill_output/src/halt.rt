//! Why a report is not whole.
use fill_text::NoMemory;

/// Why a report is not whole.
#[derive(Clone, Copy, Debug, PartialEq, Eq)]
pub enum Halt {
    /// A write failed.
    Fault,
    /// Out of memory.
    NoMemory,
}

impl From<NoMemory> for Halt {
    ghost use Rattle.std.specs.Prelude.{◌≡◌};
    ghost use Rattle.fill_output.specs.declared.halt.Halt.TheVariants as halt;

    ghost from_gives = { λ _ halted. halted ≡ halt.NoMemory };

    fn from(_refused: NoMemory) -> Halt {
        Halt::NoMemory
    }
}
