//! What the user gives.
use crate::profile::Profile;
use fill_text::Text;

/// Which constants a program may have.
#[derive(Clone, Copy, Debug, PartialEq, Eq)]
pub enum Constants {
    /// Any text that is not empty.
    Any,
    /// Texts of separators alone: characters that are neither letters nor digits.
    Separators,
}

/// The bounds of the grammar, and what its programs cost.
#[derive(Clone, Copy, Debug, PartialEq, Eq)]
pub struct Settings {
    /// How many lookups may stand inside each other, no more than the profile allows.
    pub depth: u8,
    pub constants: Constants,
    pub profile: Profile,
}

/// The most examples that are learned from together.
pub const MOST_EXAMPLES: usize = 64;

/// The most characters of an example's text. No constant has more.
pub const MOST_CHARACTERS: usize = 100;

/// The most programs of a branch that are asked for together.
pub const MOST_PROGRAMS: u32 = 20;

/// What a row's output cell shall be.
#[derive(Debug, Drop)]
pub struct Example {
    /// The row, from 1.
    pub row: u32,
    pub text: Text,
}

/// A change of the examples.
#[derive(Debug, Drop)]
pub enum Edit {
    /// Gives a row that has no example one.
    Add { row: u32, text: Text },
    /// Replaces the text of a row's example.
    Correct { row: u32, text: Text },
    /// Takes a row's example away.
    Retract { row: u32 },
    /// Takes all examples away.
    Clear,
}
