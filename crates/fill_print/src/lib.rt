//! The notation of programs, guards and conditional programs, in which a user reads them.
//!
//! It has no blanks but the one between two tokens and those inside of texts, and each tree has one spelling.
#![tactic(auto)]

mod guards;
mod laws;
mod notation;
mod pieces;
mod read;
mod trees;

pub use guards::{print_guard, print_switch};
pub use laws::{larger_sets_have_more_programs, spellings_differ};
pub use notation::Notation;
pub use read::{ReadProgramError, read_switch};
pub use trees::print_program;
