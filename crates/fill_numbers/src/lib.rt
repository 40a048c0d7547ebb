//! Numbers and columns in words: what the fields of a session file, of a saved rule and the words of a command line spell.
#![tactic(auto)]

mod columns;
mod number;

pub use columns::{columns_in, is_among, number_between};
pub use number::number_in;
