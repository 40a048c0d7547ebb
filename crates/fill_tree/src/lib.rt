//! Programs as trees, and what the user gives: examples, edits and settings.
//!
//! The language of programs is that of Gulwani, "Automating String Processing in Spreadsheets using Input-Output
//! Examples" (POPL 2011), section 3, with the lookup of Singh and Gulwani, "Learning Semantic String Transformations
//! from Examples" (PVLDB 5(8), 2012), section 4.
#![tactic(auto)]

mod chain;
mod copy;
mod cost;
mod grammar;
mod guard;
pub mod laws;
mod order;
mod profile;
mod tree;
mod user;

pub use chain::Chain;
pub use fill_tokens::{Place, Prices, Seq, Token, TokenSet};
pub use grammar::{has_part, in_grammar, is_input, is_part};
pub use guard::{Case, Guard, Literal, Switch};
pub use profile::{Placing, Profile};
pub use tree::{Atom, Program, Select, Source};
pub use user::{Constants, Edit, Example, MOST_CHARACTERS, MOST_EXAMPLES, MOST_PROGRAMS, Settings};
