//! Rules in plain English, as people read them. No contract says these texts.
#![tactic(auto)]

mod guards;
mod names;
mod pieces;
mod places;
mod programs;
mod quotes;

pub use guards::rule_lines;
pub use names::{Named, Names};
pub use programs::program_text;
pub use quotes::put_quoted;
