//! Session files: which files a session reads, its settings, and what it is asked for.
#![tactic(auto)]

mod entries;
mod error;
pub mod laws;
mod line;
mod opening;
mod script;
mod statement;

pub use error::ScriptError;
pub use script::{Entry, MOST_LINES, Script, TableLine};
