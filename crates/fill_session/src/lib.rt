//! Sessions: the examples that are present, their branches with guards and programs, and what these answer on rows.
#![tactic(auto)]

mod answer;
mod answers;
mod before;
mod branch;
mod branches;
mod candidates;
mod compaction;
mod edit;
mod error;
mod examples;
pub mod laws;
mod leads;
mod moves;
mod present;
mod reasons;
mod refusal;
mod session;
mod suggestion;

pub use answer::{Answer, State};
pub use branch::Branch;
pub use error::{EditError, Part};
pub use fill_space::{Objection, Shapes};
pub use fill_undo::{Done, Kind};
pub use moves::{Move, Reply};
pub use reasons::MOST_INPUT_CHARACTERS;
pub use session::Session;
pub use suggestion::Suggestion;
