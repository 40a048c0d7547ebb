//! A history of accepted edits, along which one goes back and forth.
//!
//! It keeps whole states and makes none: a state is handed in by the call that replaces it, and handed back by the one
//! that goes to it.
#![tactic(auto)]

mod done;
mod history;
mod laws;

pub use done::{Done, Kind, Moved};
pub use history::History;
pub use laws::one_state_changes;
