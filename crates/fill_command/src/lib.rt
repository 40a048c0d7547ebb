//! The run of `flashfill`: a session replayed, a saved program applied, the keys of a table.
#![tactic(auto)]

mod applied;
mod apply;
mod command;
mod ending;
mod keyed;
mod keys;
mod replay;

pub use command::run;
pub use ending::Ending;
