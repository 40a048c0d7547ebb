//! A dialogue about the cells in doubt of a sheet: questions on a sink, answers from a source, and what they teach.
#![tactic(auto)]

mod dialogue;
mod lines;
mod questions;
mod reasons;
mod replies;
mod say;

pub use dialogue::{Topic, ask};
pub use reasons::refused_text;
