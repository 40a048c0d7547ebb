//! What the words of the command line ask of `fillcsv`.
#![tactic(auto)]

mod asked;
mod choices;
mod columns;
mod conflicts;
mod examples;
mod keys;
pub mod laws;
mod options;
mod reading;
mod refusal;
mod tables;

pub use asked::{Asked, Depth, Lookup, Order, ProfileName, Saved, Target, Typed};
pub use reading::read_words;
pub use refusal::Refusal;
