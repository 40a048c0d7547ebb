//! Spaces: all programs that explain some examples, each space under a number.
//!
//! A space is a graph of one arena. The space of one example is built, that of more is an intersection, and what the user
//! sees is the least program of a space: Gulwani, "Automating String Processing in Spreadsheets using Input-Output
//! Examples" (POPL 2011), section 4.
#![tactic(auto)]

mod built;
mod carried;
mod ground;
pub mod laws;
mod maker;
mod met;
mod space;
mod spaces;
mod weights;

pub use fill_doubt::Shapes;
pub use fill_object::{Guide, Objection};
pub use ground::Ground;
pub use space::Space;
pub use spaces::Spaces;
