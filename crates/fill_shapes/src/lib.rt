//! The shapes of texts, and how values of places are carried over from a shape to its texts.
//!
//! What tokens span in a text depends only on where runs of letters of one kind and runs of digits begin and end, and on
//! which other characters stand between. So what is found in a shape serves each text that has it.
#![tactic(auto)]

pub mod laws;
mod marks;
mod shape;

pub use shape::Shape;
