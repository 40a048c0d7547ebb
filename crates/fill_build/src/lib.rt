//! The graph of all programs that explain one example.
//!
//! It is the graph of Gulwani, "Automating String Processing in Spreadsheets using Input-Output Examples" (POPL 2011),
//! section 4.2: a node for each position of the example's text, and on the edge between two of them everything that gives
//! the piece between. The lookups are those of Singh and Gulwani, "Learning Semantic String Transformations from Examples"
//! (PVLDB 5(8), 2012), section 4.
#![tactic(auto)]

mod atoms;
mod constants;
mod edges;
mod graph;
mod hits;
mod node;
mod piece;
mod uncut;

pub use graph::{build, build_with};
