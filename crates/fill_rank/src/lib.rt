//! The least program that stands in a graph: by the cost, and then by the order of programs.
//!
//! The graphs, and the search for the program of least cost in them, are those of Gulwani, "Automating String Processing
//! in Spreadsheets using Input-Output Examples" (POPL 2011), section 4; the lookups are those of Singh and Gulwani,
//! "Learning Semantic String Transformations from Examples" (PVLDB 5(8), 2012).
#![tactic(auto)]

mod bounds;
mod chain;
mod graph;
mod memo;
mod pick;
mod rows;
mod sets;

pub use graph::least;
