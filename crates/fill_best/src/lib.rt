//! The first programs of a graph: by the cost, and then by the order of programs.
//!
//! The graphs, and the search for programs of least cost in them, are those of Gulwani, "Automating String Processing in
//! Spreadsheets using Input-Output Examples" (POPL 2011), section 4; the lookups are those of Singh and Gulwani, "Learning
//! Semantic String Transformations from Examples" (PVLDB 5(8), 2012).
#![tactic(auto)]

mod atoms;
mod costed;
mod first;
mod graph;
mod memo;
mod parts;
mod places;
mod plain;
mod rows;
mod sets;

pub use graph::best;
