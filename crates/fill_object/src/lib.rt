//! The least program of a graph that answers otherwise on a row than was said.
//!
//! The graphs are those of Gulwani, "Automating String Processing in Spreadsheets using Input-Output Examples" (POPL
//! 2011), section 4, and a program that answers otherwise is what the user is shown of a doubtful row there (section 5.2);
//! the lookups are those of Singh and Gulwani, "Learning Semantic String Transformations from Examples" (PVLDB 5(8), 2012).
#![tactic(auto)]

mod atoms;
mod bounds;
mod chain;
mod costs;
mod edges;
mod graph;
mod guide;
mod memo;
mod outs;
mod rests;
mod rivals;
mod row;
mod rows;
mod search;
mod sets;
mod sources;
mod spots;
mod valued;
mod wanted;

pub use graph::{Objection, guide_of, object, object_within};
pub use guide::Guide;
pub use row::OnRow;
