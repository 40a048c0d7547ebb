//! Which rows of tables the lookups of the grammar pick on a row of the sheet.
//!
//! The notion is that of the nodes that are reached from the input in Singh and Gulwani, "Learning Semantic String
//! Transformations from Examples" (PVLDB 5(8), 2012), section 4.
#![tactic(auto)]

mod rounds;
mod rows;
mod texts;

pub use rounds::reach;
pub use rows::{ReachedRow, ReachedRows};
