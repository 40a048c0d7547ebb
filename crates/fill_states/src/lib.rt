//! What is told of a row: how its answer is known, and whether there is one.
#![tactic(auto)]

mod row_state;

pub use row_state::RowState;
