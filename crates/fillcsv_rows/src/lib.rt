//! Sheets with one of their columns filled: what is learned from it, and what is written of a row.
#![tactic(auto)]

mod clash;
mod form;
mod given;
mod learning;
mod rows;
mod summary;

pub use clash::clash_of;
pub use form::Form;
pub use given::typed_at;
pub use learning::{Refused, learn};
pub use rows::{cell_state, filled_fields, head_fields};
pub use summary::{Counts, Summary};
