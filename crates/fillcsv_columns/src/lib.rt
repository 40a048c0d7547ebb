//! The columns that words name, and records with another field in one column.
#![tactic(auto)]

mod choice;
mod column;
mod error;
mod field;

pub use choice::{Choice, choose, choose_new};
pub use column::column_of;
pub use error::{ChoiceError, ColumnError};
pub use field::{fields_of, with_field};
