//! Saved rules: a conditional program with the columns that it reads and fills, as a small CSV file.
#![tactic(auto)]

mod error;
mod form;
pub mod laws;
mod lines;
mod lookups;
mod read;
mod rule;
mod save;
mod value;

pub use error::RuleError;
pub use read::read_rule;
pub use rule::{Names, Rule};
pub use save::rule_text;
pub use value::cells_value;
