//! Lookup tables: the rows of CSV files, and keys, by which a row is found.
#![tactic(auto)]

mod error;
pub mod laws;
mod order;
mod reading;
mod table;
mod tables;

pub use error::TableError;
pub use reading::{MOST_FIELDS, MOST_TABLE_ROWS};
pub use table::MOST_KEYS;
pub use tables::{MOST_TABLES, Tables};
