//! Sheets: the rows of a CSV file in chosen columns, and the records of reports.
#![tactic(auto)]

mod columns;
mod error;
pub mod laws;
mod reading;
mod report;
mod row;
mod sheet;
mod text;

pub use columns::{LAST_COLUMN, MOST_INPUTS};
pub use error::SheetError;
pub use report::put_record;
pub use sheet::{MOST_RECORDS, MOST_ROWS, Sheet};
pub use text::{push_end, push_field, push_sep};
