//! The records of a CSV file, which sheets, tables, sessions and saved reports are read from.
#![tactic(auto)]

mod laws;
mod reading;
mod record;
mod utf8;

pub use laws::records_are_few;
pub use reading::{first_records, read_records};
pub use record::Record;
pub use utf8::{first_bad, is_text};
