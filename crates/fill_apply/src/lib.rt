//! Saved programs: the conditional program that a report shows, on the rows of another sheet.
#![tactic(auto)]

mod columns;
mod error;
mod laws;
mod record;
mod report;
mod saved;

pub use error::ApplyError;
pub use laws::saved_programs_are_one;
pub use record::{applied_record, apply_record};
pub use saved::{open_switch, open_switch_by};
