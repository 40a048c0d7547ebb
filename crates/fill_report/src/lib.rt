//! The report of a session: what its entries write, record by record.
//!
//! A report begins with the additions of the texts that the sheet's output column gives, and goes on with the entries of
//! a script. What a question writes follows from the examples that the edits before it leave.
#![tactic(auto)]

mod best;
mod edits;
mod entries;
pub mod laws;
mod moves;
mod objector;
mod queries;
mod report;
mod rows;
mod tasks;

pub use report::write_report;

#[cfg(test)]
mod tests;
