//! Filling a sheet of any length: its file is gone over block by block, and of its rows only those of the examples and of
//! one block stand in memory.
#![tactic(auto)]

pub mod laws;
mod learning;
mod reading;
mod scan;
mod sheet;
mod writing;

pub use learning::{Learned, learn};
pub use reading::MOST_LONG_RECORDS;
pub use scan::{Seen, first_bad};
pub use sheet::{Basis, LongSheet};
pub use writing::{Written, write};
