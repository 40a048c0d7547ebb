//! The tables in which rules may look up, read from the files that words name.
#![tactic(auto)]

mod file;
mod line;
mod lines;
mod tables;

pub use file::open_file;
pub use line::{Line, refused};
pub use tables::open_tables;
