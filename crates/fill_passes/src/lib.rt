//! A file of a cabinet that is gone over again and again, record by record, so that memory does not hold its bytes.
#![tactic(auto)]

mod file_reader;
mod measuring;
mod pass;
mod read_ahead;

pub use file_reader::{FileReader, Origin};
pub use measuring::measure;
pub use pass::Pass;
pub use read_ahead::ReadAhead;
