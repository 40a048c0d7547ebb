//! Streams: bytes that are read once from front to end, and their records' reader.
#![tactic(auto)]

mod filter;
mod fronted;
mod memory_source;
mod record_stream;
mod source;
mod std_source;
mod tap;
mod watch;

pub use filter::{Ending, Filter, Unmade, filter_records, flush};
pub use fronted::Fronted;
pub use memory_source::MemorySource;
pub use record_stream::{Broken, RecordStream};
pub use source::Source;
pub use std_source::StdSource;
pub use tap::{Start, Tap};
pub use watch::{Cell, Counts, Watch};

#[cfg(test)]
mod tests;
