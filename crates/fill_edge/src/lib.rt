//! The outside of the product: a cabinet of files, a sink of bytes and a counter of steps.
#![tactic(auto)]

mod folder;
mod interruption;
pub mod laws;
mod memory_cabinet;
mod memory_sink;
mod outside;
mod reading;
mod steps;
mod stream;
mod writing;

pub use folder::FolderCabinet;
pub use memory_cabinet::MemoryCabinet;
pub use memory_sink::MemorySink;
pub use outside::{Cabinet, Failed, LARGEST_FILE, LAST_PLACE, ReadRefusal, Sink};
pub use reading::{ReadError, read_all};
pub use std::sync::ledger::Ledger;
pub use steps::Steps;
pub use stream::StdSink;
pub use writing::{WriteFault, write_all};

#[cfg(test)]
mod tests;
