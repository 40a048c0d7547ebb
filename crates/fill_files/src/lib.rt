//! Files that are saved, and standard input among the files that are read.
#![tactic(auto)]

mod folder;
mod input;
mod memory;
mod replacing;
mod store;

pub use folder::FolderStore;
pub use input::InputCabinet;
pub use memory::MemoryStore;
pub use store::Store;
