//! The run of `fillcsv`: a sheet with one of its columns filled.
#![tactic(auto)]

mod columns;
mod command;
mod desk;
mod explain;
mod file;
mod fill;
mod head;
pub mod laws;
mod lines;
mod near;
mod opening;
mod saving;
mod stop;
mod told;
mod typed;

pub use command::{Folder, Ran, run};
pub use stop::{MEMORY_LINE, say};
