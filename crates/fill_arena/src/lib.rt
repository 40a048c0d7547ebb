//! Shared sets of places, sources and atoms, and graphs of programs, under numbers.
//!
//! A graph stands for all programs that a walk over its edges spells: Gulwani, "Automating String Processing in
//! Spreadsheets using Input-Output Examples" (POPL 2011), section 4.2. The sets on its edges share what they list, and
//! the lookups in them are those of Singh and Gulwani, "Learning Semantic String Transformations from Examples" (PVLDB
//! 5(8), 2012), section 4. What a set or a graph names is older than it, so a number stands for the same as the arena
//! grows, and after a cut back to a mark that was taken later.
#![tactic(auto)]

mod arena;
mod copy;
mod entries;
mod entry;
mod hash;
mod holds;
mod index;
pub mod laws;
mod marks;
mod numbers;
mod order;
mod renumber;
mod same;
mod sized;

pub use arena::Arena;
pub use entry::{AtomItem, ConditionItem, Edge, Entry, SelectItem, SourceItem};
pub use hash::{hash_place, mix};
pub use numbers::{AtomSet, GraphId, Mark, PlaceSet, SourceSet};
