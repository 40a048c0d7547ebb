//! Graphs without the nodes that lie on no walk from the first node to the last one.
#![tactic(auto)]

pub mod laws;
mod marks;
pub mod trim;
