//! Blocks of a long sheet: some of its rows as a sheet of their own, with a session over them.
//!
//! What is learned and answered over a block is what is learned and answered over the whole sheet, which need not stand in
//! memory: contracts are said for each sheet of which the block has some rows.
#![tactic(auto)]

mod block;
mod numbered;
mod part;
mod writing;

pub use block::Block;
pub use numbered::{Numbered, Rows};
