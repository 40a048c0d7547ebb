//! A pool of slices, which never move.
//!
//! What is put into a pool is copied once, behind what is there, into chunks of memory that are never moved or enlarged.
//! So a set that is made once and read often costs its items and an entry of a table, and no list of its own.
#![tactic(auto)]

mod block;
mod chunk;
mod numbers;
mod pool;

pub use numbers::{PoolMark, Span};
pub use pool::Pool;

#[cfg(test)]
mod tests;
