//! The minimal keys of a table: the smallest sets of columns that tell all of its rows apart.
//!
//! They are the nonredundant keys of the relational model (Codd, "A Relational Model of Data for Large Shared Data Banks",
//! CACM 13(6), 1970, section 1.3), as far as they have three columns at most.
#![tactic(auto)]

mod error;
mod keys;
mod ranks;

pub use error::KeysError;
pub use keys::keys_of;
