//! All places of the grammar that name a position of a text.
//!
//! The search for programs starts from them: Gulwani, "Automating String Processing in Spreadsheets using Input-Output
//! Examples" (POPL 2011), section 4.2, where they are the set of position expressions that one position generates.
#![tactic(auto)]

mod entry;
mod index;
mod lefts;
mod list;
mod marks;
mod pair;
mod rights;

pub use index::{PlaceIndex, places_of};
