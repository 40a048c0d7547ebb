//! What sets and graphs of programs answer on a row, and whether a graph's programs differ there.
//!
//! A row whose programs differ is to be looked at by the user: the flags are those of Gulwani, "Automating String
//! Processing in Spreadsheets using Input-Output Examples" (POPL 2011), section 5.2.
#![tactic(auto)]

mod answers;
mod carry;
mod conditions;
mod cuts;
mod graph;
mod hops;
mod listing;
mod memo;
mod numbered;
mod pass;
mod positions;
mod read;
mod row;
mod rows;
mod sets;
mod shaped;
mod shapes;
mod sides;
mod some;
mod spots;
mod tokens;
mod valued;

pub use graph::{doubt, doubt_with};
pub use listing::{ValueSet, values};
pub use shapes::Shapes;
