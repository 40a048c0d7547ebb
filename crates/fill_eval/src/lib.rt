//! What programs give on a row of a sheet: the values of trees, guards, and conditional programs.
//!
//! The meaning of programs is that of Gulwani, "Automating String Processing in Spreadsheets using Input-Output
//! Examples" (POPL 2011), section 3, and of lookups that of Singh and Gulwani, "Learning Semantic String
//! Transformations from Examples" (PVLDB 5(8), 2012), section 4.
#![tactic(auto)]

mod guard;
mod lookup;
mod piece;
mod value;

pub use guard::{
    guard_holds, guard_reads_inputs, literal_holds, switch_reads_inputs, switch_value,
};
pub use lookup::{found_row, input_cell, table_cell};
pub use piece::Piece;
pub use value::{atom_value, program_value, source_value};
