//! The graph of the programs that stand in two graphs.
//!
//! Two graphs are intersected as in Gulwani, "Automating String Processing in Spreadsheets using Input-Output Examples"
//! (POPL 2011), section 4.3: the product of their edges, each pair with the atoms that stand in both edges' sets. Sets with
//! lookups are intersected as in Singh and Gulwani, "Learning Semantic String Transformations from Examples" (PVLDB 5(8),
//! 2012), section 4.
#![tactic(auto)]

mod apart;
mod bits;
mod copy;
mod few;
mod groups;
mod holders;
mod index;
mod labels;
mod makes;
mod mates;
pub mod meet;
mod memo;
mod places;
mod product;
mod rows;
mod runs;
mod sets;
mod ties;
mod verdicts;
mod within;
