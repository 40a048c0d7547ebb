//! What the sources of the grammar give on one row of a sheet: their texts, and for each text the set of all sources that
//! give it, with the sets of the places of its positions.
//!
//! A text stands for all that give it: the cells of the row, and the lookups of Singh and Gulwani, "Learning Semantic String
//! Transformations from Examples" (PVLDB 5(8), 2012), section 4, of which each set is made of the sets of the sources that
//! give the cells of the key.
//!
//! A text's places depend on the text alone, so the sets of them that one row made serve the next one (`PlaceMemory`).
#![tactic(auto)]

mod found;
mod memo;
mod memory;
mod parts;
mod places;
mod row;
mod row_texts;
mod sources;
mod spots;
mod texts;

pub use memory::PlaceMemory;
pub use row::OnRow;
pub use row_texts::RowTexts;
pub use spots::Spot;
