//! The guards that tell some rows of a sheet from others: the least one that holds on all rows inside and on no row
//! outside.
//!
//! They are the boolean classifiers of Gulwani, "Automating String Processing in Spreadsheets using Input-Output
//! Examples" (POPL 2011), section 4.4. There they are grown greedily; here the least guard of at most two literals is found
//! exactly.
//!
//! Each cell is read once for each token, and each sequence of one or two tokens, 651 with the first 26 tokens, is counted once in
//! each cell, in time linear in the cell. Of the literals that hold on all rows inside, six for each sequence and column, only the first
//! one for each set of rows outside is kept, as a number of 64 bits. So all but the counting takes at most the number of
//! these literals times that of the kept ones, and the pairs at most the square of the latter: simple steps on numbers.
//! After a literal that makes a guard alone nothing more is read or counted.
#![tactic(auto)]

mod candidates;
pub mod laws;
mod least;
mod mask;
mod pieces;
mod read;
mod sequences;

pub use least::guard;
