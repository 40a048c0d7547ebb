//! The pieces that tokens span in a text, found in one reading of it for each token.
//!
//! All that counts matches or cuts of token sequences, at many positions or for many sequences, starts from them: the
//! pieces of a sequence are those of its tokens, joined where one ends and the next one begins.
#![tactic(auto)]

mod pieces;
mod runs;
mod spans;

pub use pieces::Pieces;
pub use runs::classes;
pub use spans::{Spans, pieces_of};
