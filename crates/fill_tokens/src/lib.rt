//! Tokens, sequences of tokens and places in a text.
//!
//! A place names a position of a text by what stands before and after it, so that the same place names a like
//! position of another text. The notions are those of Gulwani, "Automating String Processing in Spreadsheets using
//! Input-Output Examples" (POPL 2011), section 3: there tokens, token sequences and positions.
#![tactic(auto)]

mod grammar;
mod kind;
pub mod laws;
mod place;
mod prices;
mod seq;
mod spans;
mod token;
mod token_set;
mod value;

pub use grammar::is_place;
pub use kind::{Kind, RunClass};
pub use place::Place;
pub use prices::Prices;
pub use seq::Seq;
pub use spans::{left_match, right_match, span, span_back};
pub use token::{TOKEN_COUNT, Token, token_at};
pub use token_set::TokenSet;
pub use value::{match_count, place_value};
