//! The notation read back.
mod bytes;
mod error;
mod guards;
mod ints;
mod numbers;
mod places;
mod programs;
mod scalar;
mod seqs;
mod sources;
mod switch;
mod texts;
mod tokens;

pub use error::ReadProgramError;
pub use switch::read_switch;
