//! Why bytes are not read.
use thiserror::Error;

/// Why a part was not read: out of memory, or the number of bytes that were left at the first wrong one.
#[derive(Clone, Copy, Debug, PartialEq, Eq)]
pub(crate) enum ReadError {
    NoMemory,
    Bad(usize),
}

/// Why bytes are no conditional program.
#[derive(Clone, Copy, Debug, PartialEq, Eq, Error)]
pub enum ReadProgramError {
    /// The bytes are no text of a conditional program; `at` is the length of their longest prefix that begins one.
    #[error("no conditional program after {at} bytes")]
    Bad { at: usize },
    /// Out of memory.
    #[error("out of memory")]
    NoMemory,
}
