//! Why steps stop.

/// Why steps that read files stop. What a refused file is told by is up to the program.
#[derive(Debug, Drop)]
pub enum Stop<R> {
    /// The file of this name could not be read.
    Unread(String),
    /// A file is refused, for this reason.
    Refused(R),
    /// Out of memory.
    NoMemory,
}
