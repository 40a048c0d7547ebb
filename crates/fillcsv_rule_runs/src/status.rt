//! How a run ends.

/// How the run of a rule over a stream ended.
#[derive(Clone, Copy, Debug, PartialEq, Eq)]
pub enum Status<'r> {
    /// All records were read, and what is made of them was written.
    Done,
    /// No column of the header has this name, which is read. Nothing was written.
    Missing(&'r [u8]),
    /// More than one column has this name. Nothing was written.
    Ambiguous(&'r [u8]),
    /// The field in this column, from 1, of the record of this number, from 0 and with the header counted, is not UTF-8.
    /// What is made of all records before it was written.
    NotText { record: u64, column: usize },
    /// A read failed, and the source counted it. What is made of some first records was written.
    ReadFault,
    /// A write failed, and the sink counted it. What was written ends before the text of all records that were read.
    WriteFault,
    /// Out of memory. What is made of some first records was written.
    NoMemory,
}

/// What a run leaves: how it ended, and the source.
#[derive(Drop)]
pub struct Ended<'r, S> {
    pub status: Status<'r>,
    pub source: S,
}
