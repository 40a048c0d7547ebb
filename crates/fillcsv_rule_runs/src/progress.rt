//! The progress of a long run.
use crate::Status;
use crate::lines::{say_counts, say_rows, say_why};
use fill_edge::{Sink, WriteFault};
use fill_stream::{Cell, Counts, Watch};

/// After how many records a line is written.
const ROUND: u64 = 1_000_000;

/// Counts that write a line each million records. A failed write is passed over.
#[derive(Drop)]
pub(crate) struct Progress<'e, E: Sink> {
    counts: Counts,
    err: &'e mut E,
}

impl<'e, E: Sink> Progress<'e, E> {
    /// Nothing is counted yet.
    pub(crate) fn new(err: &'e mut E) -> Progress<'e, E> {
        Progress {
            counts: Counts::new(),
            err,
        }
    }

    /// Writes how many rows there were and how many of them were filled, or why the run ended before the stream did.
    pub(crate) fn end(self, status: Status<'_>) -> Result<(), WriteFault> {
        let Progress { counts, err } = self;
        match status {
            Status::Done => say_counts(err, counts),
            why => say_why(err, why),
        }
    }
}

impl<E: Sink> Watch for Progress<'_, E> {
    fn see(&mut self, cell: Cell) {
        self.counts.see(cell);
        let rows = self.counts.rows;
        if rows % ROUND == 0 {
            let _ = say_rows(self.err, rows);
        }
    }
}
