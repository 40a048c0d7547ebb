//! What sees the records while they are filtered.

/// What a text shows in the place that a filter fills.
#[derive(Clone, Copy, Debug, PartialEq, Eq)]
pub enum Cell {
    /// What the record has there, or nothing.
    Left,
    /// A value of the filter's.
    Filled,
}

/// What sees each record that was filtered.
pub trait Watch {
    /// Sees one more record, whose text shows this.
    fn see(&mut self, cell: Cell);
}

/// How many records were filtered, and in how many of them a value was put. A count stands still at `u64::MAX`.
#[derive(Clone, Copy, Debug, PartialEq, Eq)]
pub struct Counts {
    pub rows: u64,
    pub filled: u64,
}

impl Counts {
    /// Nothing is counted yet.
    pub fn new() -> Counts {
        Counts { rows: 0, filled: 0 }
    }
}

impl Watch for Counts {
    fn see(&mut self, cell: Cell) {
        self.rows = self.rows.saturating_add(1);
        if cell == Cell::Filled {
            self.filled = self.filled.saturating_add(1);
        }
    }
}
