//! Rows of bits.
ghost use Rattle.std.specs.Prelude.{◌≡◌, ◌↔◌, ◌+◌, ◌*◌, ◌/◌, ◌==◌, ◌<◌, ◌≤◌, ℕ, length, false, IfOk, IsTrue};
ghost use Rattle.std.specs.Int.{bit_at};
ghost use Rattle.fill_meet.specs.Bits.{HasRoom, IsBit, IsNextBit, IsPlace, IsPutBit};

use fill_text::NoMemory;
use std::alloc::Global;

/// Rows of bits, each of the same count of words.
#[derive(Drop)]
pub(crate) struct Bits {
    pub(crate) words: Vec<u64>,
    pub(crate) per_row: usize,
}

impl Bits {
    /// Rows without a bit.
    pub(crate) fn new(alloc: Global, rows: usize, columns: usize) -> Result<Bits, NoMemory>
        ensures none { IfOk result (λ b. (u v : ℕ) → IsBit b u v → ⊥) }
        ensures room { IfOk result (HasRoom rows columns) }
    {
        let per_row = columns / 64 + 1;
        let Some(count) = rows.checked_mul(per_row) else {
            return Err(NoMemory);
        };
        let words = vec![in alloc; 0; count]?;
        Ok(Bits { words, per_row })
    }

    /// The bit of the row at the column.
    pub(crate) fn has(&self, row: usize, column: usize) -> bool
        requires { IsPlace row column self.now }
        ensures { IsTrue result ↔ IsBit self.now row column }
    {
        is_set(self.words[row * self.per_row + column / 64], column % 64)
    }

    /// The first column from a given one on where the row has a bit, or the end where it has none before that.
    pub(crate) fn next(&self, row: usize, from: usize, end: usize) -> usize
        requires places { (v : ℕ) → v < end → IsPlace row v self.now }
        requires order { from ≤ end }
        ensures { IsNextBit self.now row from end result }
    {
        let mut column = from;
        while column < end && !self.has(row, column) {
            column += 1;
        }
        column
    }

    /// Sets the bit of the row at the column.
    pub(crate) fn put(&mut self, row: usize, column: usize)
        requires { IsPlace row column self.old }
        ensures { IsPutBit row column self.old self.new }
    {
        self.words[row * self.per_row + column / 64] |= 1 << (column % 64);
    }

    /// Whether the row has a bit.
    pub(crate) fn has_some(&self, row: usize) -> bool
        requires { row * self.now.per_row + self.now.per_row ≤ length self.now.words.items }
        ensures { result ≡ false → (v : ℕ) → v / 64 < self.now.per_row → IsBit self.now row v → ⊥ }
    {
        for k in 0..self.per_row {
            if self.words[row * self.per_row + k] != 0 {
                return true;
            }
        }
        false
    }
}

/// The bit of the word.
fn is_set(word: u64, i: usize) -> bool
    requires { i < 64 }
    ensures { result ≡ (bit_at word i == 1) }
{
    (word >> i) & 1 == 1
}
