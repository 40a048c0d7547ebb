//! What a stream is to all code above.
ghost use Rattle.std.specs.Prelude.{◌≡◌, ℕ, ◌≤◌, List, Option, OnOk, OnErr};
ghost use Rattle.std.specs.Io.{ReadsAtMost};
ghost use Rattle.std.specs.Io.KnownBytes.{ReadConsumes};
ghost use Rattle.fill_edge.specs.Outside.{Rose};

use fill_edge::Failed;

/// Bytes that are read once, from front to end.
///
/// A count stands still at `u64::MAX`.
pub trait Source {
    /// The bytes still to come, where the source tells them.
    ghost left: { Self → Option (List ℕ) };

    /// All bytes of what is read, also those that were given, where it tells them and can be read again.
    ghost whole: { Self → Option (List ℕ) };

    /// How many reads failed so far.
    ghost faults: { Self → ℕ };

    /// Puts the next bytes at the front of the buffer, and answers how many: none only at the end or
    /// where there is no room.
    fn read(&mut self, buf: &mut [u8]) -> Result<usize, Failed>
        ensures bound { ReadsAtMost result buf.new }
        ensures bytes { ReadConsumes (left self.old) (left self.new) result buf.new }
        ensures whole { whole self.new ≡ whole self.old }

        ensures later { faults self.old ≤ faults self.new }
        ensures given { OnOk result (faults self.new ≡ faults self.old) }
        ensures failed { OnErr result (Rose (faults self.old) (faults self.new)) };
}
