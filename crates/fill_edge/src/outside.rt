//! What files and output are to all code above.
ghost use Rattle.std.specs.Prelude.{◌≡◌, ℕ, ◌<◌, ◌≤◌, List, Option, length, take, IfOk, OnOk, OnErr, IsErrOf};
ghost use Rattle.std.specs.Io.KnownBytes.{Appends, Keeps};
ghost use Rattle.fill_edge.specs.Outside.{Files, Rose, counted, NoneFell, NoneChanged, GivesPiece, IsMissing};

use thiserror::Error;

/// The most bytes that a file may have which is kept whole, 16 MiB.
pub const LARGEST_FILE: usize = 16_777_216;

/// The last place at which a file is read, and so the most bytes of a sheet: 1 TiB.
pub const LAST_PLACE: usize = 1_099_511_627_776;

/// A write failed, and the sink counted it.
#[derive(Clone, Copy, Debug, PartialEq, Eq, Error)]
#[error("the write failed")]
pub struct Failed;

/// Why a read gave nothing.
#[derive(Clone, Copy, Debug, PartialEq, Eq, Error)]
pub enum ReadRefusal {
    /// The read failed, and the cabinet counted it.
    #[error("the read failed")]
    Failed,
    /// The cabinet tells its files, and the name is not among them.
    #[error("no such file")]
    Missing,
}

/// Files by name, which nobody writes.
///
/// A contract sees a name as its bytes. A count stands still at `u64::MAX`.
pub trait Cabinet {
    /// The bytes of each name's file, where the cabinet tells them.
    ghost files: { Self → Files };

    /// How many reads of a name failed so far; an implementation may count other names' in as well.
    ghost faults: { Self → List ℕ → ℕ };

    /// How many bytes all reads gave so far.
    ghost given: { Self → ℕ };

    /// Puts bytes of the named file, from the place `at` on, at the front of the buffer, and
    /// answers how many. They may be fewer than there is room for.
    fn read(&mut self, name: &str, at: u64, buf: &mut [u8]) -> Result<usize, ReadRefusal>
        requires room { 0 < length buf.old }
        requires place { at ≤ LAST_PLACE }

        // The bytes are those of the map, which never changes.
        ensures bound { IfOk result (λ n. n ≤ length buf.old) }
        ensures piece { IfOk result (λ n. GivesPiece (files self.old) name.now at n buf.new) }
        ensures files { files self.new ≡ files self.old }

        ensures given { IfOk result (λ n. given self.new ≡ counted (given self.old) n) }
        ensures refused { OnErr result (given self.new ≡ given self.old) }
        ensures grew { given self.old ≤ given self.new }

        ensures later { NoneFell (faults self.old) (faults self.new) }
        ensures taken { OnOk result (NoneChanged (faults self.old) (faults self.new)) }
        ensures failed { IsErrOf result ReadRefusal.Failed → Rose (faults self.old name.now) (faults self.new name.now) }
        ensures missing { IsErrOf result ReadRefusal.Missing → IsMissing (files self.old) name.now }
        ensures unchanged { IsErrOf result ReadRefusal.Missing → NoneChanged (faults self.old) (faults self.new) };
}

/// Output, which grows at its end.
///
/// A count stands still at `u64::MAX`.
pub trait Sink {
    /// The bytes that were written, where the sink tells them.
    ghost written: { Self → Option (List ℕ) };

    /// How many writes failed so far.
    ghost faults: { Self → ℕ };

    /// Appends bytes from the front of the piece, and answers how many.
    fn write(&mut self, piece: &[u8]) -> Result<usize, Failed>
        requires { 0 < length piece.now }

        ensures bound { IfOk result (λ n. (0 < n) × (n ≤ length piece.now)) }
        ensures appended { IfOk result (λ n. Appends (written self.old) (written self.new) (take n piece.now)) }
        ensures kept { OnErr result (Keeps (written self.old) (written self.new)) }

        ensures later { faults self.old ≤ faults self.new }
        ensures taken { OnOk result (faults self.new ≡ faults self.old) }
        ensures failed { OnErr result (Rose (faults self.old) (faults self.new)) };
}
