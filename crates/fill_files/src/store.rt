//! What a place for files is to all code above.
ghost use Rattle.std.specs.Prelude.{◌≡◌, ℕ, ◌≤◌, OnOk, OnErr};
ghost use Rattle.fill_edge.specs.Outside.{Rose};
ghost use Rattle.fill_files.specs.Saves.{SavedFiles, with_file};

use fill_edge::Failed;

/// A place where files are saved.
///
/// A contract sees a name as its bytes. A count stands still at `u64::MAX`.
pub trait Store {
    /// The files that were saved, the last one first, where the store tells them.
    ghost saved: { Self → SavedFiles };

    /// How many saves failed so far.
    ghost faults: { Self → ℕ };

    /// Saves bytes as the file of a name, in place of one that is there.
    fn save(&mut self, name: &str, bytes: &[u8]) -> Result<(), Failed>
        ensures ok { OnOk result (saved self.new ≡ with_file name.now bytes.now (saved self.old)) }
        ensures err { OnErr result (saved self.new ≡ saved self.old) }

        ensures later { faults self.old ≤ faults self.new }
        ensures given { OnOk result (faults self.new ≡ faults self.old) }
        ensures failed { OnErr result (Rose (faults self.old) (faults self.new)) };
}
