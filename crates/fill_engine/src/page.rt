//! What a program writes.
ghost use Rattle.std.specs.Prelude.{◌≡◌, []};

use fill_edge::{Failed, Sink};
use std::alloc::Global;

/// Output in memory that grows as it is written. A write fails only where memory runs out.
#[derive(Drop)]
pub struct Page {
    /// All that was written.
    pub bytes: Vec<u8>,
    /// How many writes failed.
    pub faults: u64,
}

impl Page {
    /// No output.
    pub fn new(alloc: Global) -> Page
        ensures bytes { result.bytes.items ≡ [] }
        ensures faults { result.faults ≡ 0 }
    {
        Page {
            bytes: Vec::new(alloc),
            faults: 0,
        }
    }
}

impl Sink for Page {
    ghost use Rattle.std.specs.Prelude.{Some};

    ghost written = { λ page. Some page.bytes.items };

    ghost faults = { λ page. page.faults };

    fn write(&mut self, piece: &[u8]) -> Result<usize, Failed> {
        match self.bytes.extend_from_slice(piece) {
            Ok(()) => Ok(piece.len()),
            Err(_) => {
                self.faults = self.faults.saturating_add(1);
                Err(Failed)
            }
        }
    }
}
