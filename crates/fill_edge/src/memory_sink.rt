//! Output in memory, which tells everything.
ghost use Rattle.std.specs.Prelude.{◌≡◌, ◌∷◌, ◌++◌, ◌↔◌, ◌⊎◌, ◌<◌, ◌≤◌, [], length, Contains, IsErr, IfOk, OnOk, OnErr};
ghost use Rattle.fill_edge.specs.Outside.{counted};
ghost use Rattle.fill_edge.specs.Memory.{room_for, after_write};

use crate::{Failed, Sink};
use fill_text::NoMemory;
use std::alloc::Global;
use std::marker::Model;

/// Output in memory of at most `capacity` bytes, for tests and for output that is used on the way.
///
/// A write takes at most `most` bytes, so that a small number shows what many short writes do. All
/// memory that the writes use is taken by `new`.
#[derive(Drop)]
pub struct MemorySink {
    bytes: Vec<u8>,
    failing: Vec<u64>,
    calls: u64,
    faults: u64,
    capacity: usize,
    most: usize,
}

impl Model for MemorySink {
    ghost use Rattle.std.specs.Prelude.{◌<◌, ◌≤◌, vec_len, vec_capacity};
    ghost use Rattle.fill_edge.specs.Memory.{Written};

    ghost Value = { Written };

    ghost view = { λ sink. record { bytes = sink.bytes.items; failing = sink.failing.items; calls = sink.calls; faults = sink.faults; capacity = sink.capacity; most = sink.most } };

    ghost invariant = { λ sink. (0 < sink.most) × (vec_len sink.bytes ≤ sink.capacity) × (sink.capacity ≤ vec_capacity sink.bytes) };
}

impl MemorySink {
    /// No output, and no call that is set to fail.
    pub fn new(alloc: Global, capacity: usize, most: usize) -> Result<MemorySink, NoMemory>
        requires { 0 < most }
        ensures { IfOk result (λ sink. sink ≡ record { bytes = []; failing = []; calls = 0; faults = 0; capacity = capacity; most = most }) }
    {
        let bytes = Vec::with_capacity(alloc, capacity)?;
        Ok(MemorySink {
            bytes,
            failing: Vec::new(alloc),
            calls: 0,
            faults: 0,
            capacity,
            most,
        })
    }

    /// Makes the write of this number fail. Writes count from 1.
    pub fn fail_at(&mut self, call: u64) -> Result<(), NoMemory>
        ensures ok { OnOk result (self.new ≡ record self.old { failing = self.old.failing ++ call ∷ [] }) }
        ensures err { OnErr result (self.new ≡ self.old) }
    {
        self.failing.push(call)?;
        Ok(())
    }

    /// All that was written.
    pub fn written(&self) -> &[u8]
        ensures { result.now ≡ self.now.bytes }
    {
        &self.bytes
    }
}

impl Sink for MemorySink {
    ghost use Rattle.std.specs.Prelude.{Some};

    ghost written = { λ sink. Some sink.bytes };

    ghost faults = { λ sink. sink.faults };

    /// A write fails exactly where its number was set to fail or `capacity` bytes are held. It
    /// takes as many bytes as the piece, `most` and the free capacity allow.
    fn write(&mut self, piece: &[u8]) -> Result<usize, Failed>
        requires { 0 < length piece.now }

        ensures bound { IfOk result (λ n. (0 < n) × (n ≤ length piece.now)) }
        ensures count { IfOk result (λ n. n ≡ room_for self.old (length piece.now)) }
        ensures after { self.new ≡ after_write self.old piece.now result }
        ensures later { self.old.faults ≤ self.new.faults }

        ensures failed { IsErr result ↔ (Contains self.old.failing (counted self.old.calls 1)) ⊎ (self.old.capacity ≡ length self.old.bytes) }
    {
        self.calls = self.calls.saturating_add(1);
        let room = self.capacity - self.bytes.len();
        if room == 0 || self.failing.contains(&self.calls) {
            self.faults = self.faults.saturating_add(1);
            return Err(Failed);
        }
        let count = piece.len().min(self.most).min(room);
        let (front, _) = piece.split_at(count);
        self.bytes.extend_from_slice(front).unwrap();
        Ok(count)
    }
}

#[cfg(test)]
mod tests {
    use super::MemorySink;
    use crate::{Failed, Sink};
    use std::test::Fail;

    #[test]
    fn a_count_stands_still_at_its_last_value(rt: HostRuntime) -> Result<(), Fail> {
        let mut sink = MemorySink::new(rt.alloc(), 2, 4)?;
        sink.faults = u64::MAX;
        assert_eq!(rt; sink.write(b"abc"), Ok(2));
        assert_eq!(rt; sink.write(b"c"), Err(Failed));
        assert_eq!(rt; sink.faults, u64::MAX);
        assert_eq!(rt; sink.written(), b"ab".as_slice());
        Ok(())
    }
}
