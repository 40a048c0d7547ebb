//! A stream in memory, which tells everything.
ghost use Rattle.std.specs.Prelude.{◌≡◌, ◌↔◌, ◌<◌, ◌≤◌, length, min, Some, IsErr, IfOk, OnOk, OnErr};
ghost use Rattle.std.specs.Io.{ReadsAtMost};
ghost use Rattle.std.specs.Io.KnownBytes.{ReadConsumes};
ghost use Rattle.fill_edge.specs.Outside.{Rose, counted};
ghost use Rattle.fill_stream.specs.Streams.{after_read};

use crate::Source;
use fill_edge::Failed;
use std::marker::Model;

/// The bytes of a slice as a stream, for tests.
///
/// A read gives at most `most` bytes, so that a small number shows what many short reads do. The
/// read of the number `failing` fails; reads count from 1.
#[derive(Drop)]
pub struct MemorySource<'a> {
    bytes: &'a [u8],
    rest: &'a [u8],
    failing: u64,
    calls: u64,
    faults: u64,
    most: usize,
}

impl<'a> Model for MemorySource<'a> {
    ghost use Rattle.std.specs.Prelude.{◌<◌};
    ghost use Rattle.fill_stream.specs.Streams.{Tape};

    ghost Value = { Tape };

    ghost view = { λ source. record { bytes = source.bytes.now; rest = source.rest.now; failing = source.failing; calls = source.calls; faults = source.faults; most = source.most } };

    ghost invariant = { λ source. 0 < source.most };
}

impl<'a> MemorySource<'a> {
    /// These bytes, of which the read of this number fails.
    pub fn new(bytes: &'a [u8], most: usize, failing: u64) -> MemorySource<'a>
        requires { 0 < most }
        ensures { result ≡ record { bytes = bytes.now; rest = bytes.now; failing = failing; calls = 0; faults = 0; most = most } }
    {
        MemorySource {
            bytes,
            rest: bytes,
            failing,
            calls: 0,
            faults: 0,
            most,
        }
    }
}

impl Source for MemorySource<'_> {
    ghost use Rattle.std.specs.Prelude.{Some};

    ghost left = { λ source. Some source.rest };

    ghost whole = { λ source. Some source.bytes };

    ghost faults = { λ source. source.faults };

    /// A read fails exactly where its number was set to fail. It gives as many bytes as there are,
    /// and the buffer and `most` allow.
    fn read(&mut self, buf: &mut [u8]) -> Result<usize, Failed>
        ensures bound { ReadsAtMost result buf.new }
        ensures count { IfOk result (λ n. n ≡ min (length self.old.rest) (min (length buf.old) self.old.most)) }
        ensures bytes { ReadConsumes (Some self.old.rest) (Some self.new.rest) result buf.new }
        ensures after { self.new ≡ after_read self.old result }
        ensures whole { Some self.new.bytes ≡ Some self.old.bytes }
        ensures later { self.old.faults ≤ self.new.faults }
        ensures given { OnOk result (self.new.faults ≡ self.old.faults) }
        ensures failed { OnErr result (Rose self.old.faults self.new.faults) }
        ensures set { IsErr result ↔ (counted self.old.calls 1 ≡ self.old.failing) }
    {
        self.calls = self.calls.saturating_add(1);
        if self.calls == self.failing {
            self.faults = self.faults.saturating_add(1);
            return Err(Failed);
        }
        let count = self.rest.len().min(buf.len().min(self.most));
        let (front, rest) = self.rest.split_at(count);
        let (room, _) = buf.split_at_mut(count);
        room.copy_from_slice(front);
        self.rest = rest;
        Ok(count)
    }
}
