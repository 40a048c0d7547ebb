//! Standard input of a request.
ghost use Rattle.std.specs.Prelude.{◌≡◌};

use fill_edge::Failed;
use fill_stream::{MemorySource, Source};
use std::marker::Model;

/// Bytes as a stream of which no read fails.
#[derive(Drop)]
pub struct Input<'a> {
    source: MemorySource<'a>,
}

impl<'a> Model for Input<'a> {
    ghost use Rattle.std.specs.Prelude.{◌≡◌};
    ghost use Rattle.fill_stream.specs.Streams.{Tape};

    ghost Value = { Tape };

    ghost view = { λ input. input.source };

    ghost invariant = { λ input. input.source.failing ≡ 0 };
}

impl<'a> Input<'a> {
    /// These bytes.
    pub fn new(bytes: &'a [u8]) -> Input<'a>
        ensures { result.rest ≡ bytes.now }
    {
        Input {
            source: MemorySource::new(bytes, usize::MAX, 0),
        }
    }
}

impl Source for Input<'_> {
    ghost use Rattle.std.specs.Prelude.{Some};

    ghost left = { λ tape. Some tape.rest };

    ghost whole = { λ tape. Some tape.bytes };

    ghost faults = { λ tape. 0 };

    fn read(&mut self, buf: &mut [u8]) -> Result<usize, Failed> {
        self.source.read(buf)
    }
}
