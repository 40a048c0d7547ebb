//! Writing a whole piece.
ghost use Rattle.std.specs.Prelude.{◌≡◌, ◌<◌, ◌≤◌, [], OnOk, OnErr};
ghost use Rattle.std.specs.Io.KnownBytes.{Appends};
ghost use Rattle.fill_edge.specs.Outside.{Rose, AppendsPart};

use crate::Sink;
use thiserror::Error;

/// A write failed before the whole piece was written, and the sink counted it.
#[derive(Clone, Copy, Debug, PartialEq, Eq, Error)]
#[error("the output was not written")]
pub struct WriteFault;

/// Appends the piece. It takes no memory, and an empty piece makes no call.
pub fn write_all<O: Sink>(sink: &mut O, piece: &[u8]) -> Result<(), WriteFault>
    ensures whole { OnOk result (Appends (O.written sink.old) (O.written sink.new) piece.now) }
    ensures part { OnErr result (AppendsPart (O.written sink.old) (O.written sink.new) piece.now) }
    ensures later { O.faults sink.old ≤ O.faults sink.new }
    ensures taken { OnOk result (O.faults sink.new ≡ O.faults sink.old) }
    ensures fault { OnErr result (Rose (O.faults sink.old) (O.faults sink.new)) }
    ensures empty { piece.now ≡ [] → sink.new ≡ sink.old }
{
    let mut done = 0;
    while done < piece.len() {
        let (_, rest) = piece.split_at(done);
        match sink.write(rest) {
            Ok(count) => done += count,
            Err(_) => return Err(WriteFault),
        }
    }
    Ok(())
}
