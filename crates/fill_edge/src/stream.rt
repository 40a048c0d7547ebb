//! The real streams.
ghost use Rattle.std.specs.Prelude.{◌≡◌, ◌≢◌, ◌<◌, ◌≤◌, length, take, IfOk, IfErr, OnOk, OnErr};
ghost use Rattle.std.specs.IoError.{error_kind};
ghost use Rattle.std.specs.Io.KnownBytes.{Appends, Keeps, WriteAppends};
ghost use Rattle.fill_edge.specs.Outside.{counted};
ghost use Rattle.fill_edge.specs.Real.{stream_after};

use crate::interruption::is_interrupted;
use crate::{Failed, Sink};
use std::io;
use std::io::{ErrorKind, Write};
use std::marker::Model;

/// Standard output, standard error or another stream.
///
/// It tells what its writer tells, and so nothing of standard output. Whatever the writer refuses
/// is a counted fault, also where it takes no byte; only an interrupted write is made again.
#[derive(Drop)]
pub struct StdSink<W: Write + Drop> {
    writer: W,
    faults: u64,
}

impl<W: Write + Drop> Model for StdSink<W> {
    ghost use Rattle.fill_edge.specs.Real.{Stream};

    ghost Value = { Stream W };

    ghost view = { λ sink. record { writer = sink.writer; faults = sink.faults } };
}

impl<W: Write + Drop> StdSink<W> {
    /// Output to this writer.
    pub fn new(writer: W) -> StdSink<W>
        ensures { result ≡ record { writer = writer; faults = 0 } }
    {
        StdSink { writer, faults: 0 }
    }

    /// Counts what the writer answered, an interruption being no answer.
    fn count(&mut self, answer: io::Result<usize>) -> Result<usize, Failed>
        requires { IfErr answer (λ e. error_kind e ≢ ErrorKind.Interrupted) }
        ensures taken { IfOk result (λ n. (0 < n) × (answer ≡ Ok n)) }
        ensures refused { OnErr result (IfOk answer (λ n. n ≡ 0)) }
        ensures after { self.new ≡ stream_after self.old result }
        ensures later { self.old.faults ≤ self.new.faults }
    {
        match answer {
            Ok(count) if count > 0 => Ok(count),
            _ => {
                self.faults = self.faults.saturating_add(1);
                Err(Failed)
            }
        }
    }
}

impl<W: Write + Drop> Sink for StdSink<W> {
    ghost written = { λ stream. W.contents stream.writer };

    ghost faults = { λ stream. stream.faults };

    fn write(&mut self, piece: &[u8]) -> Result<usize, Failed>
        requires { 0 < length piece.now }

        ensures bound { IfOk result (λ n. (0 < n) × (n ≤ length piece.now)) }
        ensures appended { IfOk result (λ n. Appends (W.contents self.old.writer) (W.contents self.new.writer) (take n piece.now)) }
        ensures kept { OnErr result (Keeps (W.contents self.old.writer) (W.contents self.new.writer)) }

        ensures taken { OnOk result (self.new.faults ≡ self.old.faults) }
        ensures refused { OnErr result (self.new.faults ≡ counted self.old.faults 1) }
        ensures later { self.old.faults ≤ self.new.faults }
    {
        let answer = write_uninterrupted(&mut self.writer, piece);
        self.count(answer)
    }
}

/// One write, made again as long as it is interrupted.
fn write_uninterrupted<W: Write>(writer: &mut W, piece: &[u8]) -> io::Result<usize>
    ensures bound { IfOk result (λ n. n ≤ length piece.now) }
    ensures bytes { WriteAppends (W.contents writer.old) (W.contents writer.new) result piece.now }
    ensures again { IfErr result (λ e. error_kind e ≢ ErrorKind.Interrupted) }
{
    for _ in 0..u64::MAX {
        match writer.write(piece) {
            Err(e) if is_interrupted(&e) => {}
            answer => return answer,
        }
    }
    Err(io::Error::from(ErrorKind::TimedOut))
}
