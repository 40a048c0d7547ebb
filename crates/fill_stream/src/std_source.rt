//! The real streams that are read.
ghost use Rattle.std.specs.Prelude.{◌≡◌, ◌≢◌, ◌↔◌, ◌≤◌, IsTrue, IfOk, IfErr, OnErr, IsErr};
ghost use Rattle.std.specs.Io.{ReadsAtMost};
ghost use Rattle.std.specs.Io.KnownBytes.{ReadConsumes};
ghost use Rattle.std.specs.IoError.{error_kind};
ghost use Rattle.fill_stream.specs.Streams.{input_after};

use crate::Source;
use fill_edge::Failed;
use std::io;
use std::io::{ErrorKind, Read};
use std::marker::Model;

/// Standard input or another stream.
///
/// It tells what its reader tells, and so nothing of standard input. Whatever the reader refuses is a
/// counted fault; only an interrupted read is made again.
#[derive(Drop)]
pub struct StdSource<R: Read + Drop> {
    reader: R,
    faults: u64,
}

impl<R: Read + Drop> Model for StdSource<R> {
    ghost use Rattle.fill_stream.specs.Streams.{Input};

    ghost Value = { Input R };

    ghost view = { λ source. record { reader = source.reader; faults = source.faults } };
}

impl<R: Read + Drop> StdSource<R> {
    /// Input from this reader.
    pub fn new(reader: R) -> StdSource<R>
        ensures { result ≡ record { reader = reader; faults = 0 } }
    {
        StdSource { reader, faults: 0 }
    }

    /// Counts what the reader answered, an interruption being no answer.
    fn count(&mut self, answer: io::Result<usize>) -> Result<usize, Failed>
        requires { IfErr answer (λ e. error_kind e ≢ ErrorKind.Interrupted) }
        ensures given { IfOk answer (λ n. result ≡ Ok n) }
        ensures refused { OnErr answer (IsErr result) }
        ensures after { self.new ≡ input_after self.old result }
        ensures later { self.old.faults ≤ self.new.faults }
    {
        match answer {
            Ok(count) => Ok(count),
            Err(_) => {
                self.faults = self.faults.saturating_add(1);
                Err(Failed)
            }
        }
    }
}

impl<R: Read + Drop> Source for StdSource<R> {
    ghost use Rattle.std.specs.Prelude.{None};

    ghost left = { λ input. R.remaining input.reader };

    ghost whole = { λ _. None };

    ghost faults = { λ input. input.faults };

    fn read(&mut self, buf: &mut [u8]) -> Result<usize, Failed> {
        let answer = read_uninterrupted(&mut self.reader, buf);
        self.count(answer)
    }
}

/// One read, made again as long as it is interrupted.
fn read_uninterrupted<R: Read>(reader: &mut R, buf: &mut [u8]) -> io::Result<usize>
    ensures bound { ReadsAtMost result buf.new }
    ensures bytes { ReadConsumes (R.remaining reader.old) (R.remaining reader.new) result buf.new }
    ensures again { IfErr result (λ e. error_kind e ≢ ErrorKind.Interrupted) }
{
    for _ in 0..u64::MAX {
        match reader.read(buf) {
            Err(e) if is_interrupted(&e) => {}
            answer => return answer,
        }
    }
    Err(io::Error::from(ErrorKind::TimedOut))
}

fn is_interrupted(e: &io::Error) -> bool
    ensures { IsTrue result ↔ (error_kind e.now ≡ ErrorKind.Interrupted) }
{
    e.kind() == ErrorKind::Interrupted
}
