//! Standard input among the files.
ghost use Rattle.std.specs.Prelude.{◌≡◌, ◌<◌, ◌≤◌, length, IfOk, OnErr, IsErrOf};
ghost use Rattle.fill_edge.specs.Real.{counts_after};

use fill_edge::{Cabinet, LAST_PLACE, ReadRefusal};
use std::alloc::Global;
use std::io::{ErrorKind, Read};
use std::marker::Model;

/// The name of standard input.
const INPUT: &str = "-";

/// The files of a cabinet, and under the name `-` an input. What the input gave is kept, so that it can be read again.
///
/// Whatever is refused is a counted fault, also a read of the input past the next place, or one for which there is no memory.
/// Nothing is told of the files.
#[derive(Drop)]
pub struct InputCabinet<C: Cabinet + Drop, R: Read + Drop> {
    files: C,
    input: R,
    kept: Kept,
    faults: u64,
    given: u64,
}

/// What an input gave so far.
#[derive(Drop)]
struct Kept {
    bytes: Vec<u8>,
    /// Whether a read found the end. The input is not asked again then: a terminal would wait for more.
    ended: bool,
}

impl<C: Cabinet + Drop, R: Read + Drop> Model for InputCabinet<C, R> {
    ghost use Rattle.fill_edge.specs.Real.{Counts};

    ghost Value = { Counts };

    ghost view = { λ cabinet. record { faults = cabinet.faults; given = cabinet.given } };
}

impl<C: Cabinet + Drop, R: Read + Drop> InputCabinet<C, R> {
    /// These files and this input.
    pub fn new(alloc: Global, files: C, input: R) -> InputCabinet<C, R> {
        InputCabinet {
            files,
            input,
            kept: Kept {
                bytes: Vec::new(alloc),
                ended: false,
            },
            faults: 0,
            given: 0,
        }
    }

    /// Counts what a read gave.
    fn count(&mut self, answer: Result<usize, ReadRefusal>) -> Result<usize, ReadRefusal>
        ensures given { IfOk answer (λ n. result ≡ Ok n) }
        ensures refused { OnErr answer (IsErrOf result ReadRefusal.Failed) }
        ensures after { self.new ≡ counts_after self.old result }
        ensures grew { self.old.given ≤ self.new.given }
        ensures later { self.old.faults ≤ self.new.faults }
    {
        match answer {
            Ok(count) => {
                self.given = self.given.saturating_add(count as u64);
                Ok(count)
            }
            Err(_) => {
                self.faults = self.faults.saturating_add(1);
                Err(ReadRefusal::Failed)
            }
        }
    }
}

impl<C: Cabinet + Drop, R: Read + Drop> Cabinet for InputCabinet<C, R> {
    ghost use Rattle.std.specs.Prelude.{None};

    ghost files = { λ counts. None };

    ghost faults = { λ counts name. counts.faults };

    ghost given = { λ counts. counts.given };

    fn read(&mut self, name: &str, at: u64, buf: &mut [u8]) -> Result<usize, ReadRefusal>
        requires room { 0 < length buf.old }
        requires place { at ≤ LAST_PLACE }

        ensures bound { IfOk result (λ n. n ≤ length buf.old) }
        ensures there { OnErr result (IsErrOf result ReadRefusal.Failed) }
        ensures after { self.new ≡ counts_after self.old result }
        ensures grew { self.old.given ≤ self.new.given }
        ensures later { self.old.faults ≤ self.new.faults }
    {
        if name == INPUT {
            let answer = read_input(&mut self.input, &mut self.kept, at, buf);
            return self.count(answer);
        }
        let answer = self.files.read(name, at, buf);
        self.count(answer)
    }
}

/// Bytes of an input from this place on: those that it gave before, or else the next ones.
fn read_input<R: Read>(
    input: &mut R,
    kept: &mut Kept,
    at: u64,
    buf: &mut [u8],
) -> Result<usize, ReadRefusal>
    requires room { 0 < length buf.old }
    requires place { at ≤ LAST_PLACE }
    ensures { IfOk result (λ n. n ≤ length buf.old) }
{
    let place = at as usize;
    if place < kept.bytes.len() {
        return Ok(copy_from(&kept.bytes, place, buf));
    }
    if kept.ended {
        return Ok(0);
    }
    if place > kept.bytes.len() {
        return Err(ReadRefusal::Failed);
    }
    // before the read, so that no byte of the input is lost where there is no memory for it
    if kept.bytes.reserve(buf.len()).is_err() {
        return Err(ReadRefusal::Failed);
    }
    match read_next(input, buf) {
        Ok(count) => {
            kept.ended = count == 0;
            let (piece, _) = buf.split_at(count);
            match kept.bytes.extend_from_slice(piece) {
                Ok(()) => Ok(count),
                Err(_) => Err(ReadRefusal::Failed),
            }
        }
        Err(refusal) => Err(refusal),
    }
}

/// Copies bytes from a place on into the buffer, as many as there is room for.
fn copy_from(bytes: &[u8], at: usize, buf: &mut [u8]) -> usize
    requires { at ≤ length bytes.now }
    ensures { result ≤ length buf.old }
{
    let (_, rest) = bytes.split_at(at);
    let count = rest.len().min(buf.len());
    let (piece, _) = rest.split_at(count);
    let (room, _) = buf.split_at_mut(count);
    room.copy_from_slice(piece);
    count
}

/// The next bytes of an input.
fn read_next<R: Read>(input: &mut R, buf: &mut [u8]) -> Result<usize, ReadRefusal>
    requires { 0 < length buf.old }
    ensures bound { IfOk result (λ n. n ≤ length buf.old) }
    ensures size { length buf.new ≡ length buf.old }
{
    for _ in 0..u64::MAX {
        match input.read(buf) {
            Ok(count) => return Ok(count),
            Err(e) if e.kind() == ErrorKind::Interrupted => {}
            Err(_) => return Err(ReadRefusal::Failed),
        }
    }
    Err(ReadRefusal::Failed)
}
