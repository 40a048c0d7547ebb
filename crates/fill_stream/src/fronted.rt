//! The first bytes of a stream, read ahead.
ghost use Rattle.std.specs.Prelude.{◌≡◌, ◌<◌, ◌≤◌, [], IfOk, OnErr, OnOk, drop, length, min, take};
ghost use Rattle.std.specs.Io.KnownBytes.{Keeps, prepend_known};
ghost use Rattle.fill_edge.specs.Outside.{Rose};
ghost use Rattle.fill_stream.specs.Fronts.{GivesByte, GivesFront, IsMarked, is_marked};

use crate::Source;
use fill_edge::Failed;
use std::marker::Model;

/// A source whose first bytes can be looked at before they are read.
#[derive(Drop)]
pub struct Fronted<S: Source + Drop> {
    source: S,
    front: [u8; 3],
    at: usize,
    filled: usize,
}

impl<S: Source + Drop> Model for Fronted<S> {
    ghost use Rattle.std.specs.Prelude.{◌≤◌, drop, take};
    ghost use Rattle.fill_stream.specs.Fronts.{FrontedData};

    ghost Value = { FrontedData S };

    ghost view = { λ s. record { source = s.source; front = drop s.at (take s.filled s.front) } };

    ghost invariant = { λ s. (s.at ≤ s.filled) × (s.filled ≤ 3) };
}

impl<S: Source + Drop> Fronted<S> {
    /// The source, of which nothing is read ahead.
    pub fn new(source: S) -> Fronted<S>
        ensures { result ≡ record { source = source; front = [] } }
    {
        Fronted {
            source,
            front: [0; 3],
            at: 0,
            filled: 0,
        }
    }

    /// Reads the first bytes ahead, and answers whether they are a byte order mark.
    pub fn is_marked(&mut self) -> Result<bool, Failed>
        requires { self.old.front ≡ [] }
        ensures marked { IfOk result (λ marked. IsMarked (prepend_known self.new.front (S.left self.new.source)) marked) }
        ensures left { OnOk result (Keeps (S.left self.old.source) (prepend_known self.new.front (S.left self.new.source))) }
        ensures whole { S.whole self.new.source ≡ S.whole self.old.source }
        ensures later { S.faults self.old.source ≤ S.faults self.new.source }
        ensures given { OnOk result (S.faults self.new.source ≡ S.faults self.old.source) }
        ensures failed { OnErr result (Rose (S.faults self.old.source) (S.faults self.new.source)) }
    {
        self.at = 0;
        self.filled = 0;
        match read_front(&mut self.source, &mut self.front) {
            Ok(filled) => {
                self.filled = filled;
                Ok(is_mark(&self.front[..filled]))
            }
            Err(Failed) => Err(Failed),
        }
    }

    /// The source, after what was read of it.
    pub fn into_inner(self) -> S
        ensures { result ≡ self.source }
    {
        self.source
    }
}

impl<S: Source + Drop> Source for Fronted<S> {
    ghost use Rattle.std.specs.Io.KnownBytes.{prepend_known};

    ghost left = { λ s. prepend_known s.front (S.left s.source) };

    ghost whole = { λ s. S.whole s.source };

    ghost faults = { λ s. S.faults s.source };

    fn read(&mut self, buf: &mut [u8]) -> Result<usize, Failed> {
        let pending = pending(&self.front, self.at, self.filled);
        if pending.is_empty() {
            return self.source.read(buf);
        }
        let count = copy_front(pending, buf);
        self.at += count;
        Ok(count)
    }
}

/// Whether the first bytes, at most three, are a byte order mark.
fn is_mark(front: &[u8]) -> bool
    requires { length front.now ≤ 3 }
    ensures { result ≡ is_marked front.now }
{
    match front {
        [a, b, c] => *a == 0xEF && *b == 0xBB && *c == 0xBF,
        _ => false,
    }
}

/// Fills the buffer, and answers how many bytes there were: fewer than there is room for only at the end.
fn read_front<S: Source>(source: &mut S, front: &mut [u8]) -> Result<usize, Failed>
    ensures bound { IfOk result (λ n. n ≤ length front.old) }
    ensures size { length front.new ≡ length front.old }
    ensures bytes { IfOk result (λ n. GivesFront (S.left source.old) (S.left source.new) n front.new) }
    ensures whole { S.whole source.new ≡ S.whole source.old }
    ensures later { S.faults source.old ≤ S.faults source.new }
    ensures given { OnOk result (S.faults source.new ≡ S.faults source.old) }
    ensures failed { OnErr result (Rose (S.faults source.old) (S.faults source.new)) }
{
    let mut filled = 0;
    while filled < front.len() {
        match next_byte(source) {
            Ok(Some(byte)) => {
                front[filled] = byte;
                filled += 1;
            }
            Ok(None) => return Ok(filled),
            Err(Failed) => return Err(Failed),
        }
    }
    Ok(filled)
}

/// The bytes from one place to another.
fn pending(front: &[u8], at: usize, filled: usize) -> &[u8]
    requires order { at ≤ filled }
    requires within { filled ≤ length front.now }
    ensures { result.now ≡ drop at (take filled front.now) }
{
    let (read, _) = front.split_at(filled);
    let (_, pending) = read.split_at(at);
    pending
}

/// Copies bytes to the front of the buffer, as many as there is room for.
fn copy_front(from: &[u8], buf: &mut [u8]) -> usize
    ensures count { result ≡ min (length from.now) (length buf.old) }
    ensures bytes { take result buf.new ≡ take result from.now }
    ensures room { length buf.new ≡ length buf.old }
{
    let count = from.len().min(buf.len());
    let (piece, _) = from.split_at(count);
    let (room, _) = buf.split_at_mut(count);
    room.copy_from_slice(piece);
    count
}

/// The next byte of a source; none at its end.
fn next_byte<S: Source>(source: &mut S) -> Result<Option<u8>, Failed>
    ensures byte { IfOk result (GivesByte (S.left source.old) (S.left source.new)) }
    ensures kept { OnErr result (Keeps (S.left source.old) (S.left source.new)) }
    ensures whole { S.whole source.new ≡ S.whole source.old }
    ensures later { S.faults source.old ≤ S.faults source.new }
    ensures given { OnOk result (S.faults source.new ≡ S.faults source.old) }
    ensures failed { OnErr result (Rose (S.faults source.old) (S.faults source.new)) }
{
    let mut byte = [0u8; 1];
    match source.read(&mut byte) {
        Ok(0) => Ok(None),
        Ok(_) => Ok(Some(byte[0])),
        Err(_) => Err(Failed),
    }
}
