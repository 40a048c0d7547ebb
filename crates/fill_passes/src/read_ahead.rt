//! A reader that is read in large pieces.
ghost use Rattle.std.specs.Prelude.{◌≡◌, ◌≤◌, [], ◌++◌, length, min, take};
ghost use Rattle.std.specs.Io.{ReadsAtMost};
ghost use Rattle.std.specs.Io.KnownBytes.{ReadConsumes, prepend_known};

use crate::measuring::zeros;
use std::alloc::Global;
use std::io;
use std::io::Read;
use std::marker::Model;

/// The most bytes that one read asks for, 64 KiB.
const PIECE: usize = 65_536;

/// A reader that is asked for large pieces, however few bytes are wanted at a time.
///
/// Where there is no memory for a piece, it is asked for what is wanted.
#[derive(Drop)]
pub struct ReadAhead<R: Read + Drop> {
    reader: R,
    piece: Vec<u8>,
    at: usize,
    filled: usize,
}

impl<R: Read + Drop> Model for ReadAhead<R> {
    ghost use Rattle.std.specs.Prelude.{◌≤◌, drop, length, take};
    ghost use Rattle.fill_passes.specs.Files.{AheadData};

    ghost Value = { AheadData R };

    ghost view = { λ r. record { reader = r.reader; ahead = drop r.at (take r.filled r.piece.items) } };

    ghost invariant = { λ r. (r.at ≤ r.filled) × (r.filled ≤ length r.piece.items) };
}

impl<R: Read + Drop> ReadAhead<R> {
    /// The reader, of which nothing is read ahead.
    pub fn new(alloc: Global, reader: R) -> ReadAhead<R>
        ensures value { result ≡ record { reader = reader; ahead = [] } }
        ensures left { prepend_known result.ahead (R.remaining result.reader) ≡ R.remaining reader }
    {
        let piece = match zeros(alloc, PIECE) {
            Ok(piece) => piece,
            Err(_) => Vec::new(alloc),
        };
        ReadAhead {
            reader,
            piece,
            at: 0,
            filled: 0,
        }
    }

    /// The reader, after what was read of it. What was read ahead is lost.
    pub fn into_inner(self) -> R
        ensures { result ≡ self.reader }
    {
        self.reader
    }

    /// Gives bytes that were read ahead, as many as there is room for.
    fn give(&mut self, buf: &mut [u8]) -> usize
        ensures count { result ≡ min (length self.old.ahead) (length buf.old) }
        ensures bytes { self.old.ahead ≡ take result buf.new ++ self.new.ahead }
        ensures room { length buf.new ≡ length buf.old }
        ensures reader { self.new.reader ≡ self.old.reader }
    {
        let (read, _) = self.piece.split_at(self.filled);
        let (_, ahead) = read.split_at(self.at);
        let count = ahead.len().min(buf.len());
        let (front, _) = ahead.split_at(count);
        buf[..count].copy_from_slice(front);
        self.at += count;
        count
    }
}

impl<R: Read + Drop> Read for ReadAhead<R> {
    ghost use Rattle.std.specs.Io.KnownBytes.{prepend_known};

    ghost remaining = { λ r. prepend_known r.ahead (R.remaining r.reader) };

    fn read(&mut self, buf: &mut [u8]) -> io::Result<usize>
        ensures bound { ReadsAtMost result buf.new }
        ensures bytes { ReadConsumes (prepend_known self.old.ahead (R.remaining self.old.reader)) (prepend_known self.new.ahead (R.remaining self.new.reader)) result buf.new }
    {
        if self.at < self.filled {
            return Ok(self.give(buf));
        }
        if self.piece.is_empty() {
            return self.reader.read(buf);
        }
        self.at = 0;
        self.filled = 0;
        let count = match self.reader.read(&mut self.piece) {
            Ok(count) => count,
            Err(e) => return Err(e),
        };
        self.filled = count;
        Ok(self.give(buf))
    }
}
