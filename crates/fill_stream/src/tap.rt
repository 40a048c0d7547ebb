//! A source as a reader of std.
ghost use Rattle.std.specs.Prelude.{◌≡◌, ◌↔◌, ℕ, ◌<◌, ◌≤◌, List, Option, true, false, length, IsTrue, IfOk, OnErr};
ghost use Rattle.std.specs.Io.{ReadsAtMost};
ghost use Rattle.std.specs.Io.KnownBytes.{ReadConsumes, IsAtEnd};
ghost use Rattle.fill_edge.specs.Outside.{Rose};

use crate::Source;
use std::io;
use std::io::{ErrorKind, Read};
use std::marker::{Brand, Model, PhantomData};

/// What a source was before a pass over it began: how many reads had failed, and all its bytes. It is for proofs alone.
pub trait Start {
    ghost before: { ℕ };

    ghost whole: { Option (List ℕ) };
}

impl Start for Brand {
    ghost use Rattle.std.specs.Prelude.{None};

    ghost before = { 0 };

    ghost whole = { None };
}

/// A source as a reader of std, which notes whether a read failed and whether the last one was at the end.
///
/// What is known of a reader after another crate has read from it are its bytes alone; what else is known of the
/// source stands in the invariant.
#[derive(Drop)]
pub struct Tap<S: Source + Drop, B: Start> {
    source: S,
    failed: bool,
    ended: bool,
    start: PhantomData<B>,
}

impl<S: Source + Drop, B: Start> Model for Tap<S, B> {
    ghost use Rattle.fill_stream.specs.Taps.{Tapped, IsNoted};

    ghost Value = { Tapped S };

    ghost view = { λ tap. record { source = tap.source; failed = tap.failed; ended = tap.ended } };

    ghost invariant = { λ tap. IsNoted B.before (S.faults tap.source) B.whole (S.whole tap.source) (S.left tap.source) tap.failed tap.ended };
}

impl<S: Source + Drop, B: Start> Tap<S, B> {
    pub fn new(source: S) -> Tap<S, B>
        requires before { B.before ≡ S.faults source }
        requires whole { B.whole ≡ S.whole source }
        ensures { result ≡ record { source = source; failed = false; ended = false } }
    {
        Tap {
            source,
            failed: false,
            ended: false,
            start: PhantomData,
        }
    }

    /// Whether a read failed.
    pub fn failed(&self) -> bool
        ensures value { result ≡ self.now.failed }
        ensures later { B.before ≤ S.faults self.now.source }
        ensures rose { result ≡ true → Rose B.before (S.faults self.now.source) }
        ensures same { result ≡ false → S.faults self.now.source ≡ B.before }
        ensures whole { S.whole self.now.source ≡ B.whole }
    {
        self.failed
    }

    /// Whether the last read found the end.
    pub fn ended(&self) -> bool
        ensures value { result ≡ self.now.ended }
        ensures at_end { result ≡ true → IsAtEnd (S.left self.now.source) }
    {
        self.ended
    }

    pub fn into_source(self) -> S
        ensures { result ≡ self.source }
    {
        self.source
    }
}

impl<S: Source + Drop, B: Start> Read for Tap<S, B> {
    ghost remaining = { λ tap. S.left tap.source };

    fn read(&mut self, buf: &mut [u8]) -> io::Result<usize>
        ensures bound { ReadsAtMost result buf.new }
        ensures bytes { ReadConsumes (S.left self.old.source) (S.left self.new.source) result buf.new }

        ensures noted { OnErr result (self.new.failed ≡ true) }
        ensures at_end { IfOk result (λ n. IsTrue self.new.ended ↔ (n ≡ 0) × (0 < length buf.old)) }
    {
        let room = buf.len();
        self.ended = false;
        match self.source.read(buf) {
            Ok(count) => {
                self.ended = count == 0 && room > 0;
                Ok(count)
            }
            Err(_) => {
                self.failed = true;
                Err(io::Error::from(ErrorKind::Other))
            }
        }
    }
}
