//! The file of a cabinet as a reader of std.
ghost use Rattle.std.specs.Prelude.{◌≡◌, ℕ, List, Option, string_bytes, true, false};
ghost use Rattle.std.specs.Io.{ReadsAtMost};
ghost use Rattle.std.specs.Io.KnownBytes.{ReadConsumes};
ghost use Rattle.fill_edge.specs.Outside.{Files, NoneChanged, NoneFell, Rose};
ghost use Rattle.fill_passes.specs.Files.{IsThere, told_from};

use fill_edge::{Cabinet, LAST_PLACE};
use std::io;
use std::io::{ErrorKind, Read};
use std::marker::{Brand, Model, PhantomData};

/// What a cabinet told before a file of it was read, how many reads had failed, and the file's name. It is for proofs alone.
pub trait Origin {
    ghost files: { Files };

    ghost name: { List ℕ };

    ghost before: { List ℕ → ℕ };
}

impl Origin for Brand {
    ghost use Rattle.std.specs.Prelude.{None, []};

    ghost files = { None };

    ghost name = { [] };

    ghost before = { λ _. 0 };
}

/// The bytes of a cabinet's file as a reader of std, which can begin at the front again, and notes whether a read failed.
///
/// After another crate has read from a reader, only its bytes are known. What is known of the cabinet stands in the invariant.
#[derive(Drop)]
pub struct FileReader<C: Cabinet + Drop, B: Origin> {
    cabinet: C,
    name: String,
    at: u64,
    failed: bool,
    origin: PhantomData<B>,
}

impl<C: Cabinet + Drop, B: Origin> Model for FileReader<C, B> {
    ghost use Rattle.std.specs.Prelude.{string_bytes};
    ghost use Rattle.fill_edge.specs.declared.outside.TheConstants.{LAST_PLACE};
    ghost use Rattle.fill_passes.specs.Files.{IsSince, ReaderData};

    ghost Value = { ReaderData C };

    ghost view = { λ r. record { cabinet = r.cabinet; name = string_bytes r.name; at = r.at; failed = r.failed } };

    ghost invariant = { λ r. IsSince B.files B.name B.before LAST_PLACE (C.files r.cabinet) (string_bytes r.name) (C.faults r.cabinet) r.failed };
}

impl<C: Cabinet + Drop, B: Origin> FileReader<C, B> {
    /// The file of this name, from its front on.
    pub fn new(cabinet: C, name: String) -> FileReader<C, B>
        requires files { B.files ≡ C.files cabinet }
        requires before { B.before ≡ C.faults cabinet }
        requires name { B.name ≡ string_bytes name }
        requires there { IsThere (C.files cabinet) (string_bytes name) LAST_PLACE }
        ensures { result ≡ record { cabinet = cabinet; name = string_bytes name; at = 0; failed = false } }
    {
        FileReader {
            cabinet,
            name,
            at: 0,
            failed: false,
            origin: PhantomData,
        }
    }

    /// Goes back to the front of the file.
    pub fn rewind(&mut self)
        ensures after { self.new ≡ record self.old { at = 0 } }
        ensures left { told_from (C.files self.new.cabinet) self.new.name 0 ≡ told_from B.files B.name 0 }
    {
        self.at = 0;
    }

    /// Whether a read failed.
    pub fn failed(&self) -> bool
        ensures value { result ≡ self.now.failed }
        ensures same { result ≡ false → NoneChanged B.before (C.faults self.now.cabinet) }
        ensures rose { result ≡ true → Rose (B.before B.name) (C.faults self.now.cabinet B.name) }
    {
        self.failed
    }

    /// The cabinet, after what was read of it.
    pub fn into_cabinet(self) -> C
        ensures value { result ≡ self.cabinet }
        ensures files { C.files result ≡ B.files }
        ensures later { NoneFell B.before (C.faults result) }
        ensures same { self.failed ≡ false → NoneChanged B.before (C.faults result) }
        ensures rose { self.failed ≡ true → Rose (B.before B.name) (C.faults result B.name) }
    {
        self.cabinet
    }
}

impl<C: Cabinet + Drop, B: Origin> Read for FileReader<C, B> {
    ghost remaining = { λ r. told_from (C.files r.cabinet) r.name r.at };

    fn read(&mut self, buf: &mut [u8]) -> io::Result<usize>
        ensures bound { ReadsAtMost result buf.new }
        ensures bytes { ReadConsumes (told_from (C.files self.old.cabinet) self.old.name self.old.at) (told_from (C.files self.new.cabinet) self.new.name self.new.at) result buf.new }
    {
        if buf.is_empty() {
            return Ok(0);
        }
        // A file that is told ends before: this one grew since.
        if self.at > LAST_PLACE as u64 {
            return Err(io::Error::from(ErrorKind::InvalidData));
        }
        match self.cabinet.read(self.name.as_str(), self.at, buf) {
            Ok(count) => {
                self.at += count as u64;
                Ok(count)
            }
            Err(_) => {
                self.failed = true;
                Err(io::Error::from(ErrorKind::Other))
            }
        }
    }
}
