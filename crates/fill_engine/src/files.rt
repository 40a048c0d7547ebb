//! The files of a request.
ghost use Rattle.std.specs.Prelude.{◌≡◌, ◌∷◌, [], IfOk, OnOk, OnErr};
ghost use Rattle.fill_engine.specs.Input.{input_in};

use fill_edge::{Cabinet, LARGEST_FILE, MemoryCabinet, ReadRefusal};
use fill_text::NoMemory;
use std::alloc::Global;
use std::marker::Model;

/// The name of standard input.
const INPUT: &str = "-";

/// Files in memory of which no read fails. One of them may be standard input.
#[derive(Drop)]
pub struct NamedFiles {
    alloc: Global,
    cabinet: MemoryCabinet,
    /// The bytes of standard input.
    input: Vec<u8>,
}

impl Model for NamedFiles {
    ghost use Rattle.std.specs.Prelude.{◌≡◌, []};
    ghost use Rattle.fill_edge.specs.Memory.{Shelf};
    ghost use Rattle.fill_engine.specs.Input.{input_in};

    ghost Value = { Shelf };

    ghost view = { λ named. named.cabinet };

    ghost invariant = { λ named. (named.cabinet.failing ≡ []) × (named.input.items ≡ input_in named.cabinet.files) };
}

impl NamedFiles {
    /// No files.
    pub fn new(alloc: Global) -> NamedFiles
        ensures { result.files ≡ [] }
    {
        NamedFiles {
            alloc,
            cabinet: MemoryCabinet::new(alloc, LARGEST_FILE),
            input: Vec::new(alloc),
        }
    }

    /// Sets a file. One of the same name that was put before is no longer seen.
    pub fn put(&mut self, name: &str, bytes: &[u8]) -> Result<(), NoMemory>
        ensures ok { OnOk result (self.new.files ≡ (name.now, bytes.now) ∷ self.old.files) }
        ensures err { OnErr result (self.new ≡ self.old) }
    {
        if name == INPUT {
            let input = bytes.to_vec(self.alloc)?;
            self.cabinet.put(name, bytes)?;
            self.input = input;
            Ok(())
        } else {
            self.cabinet.put(name, bytes)
        }
    }

    /// The bytes of standard input, none where it is not among the files.
    pub fn input(&self) -> Result<Vec<u8>, NoMemory>
        ensures { IfOk result (λ input. input.items ≡ input_in self.now.files) }
    {
        Ok(self.input.to_vec(self.alloc)?)
    }
}

impl Cabinet for NamedFiles {
    ghost use Rattle.std.specs.Prelude.{Some};
    ghost use Rattle.fill_edge.specs.Memory.{held};

    ghost files = { λ shelf. Some (λ name. held shelf.files name) };

    ghost faults = { λ shelf name. 0 };

    ghost given = { λ shelf. shelf.given };

    fn read(&mut self, name: &str, at: u64, buf: &mut [u8]) -> Result<usize, ReadRefusal> {
        self.cabinet.read(name, at, buf)
    }
}
