//! Files in memory that note which names they are asked for.
ghost use Rattle.std.specs.Prelude.{◌≡◌, ◌<◌, Some};
ghost use Rattle.fill_edge.specs.Memory.{held};

use fill_edge::{Cabinet, MemoryCabinet, ReadRefusal};
use fill_text::NoMemory;
use std::alloc::{AllocError, Global};

#[derive(Drop)]
pub struct NotingCabinet {
    files: MemoryCabinet,
    asked: String,
    is_noted: bool,
}

impl NotingCabinet {
    /// No files, with reads of at most this many bytes.
    pub fn new(alloc: Global, most: usize) -> NotingCabinet
        requires { 0 < most }
    {
        NotingCabinet {
            files: MemoryCabinet::new(alloc, most),
            asked: String::new(alloc),
            is_noted: true,
        }
    }

    pub fn put(&mut self, name: &str, bytes: &[u8]) -> Result<(), NoMemory> {
        self.files.put(name, bytes)
    }

    /// Makes the read of this number fail. Reads count from 1.
    pub fn fail_at(&mut self, call: u64) -> Result<(), NoMemory> {
        self.files.fail_at(call)
    }

    /// Whether these are the names of all reads, in their order and each ended by a line feed, if any are wanted.
    pub fn was_asked(&self, names: Option<&str>) -> bool {
        match names {
            Some(names) => self.is_noted && self.asked.as_str() == names,
            None => true,
        }
    }

    fn note(&mut self, name: &str) -> Result<(), AllocError>
        ensures { self.new.files ≡ self.old.files }
    {
        self.asked.push_str(name)?;
        self.asked.push_str("\n")
    }
}

impl Cabinet for NotingCabinet {
    ghost files = { λ cabinet. Some (λ name. held cabinet.files.files name) };

    ghost faults = { λ cabinet name. cabinet.files.faults };

    ghost given = { λ cabinet. cabinet.files.given };

    fn read(&mut self, name: &str, at: u64, buf: &mut [u8]) -> Result<usize, ReadRefusal> {
        let noted = self.note(name);
        self.is_noted = self.is_noted && noted.is_ok();
        self.files.read(name, at, buf)
    }
}
