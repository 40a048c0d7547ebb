//! Saved files in memory, which tell everything.
ghost use Rattle.std.specs.Prelude.{◌≡◌, ◌∷◌, [], IfOk, IsErr, OnOk, OnErr, false, true};
ghost use Rattle.fill_files.specs.Saves.{last_bytes};

use crate::Store;
use fill_edge::Failed;
use fill_text::NoMemory;
use std::alloc::Global;
use std::marker::Model;

/// A file that was saved.
#[derive(Drop)]
struct File {
    name: String,
    bytes: Vec<u8>,
}

impl Model for File {
    ghost use Rattle.std.specs.Prelude.{ℕ, List, string_bytes};

    ghost Value = { List ℕ × List ℕ };

    ghost view = { λ file. (string_bytes file.name, file.bytes.items) };
}

impl File {
    fn new(alloc: Global, name: &str, bytes: &[u8]) -> Result<File, NoMemory>
        ensures { IfOk result (λ file. file ≡ (name.now, bytes.now)) }
    {
        Ok(File {
            name: String::from_str(alloc, name)?,
            bytes: bytes.to_vec(alloc)?,
        })
    }

    fn bytes(&self) -> &[u8]
        ensures { result.now ≡ self.now.1 }
    {
        &self.bytes
    }
}

/// Saved files in memory, for tests and for callers that take them from there.
///
/// A save fails where memory runs out, and where all are set to fail.
#[derive(Drop)]
pub struct MemoryStore {
    alloc: Global,
    files: Vec<File>,
    fails: bool,
    faults: u64,
}

impl Model for MemoryStore {
    ghost use Rattle.fill_files.specs.Saves.{Kept};

    ghost Value = { Kept };

    ghost view = { λ store. record { files = store.files.items; fails = store.fails; faults = store.faults } };
}

impl MemoryStore {
    /// No files.
    pub fn new(alloc: Global) -> MemoryStore
        ensures { result ≡ record { files = []; fails = false; faults = 0 } }
    {
        MemoryStore {
            alloc,
            files: Vec::new(alloc),
            fails: false,
            faults: 0,
        }
    }

    /// Makes every save fail from now on.
    pub fn fail(&mut self)
        ensures { self.new ≡ record self.old { fails = true } }
    {
        self.fails = true;
    }

    /// How many saves failed.
    pub fn faults(&self) -> u64
        ensures { result ≡ self.now.faults }
    {
        self.faults
    }

    /// The bytes of the file that was saved last, none where none was saved.
    pub fn last(&self) -> &[u8]
        ensures { result.now ≡ last_bytes self.now.files }
    {
        match self.files.first() {
            Some(file) => file.bytes(),
            None => &[],
        }
    }

    /// Adds a file, where none is set to fail.
    fn add(&mut self, name: &str, bytes: &[u8]) -> Result<(), NoMemory>
        ensures ok { OnOk result (self.new ≡ record self.old { files = (name.now, bytes.now) ∷ self.old.files }) }
        ensures set { self.old.fails ≡ true → IsErr result }
        ensures err { OnErr result (self.new ≡ self.old) }
    {
        if self.fails {
            return Err(NoMemory);
        }
        let file = File::new(self.alloc, name, bytes)?;
        self.files.insert(0, file)?;
        Ok(())
    }
}

impl Store for MemoryStore {
    ghost use Rattle.std.specs.Prelude.{Some};

    ghost saved = { λ store. Some store.files };

    ghost faults = { λ store. store.faults };

    fn save(&mut self, name: &str, bytes: &[u8]) -> Result<(), Failed> {
        match self.add(name, bytes) {
            Ok(()) => Ok(()),
            Err(NoMemory) => {
                self.faults = self.faults.saturating_add(1);
                Err(Failed)
            }
        }
    }
}
