//! Files that are saved on the disk, of which nothing is told but the failures.
ghost use Rattle.std.specs.Prelude.{◌≡◌};

use crate::Store;
use crate::replacing::save_whole;
use fill_edge::Failed;
use std::alloc::Global;
use std::marker::Model;
use std::rt::Files;

/// The files of the system, a name being a path from the current folder on.
///
/// Whatever the system refuses is a counted failure, and then the file that was there is whole.
#[derive(Drop)]
pub struct FolderStore<R: Files + Drop> {
    alloc: Global,
    rt: R,
    faults: u64,
}

impl<R: Files + Drop> Model for FolderStore<R> {
    ghost use Rattle.fill_files.specs.Saves.{Saves};

    ghost Value = { Saves };

    ghost view = { λ store. record { faults = store.faults } };
}

impl<R: Files + Drop> FolderStore<R> {
    /// The files that this runtime writes.
    pub fn new(alloc: Global, rt: R) -> FolderStore<R>
        ensures { result ≡ record { faults = 0 } }
    {
        FolderStore {
            alloc,
            rt,
            faults: 0,
        }
    }
}

impl<R: Files + Drop> Store for FolderStore<R> {
    ghost use Rattle.std.specs.Prelude.{None};

    ghost saved = { λ _. None };

    ghost faults = { λ store. store.faults };

    fn save(&mut self, name: &str, bytes: &[u8]) -> Result<(), Failed> {
        match save_whole(self.alloc, &self.rt, name, bytes) {
            Ok(()) => Ok(()),
            Err(_) => {
                self.faults = self.faults.saturating_add(1);
                Err(Failed)
            }
        }
    }
}
