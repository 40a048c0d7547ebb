//! What is found of the shape of texts, once for all sets of places.
ghost use Rattle.std.specs.Prelude.{◌≡◌, List as Items, IfOk, IfSome, OnOk};
ghost use Rattle.fill_arena.specs.declared.entry.Entry.{Entry as Kept};
ghost use Rattle.fill_doubt.specs.Read.{IsReadIn};
ghost use Rattle.fill_doubt.specs.Spots.{AreSpotsOf};

use crate::cuts::Cuts;
use crate::spots::Spots;
use fill_arena::PlaceSet;
use fill_text::{NoMemory, Text};
use std::alloc::Global;
use std::collections::HashMap;

/// The text of a shape, what was found of its pieces, and of the sets of places that were asked for.
#[derive(Drop)]
pub(crate) struct Read {
    pub(crate) text: Text,
    pub(crate) cuts: Cuts,
    pub(crate) spots: HashMap<PlaceSet, Spots>,
}

impl Read {
    pub(crate) fn new(alloc: Global, text: Text) -> Result<Read, NoMemory>
        ensures text { IfOk result (λ made. made.text ≡ text) }
        ensures right { IfOk result (λ made. (c : Items Kept) → IsReadIn c made) }
    {
        let cuts = Cuts::new(alloc, &text)?;
        Ok(Read {
            text,
            cuts,
            spots: HashMap::new(alloc),
        })
    }

    pub(crate) fn spots_of(&self, s: PlaceSet) -> Option<&Spots>
        ensures { (c : Items Kept) → IsReadIn c self.now → IfSome result (λ found. AreSpotsOf c s self.now.text found.now) }
    {
        self.spots.get(&s)
    }

    pub(crate) fn keep(&mut self, s: PlaceSet, found: Spots) -> Result<(), NoMemory>
        ensures text { self.new.text ≡ self.old.text }
        ensures read { OnOk result ((c : Items Kept) → IsReadIn c self.old → AreSpotsOf c s self.old.text found → IsReadIn c self.new) }
    {
        match self.spots.insert(s, found) {
            Ok(_) => Ok(()),
            Err(_) => Err(NoMemory),
        }
    }
}
