//! Where contents stand, found by their hash.
ghost use Rattle.std.specs.Prelude.{◌≡◌, ◌+◌, ◌%◌, ◌^◌, ◌++◌, ◌∷◌, [], take, slice_get, Some, IfOk, OnOk, OnErr, MatchOption};
ghost use Rattle.std.specs.Hash as fed;
ghost use Rattle.std.proofs.Common.{ap, ◌∙◌, rules};
ghost use Rattle.fill_arena.specs.Contents.{In};
ghost use Rattle.fill_arena.specs.Index.{IsFound, IsIndexed};

use crate::entries::Entries;
use crate::entry::Entry;
use crate::hash::hash_entry;
use crate::same::same_entry;
use fill_text::NoMemory;
use indexmap::IndexSet;
use std::alloc::Global;
use std::hash::{Hash, Hasher};
use std::marker::Model;

/// The place in the index of one number: the hash of what stands under it, and how many older numbers have that hash.
#[derive(Clone, Copy, Debug, PartialEq, Eq)]
pub(crate) struct Slot {
    pub(crate) hash: u64,
    pub(crate) turn: u64,
}

impl Hash for Slot {
    ghost hash_input = { λ slot. fed.u64 ((slot.hash + slot.turn) % 2 ^ 64) };

    ghost respects_eq = { λ x y alike. let same : (x.hash ≡ y.hash) × (x.turn ≡ y.turn) = Prim.search rules in ap (λ n. fed.u64 ((n + x.turn) % 2 ^ 64)) same.0 ∙ ap (λ n. fed.u64 ((y.hash + n) % 2 ^ 64)) same.1 };

    /// Writes one number, the sum: turns are nearly always 0, and two slots with one sum cost time alone.
    fn hash<H: Hasher>(&self, state: &mut H) {
        state.write_u64(self.hash.wrapping_add(self.turn));
    }
}

/// Where an entry stands: under a number, or under none, and then the slot that it gets.
#[derive(Clone, Copy)]
pub(crate) enum Found {
    Known(usize),
    Free(Slot),
}

/// The slots of all numbers, in their order.
#[derive(Debug, Drop)]
pub(crate) struct Index {
    slots: IndexSet<Slot>,
}

impl Model for Index {
    ghost use Rattle.std.specs.Prelude.{List};
    ghost use Rattle.fill_arena.specs.declared.index.Slot.{Slot};

    ghost Value = { List Slot };

    ghost view = { λ index. index.slots.keys };
}

impl Index {
    /// No slot, which takes no memory.
    pub(crate) fn new(alloc: Global) -> Index
        ensures { result ≡ [] }
    {
        Index {
            slots: IndexSet::new(alloc),
        }
    }

    /// The number that has the slot.
    fn number(&self, slot: Slot) -> Option<usize>
        ensures { MatchOption result (In slot self.now → ⊥) (λ n. slice_get self.now n ≡ Some slot) }
    {
        self.slots.get_index_of(&slot)
    }

    /// Gives the slot to the next number.
    pub(crate) fn push(&mut self, slot: Slot) -> Result<(), NoMemory>
        requires { In slot self.old → ⊥ }
        ensures ok { OnOk result (self.new ≡ self.old ++ slot ∷ []) }
        ensures err { OnErr result (self.new ≡ self.old) }
    {
        match self.slots.insert(slot) {
            Ok(_) => Ok(()),
            Err(_) => Err(NoMemory),
        }
    }

    /// Takes the slots away of all numbers from this one on.
    pub(crate) fn cut(&mut self, number: usize)
        ensures { self.new ≡ take number self.old }
    {
        self.slots.truncate(number);
    }

    /// The number of the entry, or its slot where it has none.
    ///
    /// It looks at the numbers of the entry's hash alone. An entry whose hash 2^64 - 1 others have is refused.
    pub(crate) fn find(&self, entries: &Entries, entry: &Entry) -> Result<Found, NoMemory>
        requires { IsIndexed entries.now self.now }
        ensures { IfOk result (IsFound entries.now self.now entry.now) }
    {
        let hash = hash_entry(entry);
        for turn in 0..u64::MAX {
            let slot = Slot { hash, turn };
            let Some(number) = self.number(slot) else {
                return Ok(Found::Free(slot));
            };
            if same_entry(entries.get(number), entry) {
                return Ok(Found::Known(number));
            }
        }
        Err(NoMemory)
    }
}
