//! What was found of the places of texts, kept from row to row, so that a text that comes again isn't read again.
ghost use Rattle.std.specs.Prelude.{◌≡◌, ℕ, List as Listed, Some, IfOk, OnOk};
ghost use Rattle.std.specs.BTreeMap.{Updates};
ghost use Rattle.std.specs.Ordering.{nat_cmp};
ghost use Rattle.fill_arena.specs.declared.entry.Entry.{Entry};
ghost use Rattle.fill_sources.specs.Found.{AreFound, PlacesStand};
ghost use Rattle.fill_sources.specs.declared.memory.StoredText.{StoredText as StoredTextData};

use fill_arena::PlaceSet;
use fill_text::{NoMemory, Text};
use fill_tokens::TokenSet;
use std::alloc::Global;
use std::collections::BTreeMap;

/// How many texts are kept at most.
const MOST: usize = 1024;

/// How many characters the kept texts may have together. Usual cells have some ten each.
const LONGEST: usize = 65_536;

/// What the hash of a text begins with, and what it is multiplied by for each character (FNV-1a, over characters).
const FIRST_HASH: u64 = 0xcbf2_9ce4_8422_2325;

const HASH_FACTOR: u64 = 0x0100_0000_01b3;

/// What was found of a position of a text.
#[derive(Clone, Copy)]
pub(crate) enum Found {
    /// Nothing yet.
    NotYet,
    /// No place has it as its value.
    Nowhere,
    /// The set of the places whose value it is.
    In(PlaceSet),
}

/// What was found of the positions of a text by tokens of a set.
#[derive(Drop)]
pub(crate) struct StoredText {
    pub(crate) text: Text,
    pub(crate) token_set: TokenSet,
    pub(crate) found: Vec<Found>,
}

/// The sets of the places of positions of texts, as far as they were found on earlier rows. It is of one arena, in which
/// these sets are.
///
/// Texts are kept by their hash; of those with one hash, the last one is kept. The texts are those of strangers, so the
/// hashes are kept in order: no choice of texts makes it slow to look for one.
#[derive(Drop)]
pub struct PlaceMemory {
    pub(crate) texts: BTreeMap<u64, StoredText>,
    /// How many characters the texts have together, at most: those of a text that is kept again count again.
    size: usize,
}

impl PlaceMemory {
    /// Where nothing was found yet. This takes no memory.
    pub fn new(alloc: Global) -> PlaceMemory
        ensures { (c : Listed Entry) → PlacesStand c result }
    {
        PlaceMemory {
            texts: BTreeMap::new(alloc),
            size: 0,
        }
    }

    /// What was found of the positions of the text, if it is known.
    pub(crate) fn recall(
        &self,
        alloc: Global,
        text: &Text,
        token_set: TokenSet,
    ) -> Result<Vec<Found>, NoMemory>
        ensures { IfOk result (λ found. (c : Listed Entry) → PlacesStand c self.now → AreFound token_set c text.now found.items) }
    {
        if self.texts.len() == 0 {
            return Ok(Vec::new(alloc));
        }
        let Some(stored) = self.texts.get(&hash_of(text)) else {
            return Ok(Vec::new(alloc));
        };
        if !stored.token_set.same(token_set) {
            return Ok(Vec::new(alloc));
        }
        if !stored.text.same(text) {
            return Ok(Vec::new(alloc));
        }
        let found = Vec::from_slice(alloc, &stored.found)?;
        Ok(found)
    }

    /// Keeps what was found of the positions of the text, if it is not too long. Where there is no memory for it, all is
    /// forgotten.
    pub(crate) fn keep(&mut self, alloc: Global, text: &Text, token_set: TokenSet, found: &[Found])
        ensures { (c : Listed Entry) → PlacesStand c self.old → AreFound token_set c text.now found.now → PlacesStand c self.new }
    {
        if text.len() > LONGEST {
            return;
        }
        self.make_room(alloc, text.len());
        match put_kept(alloc, &mut self.texts, text, token_set, found) {
            Ok(()) => {}
            Err(NoMemory) => *self = PlaceMemory::new(alloc),
        }
    }

    /// Forgets all where the texts are too many, or too long with this many more characters, so that memory stays bounded.
    fn make_room(&mut self, alloc: Global, more: usize)
        ensures { (c : Listed Entry) → PlacesStand c self.old → PlacesStand c self.new }
    {
        let size = self.size.saturating_add(more);
        if self.texts.len() < MOST && size <= LONGEST {
            self.size = size;
            return;
        }
        self.texts = BTreeMap::new(alloc);
        self.size = more;
    }
}

fn put_kept(
    alloc: Global,
    texts: &mut BTreeMap<u64, StoredText>,
    text: &Text,
    token_set: TokenSet,
    found: &[Found],
) -> Result<(), NoMemory>
    ensures { OnOk result ((hash : ℕ) × (k : StoredTextData) × Updates nat_cmp texts.old texts.new hash (Some k) × (k.text ≡ text.now) × (k.token_set ≡ token_set) × (k.found.items ≡ found.now)) }
{
    let hash = hash_of(text);
    let text = text.copy()?;
    let found = Vec::from_slice(alloc, found)?;
    match texts.insert(
        hash,
        StoredText {
            text,
            token_set,
            found,
        },
    ) {
        Ok(_) => Ok(()),
        Err(_) => Err(NoMemory),
    }
}

/// A hash of the text, which few other texts have.
fn hash_of(text: &Text) -> u64 {
    let mut hash = FIRST_HASH;
    for c in text.as_slice() {
        hash = (hash ^ (*c as u64)).wrapping_mul(HASH_FACTOR);
    }
    hash
}
