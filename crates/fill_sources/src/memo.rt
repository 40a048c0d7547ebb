//! The sets that were made for a row, or of places for an earlier one, so that each is made once.
ghost use Rattle.std.specs.Prelude.{◌≡◌, ◌⊎◌, ℕ, List as Listed, slice_set, IfOk, IfSome, OnOk};
ghost use Rattle.fill_tokens.specs.declared.token_set.TokenSet.{TokenSet};
ghost use Rattle.fill_arena.specs.Contents.{EachIn, Extends};
ghost use Rattle.fill_arena.specs.declared.entry.Entry.{Entry};
ghost use Rattle.fill_sources.specs.Found.{AreFound, AreRecalled, IsFound};
ghost use Rattle.fill_sources.specs.Gives.{ArePlacesOf};
ghost use Rattle.fill_sources.specs.Sets.{IsIndexOf, IsPartMade, IsPlaceMade, IsRight, IsSourceMade};
ghost use Rattle.fill_sources.specs.declared.memory.Found.TheVariants.{NotYet};
ghost use Rattle.fill_sources.specs.declared.row.OnRow.{OnRow as Row};

use crate::memory::Found;
use fill_arena::{AtomSet, PlaceSet, SourceSet};
use fill_places::PlaceIndex;
use fill_text::{NoMemory, Text};
use std::alloc::Global;
use std::collections::{BTreeMap, HashMap};

/// What was found of the positions of a text.
#[derive(Drop)]
pub(crate) struct TextPlaces {
    pub(crate) found: Vec<Found>,
    /// Whether something was found on this row.
    pub(crate) is_new: bool,
}

/// The index of places of each text by its number; what was found of the positions of each text by its number; the set of the
/// sources by the number of the text and the depth; the set of the parts by their value and depth.
///
/// Values are texts of strangers, so they are kept in order: no choice of texts makes it slow to look for one.
#[derive(Drop)]
pub(crate) struct Memo<'a> {
    indexes: HashMap<usize, PlaceIndex>,
    pub(crate) places: Vec<TextPlaces>,
    sources: HashMap<(usize, u8), Option<SourceSet>>,
    parts: BTreeMap<(&'a [char], u8), Option<AtomSet>>,
}

impl TextPlaces {
    /// Puts what was found of a position of the text, which has this many.
    fn put(
        &mut self,
        alloc: Global,
        at: usize,
        positions: usize,
        found: Found,
    ) -> Result<(), NoMemory>
        ensures { OnOk result ((token_set : TokenSet) (c : Listed Entry) (v : Listed ℕ) → AreFound token_set c v self.old.found.items → IsFound token_set c v at found → AreFound token_set c v self.new.found.items) }
    {
        make_room(alloc, &mut self.found, at, positions)?;
        put_found(&mut self.found, at, found);
        self.is_new = true;
        Ok(())
    }
}

/// Begins with nothing found of each of these positions, where there is no room for that one.
fn make_room(
    alloc: Global,
    found: &mut Vec<Found>,
    at: usize,
    positions: usize,
) -> Result<(), NoMemory>
    ensures { OnOk result ((token_set : TokenSet) (c : Listed Entry) (v : Listed ℕ) → AreFound token_set c v found.old.items → AreFound token_set c v found.new.items) }
{
    if at < found.len() {
        return Ok(());
    }
    *found = blanks(alloc, positions)?;
    Ok(())
}

/// This many positions of which nothing was found.
#[tactic(auto, using(crate::proofs::Finding::each_same))]
fn blanks(alloc: Global, count: usize) -> Result<Vec<Found>, NoMemory>
    ensures { IfOk result (λ made. EachIn (λ f. f ≡ NotYet) made.items) }
{
    let made = vec![in alloc; Found::NotYet; count]?;
    Ok(made)
}

/// Puts what was found of a position, if there is one.
fn put_found(found: &mut Vec<Found>, at: usize, new: Found)
    ensures { (found.new.items ≡ found.old.items) ⊎ (found.new.items ≡ slice_set found.old.items at new) }
{
    if at < found.len() {
        found[at] = new;
    }
}

/// What is found where this set was made, or none.
fn found_of(made: &Option<PlaceSet>) -> Found
    ensures { (token_set : TokenSet) (c : Listed Entry) (v : Listed ℕ) (k : ℕ) → ((d : Listed Entry) → Extends c d → ArePlacesOf token_set d v k made.now) → IsFound token_set c v k result }
{
    match *made {
        Some(places) => Found::In(places),
        None => Found::Nowhere,
    }
}

impl<'a> Memo<'a> {
    /// What earlier rows found, and nothing of this one yet.
    pub(crate) fn new(alloc: Global, places: Vec<TextPlaces>) -> Memo<'a>
        ensures { (on : Row) (texts : Listed (Listed ℕ)) (c : Listed Entry) → AreRecalled on.settings.profile.tokens c texts places.items → IsRight on texts c result }
    {
        Memo {
            indexes: HashMap::new(alloc),
            places,
            sources: HashMap::new(alloc),
            parts: BTreeMap::new(alloc),
        }
    }

    pub(crate) fn index(&self, k: usize) -> Option<&PlaceIndex>
        ensures { (on : Row) (texts : Listed (Listed ℕ)) (c : Listed Entry) → IsRight on texts c self.now → IfSome result (λ index. IsIndexOf on texts k index.now) }
    {
        self.indexes.get(&k)
    }

    pub(crate) fn keep_index(&mut self, k: usize, index: PlaceIndex) -> Result<(), NoMemory>
        ensures { OnOk result ((on : Row) (texts : Listed (Listed ℕ)) (c : Listed Entry) → IsRight on texts c self.old → IsIndexOf on texts k index → IsRight on texts c self.new) }
    {
        match self.indexes.insert(k, index) {
            Ok(_) => Ok(()),
            Err(_) => Err(NoMemory),
        }
    }

    pub(crate) fn place(&self, k: usize, at: usize) -> Option<Option<PlaceSet>>
        ensures { (on : Row) (texts : Listed (Listed ℕ)) (c : Listed Entry) → IsRight on texts c self.now → IfSome result (IsPlaceMade on texts c (k, at)) }
    {
        if k >= self.places.len() {
            return None;
        }
        let found = self.places[k].found.as_slice();
        if at >= found.len() {
            return None;
        }
        let told = found[at];
        match told {
            Found::NotYet => None,
            Found::Nowhere => Some(None),
            Found::In(places) => Some(Some(places)),
        }
    }

    /// Keeps the set of the places at a position of a text that has this many.
    pub(crate) fn keep_place(
        &mut self,
        alloc: Global,
        k: usize,
        at: usize,
        positions: usize,
        made: &Option<PlaceSet>,
    ) -> Result<(), NoMemory>
        ensures { OnOk result ((on : Row) (texts : Listed (Listed ℕ)) (c : Listed Entry) → IsRight on texts c self.old → IsPlaceMade on texts c (k, at) made.now → IsRight on texts c self.new) }
    {
        if k >= self.places.len() {
            return Ok(());
        }
        self.places[k].put(alloc, at, positions, found_of(made))
    }

    pub(crate) fn source(&self, k: usize, depth: u8) -> Option<Option<SourceSet>>
        ensures { (on : Row) (texts : Listed (Listed ℕ)) (c : Listed Entry) → IsRight on texts c self.now → IfSome result (IsSourceMade on texts c (k, depth)) }
    {
        match self.sources.get(&(k, depth)) {
            Some(made) => Some(*made),
            None => None,
        }
    }

    pub(crate) fn keep_source(
        &mut self,
        k: usize,
        depth: u8,
        made: &Option<SourceSet>,
    ) -> Result<(), NoMemory>
        ensures { OnOk result ((on : Row) (texts : Listed (Listed ℕ)) (c : Listed Entry) → IsRight on texts c self.old → IsSourceMade on texts c (k, depth) made.now → IsRight on texts c self.new) }
    {
        match self.sources.insert((k, depth), *made) {
            Ok(_) => Ok(()),
            Err(_) => Err(NoMemory),
        }
    }

    pub(crate) fn part(&self, w: &'a Text, depth: u8) -> Option<Option<AtomSet>>
        ensures { (on : Row) (texts : Listed (Listed ℕ)) (c : Listed Entry) → IsRight on texts c self.now → IfSome result (IsPartMade on c (w.now, depth)) }
    {
        match self.parts.get(&(w.as_slice(), depth)) {
            Some(made) => Some(*made),
            None => None,
        }
    }

    pub(crate) fn keep_part(
        &mut self,
        w: &'a Text,
        depth: u8,
        made: &Option<AtomSet>,
    ) -> Result<(), NoMemory>
        ensures { OnOk result ((on : Row) (texts : Listed (Listed ℕ)) (c : Listed Entry) → IsRight on texts c self.old → IsPartMade on c (w.now, depth) made.now → IsRight on texts c self.new) }
    {
        match self.parts.insert((w.as_slice(), depth), *made) {
            Ok(_) => Ok(()),
            Err(_) => Err(NoMemory),
        }
    }
}
