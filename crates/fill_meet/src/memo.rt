//! What was found for pairs of sets, in one call.
ghost use Rattle.std.specs.Prelude.{◌≡◌, List, Some, IfOk, IfSome, OnOk};
ghost use Rattle.std.specs.HashMap.{get, Updates};
ghost use Rattle.fill_arena.specs.declared.entry.Entry.{Entry};
ghost use Rattle.fill_meet.specs.Memory.{IsRight, pair_eq};
ghost use Rattle.fill_meet.specs.Sets.{AtomSetsMeet, PlaceSetsMeet, SourceSetsMeet};

use crate::verdicts::{MOST_ANSWERS, Verdict, blanks, tell_places};
use fill_arena::{AtomSet, PlaceSet, SourceSet};
use fill_text::NoMemory;
use std::alloc::Global;
use std::collections::HashMap;

/// How many answers on what stands within another set are kept for each tie.
const ANSWERS_A_TIE: usize = 2;

/// The most answers on what stands within another set. It is even, as `MOST_ANSWERS` is.
const MOST_WITHIN: usize = 131_072;

/// The most pairs of sets of places whose common sets are kept. It is even, as `MOST_ANSWERS` is.
const MOST_COMMON: usize = 65_536;

/// For pairs of sets that were met, their common set, or none where they are apart.
///
/// What is known of two sets of places is kept in slots: their common set, and whether each place of the one stands in the
/// other. What gave way to another answer, or was forgotten where there was no room for more, is found again.
#[derive(Drop)]
pub(crate) struct Memo {
    pub(crate) alloc: Global,
    pub(crate) within: Vec<Option<Verdict<bool>>>,
    pub(crate) places: Vec<Option<Verdict<Option<PlaceSet>>>>,
    pub(crate) sources: HashMap<(SourceSet, SourceSet), Option<SourceSet>>,
    pub(crate) atoms: HashMap<(AtomSet, AtomSet), Option<AtomSet>>,
}

impl Memo {
    /// Tables that tell nothing yet, with room for the answers on this count of ties.
    pub(crate) fn new(alloc: Global, ties: usize) -> Result<Memo, NoMemory>
        ensures { IfOk result (λ memo. (c : List Entry) → IsRight c memo) }
    {
        Ok(Memo {
            alloc,
            within: blanks(alloc, ties.saturating_mul(ANSWERS_A_TIE).min(MOST_WITHIN))?,
            places: blanks(alloc, ties.min(MOST_COMMON))?,
            sources: HashMap::new(alloc),
            atoms: HashMap::new(alloc),
        })
    }

    /// Keeps what was found for the pair of sets of places, in place of what stands in its slots.
    pub(crate) fn keep_places(&mut self, s: PlaceSet, t: PlaceSet, made: &Option<PlaceSet>)
        ensures { (c : List Entry) → IsRight c self.old → PlaceSetsMeet c s t made.now → IsRight c self.new }
    {
        tell_places(
            self.places.as_mut_slice(),
            Verdict {
                s,
                t,
                verdict: *made,
            },
        );
    }

    /// Keeps what was found for the pair of sets of sources. Where there is no room for it, all such pairs are forgotten.
    pub(crate) fn keep_sources(&mut self, s: SourceSet, t: SourceSet, made: &Option<SourceSet>)
        ensures { (c : List Entry) → IsRight c self.old → SourceSetsMeet c s t made.now → IsRight c self.new }
    {
        match put_sources(&mut self.sources, s, t, made) {
            Ok(()) => {}
            Err(NoMemory) => self.sources = HashMap::new(self.alloc),
        }
    }

    /// Keeps what was found for the pair of sets of atoms. Where there is no room for it, all such pairs are forgotten.
    pub(crate) fn keep_atoms(&mut self, s: AtomSet, t: AtomSet, made: &Option<AtomSet>)
        ensures { (c : List Entry) → IsRight c self.old → AtomSetsMeet c s t made.now → IsRight c self.new }
    {
        match put_atoms(&mut self.atoms, s, t, made) {
            Ok(()) => {}
            Err(NoMemory) => self.atoms = HashMap::new(self.alloc),
        }
    }
}

/// What was found for the pair.
pub(crate) fn find_sources(
    table: &HashMap<(SourceSet, SourceSet), Option<SourceSet>>,
    s: SourceSet,
    t: SourceSet,
) -> Option<Option<SourceSet>>
    ensures { IfSome result (λ made. get pair_eq table.now (s, t) ≡ Some made) }
{
    match table.get(&(s, t)) {
        Some(made) => Some(*made),
        None => None,
    }
}

/// Puts what was found for the pair, if the table does not have as many pairs as it may.
fn put_sources(
    table: &mut HashMap<(SourceSet, SourceSet), Option<SourceSet>>,
    s: SourceSet,
    t: SourceSet,
    made: &Option<SourceSet>,
) -> Result<(), NoMemory>
    ensures { OnOk result (Updates pair_eq table.old table.new (s, t) (Some made.now)) }
{
    if table.len() >= MOST_ANSWERS {
        return Err(NoMemory);
    }
    match table.insert((s, t), *made) {
        Ok(_) => Ok(()),
        Err(_) => Err(NoMemory),
    }
}

/// What was found for the pair.
pub(crate) fn find_atoms(
    table: &HashMap<(AtomSet, AtomSet), Option<AtomSet>>,
    s: AtomSet,
    t: AtomSet,
) -> Option<Option<AtomSet>>
    ensures { IfSome result (λ made. get pair_eq table.now (s, t) ≡ Some made) }
{
    match table.get(&(s, t)) {
        Some(made) => Some(*made),
        None => None,
    }
}

/// Puts what was found for the pair, if the table does not have as many pairs as it may.
fn put_atoms(
    table: &mut HashMap<(AtomSet, AtomSet), Option<AtomSet>>,
    s: AtomSet,
    t: AtomSet,
    made: &Option<AtomSet>,
) -> Result<(), NoMemory>
    ensures { OnOk result (Updates pair_eq table.old table.new (s, t) (Some made.now)) }
{
    if table.len() >= MOST_ANSWERS {
        return Err(NoMemory);
    }
    match table.insert((s, t), *made) {
        Ok(_) => Ok(()),
        Err(_) => Err(NoMemory),
    }
}
