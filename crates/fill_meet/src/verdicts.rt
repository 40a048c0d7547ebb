//! What was told of pairs of sets without a new set, in one call.
ghost use Rattle.std.specs.Prelude.{◌≡◌, ◌⊎◌, ℕ, List, set, Some, None, IfOk, IfSome, OnOk};
ghost use Rattle.std.specs.HashMap.{get, Updates};
ghost use Rattle.fill_arena.specs.Contents.{EachIn, In};
ghost use Rattle.fill_arena.specs.declared.entry.Entry.{Entry};
ghost use Rattle.fill_meet.specs.Memory.{pair_eq};
ghost use Rattle.fill_meet.specs.Verdicts.{AreVerdicts, SourcesTried};

use fill_arena::{PlaceSet, SourceSet};
use fill_text::NoMemory;
use std::alloc::Global;
use std::collections::HashMap;

/// The most answers that a table keeps. It is even, because the two slots of a pair are neighbours.
pub(crate) const MOST_ANSWERS: usize = 262_144;

/// An answer on a pair of sets of places. One table tells whether the two may have a place in common, one whether each place of
/// the first stands in the second, and one what their common set is.
#[derive(Clone, Copy)]
pub(crate) struct Verdict<T> {
    pub(crate) s: PlaceSet,
    pub(crate) t: PlaceSet,
    pub(crate) verdict: T,
}

/// For pairs of sets that were tried, whether they may have something in common.
///
/// Of sets of places a table has two slots for each pair. An answer that gave way to another is found again.
#[derive(Drop)]
pub(crate) struct Verdicts {
    pub(crate) alloc: Global,
    pub(crate) places: Vec<Option<Verdict<bool>>>,
    pub(crate) sources: HashMap<(SourceSet, SourceSet), bool>,
}

impl Verdicts {
    /// Tables that tell nothing yet, with room for answers on this count of pairs of sets of places.
    pub(crate) fn new(alloc: Global, pairs: usize) -> Result<Verdicts, NoMemory>
        ensures { IfOk result (λ verdicts. (c : List Entry) → AreVerdicts c verdicts) }
    {
        Ok(Verdicts {
            alloc,
            places: blanks(alloc, pairs.min(MOST_ANSWERS))?,
            sources: HashMap::new(alloc),
        })
    }

    /// Keeps what was told of the pair. Where there is no room for it, all is forgotten.
    pub(crate) fn keep(&mut self, s: SourceSet, t: SourceSet, may: bool)
        ensures { (c : List Entry) → AreVerdicts c self.old → SourcesTried c s t may → AreVerdicts c self.new }
    {
        match tell_sources(&mut self.sources, s, t, may) {
            Ok(()) => {}
            Err(NoMemory) => self.sources = HashMap::new(self.alloc),
        }
    }
}

/// Slots where nothing was told yet.
#[tactic(auto, using(crate::proofs::Trials::each_same))]
pub(crate) fn blanks<T: Copy>(
    alloc: Global,
    count: usize,
) -> Result<Vec<Option<Verdict<T>>>, NoMemory>
    ensures { IfOk result (λ made. EachIn (λ r. r ≡ None) made.items) }
{
    let none: Option<Verdict<T>> = None;
    let made = vec![in alloc; none; count]?;
    Ok(made)
}

/// What was last told at the place, if it was of this pair.
fn recall<T: Copy>(recent: &[Option<Verdict<T>>], at: usize, s: PlaceSet, t: PlaceSet) -> Option<T>
    ensures { IfSome result (λ verdict. In (Some (record { s = s; t = t; verdict = verdict })) recent.now) }
{
    if at >= recent.len() {
        return None;
    }
    let Some(verdict) = recent[at] else {
        return None;
    };
    if verdict.s != s {
        return None;
    }
    if verdict.t != t {
        return None;
    }
    Some(verdict.verdict)
}

/// Keeps what was told at the place, if there is one.
fn keep<T: Copy>(recent: &mut [Option<Verdict<T>>], at: usize, verdict: Verdict<T>)
    ensures { (recent.new ≡ recent.old) ⊎ (recent.new ≡ set recent.old at (Some verdict)) }
{
    if at < recent.len() {
        recent[at] = Some(verdict);
    }
}

/// The first of the two slots that the pair has in a table of this length; the other one is its neighbour.
fn slot_of(s: PlaceSet, t: PlaceSet, length: usize) -> usize {
    let first = (s.index() as u64).wrapping_mul(0x9E37_79B9_7F4A_7C15);
    let both = first.wrapping_add(t.index() as u64);
    let mixed = both.wrapping_mul(0x9E37_79B9_7F4A_7C15) >> 32;
    (mixed.wrapping_mul(length as u64) >> 32) as usize
}

/// What was told of the pair, if no other one took its slots.
pub(crate) fn told_places<T: Copy>(
    places: &[Option<Verdict<T>>],
    s: PlaceSet,
    t: PlaceSet,
) -> Option<T>
    ensures { IfSome result (λ verdict. In (Some (record { s = s; t = t; verdict = verdict })) places.now) }
{
    let first = slot_of(s, t, places.len());
    if let Some(verdict) = recall(places, first, s, t) {
        return Some(verdict);
    }
    recall(places, first ^ 1, s, t)
}

/// Keeps what was told of a pair: in the first of its slots if that is free, and else in the second one, in place of what
/// stands there.
pub(crate) fn tell_places<T: Copy>(places: &mut [Option<Verdict<T>>], verdict: Verdict<T>)
    ensures { (places.new ≡ places.old) ⊎ ((at : ℕ) × (places.new ≡ set places.old at (Some verdict))) }
{
    let first = slot_of(verdict.s, verdict.t, places.len());
    if is_free(places, first) {
        keep(places, first, verdict);
        return;
    }
    keep(places, first ^ 1, verdict);
}

/// Whether nothing was kept at the place.
fn is_free<T: Copy>(places: &[Option<Verdict<T>>], at: usize) -> bool {
    at < places.len() && places[at].is_none()
}

/// What was told of the pair.
pub(crate) fn told_sources(
    table: &HashMap<(SourceSet, SourceSet), bool>,
    s: SourceSet,
    t: SourceSet,
) -> Option<bool>
    ensures { IfSome result (λ may. get pair_eq table.now (s, t) ≡ Some may) }
{
    match table.get(&(s, t)) {
        Some(may) => Some(*may),
        None => None,
    }
}

/// Keeps what was told of the pair, if the table does not have as many pairs as it may.
fn tell_sources(
    table: &mut HashMap<(SourceSet, SourceSet), bool>,
    s: SourceSet,
    t: SourceSet,
    may: bool,
) -> Result<(), NoMemory>
    ensures { OnOk result (Updates pair_eq table.old table.new (s, t) (Some may)) }
{
    if table.len() >= MOST_ANSWERS {
        return Err(NoMemory);
    }
    match table.insert((s, t), may) {
        Ok(_) => Ok(()),
        Err(_) => Err(NoMemory),
    }
}
