//! Sets of places that share a place with others.
ghost use Rattle.std.specs.Prelude.{◌≡◌, ◌<◌, ◌≤◌, ◌%◌, [], ℕ, length, slice_get, IfOk, IfSome, OnOk, Some};
ghost use Rattle.fill_tokens.specs.declared.place.Place.{Place as Held};
ghost use Rattle.fill_arena.specs.Contents.{EachIn, In, IsPlaceSet, SomeIn};
ghost use Rattle.fill_meet.specs.Groups.{AreGroupsOf};
ghost use Rattle.fill_meet.specs.Mates.{AreHeld, AreMates, IsHolder, IsMated};
ghost use Rattle.fill_meet.specs.Runs.{Grows, HasFrom};
ghost use Rattle.fill_meet.specs.declared.holders.Holder.{Holder as Listing};

use crate::holders::{Holder, Holders};
use crate::index::Index;
use crate::labels::note_places;
use crate::runs::{Run, Runs};
use fill_arena::{Arena, PlaceSet, hash_place};
use fill_text::NoMemory;
use fill_tokens::Place;
use std::alloc::Global;
use std::collections::HashMap;

/// A set of places, and the run of the numbers of those that share a place with it.
#[derive(Clone, Copy)]
pub(crate) struct Mated {
    pub(crate) set: PlaceSet,
    pub(crate) run: Run,
}

/// For sets of places the numbers of those of an index that share a place with them. The table tells where a set stands in the
/// list.
#[derive(Drop)]
pub(crate) struct Mates {
    pub(crate) mate_runs: Vec<Mated>,
    pub(crate) table: HashMap<PlaceSet, usize>,
    pub(crate) lists: Runs,
}

impl Mates {
    pub(crate) fn new(alloc: Global, index: &Index) -> Result<Mates, NoMemory>
        ensures { IfOk result (λ m. m.mate_runs.items ≡ []) }
    {
        Ok(Mates {
            mate_runs: Vec::new(alloc),
            table: HashMap::new(alloc),
            lists: Runs::new(alloc, index.places.sets.len())?,
        })
    }

    /// The mates of the set, found once.
    pub(crate) fn find(
        &mut self,
        arena: &Arena,
        index: &Index,
        s: PlaceSet,
    ) -> Result<Run, NoMemory>
        requires set { IsPlaceSet arena.now s }
        requires sets { EachIn (IsPlaceSet arena.now) index.now.places.sets.items }
        requires held { AreHeld arena.now index.now.places.sets.items index.now.holders }
        requires mates { AreMates arena.now index.now.places.sets.items self.old }
        ensures mates { OnOk result (AreMates arena.now index.now.places.sets.items self.new) }
        ensures grown { OnOk result (Grows self.old.lists.numbers.items self.new.lists.numbers.items) }
        ensures found { IfOk result (λ run. IsMated arena.now index.now.places.sets.items self.new.lists.numbers.items (record { set = s; run = run })) }
    {
        if let Some(run) = self.run_of(s) {
            return Ok(run);
        }
        let start = self.lists.numbers.len();
        list_mates(&mut self.lists, start, &index.holders, arena.places(s))?;
        let run = Run {
            start,
            end: self.lists.numbers.len(),
        };
        note_places(&mut self.table, s, self.mate_runs.len());
        self.mate_runs.push(Mated { set: s, run })?;
        Ok(run)
    }

    /// The mates of the set, if the table tells them.
    pub(crate) fn run_of(&self, s: PlaceSet) -> Option<Run>
        ensures { IfSome result (λ run. In (record { set = s; run = run }) self.now.mate_runs.items) }
    {
        let Some(number_there) = self.table.get(&s) else {
            return None;
        };
        let number = *number_there;
        if number >= self.mate_runs.len() {
            return None;
        }
        let mated = self.mate_runs[number];
        if mated.set != s {
            return None;
        }
        Some(mated.run)
    }
}

/// Puts the numbers of the sets that hold one of the places.
fn list_mates(
    lists: &mut Runs,
    start: usize,
    holders: &Holders,
    places: &[Place],
) -> Result<(), NoMemory>
    requires start { start ≤ length lists.old.numbers.items }
    requires some { 0 < length holders.now.groups.firsts.items }
    requires groups { AreGroupsOf (λ x. x.hash % length holders.now.groups.firsts.items) holders.now.list.items holders.now.groups }
    ensures grown { OnOk result (Grows lists.old.numbers.items lists.new.numbers.items) }
    ensures each { OnOk result ((p : Held) (n : ℕ) → In p places.now → SomeIn (IsHolder p n) holders.now.list.items → HasFrom lists.new.numbers.items start n) }
{
    for i in 0..places.len() {
        list_holders(lists, start, holders, hash_place(0, &places[i]))?;
    }
    Ok(())
}

/// Puts the numbers of the sets that hold a place of this hash.
fn list_holders(
    lists: &mut Runs,
    start: usize,
    holders: &Holders,
    hash: u64,
) -> Result<(), NoMemory>
    requires start { start ≤ length lists.old.numbers.items }
    requires some { 0 < length holders.now.groups.firsts.items }
    requires groups { AreGroupsOf (λ x. x.hash % length holders.now.groups.firsts.items) holders.now.list.items holders.now.groups }
    ensures grown { OnOk result (Grows lists.old.numbers.items lists.new.numbers.items) }
    ensures each { OnOk result ((e : ℕ) (x : Listing) → slice_get holders.now.list.items e ≡ Some x → x.hash ≡ hash → HasFrom lists.new.numbers.items start x.set) }
{
    let list = holders.list.as_slice();
    let mut e = holders.groups.first_of(hash);
    while e < list.len() {
        put_holder(lists, start, list[e], hash)?;
        e = holders.groups.next(e);
    }
    Ok(())
}

/// Puts the set's number, if it holds a place of this hash.
#[tactic(auto, using(crate::proofs::Grown::grows_same))]
fn put_holder(lists: &mut Runs, start: usize, holder: Holder, hash: u64) -> Result<(), NoMemory>
    requires start { start ≤ length lists.old.numbers.items }
    ensures grown { OnOk result (Grows lists.old.numbers.items lists.new.numbers.items) }
    ensures has { OnOk result (holder.hash ≡ hash → HasFrom lists.new.numbers.items start holder.set) }
{
    if holder.hash != hash {
        return Ok(());
    }
    lists.put(start, holder.set)
}
