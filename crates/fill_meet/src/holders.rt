//! Sets of places by the places that they hold.
ghost use Rattle.std.specs.Prelude.{◌<◌, ◌%◌, IfOk, OnOk};
ghost use Rattle.fill_tokens.specs.declared.place.Place.{Place as Held};
ghost use Rattle.fill_arena.specs.Contents.{EachIn, In, IsPlaceSet, SomeIn};
ghost use Rattle.fill_meet.specs.Groups.{AreKeys};
ghost use Rattle.fill_meet.specs.Mates.{AreHeld, IsHolder};
ghost use Rattle.fill_meet.specs.Runs.{Grows};

use crate::groups::{Groups, group_of};
use fill_arena::{Arena, PlaceSet, hash_place};
use fill_text::NoMemory;
use fill_tokens::Place;
use std::alloc::Global;

/// The hash of a place of a set, and the set's number.
#[derive(Clone, Copy)]
pub(crate) struct Holder {
    pub(crate) hash: u64,
    pub(crate) set: usize,
}

/// The places of sets, in groups by their hashes.
#[derive(Drop)]
pub(crate) struct Holders {
    pub(crate) list: Vec<Holder>,
    pub(crate) groups: Groups,
}

impl Holders {
    pub(crate) fn new(alloc: Global, arena: &Arena, sets: &[PlaceSet]) -> Result<Holders, NoMemory>
        requires { EachIn (IsPlaceSet arena.now) sets.now }
        ensures { IfOk result (AreHeld arena.now sets.now) }
    {
        let mut list = Vec::new(alloc);
        for n in 0..sets.len() {
            put_places(&mut list, n, arena.places(sets[n]))?;
        }
        let count = list.len().saturating_add(1);
        let keys = holder_keys(alloc, list.as_slice(), count)?;
        let groups = Groups::new(alloc, count, keys.as_slice())?;
        Ok(Holders { list, groups })
    }
}

fn put_places(list: &mut Vec<Holder>, set: usize, places: &[Place]) -> Result<(), NoMemory>
    ensures grown { OnOk result (Grows list.old.items list.new.items) }
    ensures each { OnOk result ((p : Held) → In p places.now → SomeIn (IsHolder p set) list.new.items) }
{
    for i in 0..places.len() {
        let hash = hash_place(0, &places[i]);
        list.push(Holder { hash, set })?;
    }
    Ok(())
}

fn holder_keys(alloc: Global, list: &[Holder], count: usize) -> Result<Vec<usize>, NoMemory>
    requires { 0 < count }
    ensures keys { IfOk result (λ keys. AreKeys (λ x. x.hash % count) list.now keys.items) }
    ensures within { IfOk result (λ keys. EachIn (λ k. k < count) keys.items) }
{
    let mut keys = Vec::with_capacity(alloc, list.len())?;
    for i in 0..list.len() {
        keys.push(group_of(list[i].hash, count))?;
    }
    Ok(keys)
}
