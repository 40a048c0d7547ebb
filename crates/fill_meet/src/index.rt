//! The items of a graph's sets, by what they may have in common with others.
ghost use Rattle.std.specs.Prelude.{◌≡◌, ◌<◌, ◌+◌, ◌%◌, ℕ, length, slice_get, IfOk, OnOk, Some};
ghost use Rattle.fill_arena.specs.Contents.{EachIn, IsAtomSet, IsPlaceSet};
ghost use Rattle.fill_arena.specs.WellMade.{IsAtomItem};
ghost use Rattle.fill_meet.specs.Groups.{AreKeys};
ghost use Rattle.fill_meet.specs.Index.{IsHash, IsIndex, IsListed, IsSomeIndex, ItemsSoFar, constant_hash, piece_hash};
ghost use Rattle.fill_meet.specs.Runs.{Grows};
ghost use Rattle.fill_meet.specs.declared.index.Item.{Item as ItemData};

use crate::groups::{Groups, group_of};
use crate::holders::Holders;
use crate::labels::{Labels, PlaceSets};
use fill_arena::{Arena, AtomItem, Edge, mix};
use fill_text::NoMemory;
use std::alloc::Global;

/// The hash of all wholes.
pub(crate) const WHOLE: u64 = 0;

/// An item of a set: the number of the set, the item's place in it, and the hash that it is found by.
#[derive(Clone, Copy)]
pub(crate) struct Item {
    pub(crate) set: usize,
    pub(crate) place: usize,
    pub(crate) hash: u64,
}

/// A graph's edges by the numbers of their sets, the items of these sets in groups by their hashes, and the sets of places of
/// the items.
#[derive(Drop)]
pub(crate) struct Index {
    pub(crate) labels: Labels,
    pub(crate) by_label: Groups,
    pub(crate) items: Vec<Item>,
    pub(crate) groups: Groups,
    pub(crate) places: PlaceSets,
    pub(crate) holders: Holders,
}

impl Index {
    pub(crate) fn new(alloc: Global, arena: &Arena, edges: &[Edge]) -> Result<Index, NoMemory>
        requires { EachIn (λ e. IsAtomSet arena.now e.atoms) edges.now }
        ensures { IfOk result (IsIndex arena.now edges.now) }
    {
        let labels = Labels::new(alloc, edges)?;
        let by_label = Groups::new(alloc, labels.sets.len(), labels.of.as_slice())?;
        let mut items = Vec::new(alloc);
        let mut places = PlaceSets::new(alloc);
        for n in 0..labels.sets.len() {
            put_set(arena, &labels, n, &mut items, &mut places)?;
        }
        let count = items.len().saturating_add(1);
        let keys = item_keys(alloc, items.as_slice(), count)?;
        let groups = Groups::new(alloc, count, keys.as_slice())?;
        let holders = Holders::new(alloc, arena, places.sets.as_slice())?;
        Ok(Index {
            labels,
            by_label,
            items,
            groups,
            places,
            holders,
        })
    }
}

fn item_keys(alloc: Global, items: &[Item], count: usize) -> Result<Vec<usize>, NoMemory>
    requires { 0 < count }
    ensures keys { IfOk result (λ keys. AreKeys (λ x. x.hash % count) items.now keys.items) }
    ensures within { IfOk result (λ keys. EachIn (λ k. k < count) keys.items) }
{
    let mut keys = Vec::with_capacity(alloc, items.len())?;
    for i in 0..items.len() {
        keys.push(group_of(items[i].hash, count))?;
    }
    Ok(keys)
}

/// Puts the items of the set of the number at the end.
fn put_set(
    arena: &Arena,
    labels: &Labels,
    n: usize,
    items: &mut Vec<Item>,
    places: &mut PlaceSets,
) -> Result<(), NoMemory>
    requires within { n < length labels.now.sets.items }
    requires sets { EachIn (IsAtomSet arena.now) labels.now.sets.items }
    requires state { ItemsSoFar arena.now labels.now.sets.items n 0 items.old.items places.old.sets.items }
    ensures state { OnOk result (ItemsSoFar arena.now labels.now.sets.items (n + 1) 0 items.new.items places.new.sets.items) }
{
    arena.keeps_made();
    let listed = arena.atoms(labels.sets[n]);
    for j in 0..listed.len() {
        let hash = hash_item(arena, &listed[j], places)?;
        items.push(Item {
            set: n,
            place: j,
            hash,
        })?;
    }
    Ok(())
}

/// The hash of an item: of a constant by its length, of pieces by the numbers of their sets of places.
fn hash_item(arena: &Arena, item: &AtomItem, places: &mut PlaceSets) -> Result<u64, NoMemory>
    requires item { (n : ℕ) × IsAtomItem arena.now n item.now }
    requires sets { EachIn (IsPlaceSet arena.now) places.old.sets.items }
    ensures hash { IfOk result (IsHash places.new.sets.items item.now) }
    ensures grown { OnOk result (Grows places.old.sets.items places.new.sets.items) }
    ensures sets { OnOk result (EachIn (IsPlaceSet arena.now) places.new.sets.items) }
{
    match item {
        AtomItem::Const(text) => Ok(hash_constant(text.len())),
        AtomItem::Whole(_) => Ok(WHOLE),
        AtomItem::Sub(_, lefts, rights) => {
            let left = places.put(*lefts)?;
            let right = places.put(*rights)?;
            Ok(hash_piece(left, right))
        }
    }
}

/// The hash of constants of the length.
pub(crate) fn hash_constant(length: usize) -> u64
    ensures { result ≡ constant_hash length }
{
    mix(length as u64, 1)
}

/// The hash of pieces between places of the sets of these numbers.
pub(crate) fn hash_piece(left: usize, right: usize) -> u64
    ensures { result ≡ piece_hash left right }
{
    mix(mix(left as u64, 2), right as u64)
}

/// The item that is listed at the place.
pub(crate) fn item_at<'a>(arena: &'a Arena, index: &Index, e: usize) -> &'a AtomItem
    requires within { e < length index.now.items.items }
    requires index { IsSomeIndex arena.now index.now }
    ensures { (x : ItemData) → slice_get index.now.items.items e ≡ Some x → IsListed arena.now index.now.labels.sets.items x.set x.place result.now }
{
    let item = index.items[e];
    &arena.atoms(index.labels.sets[item.set])[item.place]
}
