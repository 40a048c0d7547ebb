//! Whether a set has nothing but what stands in a second one, told without a new list.
ghost use Rattle.std.specs.Prelude.{ℕ, IsTrue};
ghost use Rattle.fill_arena.specs.Contents.{EachIn, IsAtomSet, IsPlaceSet, SomeIn};
ghost use Rattle.fill_arena.specs.WellMade.{IsAtomItem};
ghost use Rattle.fill_meet.specs.Memory.{IsRight};
ghost use Rattle.fill_meet.specs.Sets.{AreAtomsMet, IsItemWithin, IsWithin};

use crate::memo::Memo;
use crate::places::is_within;
use crate::verdicts::{Verdict, tell_places, told_places};
use fill_arena::{Arena, AtomItem, AtomSet, PlaceSet};

/// Whether the first set has nothing but what stands in the second one, so that it is what they have in common. Where it
/// tells no, that may be so too.
///
/// An example more mostly leaves a set as it was. Then no item is copied, and no set is looked for among all others.
pub(crate) fn are_atoms_within(arena: &Arena, memo: &mut Memo, s: AtomSet, t: AtomSet) -> bool
    requires memo { IsRight arena.now memo.old }
    requires first { IsAtomSet arena.now s }
    requires second { IsAtomSet arena.now t }
    ensures memo { IsRight arena.now memo.new }
    ensures within { IsTrue result → AreAtomsMet arena.now s t s }
{
    arena.keeps_made();
    let xs = arena.atoms(s);
    let ys = arena.atoms(t);
    for i in 0..xs.len() {
        if !is_in_some(arena, memo, &xs[i], ys) {
            return false;
        }
    }
    true
}

/// Whether one of the others has all that the item has.
fn is_in_some(arena: &Arena, memo: &mut Memo, x: &AtomItem, ys: &[AtomItem]) -> bool
    requires memo { IsRight arena.now memo.old }
    requires first { (n : ℕ) × IsAtomItem arena.now n x.now }
    requires second { (n : ℕ) × EachIn (IsAtomItem arena.now n) ys.now }
    ensures memo { IsRight arena.now memo.new }
    ensures within { IsTrue result → SomeIn (IsItemWithin arena.now x.now) ys.now }
{
    for j in 0..ys.len() {
        if is_item_within(arena, memo, x, &ys[j]) {
            return true;
        }
    }
    false
}

/// Whether the second item has all that the first one has; of sources only where they are the same.
fn is_item_within(arena: &Arena, memo: &mut Memo, x: &AtomItem, y: &AtomItem) -> bool
    requires memo { IsRight arena.now memo.old }
    requires first { (n : ℕ) × IsAtomItem arena.now n x.now }
    requires second { (n : ℕ) × IsAtomItem arena.now n y.now }
    ensures memo { IsRight arena.now memo.new }
    ensures within { IsTrue result → IsItemWithin arena.now x.now y.now }
{
    arena.keeps_made();
    match (x, y) {
        (AtomItem::Const(u), AtomItem::Const(v)) => u.same(v),
        (AtomItem::Whole(s), AtomItem::Whole(t)) => *s == *t,
        (AtomItem::Sub(s, p, q), AtomItem::Sub(t, u, v)) => {
            if *s != *t {
                return false;
            }
            if !are_places_within(arena, memo, *p, *u) {
                return false;
            }
            are_places_within(arena, memo, *q, *v)
        }
        _ => false,
    }
}

/// Whether each place of the first set stands in the second one, by the slots of all pairs.
pub(crate) fn are_places_within(arena: &Arena, memo: &mut Memo, s: PlaceSet, t: PlaceSet) -> bool
    requires memo { IsRight arena.now memo.old }
    requires first { IsPlaceSet arena.now s }
    requires second { IsPlaceSet arena.now t }
    ensures memo { IsRight arena.now memo.new }
    ensures within { IsTrue result → IsWithin arena.now s t }
{
    if s == t {
        arena.keeps_made();
        return true;
    }
    if let Some(within) = told_places(memo.within.as_slice(), s, t) {
        return within;
    }
    let within = is_within(arena, s, t);
    tell_places(
        memo.within.as_mut_slice(),
        Verdict {
            s,
            t,
            verdict: within,
        },
    );
    within
}
