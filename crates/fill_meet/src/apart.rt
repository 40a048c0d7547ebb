//! Whether sets are apart, told without a new set.
ghost use Rattle.std.specs.Prelude.{◌≡◌, ◌↔◌, ℕ, false, IsTrue};
ghost use Rattle.fill_arena.specs.Contents.{EachIn, In, IsPlaceSet, IsSourceSet, SomeIn};
ghost use Rattle.fill_arena.specs.Stands.{SourceStands};
ghost use Rattle.fill_arena.specs.WellMade.{ArePlaces, IsAtomItem};
ghost use Rattle.fill_meet.specs.Meet.{AreApart};
ghost use Rattle.fill_meet.specs.Sets.{AtomIn};
ghost use Rattle.fill_meet.specs.Verdicts.{AreAlike, AreVerdicts, PlacesTried};

use crate::sets::have_same_numbers;
use crate::verdicts::{Verdict, Verdicts, tell_places, told_places, told_sources};
use fill_arena::{Arena, AtomItem, PlaceSet, SourceItem, SourceSet};
use fill_tokens::Place;
use std::cmp::Ordering;

/// How many pairs of items are few.
const FEW_PAIRS: usize = 16;

/// Whether two sets with these counts of items make many pairs.
pub(crate) fn are_many(xs: usize, ys: usize) -> bool {
    xs.saturating_mul(ys) > FEW_PAIRS
}

/// Whether some atom may be of an item of each list, told by the items in pairs.
pub(crate) fn atoms_may_meet(
    arena: &Arena,
    verdicts: &mut Verdicts,
    xs: &[AtomItem],
    ys: &[AtomItem],
) -> bool
    requires verdicts { AreVerdicts arena.now verdicts.old }
    requires first { (n : ℕ) × EachIn (IsAtomItem arena.now n) xs.now }
    requires second { (n : ℕ) × EachIn (IsAtomItem arena.now n) ys.now }
    ensures verdicts { AreVerdicts arena.now verdicts.new }
    ensures apart { result ≡ false → EachIn (λ x. EachIn (AreApart AtomIn arena.now x) ys.now) xs.now }
{
    for i in 0..xs.len() {
        if meets_some(arena, verdicts, &xs[i], ys) {
            return true;
        }
    }
    false
}

/// Whether the item may have an atom in common with one of the others.
fn meets_some(arena: &Arena, verdicts: &mut Verdicts, x: &AtomItem, ys: &[AtomItem]) -> bool
    requires verdicts { AreVerdicts arena.now verdicts.old }
    requires first { (n : ℕ) × IsAtomItem arena.now n x.now }
    requires second { (n : ℕ) × EachIn (IsAtomItem arena.now n) ys.now }
    ensures verdicts { AreVerdicts arena.now verdicts.new }
    ensures apart { result ≡ false → EachIn (AreApart AtomIn arena.now x.now) ys.now }
{
    for j in 0..ys.len() {
        if items_may_meet(arena, verdicts, x, &ys[j]) {
            return true;
        }
    }
    false
}

/// Whether some atom may be of both items.
///
/// The ends of pieces are tried before their starts: something leads to a pair of nodes, so pieces from there mostly start at a
/// common place.
fn items_may_meet(arena: &Arena, verdicts: &mut Verdicts, x: &AtomItem, y: &AtomItem) -> bool
    requires verdicts { AreVerdicts arena.now verdicts.old }
    requires first { (n : ℕ) × IsAtomItem arena.now n x.now }
    requires second { (n : ℕ) × IsAtomItem arena.now n y.now }
    ensures verdicts { AreVerdicts arena.now verdicts.new }
    ensures apart { result ≡ false → AreApart AtomIn arena.now x.now y.now }
{
    match (x, y) {
        (AtomItem::Const(u), AtomItem::Const(v)) => u.same(v),
        (AtomItem::Whole(s), AtomItem::Whole(t)) => sources_may_meet(arena, verdicts, *s, *t),
        (AtomItem::Sub(s, p, q), AtomItem::Sub(t, u, v)) => {
            if *s != *t {
                if !sources_may_meet(arena, verdicts, *s, *t) {
                    return false;
                }
            }
            if !places_may_meet(arena, verdicts, *q, *v) {
                return false;
            }
            places_may_meet(arena, verdicts, *p, *u)
        }
        _ => false,
    }
}

/// Whether some place stands in both sets.
fn places_may_meet(arena: &Arena, verdicts: &mut Verdicts, s: PlaceSet, t: PlaceSet) -> bool
    requires verdicts { AreVerdicts arena.now verdicts.old }
    requires first { IsPlaceSet arena.now s }
    requires second { IsPlaceSet arena.now t }
    ensures verdicts { AreVerdicts arena.now verdicts.new }
    ensures apart { PlacesTried arena.now s t result }
{
    if s == t {
        return true;
    }
    if let Some(may) = told_places(verdicts.places.as_slice(), s, t) {
        return may;
    }
    arena.keeps_made();
    let may = share_place(arena.places(s), arena.places(t));
    tell_places(
        verdicts.places.as_mut_slice(),
        Verdict { s, t, verdict: may },
    );
    may
}

/// Whether some place is in both lists, found by one merge.
fn share_place(xs: &[Place], ys: &[Place]) -> bool
    requires first { ArePlaces xs.now }
    requires second { ArePlaces ys.now }
    ensures { IsTrue result ↔ SomeIn (λ p. In p ys.now) xs.now }
{
    let mut i = 0;
    let mut j = 0;
    while i < xs.len() && j < ys.len() {
        match xs[i].compare(&ys[j]) {
            Ordering::Less => i += 1,
            Ordering::Greater => j += 1,
            Ordering::Equal => return true,
        }
    }
    false
}

/// Whether some source may stand in both sets.
pub(crate) fn sources_may_meet(
    arena: &Arena,
    verdicts: &mut Verdicts,
    s: SourceSet,
    t: SourceSet,
) -> bool
    requires verdicts { AreVerdicts arena.now verdicts.old }
    requires first { IsSourceSet arena.now s }
    requires second { IsSourceSet arena.now t }
    ensures verdicts { AreVerdicts arena.now verdicts.new }
    ensures apart { result ≡ false → AreApart SourceStands arena.now s t }
{
    if s == t {
        return true;
    }
    let xs = arena.sources(s);
    let ys = arena.sources(t);
    if !are_many(xs.len(), ys.len()) {
        return share_source(xs, ys);
    }
    if let Some(may) = told_sources(&verdicts.sources, s, t) {
        return may;
    }
    let may = share_source(xs, ys);
    verdicts.keep(s, t, may);
    may
}

/// Whether some item of the first list is like one of the second.
fn share_source(xs: &[SourceItem], ys: &[SourceItem]) -> bool
    ensures { IsTrue result ↔ SomeIn (λ x. SomeIn (AreAlike x) ys.now) xs.now }
{
    for x in xs {
        if is_like_some(x, ys) {
            return true;
        }
    }
    false
}

fn is_like_some(x: &SourceItem, ys: &[SourceItem]) -> bool
    ensures { IsTrue result ↔ SomeIn (AreAlike x.now) ys.now }
{
    for y in ys {
        if are_alike(x, y) {
            return true;
        }
    }
    false
}

/// Whether both are the same column, or lookups of the same numbers.
fn are_alike(x: &SourceItem, y: &SourceItem) -> bool
    ensures { IsTrue result ↔ AreAlike x.now y.now }
{
    match (x, y) {
        (SourceItem::Col(u), SourceItem::Col(v)) => *u == *v,
        (SourceItem::Select(u), SourceItem::Select(v)) => have_same_numbers(u, v),
        _ => false,
    }
}
