//! What two sets of places have in common.
ghost use Rattle.std.specs.Prelude.{◌≡◌, ◌↔◌, IfOk, IsTrue, OnOk};
ghost use Rattle.std.specs.List.{AllPairs};
ghost use Rattle.std.specs.declared.cmp.Ordering.TheVariants.{Less};
ghost use Rattle.fill_tokens.specs.Place.{place_cmp};
ghost use Rattle.fill_tokens.specs.declared.place.Place.{Place};
ghost use Rattle.fill_arena.specs.Contents.{EachIn, Extends, In, IsPlaceSet};
ghost use Rattle.fill_arena.specs.WellMade.{ArePlaces};
ghost use Rattle.fill_meet.specs.Memory.{IsRight};
ghost use Rattle.fill_meet.specs.Sets.{IsWithin, PlaceSetsMeet};

use crate::memo::Memo;
use crate::verdicts::told_places;
use crate::within::are_places_within;
use fill_arena::{Arena, PlaceSet};
use fill_text::{List, NoMemory};
use fill_tokens::Place;
use std::alloc::Global;
use std::cmp::Ordering;

/// The set of the places that stand in both sets, or none where there are none.
pub(crate) fn meet_places(
    arena: &mut Arena,
    memo: &mut Memo,
    s: PlaceSet,
    t: PlaceSet,
) -> Result<Option<PlaceSet>, NoMemory>
    requires memo { IsRight arena.old memo.old }
    requires first { IsPlaceSet arena.old s }
    requires second { IsPlaceSet arena.old t }
    ensures extends { Extends arena.old arena.new }
    ensures memo { OnOk result (IsRight arena.new memo.new) }
    ensures met { IfOk result (PlaceSetsMeet arena.new s t) }
{
    if s == t {
        arena.keeps_made();
        return Ok(Some(s));
    }
    if let Some(made) = told_places(memo.places.as_slice(), s, t) {
        return Ok(made);
    }
    let made = make_places(arena, memo, s, t)?;
    memo.keep_places(s, t, &made);
    Ok(made)
}

/// What two different sets of places have in common, found anew.
///
/// Where each place of the one set stands in the other, it is their common set. A further example mostly leaves a set as it was.
fn make_places(
    arena: &mut Arena,
    memo: &mut Memo,
    s: PlaceSet,
    t: PlaceSet,
) -> Result<Option<PlaceSet>, NoMemory>
    requires memo { IsRight arena.old memo.old }
    requires first { IsPlaceSet arena.old s }
    requires second { IsPlaceSet arena.old t }
    ensures extends { Extends arena.old arena.new }
    ensures memo { IsRight arena.new memo.new }
    ensures met { IfOk result (PlaceSetsMeet arena.new s t) }
{
    if are_places_within(arena, memo, s, t) {
        return Ok(Some(s));
    }
    if are_places_within(arena, memo, t, s) {
        return Ok(Some(t));
    }
    intern_common(arena, memo, s, t)
}

/// Whether each place of the first set stands in the second one.
pub(crate) fn is_within(arena: &Arena, s: PlaceSet, t: PlaceSet) -> bool
    requires first { IsPlaceSet arena.now s }
    requires second { IsPlaceSet arena.now t }
    ensures { IsTrue result → IsWithin arena.now s t }
{
    arena.keeps_made();
    lists_all(arena.places(t), arena.places(s))
}

/// Whether each of the places is in the list, found by one pass. Different sets of as many places are not tried.
fn lists_all(xs: &[Place], places: &[Place]) -> bool
    ensures { IsTrue result → EachIn (λ p. In p xs.now) places.now }
{
    if places.len() >= xs.len() {
        return false;
    }
    let mut i = 0;
    for k in 0..xs.len() {
        if i >= places.len() {
            return true;
        }
        if are_same(&xs[k], &places[i]) {
            i += 1;
            continue;
        }
        if is_past(&xs[k], &places[i]) {
            return false;
        }
    }
    i >= places.len()
}

/// Whether the two are one place.
fn are_same(x: &Place, place: &Place) -> bool
    ensures { IsTrue result → x.now ≡ place.now }
{
    if !have_same_counts(x, place) {
        return false;
    }
    x.same(place)
}

/// Whether both are fixed at one position, or have the same count, as most different places have not.
fn have_same_counts(x: &Place, y: &Place) -> bool {
    match (x, y) {
        (Place::CPos(a), Place::CPos(b)) => *a == *b,
        (Place::Pos(_, _, a), Place::Pos(_, _, b)) => *a == *b,
        _ => false,
    }
}

/// Whether the first place comes after all fixed ones, of which the second one is.
fn is_past(x: &Place, place: &Place) -> bool {
    matches!((x, place), (Place::Pos(_, _, _), Place::CPos(_)))
}

/// The set of the places that stand in both sets, made from their lists.
fn intern_common(
    arena: &mut Arena,
    memo: &Memo,
    s: PlaceSet,
    t: PlaceSet,
) -> Result<Option<PlaceSet>, NoMemory>
    requires first { IsPlaceSet arena.old s }
    requires second { IsPlaceSet arena.old t }
    ensures extends { Extends arena.old arena.new }
    ensures met { IfOk result (PlaceSetsMeet arena.new s t) }
{
    arena.keeps_made();
    let both = common_places(memo.alloc, arena.places(s), arena.places(t))?;
    if both.len() == 0 {
        return Ok(None);
    }
    Ok(Some(arena.intern_places(both.as_slice())?))
}

/// The places of both lists, found by one merge.
fn common_places(alloc: Global, xs: &[Place], ys: &[Place]) -> Result<List<Place>, NoMemory>
    requires first { ArePlaces xs.now }
    requires second { ArePlaces ys.now }
    ensures both { IfOk result (λ both. (p : Place) → In p both ↔ (In p xs.now × In p ys.now)) }
    ensures rising { IfOk result (λ both. AllPairs (λ p q. place_cmp p q ≡ Less) both) }
{
    let mut both = List::with_capacity(alloc, xs.len().min(ys.len()))?;
    let mut i = 0;
    let mut j = 0;
    while i < xs.len() && j < ys.len() {
        match xs[i].compare(&ys[j]) {
            Ordering::Less => i += 1,
            Ordering::Greater => j += 1,
            Ordering::Equal => {
                both.push(xs[i])?;
                i += 1;
                j += 1;
            }
        }
    }
    Ok(both)
}
