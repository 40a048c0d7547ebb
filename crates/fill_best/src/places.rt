//! The first of sets of places, and of the bounds of pieces.
ghost use Rattle.std.specs.Prelude.{ℕ, ◌+◌, ◌^◌, ◌<◌, Contains, List as Items, IfOk, OnOk};
ghost use Rattle.fill_tokens.specs.Place.{place_cmp};
ghost use Rattle.fill_tokens.specs.Prices.{place_cost};
ghost use Rattle.fill_tokens.specs.declared.place.Place.{Place as Spot};
ghost use Rattle.fill_arena.specs.Contents.{In, IsPlaceSet};
ghost use Rattle.fill_arena.specs.Stands.{PlaceStands};
ghost use Rattle.fill_arena.specs.declared.entry.Entry.{Entry};
ghost use Rattle.fill_best.specs.Cheapest.{AreCheapest};
ghost use Rattle.fill_best.specs.Memo.{IsMemoOf};
ghost use Rattle.fill_best.specs.Parts.{BoundsStand, bounds_cmp, bounds_cost};
ghost use Rattle.fill_best.specs.declared.costed.Costed.{Costed as Cost};

use crate::costed::Costed;
use crate::first::{put, put_products};
use crate::memo::{Memo, Shortlist};
use crate::parts::Bounds;
use fill_arena::{Arena, PlaceSet};
use fill_text::NoMemory;
use fill_tokens::{Place, Prices};
use std::alloc::Global;
use std::rc::Rc;

/// The first of some places.
fn first_places(
    alloc: Global,
    prices: &Prices,
    limit: usize,
    places: &[Place],
) -> Result<Vec<Costed<Place>>, NoMemory>
    ensures { IfOk result (λ first. AreCheapest (place_cost prices.now) place_cmp (λ p. In p places.now) limit first.items) }
{
    let mut ranking = Vec::new(alloc);
    for place in places {
        let next = Costed {
            cost: place.cost(prices),
            item: *place,
        };
        put(&mut ranking, limit, next)?;
    }
    Ok(ranking)
}

/// The first places of a set.
pub(crate) fn places_of(
    alloc: Global,
    prices: &Prices,
    arena: &Arena,
    limit: usize,
    memo: &mut Memo,
    s: PlaceSet,
) -> Result<Shortlist<Place>, NoMemory>
    requires set { IsPlaceSet arena.now s }
    requires memo { IsMemoOf prices.now arena.now limit memo.old }
    ensures memo { OnOk result (IsMemoOf prices.now arena.now limit memo.new) }
    ensures first { IfOk result (λ shortlist. AreCheapest (place_cost prices.now) place_cmp (PlaceStands arena.now s) limit shortlist.value.items) }
{
    if let Some(shortlist) = memo.places(s) {
        return Ok(shortlist.clone()?);
    }
    let shortlist = Rc::new(alloc, first_places(alloc, prices, limit, arena.places(s))?)?;
    memo.keep_places(s, shortlist.clone()?)?;
    Ok(shortlist)
}

/// The first bounds of two sets of places.
pub(crate) fn bounds_of(
    alloc: Global,
    prices: &Prices,
    limit: usize,
    lefts: &[Costed<Place>],
    rights: &[Costed<Place>],
) -> Result<Vec<Costed<Bounds>>, NoMemory>
    requires rising { (c : Items Entry) × (r : ℕ) × AreCheapest (place_cost prices.now) place_cmp (PlaceStands c r) limit rights.now }
    requires cheap { (x y : Cost Spot) → Contains lefts.now x → Contains rights.now y → 0 + x.cost + y.cost < 2 ^ 64 }
    ensures { IfOk result (λ first. (c : Items Entry) (l r : ℕ) → AreCheapest (place_cost prices.now) place_cmp (PlaceStands c l) limit lefts.now →
        AreCheapest (place_cost prices.now) place_cmp (PlaceStands c r) limit rights.now → AreCheapest (bounds_cost prices.now) bounds_cmp (BoundsStand c l r) limit first.items) }
{
    prices.keep_small();
    let mut bounds = Vec::new(alloc);
    put_products(alloc, &mut bounds, limit, 0, lefts, rights)?;
    Ok(bounds)
}
