//! The lesser of two places or trees, by cost and then by their order.
ghost use Rattle.std.specs.Prelude.{◌↔◌, ◌≡◌, ◌<◌, ◌^◌, IsTrue, IfSome, length};
ghost use Rattle.std.specs.declared.cmp.Ordering.TheVariants.{Less};
ghost use Rattle.fill_tokens.specs.Prices.{place_cost};
ghost use Rattle.fill_tokens.specs.declared.prices.Prices.{Prices};
ghost use Rattle.fill_tree.specs.Cost.{atom_cost, source_cost};
ghost use Rattle.fill_tree.specs.Meaning.{atom_tree, source_tree};
ghost use Rattle.fill_arena.specs.Contents.{In};
ghost use Rattle.fill_arena.specs.Best.{IsBest, IsLesser};
ghost use Rattle.fill_tree.specs.Order.{atom_rank, place_rank, source_rank};

use fill_tokens::{Place, Prices};
use fill_tree::{Atom, Source};
use std::cmp::Ordering;

/// The best of the places.
pub(crate) fn least_place(prices: &Prices, places: &[Place]) -> Place
    requires { 0 < length places.now }
    ensures { IsBest (place_rank prices.now) (λ p. In p places.now) result }
{
    let mut best = places[0];
    let mut cost = best.cost(prices);
    for i in 1..places.len() {
        let other = places[i].cost(prices);
        if place_before(&places[i], other, &best, cost) {
            best = places[i];
            cost = other;
        }
    }
    best
}

/// Whether the first place is before the second, with their costs.
fn place_before(a: &Place, a_cost: u64, b: &Place, b_cost: u64) -> bool
    ensures { (prices : Prices) → a_cost ≡ place_cost prices a.now → b_cost ≡ place_cost prices b.now → IsTrue result ↔ (place_rank prices a.now b.now ≡ Less) }
{
    if a_cost != b_cost {
        return a_cost < b_cost;
    }
    a.compare(b) == Ordering::Less
}

/// The lesser of two sources, of which the first may be absent.
pub(crate) fn lesser_source(prices: &Prices, best: Option<Source>, next: Source) -> Option<Source>
    requires best { IfSome best (λ x. source_cost prices.now (source_tree x) < 2 ^ 64) }
    requires next { source_cost prices.now (source_tree next) < 2 ^ 64 }
    ensures { IsLesser (λ x y. source_rank prices.now (source_tree x) (source_tree y)) best (Some next) result }
{
    let Some(memo) = best else {
        return Some(next);
    };
    match next.rank(&memo, prices) {
        Some(Ordering::Less) => Some(next),
        Some(_) => Some(memo),
        None => unreachable!(),
    }
}

/// The lesser of two atoms that may be absent.
pub(crate) fn lesser_atom(prices: &Prices, best: Option<Atom>, next: Option<Atom>) -> Option<Atom>
    requires best { IfSome best (λ x. atom_cost prices.now (atom_tree x) < 2 ^ 64) }
    requires next { IfSome next (λ x. atom_cost prices.now (atom_tree x) < 2 ^ 64) }
    ensures { IsLesser (λ x y. atom_rank prices.now (atom_tree x) (atom_tree y)) best next result }
{
    let Some(memo) = best else {
        return next;
    };
    let Some(other) = next else {
        return Some(memo);
    };
    match other.rank(&memo, prices) {
        Some(Ordering::Less) => Some(other),
        Some(_) => Some(memo),
        None => unreachable!(),
    }
}
