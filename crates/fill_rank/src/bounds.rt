//! What the places and atoms of sets cost at least: what costs more than the best so far need not be put together.
ghost use Rattle.std.specs.Prelude.{◌≡◌, ◌⊎◌, ℕ, List as Items, IfOk, IfSome, None, Some, set};
ghost use Rattle.fill_tokens.specs.Prices.{place_cost};
ghost use Rattle.fill_tokens.specs.declared.prices.Prices.{Prices as Table};
ghost use Rattle.fill_tree.specs.Cost.{atom_cost};
ghost use Rattle.fill_arena.specs.Contents.{EachIn, In, IsAtomSet, IsPlaceSet};
ghost use Rattle.fill_arena.specs.Stands.{AtomFits, AtomStands, PlaceStands};
ghost use Rattle.fill_arena.specs.WellMade.{IsAtomItem};
ghost use Rattle.fill_arena.specs.declared.entry.Entry.{Entry};
ghost use Rattle.fill_rank.specs.LowerBounds.{AreBounds, IsLowerBound};

use fill_arena::{Arena, AtomItem, AtomSet, PlaceSet};
use fill_text::NoMemory;
use fill_tokens::{Place, Prices};
use std::alloc::Global;

/// The most bounds that are kept.
const MOST_BOUNDS: usize = 16_384;

/// A set of places, and what each of them costs at least.
#[derive(Clone, Copy)]
pub(crate) struct Bound {
    pub(crate) set: PlaceSet,
    pub(crate) cost: u64,
}

/// Bounds of sets of places, each in the slot that its set's number tells. A bound that gave way to another one is found again.
#[derive(Drop)]
pub(crate) struct Bounds {
    pub(crate) slots: Vec<Option<Bound>>,
}

impl Bounds {
    /// No bound is known yet. There is a slot for each edge of the graph, up to the most.
    pub fn new(alloc: Global, edges: usize) -> Result<Bounds, NoMemory>
        ensures { IfOk result (λ bounds. (prices : Table) (c : Items Entry) → AreBounds prices c bounds) }
    {
        Ok(Bounds {
            slots: no_bounds(alloc, edges.min(MOST_BOUNDS))?,
        })
    }

    /// What each place of the set costs at least.
    fn of_places(&mut self, prices: &Prices, arena: &Arena, s: PlaceSet) -> u64
        requires set { IsPlaceSet arena.now s }
        requires bounds { AreBounds prices.now arena.now self.old }
        ensures bounds { AreBounds prices.now arena.now self.new }
        ensures least { IsLowerBound (place_cost prices.now) (PlaceStands arena.now s) result }
    {
        if let Some(cost) = self.recall(s) {
            return cost;
        }
        let cost = least_cost(prices, arena.places(s));
        self.keep(Bound { set: s, cost });
        cost
    }

    /// The set's bound, if its slot has that.
    fn recall(&self, s: PlaceSet) -> Option<u64>
        ensures { IfSome result (λ cost. In (Some (record { set = s; cost = cost })) self.now.slots.items) }
    {
        if self.slots.len() == 0 {
            return None;
        }
        let Some(bound) = self.slots[s.index() % self.slots.len()] else {
            return None;
        };
        if bound.set != s {
            return None;
        }
        Some(bound.cost)
    }

    /// Keeps a set's bound in its slot, in place of what stands there.
    fn keep(&mut self, bound: Bound)
        ensures { (prices : Table) (c : Items Entry) → AreBounds prices c self.old → IsLowerBound (place_cost prices) (PlaceStands c bound.set) bound.cost → AreBounds prices c self.new }
    {
        if self.slots.len() == 0 {
            return;
        }
        let at = bound.set.index() % self.slots.len();
        self.slots[at] = Some(bound);
    }

    /// What each atom that an item stands for costs at least. A source is taken to cost as little as the cheapest kind of sources.
    pub fn of_item(&mut self, prices: &Prices, arena: &Arena, item: &AtomItem) -> u64
        requires item { (set : ℕ) × IsAtomItem arena.now set item.now }
        requires bounds { AreBounds prices.now arena.now self.old }
        ensures bounds { AreBounds prices.now arena.now self.new }
        ensures least { IsLowerBound (atom_cost prices.now) (λ a. AtomFits a arena.now item.now) result }
    {
        let source = u64::from(prices.column.min(prices.lookup));
        match item {
            AtomItem::Const(_) => u64::from(prices.constant),
            AtomItem::Whole(_) => u64::from(prices.whole) + source,
            AtomItem::Sub(_, lefts, rights) => {
                let left = self.of_places(prices, arena, *lefts);
                let right = self.of_places(prices, arena, *rights);
                let piece = u64::from(prices.piece) + source;
                piece.saturating_add(left).saturating_add(right)
            }
        }
    }

    /// What each atom of the set costs at least.
    pub fn of_set(&mut self, prices: &Prices, arena: &Arena, s: AtomSet) -> u64
        requires set { IsAtomSet arena.now s }
        requires bounds { AreBounds prices.now arena.now self.old }
        ensures bounds { AreBounds prices.now arena.now self.new }
        ensures least { IsLowerBound (atom_cost prices.now) (AtomStands arena.now s) result }
    {
        arena.keeps_made();
        let mut least = u64::MAX;
        for item in arena.atoms(s) {
            least = least.min(self.of_item(prices, arena, item));
        }
        least
    }
}

/// What each of the places costs at least.
fn least_cost(prices: &Prices, places: &[Place]) -> u64
    ensures { IsLowerBound (place_cost prices.now) (λ p. In p places.now) result }
{
    let mut least = u64::MAX;
    for place in places {
        least = least.min(place.cost(prices));
    }
    least
}

/// Slots without a bound.
#[tactic(auto, using(crate::proofs::LowerBounds::each_same))]
fn no_bounds(alloc: Global, count: usize) -> Result<Vec<Option<Bound>>, NoMemory>
    ensures { IfOk result (λ made. EachIn (λ b. b ≡ None) made.items) }
{
    let none: Option<Bound> = None;
    let made = vec![in alloc; none; count]?;
    Ok(made)
}
