//! What the atoms of sets cost at least.
ghost use Rattle.std.specs.Prelude.{◌+◌, ◌≤◌, List as Items, ℕ, IfOk, IfSome, OnOk};
ghost use Rattle.fill_tokens.specs.Prices.{place_cost};
ghost use Rattle.fill_tokens.specs.declared.prices.Prices.{Prices as Table};
ghost use Rattle.fill_tree.specs.Cost.{atom_cost, source_cost, text_cost};
ghost use Rattle.fill_tree.specs.Tree.{AtomTree, SourceTree};
ghost use Rattle.fill_arena.specs.Contents.{EachIn, IsAtomSet, IsPlaceSet};
ghost use Rattle.fill_arena.specs.Stands.{AtomFits, AtomStands, SourceFits};
ghost use Rattle.fill_arena.specs.WellMade.{IsAtomItem};
ghost use Rattle.fill_arena.specs.declared.entry.Entry.{Entry};
ghost use Rattle.fill_object.specs.Bounds.{AreCosts, AreEdgeCosts, IsPlaceLeast};

use fill_arena::{Arena, AtomItem, AtomSet, Edge, PlaceSet, SourceItem, SourceSet};
use fill_text::{NoMemory, Text, is_separator};
use fill_tokens::{Place, Prices};
use std::alloc::Global;
use std::collections::HashMap;

/// The sum; the greatest number where it is above.
pub(crate) fn sum_of(a: u64, b: u64) -> u64
    ensures { result ≤ a + b }
{
    if a > u64::MAX - b { u64::MAX } else { a + b }
}

/// The lesser of two costs.
fn lesser_cost(a: u64, b: u64) -> u64
    ensures first { result ≤ a }
    ensures second { result ≤ b }
{
    if a < b { a } else { b }
}

/// What the places of a list cost at least.
fn least_place_cost(prices: &Prices, places: &[Place]) -> u64
    ensures { EachIn (λ p. result ≤ place_cost prices.now p) places.now }
{
    let mut least = u64::MAX;
    for i in 0..places.len() {
        least = lesser_cost(least, places[i].cost(prices));
    }
    least
}

/// What the sources of an item cost at least: a lookup is taken without its conditions.
fn item_source_cost(prices: &Prices, item: &SourceItem) -> u64
    ensures { (c : Items Entry) (x : SourceTree) → SourceFits x c item.now → result ≤ source_cost prices.now x }
{
    match item {
        SourceItem::Col(_) => u64::from(prices.column),
        SourceItem::Select(_) => u64::from(prices.lookup),
    }
}

/// What the sources of a list of items cost at least.
fn least_source_cost(prices: &Prices, items: &[SourceItem]) -> u64
    ensures { (c : Items Entry) → EachIn (λ i. (x : SourceTree) → SourceFits x c i → result ≤ source_cost prices.now x) items.now }
{
    let mut least = u64::MAX;
    for item in items {
        least = lesser_cost(least, item_source_cost(prices, item));
    }
    least
}

/// What a constant costs at least.
fn least_text_cost(prices: &Prices, text: &Text) -> u64
    ensures { result ≤ text_cost prices.now text.now }
{
    let mut total = u64::from(prices.constant);
    for c in text.as_slice() {
        let own = if is_separator(*c) {
            prices.separator
        } else {
            prices.character
        };
        total = sum_of(total, u64::from(own));
    }
    total
}

/// The least costs of sets of places that were looked at already.
#[derive(Drop)]
pub(crate) struct Costs {
    places: HashMap<PlaceSet, u64>,
}

impl Costs {
    fn new(alloc: Global) -> Costs
        ensures { (prices : Table) (c : Items Entry) → AreCosts prices c result }
    {
        Costs {
            places: HashMap::new(alloc),
        }
    }

    fn recall(&self, s: PlaceSet) -> Option<u64>
        ensures { (prices : Table) (c : Items Entry) → AreCosts prices c self.now → IfSome result (IsPlaceLeast prices c s) }
    {
        self.places.get(&s).copied()
    }

    fn keep(&mut self, s: PlaceSet, least: u64) -> Result<(), NoMemory>
        ensures { OnOk result ((prices : Table) (c : Items Entry) → AreCosts prices c self.old → IsPlaceLeast prices c s least → AreCosts prices c self.new) }
    {
        match self.places.insert(s, least) {
            Ok(_) => Ok(()),
            Err(_) => Err(NoMemory),
        }
    }

    /// What the places of a set cost at least.
    fn of_places(&mut self, prices: &Prices, arena: &Arena, s: PlaceSet) -> Result<u64, NoMemory>
        requires set { IsPlaceSet arena.now s }
        requires memo { AreCosts prices.now arena.now self.old }
        ensures memo { OnOk result (AreCosts prices.now arena.now self.new) }
        ensures least { IfOk result (IsPlaceLeast prices.now arena.now s) }
    {
        if let Some(least) = self.recall(s) {
            return Ok(least);
        }
        let least = least_place_cost(prices, arena.places(s));
        self.keep(s, least)?;
        Ok(least)
    }

    /// What the atoms of an item cost at least.
    fn of_item(&mut self, prices: &Prices, arena: &Arena, item: &AtomItem) -> Result<u64, NoMemory>
        requires item { (s : ℕ) × IsAtomItem arena.now s item.now }
        requires memo { AreCosts prices.now arena.now self.old }
        ensures memo { OnOk result (AreCosts prices.now arena.now self.new) }
        ensures least { IfOk result (λ n. (a : AtomTree) → AtomFits a arena.now item.now → n ≤ atom_cost prices.now a) }
    {
        match item {
            AtomItem::Const(text) => Ok(least_text_cost(prices, text)),
            AtomItem::Whole(sources) => {
                let source = least_source_cost(prices, arena.sources(*sources));
                Ok(sum_of(u64::from(prices.whole), source))
            }
            AtomItem::Sub(sources, lefts, rights) => {
                let source = least_source_cost(prices, arena.sources(*sources));
                let left = self.of_places(prices, arena, *lefts)?;
                let right = self.of_places(prices, arena, *rights)?;
                let piece = sum_of(u64::from(prices.piece), source);
                Ok(sum_of(sum_of(piece, left), right))
            }
        }
    }

    /// What the atoms of a set cost at least.
    fn of_atoms(&mut self, prices: &Prices, arena: &Arena, s: AtomSet) -> Result<u64, NoMemory>
        requires set { IsAtomSet arena.now s }
        requires memo { AreCosts prices.now arena.now self.old }
        ensures memo { OnOk result (AreCosts prices.now arena.now self.new) }
        ensures least { IfOk result (λ n. (a : AtomTree) → AtomStands arena.now s a → n ≤ atom_cost prices.now a) }
    {
        arena.keeps_made();
        let items = arena.atoms(s);
        let mut least = u64::MAX;
        for item in items {
            let own = self.of_item(prices, arena, item)?;
            least = lesser_cost(least, own);
        }
        Ok(least)
    }
}

/// What one more atom costs at least along each edge.
pub(crate) fn edge_costs(
    alloc: Global,
    prices: &Prices,
    arena: &Arena,
    edges: &[Edge],
) -> Result<Vec<u64>, NoMemory>
    requires { EachIn (λ e. IsAtomSet arena.now e.atoms) edges.now }
    ensures { IfOk result (λ costs. AreEdgeCosts prices.now arena.now edges.now costs.items) }
{
    let mut memo = Costs::new(alloc);
    let mut costs = Vec::new(alloc);
    for i in 0..edges.len() {
        let atom = memo.of_atoms(prices, arena, edges[i].atoms)?;
        costs.push(sum_of(u64::from(prices.atom), atom))?;
    }
    Ok(costs)
}
