//! The first atoms of the edges of a graph.
ghost use Rattle.std.specs.Prelude.{◌≡◌, ◌≤◌, ℕ, length, List as Items, IfOk, OnOk};
ghost use Rattle.fill_tree.specs.Cost.{atom_cost};
ghost use Rattle.fill_tree.specs.Order.{atom_cmp};
ghost use Rattle.fill_tree.specs.Tree.{constant};
ghost use Rattle.fill_arena.specs.Contents.{EachIn, IsAtomSet, SomeIn};
ghost use Rattle.fill_arena.specs.Stands.{AtomStands, ConstantFits};
ghost use Rattle.fill_arena.specs.WellMade.{IsAtomItem};
ghost use Rattle.fill_arena.specs.declared.entry.Entry.{Entry};
ghost use Rattle.fill_best.specs.Cheapest.{AreCheapest, TakesIn};
ghost use Rattle.fill_best.specs.Costs.{by_cost};
ghost use Rattle.fill_best.specs.First.{Rises};
ghost use Rattle.fill_best.specs.Memo.{IsMemoOf};

use crate::costed::Costed;
use crate::first::put;
use crate::memo::{Memo, Shortlist};
use crate::plain::PlainAtom;
use crate::sets::scan_parts;
use fill_arena::{Arena, AtomItem, AtomSet};
use fill_text::{NoMemory, Text};
use fill_tokens::Prices;
use fill_tree::MOST_CHARACTERS;
use std::alloc::Global;
use std::rc::Rc;

/// Puts a constant of a text.
fn put_text(
    prices: &Prices,
    limit: usize,
    text: &Text,
    ranking: &mut Vec<Costed<PlainAtom>>,
) -> Result<(), NoMemory>
    requires short { length text.now ≤ MOST_CHARACTERS }
    requires rising { Rises (by_cost atom_cmp) ranking.old.items }
    requires few { length ranking.old.items ≤ limit }
    ensures { OnOk result (TakesIn (atom_cost prices.now) atom_cmp (λ a. constant text.now ≡ a) limit ranking.old.items ranking.new.items) }
{
    prices.keep_small();
    let item = PlainAtom::constant(text)?;
    let Some(cost) = item.cost(prices) else {
        unreachable!()
    };
    put(ranking, limit, Costed { cost, item })?;
    Ok(())
}

/// Puts the constant that an item stands for, if it is one.
fn put_constant(
    prices: &Prices,
    limit: usize,
    item: &AtomItem,
    ranking: &mut Vec<Costed<PlainAtom>>,
) -> Result<(), NoMemory>
    requires item { (c : Items Entry) × (n : ℕ) × IsAtomItem c n item.now }
    requires rising { Rises (by_cost atom_cmp) ranking.old.items }
    requires few { length ranking.old.items ≤ limit }
    ensures { OnOk result ((c : Items Entry) → TakesIn (atom_cost prices.now) atom_cmp (ConstantFits c item.now) limit ranking.old.items ranking.new.items) }
{
    match item {
        AtomItem::Const(text) => put_text(prices, limit, text, ranking),
        _ => Ok(()),
    }
}

/// Puts the constants among some items.
fn put_constants(
    prices: &Prices,
    limit: usize,
    items: &[AtomItem],
    ranking: &mut Vec<Costed<PlainAtom>>,
) -> Result<(), NoMemory>
    requires items { (c : Items Entry) × (n : ℕ) × EachIn (IsAtomItem c n) items.now }
    requires rising { Rises (by_cost atom_cmp) ranking.old.items }
    requires few { length ranking.old.items ≤ limit }
    ensures { OnOk result ((c : Items Entry) → TakesIn (atom_cost prices.now) atom_cmp (λ a. SomeIn (λ i. ConstantFits c i a) items.now) limit ranking.old.items ranking.new.items) }
{
    for item in items {
        put_constant(prices, limit, item, ranking)?;
    }
    Ok(())
}

/// The first atoms of a set.
pub(crate) fn atoms_of(
    alloc: Global,
    prices: &Prices,
    arena: &Arena,
    limit: usize,
    memo: &mut Memo,
    s: AtomSet,
) -> Result<Shortlist<PlainAtom>, NoMemory>
    requires set { IsAtomSet arena.now s }
    requires some { 1 ≤ limit }
    requires memo { IsMemoOf prices.now arena.now limit memo.old }
    ensures memo { OnOk result (IsMemoOf prices.now arena.now limit memo.new) }
    ensures first { IfOk result (λ shortlist. AreCheapest (atom_cost prices.now) atom_cmp (AtomStands arena.now s) limit shortlist.value.items) }
{
    if let Some(shortlist) = memo.atoms(s) {
        return Ok(shortlist.clone()?);
    }
    arena.keeps_made();
    prices.keep_small();
    let mut ranking = scan_parts(alloc, prices, arena, limit, memo, s)?;
    put_constants(prices, limit, arena.atoms(s), &mut ranking)?;
    let shortlist = Rc::new(alloc, ranking)?;
    memo.keep_atoms(s, shortlist.clone()?)?;
    Ok(shortlist)
}
