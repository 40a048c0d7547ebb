//! The best of sets of places, sources and atoms.
//!
//! The best of a product of sets is the product of the bests, since costs add up and parts are compared one after the
//! other. Lookups are no such product, for not all of their conditions may be constants: see [`Rows`].
ghost use Rattle.std.specs.Prelude.{◌≡◌, ◌<◌, ◌≤◌, ◌∷◌, ℕ, length, List as Items, IfOk, IfSome, IsTrue, OnOk, Some, option_map};
ghost use Rattle.fill_tree.specs.Cost.{atom_cost};
ghost use Rattle.fill_tree.specs.declared.tree.Atom.{Atom as Tree};
ghost use Rattle.fill_rank.specs.LowerBounds.{IsLowerBound};
ghost use Rattle.fill_tokens.specs.declared.prices.Prices.{Prices as Table};
ghost use Rattle.fill_tree.specs.Meaning.{atom_tree, source_tree};
ghost use Rattle.fill_arena.specs.Contents.{EachIn, IsAtomSet, IsPlaceSet, IsSourceSet};
ghost use Rattle.fill_arena.specs.Stands.{AtomStands, PlaceStands, SourceFits, SourceStands, ConstantFits, ConstantStands, PartFits, PartStands};
ghost use Rattle.fill_arena.specs.WellMade.{IsAtomItem, IsConditionItem, IsSelectItem, IsSourceItem};
ghost use Rattle.fill_arena.specs.declared.entry.ConditionItem.{ConditionItem as Listed};
ghost use Rattle.fill_arena.specs.declared.entry.Entry.{Entry};
ghost use Rattle.fill_rank.specs.Memo.{IsMemoOf};
ghost use Rattle.fill_arena.specs.Best.{IsBest, IsBestOf};
ghost use Rattle.fill_tree.specs.Order.{atom_rank, place_rank, source_rank};
ghost use Rattle.fill_rank.specs.Sets.{AreBestRows};

use crate::memo::Memo;
use crate::pick::{least_place, lesser_atom, lesser_source};
use crate::rows::{Rows, no_conditions, put_in_front};
use fill_arena::{
    Arena, AtomItem, AtomSet, ConditionItem, PlaceSet, SelectItem, SourceItem, SourceSet,
};
use fill_text::NoMemory;
use fill_tokens::{Place, Prices};
use fill_tree::{Atom, Select, Source};
use std::alloc::Global;

/// How many items are looked at again sooner than what was found of them is kept.
const FEW_ITEMS: usize = 4;

/// The best place of a set.
fn place_of(prices: &Prices, arena: &Arena, memo: &mut Memo, s: PlaceSet) -> Result<Place, NoMemory>
    requires set { IsPlaceSet arena.now s }
    requires memo { IsMemoOf prices.now arena.now memo.old }
    ensures memo { OnOk result (IsMemoOf prices.now arena.now memo.new) }
    ensures best { IfOk result (λ p. IsBest (place_rank prices.now) (PlaceStands arena.now s) p) }
{
    if let Some(found) = memo.place(s) {
        return Ok(found);
    }
    arena.keeps_made();
    prices.keep_small();
    let best = least_place(prices, arena.places(s));
    memo.keep_place(s, &best)?;
    Ok(best)
}

/// The best source of a set.
#[cycle(sets)]
fn source_of(
    alloc: Global,
    prices: &Prices,
    arena: &Arena,
    memo: &mut Memo,
    s: SourceSet,
) -> Result<Source, NoMemory>
    requires set { IsSourceSet arena.now s }
    requires memo { IsMemoOf prices.now arena.now memo.old }
    ensures memo { OnOk result (IsMemoOf prices.now arena.now memo.new) }
    ensures best { IfOk result (λ x. IsBest (source_rank prices.now) (SourceStands arena.now s) (source_tree x)) }
{
    if let Some(found) = memo.source(s) {
        return found.copy(alloc);
    }
    let best = scan_sources(alloc, prices, arena, memo, s)?;
    memo.keep_source(s, best.copy(alloc)?)?;
    Ok(best)
}

#[cycle(sets)]
fn scan_sources(
    alloc: Global,
    prices: &Prices,
    arena: &Arena,
    memo: &mut Memo,
    s: SourceSet,
) -> Result<Source, NoMemory>
    requires set { IsSourceSet arena.now s }
    requires memo { IsMemoOf prices.now arena.now memo.old }
    ensures memo { OnOk result (IsMemoOf prices.now arena.now memo.new) }
    ensures best { IfOk result (λ x. IsBest (source_rank prices.now) (SourceStands arena.now s) (source_tree x)) }
{
    arena.keeps_made();
    prices.keep_small();
    let items = arena.sources(s);
    let mut best: Option<Source> = None;
    for item in items {
        let next = source_in(alloc, prices, arena, memo, s, item)?;
        best = lesser_source(prices, best, next);
    }
    let Some(source) = best else { unreachable!() };
    Ok(source)
}

/// The best source that an item of the set stands for.
#[cycle(sets)]
fn source_in(
    alloc: Global,
    prices: &Prices,
    arena: &Arena,
    memo: &mut Memo,
    set: SourceSet,
    item: &SourceItem,
) -> Result<Source, NoMemory>
    requires item { IsSourceItem arena.now set item.now }
    requires memo { IsMemoOf prices.now arena.now memo.old }
    ensures memo { OnOk result (IsMemoOf prices.now arena.now memo.new) }
    ensures best { IfOk result (λ x. IsBest (source_rank prices.now) (λ y. SourceFits y arena.now item.now) (source_tree x)) }
{
    match item {
        SourceItem::Col(column) => Ok(Source::Col(*column)),
        SourceItem::Select(listed) => lookup_in(alloc, prices, arena, memo, set, listed),
    }
}

#[cycle(sets)]
fn lookup_in(
    alloc: Global,
    prices: &Prices,
    arena: &Arena,
    memo: &mut Memo,
    set: SourceSet,
    item: &SelectItem,
) -> Result<Source, NoMemory>
    requires item { IsSelectItem arena.now set item.now }
    requires memo { IsMemoOf prices.now arena.now memo.old }
    ensures memo { OnOk result (IsMemoOf prices.now arena.now memo.new) }
    ensures best { IfOk result (λ x. IsBest (source_rank prices.now) (λ y. SourceFits y arena.now (SourceItem.Select item.now)) (source_tree x)) }
{
    let rows = rows_of(alloc, prices, arena, memo, set, item.conditions.as_slice())?;
    let Rows { any: _any, mixed } = rows;
    let Some(row) = mixed else { unreachable!() };
    let select = Select {
        column: item.column,
        table: item.table,
        key: item.key,
        conditions: row.atoms.atoms,
    };
    Ok(Source::Select(Box::new(alloc, select)?))
}

/// The best rows of conditions, put together from the last condition on.
#[cycle(sets)]
fn rows_of(
    alloc: Global,
    prices: &Prices,
    arena: &Arena,
    memo: &mut Memo,
    set: SourceSet,
    items: &[ConditionItem],
) -> Result<Rows, NoMemory>
    requires items { EachIn (IsConditionItem arena.now set) items.now }
    requires few { length items.now ≤ 3 }
    requires memo { IsMemoOf prices.now arena.now memo.old }
    ensures memo { OnOk result (IsMemoOf prices.now arena.now memo.new) }
    ensures best { IfOk result (λ rows. AreBestRows prices.now arena.now items.now rows) }
{
    let mut rows = no_conditions(alloc);
    let mut left = items.len();
    while left > 0 {
        left -= 1;
        rows = longer_rows(alloc, prices, arena, memo, set, &items[left], rows)?;
    }
    Ok(rows)
}

#[cycle(sets)]
fn longer_rows(
    alloc: Global,
    prices: &Prices,
    arena: &Arena,
    memo: &mut Memo,
    set: SourceSet,
    item: &ConditionItem,
    rows: Rows,
) -> Result<Rows, NoMemory>
    requires item { IsConditionItem arena.now set item.now }
    requires rows { (is : Items Listed) × EachIn (IsConditionItem arena.now set) (item.now ∷ is) × (length (item.now ∷ is) ≤ 3) × AreBestRows prices.now arena.now is rows }
    requires memo { IsMemoOf prices.now arena.now memo.old }
    ensures memo { OnOk result (IsMemoOf prices.now arena.now memo.new) }
    ensures best { IfOk result (λ made. (is : Items Listed) → AreBestRows prices.now arena.now is rows → AreBestRows prices.now arena.now (item.now ∷ is) made) }
{
    let constant = match &item.constant {
        Some(text) => Some(Atom::Const(text.copy()?)),
        None => None,
    };
    let part = match item.atoms {
        Some(atoms) => part_of(alloc, prices, arena, memo, atoms)?,
        None => None,
    };
    arena.keeps_made();
    prices.keep_small();
    put_in_front(alloc, prices, constant, part, rows)
}

fn copy_of(alloc: Global, atom: &Option<Atom>) -> Result<Option<Atom>, NoMemory>
    ensures { IfOk result (λ copied. option_map atom_tree copied ≡ option_map atom_tree atom.now) }
{
    match atom {
        Some(atom) => Ok(Some(atom.copy(alloc)?)),
        None => Ok(None),
    }
}

/// The best atom of a set that is no constant, if any.
#[cycle(sets)]
fn part_of(
    alloc: Global,
    prices: &Prices,
    arena: &Arena,
    memo: &mut Memo,
    s: AtomSet,
) -> Result<Option<Atom>, NoMemory>
    requires set { IsAtomSet arena.now s }
    requires memo { IsMemoOf prices.now arena.now memo.old }
    ensures memo { OnOk result (IsMemoOf prices.now arena.now memo.new) }
    ensures best { IfOk result (λ o. IsBestOf atom_tree (atom_rank prices.now) (PartStands arena.now s) o) }
{
    if let Some(found) = memo.part(s) {
        return copy_of(alloc, found);
    }
    let best = scan_parts(alloc, prices, arena, memo, s)?;
    memo.keep_part(s, copy_of(alloc, &best)?)?;
    Ok(best)
}

#[cycle(sets)]
fn scan_parts(
    alloc: Global,
    prices: &Prices,
    arena: &Arena,
    memo: &mut Memo,
    s: AtomSet,
) -> Result<Option<Atom>, NoMemory>
    requires set { IsAtomSet arena.now s }
    requires memo { IsMemoOf prices.now arena.now memo.old }
    ensures memo { OnOk result (IsMemoOf prices.now arena.now memo.new) }
    ensures best { IfOk result (λ o. IsBestOf atom_tree (atom_rank prices.now) (PartStands arena.now s) o) }
{
    arena.keeps_made();
    prices.keep_small();
    let items = arena.atoms(s);
    let mut best: Option<Atom> = None;
    let mut cost: Option<u64> = None;
    for item in items {
        let bound = memo.bounds.of_item(prices, arena, item);
        if !is_below(cost, bound) {
            let next = part_in(alloc, prices, arena, memo, s, item)?;
            best = lesser_atom(prices, best, next);
            cost = cost_of(prices, &best);
        }
    }
    Ok(best)
}

/// The best atom that an item of the set stands for, if it is no constant.
#[cycle(sets)]
fn part_in(
    alloc: Global,
    prices: &Prices,
    arena: &Arena,
    memo: &mut Memo,
    set: AtomSet,
    item: &AtomItem,
) -> Result<Option<Atom>, NoMemory>
    requires item { IsAtomItem arena.now set item.now }
    requires memo { IsMemoOf prices.now arena.now memo.old }
    ensures memo { OnOk result (IsMemoOf prices.now arena.now memo.new) }
    ensures best { IfOk result (λ o. IsBestOf atom_tree (atom_rank prices.now) (λ a. PartFits arena.now item.now a) o) }
{
    match item {
        AtomItem::Const(_) => Ok(None),
        AtomItem::Whole(sources) => Ok(Some(Atom::Whole(source_of(
            alloc, prices, arena, memo, *sources,
        )?))),
        AtomItem::Sub(sources, lefts, rights) => {
            let source = source_of(alloc, prices, arena, memo, *sources)?;
            let left = place_of(prices, arena, memo, *lefts)?;
            let right = place_of(prices, arena, memo, *rights)?;
            Ok(Some(Atom::Sub(source, left, right)))
        }
    }
}

/// The constant that an item stands for, if it is one.
fn constant_in(item: &AtomItem) -> Result<Option<Atom>, NoMemory>
    ensures { (prices : Table) (c : Items Entry) → IfOk result (λ o. IsBestOf atom_tree (atom_rank prices) (λ a. ConstantFits c item.now a) o) }
{
    match item {
        AtomItem::Const(text) => Ok(Some(Atom::Const(text.copy()?))),
        _ => Ok(None),
    }
}

/// The best constant of a set, if any.
fn constant_of(prices: &Prices, arena: &Arena, s: AtomSet) -> Result<Option<Atom>, NoMemory>
    requires { IsAtomSet arena.now s }
    ensures { IfOk result (λ o. IsBestOf atom_tree (atom_rank prices.now) (ConstantStands arena.now s) o) }
{
    arena.keeps_made();
    prices.keep_small();
    let mut best: Option<Atom> = None;
    for item in arena.atoms(s) {
        best = lesser_atom(prices, best, constant_in(item)?);
    }
    Ok(best)
}

/// The best atom of a set, looked for among all of its items.
fn scan_atoms(
    alloc: Global,
    prices: &Prices,
    arena: &Arena,
    memo: &mut Memo,
    s: AtomSet,
) -> Result<Atom, NoMemory>
    requires set { IsAtomSet arena.now s }
    requires memo { IsMemoOf prices.now arena.now memo.old }
    ensures memo { OnOk result (IsMemoOf prices.now arena.now memo.new) }
    ensures best { IfOk result (λ a. IsBest (atom_rank prices.now) (AtomStands arena.now s) (atom_tree a)) }
{
    arena.keeps_made();
    prices.keep_small();
    let constant = constant_of(prices, arena, s)?;
    let part = scan_parts(alloc, prices, arena, memo, s)?;
    let Some(atom) = lesser_atom(prices, constant, part) else {
        unreachable!()
    };
    Ok(atom)
}

/// What the atom costs, if there is one.
fn cost_of(prices: &Prices, atom: &Option<Atom>) -> Option<u64>
    ensures { IfSome result (λ n. (a : Tree) × (atom.now ≡ Some a) × (n ≡ atom_cost prices.now (atom_tree a))) }
{
    let Some(atom) = atom else {
        return None;
    };
    atom.cost(prices)
}

/// Whether the cost is there and below the bound.
fn is_below(cost: Option<u64>, bound: u64) -> bool
    ensures { IsTrue result → (n : ℕ) × (cost ≡ Some n) × (n < bound) }
{
    let Some(cost) = cost else {
        return false;
    };
    cost < bound
}

/// What each atom of a set costs at least; 0 for a set of many items, whose best is kept.
pub(crate) fn bound_of(prices: &Prices, arena: &Arena, memo: &mut Memo, s: AtomSet) -> u64
    requires set { IsAtomSet arena.now s }
    requires memo { IsMemoOf prices.now arena.now memo.old }
    ensures memo { IsMemoOf prices.now arena.now memo.new }
    ensures least { IsLowerBound (atom_cost prices.now) (AtomStands arena.now s) result }
{
    if arena.atoms(s).len() > FEW_ITEMS {
        return 0;
    }
    memo.bounds.of_set(prices, arena, s)
}

/// The best atom of a set.
///
/// It is kept only where the set has many items: a graph has many sets of few, and most of them on one edge.
pub(crate) fn atom_of(
    alloc: Global,
    prices: &Prices,
    arena: &Arena,
    memo: &mut Memo,
    s: AtomSet,
) -> Result<Atom, NoMemory>
    requires set { IsAtomSet arena.now s }
    requires memo { IsMemoOf prices.now arena.now memo.old }
    ensures memo { OnOk result (IsMemoOf prices.now arena.now memo.new) }
    ensures best { IfOk result (λ a. IsBest (atom_rank prices.now) (AtomStands arena.now s) (atom_tree a)) }
{
    if arena.atoms(s).len() <= FEW_ITEMS {
        return scan_atoms(alloc, prices, arena, memo, s);
    }
    if let Some(found) = memo.atom(s) {
        return found.copy(alloc);
    }
    let best = scan_atoms(alloc, prices, arena, memo, s)?;
    memo.keep_atom(s, best.copy(alloc)?)?;
    Ok(best)
}
