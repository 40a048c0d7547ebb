//! The first of sets of sources, and of the atoms that are no constants.
//!
//! The first of a product of sets are made of their first, since costs add up and parts are compared one after the other.
//! Lookups are no such product, for not all of their conditions may be constants: see [`Rows`].
ghost use Rattle.std.specs.Prelude.{◌≤◌, ◌∷◌, length, List as Items, IfOk, OnOk};
ghost use Rattle.fill_tree.specs.Cost.{atom_cost, source_cost};
ghost use Rattle.fill_tree.specs.Order.{atom_cmp, source_cmp};
ghost use Rattle.fill_arena.specs.Contents.{EachIn, IsAtomSet, IsSourceSet};
ghost use Rattle.fill_arena.specs.Stands.{SourceFits, SourceStands, PartFits, PartStands};
ghost use Rattle.fill_arena.specs.WellMade.{IsAtomItem, IsConditionItem, IsSelectItem, IsSourceItem};
ghost use Rattle.fill_arena.specs.declared.entry.ConditionItem.{ConditionItem as Listed};
ghost use Rattle.fill_best.specs.Cheapest.{AreCheapest, TakesIn};
ghost use Rattle.fill_best.specs.Costs.{by_cost};
ghost use Rattle.fill_best.specs.First.{Rises};
ghost use Rattle.fill_best.specs.Memo.{IsMemoOf};
ghost use Rattle.fill_best.specs.Rows.{AreFirstParts, AreFirstRows};

use crate::costed::Costed;
use crate::first::{put, put_products};
use crate::memo::{Memo, Shortlist};
use crate::parts::{Target, WholeText};
use crate::places::{bounds_of, places_of};
use crate::plain::{PlainAtom, PlainSource};
use crate::rows::{Rows, constants_of, no_conditions, put_in_front};
use fill_arena::{Arena, AtomItem, AtomSet, ConditionItem, SelectItem, SourceItem, SourceSet};
use fill_text::NoMemory;
use fill_tokens::Prices;
use std::alloc::Global;
use std::rc::Rc;

/// The first sources of a set.
#[cycle(sets)]
fn sources_of(
    alloc: Global,
    prices: &Prices,
    arena: &Arena,
    limit: usize,
    memo: &mut Memo,
    s: SourceSet,
) -> Result<Shortlist<PlainSource>, NoMemory>
    requires set { IsSourceSet arena.now s }
    requires some { 1 ≤ limit }
    requires memo { IsMemoOf prices.now arena.now limit memo.old }
    ensures memo { OnOk result (IsMemoOf prices.now arena.now limit memo.new) }
    ensures first { IfOk result (λ shortlist. AreCheapest (source_cost prices.now) source_cmp (SourceStands arena.now s) limit shortlist.value.items) }
{
    if let Some(shortlist) = memo.sources(s) {
        return Ok(shortlist.clone()?);
    }
    let shortlist = Rc::new(alloc, scan_sources(alloc, prices, arena, limit, memo, s)?)?;
    memo.keep_sources(s, shortlist.clone()?)?;
    Ok(shortlist)
}

#[cycle(sets)]
fn scan_sources(
    alloc: Global,
    prices: &Prices,
    arena: &Arena,
    limit: usize,
    memo: &mut Memo,
    s: SourceSet,
) -> Result<Vec<Costed<PlainSource>>, NoMemory>
    requires set { IsSourceSet arena.now s }
    requires some { 1 ≤ limit }
    requires memo { IsMemoOf prices.now arena.now limit memo.old }
    ensures memo { OnOk result (IsMemoOf prices.now arena.now limit memo.new) }
    ensures first { IfOk result (λ ranking. AreCheapest (source_cost prices.now) source_cmp (SourceStands arena.now s) limit ranking.items) }
{
    arena.keeps_made();
    prices.keep_small();
    let items = arena.sources(s);
    let mut ranking = Vec::new(alloc);
    for item in items {
        put_source(alloc, prices, arena, limit, memo, s, item, &mut ranking)?;
    }
    Ok(ranking)
}

/// Puts the sources that an item of the set stands for.
#[cycle(sets)]
fn put_source(
    alloc: Global,
    prices: &Prices,
    arena: &Arena,
    limit: usize,
    memo: &mut Memo,
    set: SourceSet,
    item: &SourceItem,
    ranking: &mut Vec<Costed<PlainSource>>,
) -> Result<(), NoMemory>
    requires item { IsSourceItem arena.now set item.now }
    requires some { 1 ≤ limit }
    requires rising { Rises (by_cost source_cmp) ranking.old.items }
    requires few { length ranking.old.items ≤ limit }
    requires memo { IsMemoOf prices.now arena.now limit memo.old }
    ensures memo { OnOk result (IsMemoOf prices.now arena.now limit memo.new) }
    ensures first { OnOk result (TakesIn (source_cost prices.now) source_cmp (λ x. SourceFits x arena.now item.now) limit ranking.old.items ranking.new.items) }
{
    match item {
        SourceItem::Col(number) => {
            let next = Costed {
                cost: prices.column as u64,
                item: PlainSource::column(*number),
            };
            put(ranking, limit, next)?;
            Ok(())
        }
        SourceItem::Select(listed) => put_lookups(
            alloc, prices, arena, limit, memo, set, listed, ranking,
        ),
    }
}

/// Puts the lookups that an item of the set stands for.
#[cycle(sets)]
fn put_lookups(
    alloc: Global,
    prices: &Prices,
    arena: &Arena,
    limit: usize,
    memo: &mut Memo,
    set: SourceSet,
    item: &SelectItem,
    ranking: &mut Vec<Costed<PlainSource>>,
) -> Result<(), NoMemory>
    requires item { IsSelectItem arena.now set item.now }
    requires some { 1 ≤ limit }
    requires rising { Rises (by_cost source_cmp) ranking.old.items }
    requires few { length ranking.old.items ≤ limit }
    requires memo { IsMemoOf prices.now arena.now limit memo.old }
    ensures memo { OnOk result (IsMemoOf prices.now arena.now limit memo.new) }
    ensures first { OnOk result (TakesIn (source_cost prices.now) source_cmp (λ x. SourceFits x arena.now (SourceItem.Select item.now)) limit ranking.old.items ranking.new.items) }
{
    let rows = rows_of(
        alloc,
        prices,
        arena,
        limit,
        memo,
        set,
        item.conditions.as_slice(),
    )?;
    let target = Target {
        column: item.column,
        table: item.table,
        key: item.key,
    };
    let targets = [Costed {
        cost: 0,
        item: target,
    }];
    arena.keeps_made();
    prices.keep_small();
    put_products(
        alloc,
        ranking,
        limit,
        prices.lookup as u64,
        &targets,
        rows.mixed.as_slice(),
    )
}

/// The first rows of conditions, put together from the last condition on.
#[cycle(sets)]
fn rows_of(
    alloc: Global,
    prices: &Prices,
    arena: &Arena,
    limit: usize,
    memo: &mut Memo,
    set: SourceSet,
    items: &[ConditionItem],
) -> Result<Rows, NoMemory>
    requires items { EachIn (IsConditionItem arena.now set) items.now }
    requires short { length items.now ≤ 3 }
    requires some { 1 ≤ limit }
    requires memo { IsMemoOf prices.now arena.now limit memo.old }
    ensures memo { OnOk result (IsMemoOf prices.now arena.now limit memo.new) }
    ensures first { IfOk result (λ rows. AreFirstRows prices.now arena.now items.now limit rows) }
{
    let mut rows = no_conditions(alloc, limit)?;
    let mut left = items.len();
    while left > 0 {
        left -= 1;
        rows = longer_rows(alloc, prices, arena, limit, memo, set, &items[left], rows)?;
    }
    Ok(rows)
}

#[cycle(sets)]
fn longer_rows(
    alloc: Global,
    prices: &Prices,
    arena: &Arena,
    limit: usize,
    memo: &mut Memo,
    set: SourceSet,
    item: &ConditionItem,
    rows: Rows,
) -> Result<Rows, NoMemory>
    requires item { IsConditionItem arena.now set item.now }
    requires rows { (is : Items Listed) × EachIn (IsConditionItem arena.now set) (item.now ∷ is) × (length (item.now ∷ is) ≤ 3) × AreFirstRows prices.now arena.now is limit rows }
    requires some { 1 ≤ limit }
    requires memo { IsMemoOf prices.now arena.now limit memo.old }
    ensures memo { OnOk result (IsMemoOf prices.now arena.now limit memo.new) }
    ensures first { IfOk result (λ made. (is : Items Listed) → AreFirstRows prices.now arena.now is limit rows → AreFirstRows prices.now arena.now (item.now ∷ is) limit made) }
{
    let constants = constants_of(alloc, prices, item)?;
    let parts = conditions_of(alloc, prices, arena, limit, memo, set, item)?;
    arena.keeps_made();
    prices.keep_small();
    let fixed = constants.as_slice();
    let others = parts.as_slice();
    let any = rows.any.as_slice();
    let longer = put_in_front(
        alloc,
        limit,
        prices.condition as u64,
        fixed,
        any,
        others,
        any,
    )?;
    let mixed = put_in_front(
        alloc,
        limit,
        prices.condition as u64,
        fixed,
        rows.mixed.as_slice(),
        others,
        any,
    )?;
    Ok(Rows { any: longer, mixed })
}

/// The first conditions of an item that are no constants.
#[cycle(sets)]
fn conditions_of(
    alloc: Global,
    prices: &Prices,
    arena: &Arena,
    limit: usize,
    memo: &mut Memo,
    set: SourceSet,
    item: &ConditionItem,
) -> Result<Shortlist<PlainAtom>, NoMemory>
    requires item { IsConditionItem arena.now set item.now }
    requires some { 1 ≤ limit }
    requires memo { IsMemoOf prices.now arena.now limit memo.old }
    ensures memo { OnOk result (IsMemoOf prices.now arena.now limit memo.new) }
    ensures first { IfOk result (λ shortlist. AreFirstParts prices.now arena.now item.now limit shortlist.value.items) }
{
    match item.atoms {
        Some(s) => parts_of(alloc, prices, arena, limit, memo, s),
        None => Ok(Rc::new(alloc, Vec::new(alloc))?),
    }
}

/// The first atoms of a set that are no constants.
#[cycle(sets)]
fn parts_of(
    alloc: Global,
    prices: &Prices,
    arena: &Arena,
    limit: usize,
    memo: &mut Memo,
    s: AtomSet,
) -> Result<Shortlist<PlainAtom>, NoMemory>
    requires set { IsAtomSet arena.now s }
    requires some { 1 ≤ limit }
    requires memo { IsMemoOf prices.now arena.now limit memo.old }
    ensures memo { OnOk result (IsMemoOf prices.now arena.now limit memo.new) }
    ensures first { IfOk result (λ shortlist. AreCheapest (atom_cost prices.now) atom_cmp (PartStands arena.now s) limit shortlist.value.items) }
{
    if let Some(shortlist) = memo.parts(s) {
        return Ok(shortlist.clone()?);
    }
    let shortlist = Rc::new(alloc, scan_parts(alloc, prices, arena, limit, memo, s)?)?;
    memo.keep_parts(s, shortlist.clone()?)?;
    Ok(shortlist)
}

#[cycle(sets)]
pub(crate) fn scan_parts(
    alloc: Global,
    prices: &Prices,
    arena: &Arena,
    limit: usize,
    memo: &mut Memo,
    s: AtomSet,
) -> Result<Vec<Costed<PlainAtom>>, NoMemory>
    requires set { IsAtomSet arena.now s }
    requires some { 1 ≤ limit }
    requires memo { IsMemoOf prices.now arena.now limit memo.old }
    ensures memo { OnOk result (IsMemoOf prices.now arena.now limit memo.new) }
    ensures first { IfOk result (λ ranking. AreCheapest (atom_cost prices.now) atom_cmp (PartStands arena.now s) limit ranking.items) }
{
    arena.keeps_made();
    prices.keep_small();
    let items = arena.atoms(s);
    let mut ranking = Vec::new(alloc);
    for item in items {
        put_parts(alloc, prices, arena, limit, memo, s, item, &mut ranking)?;
    }
    Ok(ranking)
}

/// Puts the atoms that an item of the set stands for, if it is no constant.
#[cycle(sets)]
fn put_parts(
    alloc: Global,
    prices: &Prices,
    arena: &Arena,
    limit: usize,
    memo: &mut Memo,
    set: AtomSet,
    item: &AtomItem,
    ranking: &mut Vec<Costed<PlainAtom>>,
) -> Result<(), NoMemory>
    requires item { IsAtomItem arena.now set item.now }
    requires some { 1 ≤ limit }
    requires rising { Rises (by_cost atom_cmp) ranking.old.items }
    requires few { length ranking.old.items ≤ limit }
    requires memo { IsMemoOf prices.now arena.now limit memo.old }
    ensures memo { OnOk result (IsMemoOf prices.now arena.now limit memo.new) }
    ensures first { OnOk result (TakesIn (atom_cost prices.now) atom_cmp (PartFits arena.now item.now) limit ranking.old.items ranking.new.items) }
{
    arena.keeps_made();
    prices.keep_small();
    match item {
        AtomItem::Const(_) => Ok(()),
        AtomItem::Whole(sources) => {
            let shortlist = sources_of(alloc, prices, arena, limit, memo, *sources)?;
            let whole = [Costed {
                cost: 0,
                item: WholeText,
            }];
            put_products(
                alloc,
                ranking,
                limit,
                prices.whole as u64,
                shortlist.as_slice(),
                &whole,
            )
        }
        AtomItem::Sub(sources, lefts, rights) => {
            let shortlist = sources_of(alloc, prices, arena, limit, memo, *sources)?;
            let left = places_of(alloc, prices, arena, limit, memo, *lefts)?;
            let right = places_of(alloc, prices, arena, limit, memo, *rights)?;
            let bounds = bounds_of(alloc, prices, limit, left.as_slice(), right.as_slice())?;
            put_products(
                alloc,
                ranking,
                limit,
                prices.piece as u64,
                shortlist.as_slice(),
                bounds.as_slice(),
            )
        }
    }
}
