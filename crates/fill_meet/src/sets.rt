//! What stands in two sets.
ghost use Rattle.std.specs.Prelude.{◌≡◌, ◌↔◌, ℕ, ◌+◌, ◌<◌, [], ◌∷◌, ◌++◌, length, IsTrue, IfOk, OnOk, IfSome, MatchOption};
ghost use Rattle.fill_arena.specs.Contents.{EachIn, Extends, IsAtomSet, IsSourceSet, SomeIn};
ghost use Rattle.fill_arena.specs.Stands.{SomeAtom};
ghost use Rattle.fill_arena.specs.WellMade.{IsAtomItem, IsConditionItem, OlderAtoms};
ghost use Rattle.fill_meet.specs.Memory.{IsRight};
ghost use Rattle.fill_meet.specs.Sets.{AreConditions, ArePaired, AtomSetsMeet, ConditionsMeet, HasItem, HaveSameNumbers, IsCommonConstant, IsFilled, IsItem, IsPartItem, ItemsAtMeet, NamesAtoms, NamesOlder, PairsState, PartsMeet, RowsMeet, SelectsMeet, SourceIn, SourceItemsMeet, SourceSetsMeet};

use crate::copy::copy_sources;
use crate::memo::{Memo, find_atoms, find_sources};
use crate::places::meet_places;
use crate::within::are_atoms_within;
use fill_arena::{Arena, AtomItem, AtomSet, ConditionItem, SelectItem, SourceItem, SourceSet};
use fill_text::{List, NoMemory, Text};

/// How many items sets that were met mostly have. An arena keeps a set's list with the room that it was given.
pub(crate) const MOSTLY: usize = 1;

/// The set of the atoms that stand in both sets, or none where there are none.
#[cycle(meet)]
pub(crate) fn meet_atoms(
    arena: &mut Arena,
    memo: &mut Memo,
    s: AtomSet,
    t: AtomSet,
) -> Result<Option<AtomSet>, NoMemory>
    requires memo { IsRight arena.old memo.old }
    requires first { IsAtomSet arena.old s }
    requires second { IsAtomSet arena.old t }
    ensures extends { Extends arena.old arena.new }
    ensures memo { OnOk result (IsRight arena.new memo.new) }
    ensures met { IfOk result (AtomSetsMeet arena.new s t) }
{
    if s == t {
        arena.keeps_made();
        return Ok(Some(s));
    }
    if let Some(made) = find_atoms(&memo.atoms, s, t) {
        return Ok(made);
    }
    let made = make_atoms(arena, memo, s, t)?;
    memo.keep_atoms(s, t, &made);
    Ok(made)
}

/// The atoms that two different sets have in common, with no table for the pair.
#[cycle(meet)]
pub(crate) fn make_atoms(
    arena: &mut Arena,
    memo: &mut Memo,
    s: AtomSet,
    t: AtomSet,
) -> Result<Option<AtomSet>, NoMemory>
    requires memo { IsRight arena.old memo.old }
    requires first { IsAtomSet arena.old s }
    requires second { IsAtomSet arena.old t }
    ensures extends { Extends arena.old arena.new }
    ensures memo { OnOk result (IsRight arena.new memo.new) }
    ensures met { IfOk result (AtomSetsMeet arena.new s t) }
{
    if are_atoms_within(arena, memo, s, t) {
        return Ok(Some(s));
    }
    arena.keeps_made();
    let mut zs = List::with_capacity(memo.alloc, MOSTLY)?;
    for i in 0..arena.atoms(s).len() {
        meet_atom_row(arena, memo, s, i, t, &mut zs)?;
    }
    if zs.len() == 0 {
        return Ok(None);
    }
    Ok(Some(arena.intern_atoms(zs)?))
}

/// Puts at the end what item `i` of the first set has in common with each of the second one.
#[cycle(meet)]
pub(crate) fn meet_atom_row(
    arena: &mut Arena,
    memo: &mut Memo,
    s: AtomSet,
    i: usize,
    t: AtomSet,
    zs: &mut List<AtomItem>,
) -> Result<(), NoMemory>
    requires memo { IsRight arena.old memo.old }
    requires within { HasItem arena.old s i }
    requires paired { ArePaired arena.old s t i 0 zs.old }
    ensures extends { Extends arena.old arena.new }
    ensures memo { OnOk result (IsRight arena.new memo.new) }
    ensures paired { OnOk result (ArePaired arena.new s t (i + 1) 0 zs.new) }
{
    for j in 0..arena.atoms(t).len() {
        let made = meet_atom_items(arena, memo, s, i, t, j)?;
        push_some(zs, made)?;
    }
    Ok(())
}

/// What item `i` of the first set has in common with item `j` of the second one.
#[cycle(meet)]
pub(crate) fn meet_atom_items(
    arena: &mut Arena,
    memo: &mut Memo,
    s: AtomSet,
    i: usize,
    t: AtomSet,
    j: usize,
) -> Result<Option<AtomItem>, NoMemory>
    requires memo { IsRight arena.old memo.old }
    requires first { HasItem arena.old s i }
    requires second { HasItem arena.old t j }
    ensures extends { Extends arena.old arena.new }
    ensures memo { OnOk result (IsRight arena.new memo.new) }
    ensures met { IfOk result (ItemsAtMeet arena.new s i t j) }
{
    match (item_at(arena, s, i), item_at(arena, t, j)) {
        (AtomItem::Const(u), AtomItem::Const(v)) => {
            if u.same(v) {
                Ok(Some(AtomItem::Const(u.copy()?)))
            } else {
                Ok(None)
            }
        }
        (AtomItem::Whole(u), AtomItem::Whole(v)) => {
            let (u, v) = (*u, *v);
            match meet_sources(arena, memo, u, v)? {
                Some(sources) => Ok(Some(AtomItem::Whole(sources))),
                None => Ok(None),
            }
        }
        (AtomItem::Sub(u, p, q), AtomItem::Sub(v, m, n)) => {
            let (u, p, q) = (*u, *p, *q);
            let (v, m, n) = (*v, *m, *n);
            let Some(sources) = meet_sources(arena, memo, u, v)? else {
                return Ok(None);
            };
            let Some(lefts) = meet_places(arena, memo, p, m)? else {
                return Ok(None);
            };
            let Some(rights) = meet_places(arena, memo, q, n)? else {
                return Ok(None);
            };
            Ok(Some(AtomItem::Sub(sources, lefts, rights)))
        }
        _ => Ok(None),
    }
}

/// Item `i` of the set.
pub(crate) fn item_at(arena: &Arena, s: AtomSet, i: usize) -> &AtomItem
    requires { HasItem arena.now s i }
    ensures at { IsItem arena.now s i result.now }
    ensures older { IsAtomItem arena.now s result.now }
{
    arena.keeps_made();
    let items = arena.atoms(s);
    &items[i]
}

/// The set of the sources that stand in both sets, or none where there are none.
#[cycle(meet)]
fn meet_sources(
    arena: &mut Arena,
    memo: &mut Memo,
    s: SourceSet,
    t: SourceSet,
) -> Result<Option<SourceSet>, NoMemory>
    requires memo { IsRight arena.old memo.old }
    requires first { IsSourceSet arena.old s }
    requires second { IsSourceSet arena.old t }
    ensures extends { Extends arena.old arena.new }
    ensures memo { OnOk result (IsRight arena.new memo.new) }
    ensures met { IfOk result (SourceSetsMeet arena.new s t) }
{
    if s == t {
        arena.keeps_made();
        return Ok(Some(s));
    }
    if let Some(made) = find_sources(&memo.sources, s, t) {
        return Ok(made);
    }
    let made = make_sources(arena, memo, s, t)?;
    memo.keep_sources(s, t, &made);
    Ok(made)
}

#[cycle(meet)]
fn make_sources(
    arena: &mut Arena,
    memo: &mut Memo,
    s: SourceSet,
    t: SourceSet,
) -> Result<Option<SourceSet>, NoMemory>
    requires memo { IsRight arena.old memo.old }
    requires first { IsSourceSet arena.old s }
    requires second { IsSourceSet arena.old t }
    ensures extends { Extends arena.old arena.new }
    ensures memo { OnOk result (IsRight arena.new memo.new) }
    ensures met { IfOk result (SourceSetsMeet arena.new s t) }
{
    arena.keeps_made();
    let first = copy_sources(memo.alloc, arena.sources(s))?;
    let second = copy_sources(memo.alloc, arena.sources(t))?;
    let xs = first.as_slice();
    let ys = second.as_slice();
    let mut zs = List::new(memo.alloc);
    for i in 0..xs.len() {
        meet_source_row(arena, memo, s, xs, i, ys, &mut zs)?;
    }
    if zs.len() == 0 {
        return Ok(None);
    }
    arena.keeps_made();
    Ok(Some(arena.intern_sources(zs)?))
}

/// Puts at the end what item `i` of the set `of` has in common with each of the others.
#[cycle(meet)]
fn meet_source_row(
    arena: &mut Arena,
    memo: &mut Memo,
    of: SourceSet,
    xs: &[SourceItem],
    i: usize,
    ys: &[SourceItem],
    zs: &mut List<SourceItem>,
) -> Result<(), NoMemory>
    requires memo { IsRight arena.old memo.old }
    requires within { i < length xs.now }
    requires pairs { PairsState SourceIn NamesOlder arena.old of xs.now ys.now i 0 zs.old }
    ensures extends { Extends arena.old arena.new }
    ensures memo { OnOk result (IsRight arena.new memo.new) }
    ensures pairs { OnOk result (PairsState SourceIn NamesOlder arena.new of xs.now ys.now (i + 1) 0 zs.new) }
{
    for j in 0..ys.len() {
        let made = meet_source_items(arena, memo, of, &xs[i], &ys[j])?;
        push_some(zs, made)?;
    }
    Ok(())
}

/// What an item of the set `of` has in common with another.
#[cycle(meet)]
fn meet_source_items(
    arena: &mut Arena,
    memo: &mut Memo,
    of: SourceSet,
    x: &SourceItem,
    y: &SourceItem,
) -> Result<Option<SourceItem>, NoMemory>
    requires memo { IsRight arena.old memo.old }
    requires first { NamesOlder arena.old of x.now }
    requires second { (n : ℕ) × NamesOlder arena.old n y.now }
    ensures extends { Extends arena.old arena.new }
    ensures memo { OnOk result (IsRight arena.new memo.new) }
    ensures met { IfOk result (SourceItemsMeet arena.new x.now y.now) }
{
    match (x, y) {
        (SourceItem::Col(u), SourceItem::Col(v)) => {
            if *u == *v {
                Ok(Some(SourceItem::Col(*u)))
            } else {
                Ok(None)
            }
        }
        (SourceItem::Select(u), SourceItem::Select(v)) => {
            match meet_selects(arena, memo, of, u, v)? {
                Some(select) => Ok(Some(SourceItem::Select(select))),
                None => Ok(None),
            }
        }
        _ => Ok(None),
    }
}

/// The lookups of both items; none where their numbers differ, a condition is left with nothing, or all are constants.
#[cycle(meet)]
fn meet_selects(
    arena: &mut Arena,
    memo: &mut Memo,
    of: SourceSet,
    x: &SelectItem,
    y: &SelectItem,
) -> Result<Option<SelectItem>, NoMemory>
    requires memo { IsRight arena.old memo.old }
    requires first { AreConditions arena.old of x.now.conditions }
    requires second { (n : ℕ) × AreConditions arena.old n y.now.conditions }
    ensures extends { Extends arena.old arena.new }
    ensures memo { OnOk result (IsRight arena.new memo.new) }
    ensures met { IfOk result (SelectsMeet arena.new x.now y.now) }
{
    if !have_same_numbers(x, y) {
        return Ok(None);
    }
    let xs = x.conditions.as_slice();
    let ys = y.conditions.as_slice();
    if xs.len() != ys.len() {
        return Ok(None);
    }
    let conditions = meet_conditions(arena, memo, of, xs, ys)?;
    if !are_filled(conditions.as_slice()) {
        return Ok(None);
    }
    if !some_names_atoms(conditions.as_slice()) {
        return Ok(None);
    }
    Ok(Some(SelectItem {
        column: x.column,
        table: x.table,
        key: x.key,
        conditions,
    }))
}

/// The conditions for what stands in both at each place.
#[cycle(meet)]
fn meet_conditions(
    arena: &mut Arena,
    memo: &mut Memo,
    of: SourceSet,
    xs: &[ConditionItem],
    ys: &[ConditionItem],
) -> Result<List<ConditionItem>, NoMemory>
    requires memo { IsRight arena.old memo.old }
    requires first { EachIn (IsConditionItem arena.old of) xs.now }
    requires second { (n : ℕ) × EachIn (IsConditionItem arena.old n) ys.now }
    requires long { length xs.now ≡ length ys.now }
    ensures extends { Extends arena.old arena.new }
    ensures memo { OnOk result (IsRight arena.new memo.new) }
    ensures long { IfOk result (λ zs. length zs ≡ length xs.now) }
    ensures met { IfOk result (RowsMeet arena.new xs.now ys.now) }
{
    let mut zs = List::new(memo.alloc);
    for i in 0..xs.len() {
        zs.push(meet_condition(arena, memo, of, &xs[i], &ys[i])?)?;
    }
    Ok(zs)
}

/// The condition for what stands in both.
#[cycle(meet)]
fn meet_condition(
    arena: &mut Arena,
    memo: &mut Memo,
    of: SourceSet,
    x: &ConditionItem,
    y: &ConditionItem,
) -> Result<ConditionItem, NoMemory>
    requires memo { IsRight arena.old memo.old }
    requires first { IsConditionItem arena.old of x.now }
    requires second { (n : ℕ) × IsConditionItem arena.old n y.now }
    ensures extends { Extends arena.old arena.new }
    ensures memo { OnOk result (IsRight arena.new memo.new) }
    ensures met { IfOk result (ConditionsMeet arena.new x.now y.now) }
{
    let constant = common_constant(x, y)?;
    let atoms = meet_parts(arena, memo, of, x.atoms, y.atoms)?;
    Ok(ConditionItem { constant, atoms })
}

/// The atoms of both sets, if some of them is no constant.
#[cycle(meet)]
fn meet_parts(
    arena: &mut Arena,
    memo: &mut Memo,
    of: SourceSet,
    x: Option<AtomSet>,
    y: Option<AtomSet>,
) -> Result<Option<AtomSet>, NoMemory>
    requires memo { IsRight arena.old memo.old }
    requires first { IfSome x (OlderAtoms arena.old of) }
    requires second { (n : ℕ) × IfSome y (OlderAtoms arena.old n) }
    ensures extends { Extends arena.old arena.new }
    ensures memo { OnOk result (IsRight arena.new memo.new) }
    ensures met { IfOk result (PartsMeet arena.new x y) }
{
    let Some(s) = x else {
        return Ok(None);
    };
    let Some(t) = y else {
        return Ok(None);
    };
    let Some(made) = meet_atoms(arena, memo, s, t)? else {
        return Ok(None);
    };
    if has_part(arena, made) {
        Ok(Some(made))
    } else {
        Ok(None)
    }
}

/// The constant, where both have the same.
fn common_constant(x: &ConditionItem, y: &ConditionItem) -> Result<Option<Text>, NoMemory>
    ensures { IfOk result (IsCommonConstant x.now y.now) }
{
    match (&x.constant, &y.constant) {
        (Some(first), Some(second)) => {
            if first.same(second) {
                Ok(Some(first.copy()?))
            } else {
                Ok(None)
            }
        }
        _ => Ok(None),
    }
}

/// Whether the set lists an item that is no constant.
fn has_part(arena: &Arena, s: AtomSet) -> bool
    requires { IsAtomSet arena.now s }
    ensures { IsTrue result ↔ SomeAtom arena.now s IsPartItem }
{
    for item in arena.atoms(s) {
        if is_part_item(item) {
            return true;
        }
    }
    false
}

fn is_part_item(item: &AtomItem) -> bool
    ensures { IsTrue result ↔ IsPartItem item.now }
{
    !matches!(item, AtomItem::Const(_))
}

pub(crate) fn have_same_numbers(x: &SelectItem, y: &SelectItem) -> bool
    ensures { IsTrue result ↔ HaveSameNumbers x.now y.now }
{
    x.column == y.column && x.table == y.table && x.key == y.key
}

fn are_filled(conditions: &[ConditionItem]) -> bool
    ensures { IsTrue result ↔ EachIn IsFilled conditions.now }
{
    for condition in conditions {
        if !is_filled(condition) {
            return false;
        }
    }
    true
}

fn is_filled(condition: &ConditionItem) -> bool
    ensures { IsTrue result ↔ IsFilled condition.now }
{
    condition.atoms.is_some() || condition.constant.is_some()
}

fn some_names_atoms(conditions: &[ConditionItem]) -> bool
    ensures { IsTrue result ↔ SomeIn NamesAtoms conditions.now }
{
    for condition in conditions {
        if names_atoms(condition) {
            return true;
        }
    }
    false
}

fn names_atoms(condition: &ConditionItem) -> bool
    ensures { IsTrue result ↔ NamesAtoms condition.now }
{
    condition.atoms.is_some()
}

/// Puts an item at the end, where there is one.
pub(crate) fn push_some<T: Drop>(all: &mut List<T>, made: Option<T>) -> Result<(), NoMemory>
    ensures { OnOk result (MatchOption made (all.new ≡ all.old) (λ z. all.new ≡ all.old ++ z ∷ [])) }
{
    match made {
        Some(item) => all.push(item),
        None => Ok(()),
    }
}
