//! For each value on the row the least sources, and the least atoms that are no constants, of sets.
//!
//! What a set names is older than the set, so the way down ends.
ghost use Rattle.std.specs.Prelude.{◌∷◌, List as Items, IfOk, OnOk};
ghost use Rattle.fill_arena.specs.Contents.{EachIn, IsAtomSet, IsSourceSet};
ghost use Rattle.fill_arena.specs.Stands.{SourceFits, SourceStands, PartFits, PartStands};
ghost use Rattle.fill_arena.specs.WellMade.{IsAtomItem, IsConditionItem, IsSelectItem, IsSourceItem};
ghost use Rattle.fill_arena.specs.declared.entry.ConditionItem.{ConditionItem as Listed};
ghost use Rattle.fill_object.specs.Kinds.{atoms_on, sources_on};
ghost use Rattle.fill_object.specs.Memo.{IsMemoOf, IsOnRow};
ghost use Rattle.fill_object.specs.Leasts.{AreLeasts, Gains};
ghost use Rattle.fill_object.specs.Rows.{AreParts, AreRows};

use crate::atoms::{put_pieces, put_wholes};
use crate::memo::Memo;
use crate::row::OnRow;
use crate::rows::{no_conditions, put_in_front};
use crate::sources::{put_column, put_selects};
use crate::valued::{ValuedAtom, ValuedSource};
use fill_arena::{AtomItem, AtomSet, ConditionItem, SelectItem, SourceItem, SourceSet};
use fill_text::NoMemory;
use fill_tree::Program;
use std::rc::Rc;

/// The least sources of a set, by their texts.
#[cycle(sets)]
fn sources_of(
    on: &OnRow<'_>,
    memo: &mut Memo,
    s: SourceSet,
) -> Result<Rc<Vec<ValuedSource>>, NoMemory>
    requires set { IsSourceSet on.now.arena.now s }
    requires row { IsOnRow on.now }
    requires memo { IsMemoOf on.now memo.old }
    ensures memo { OnOk result (IsMemoOf on.now memo.new) }
    ensures least { IfOk result (λ leasts. AreLeasts (sources_on on.now) (SourceStands on.now.arena.now s) leasts.value.items) }
{
    if let Some(leasts) = memo.sources(s) {
        return Ok(leasts.clone()?);
    }
    let leasts = Rc::new(on.alloc, scan_sources(on, memo, s)?)?;
    memo.keep_sources(s, leasts.clone()?)?;
    Ok(leasts)
}

#[cycle(sets)]
fn scan_sources(
    on: &OnRow<'_>,
    memo: &mut Memo,
    s: SourceSet,
) -> Result<Vec<ValuedSource>, NoMemory>
    requires set { IsSourceSet on.now.arena.now s }
    requires row { IsOnRow on.now }
    requires memo { IsMemoOf on.now memo.old }
    ensures memo { OnOk result (IsMemoOf on.now memo.new) }
    ensures least { IfOk result (λ rivals. AreLeasts (sources_on on.now) (SourceStands on.now.arena.now s) rivals.items) }
{
    let arena = on.arena;
    arena.keeps_made();
    let items = arena.sources(s);
    let mut rivals = Vec::new(on.alloc);
    for item in items {
        put_source(on, memo, s, item, &mut rivals)?;
    }
    Ok(rivals)
}

/// Puts the sources that an item of the set stands for.
#[cycle(sets)]
fn put_source(
    on: &OnRow<'_>,
    memo: &mut Memo,
    set: SourceSet,
    item: &SourceItem,
    rivals: &mut Vec<ValuedSource>,
) -> Result<(), NoMemory>
    requires item { IsSourceItem on.now.arena.now set item.now }
    requires row { IsOnRow on.now }
    requires memo { IsMemoOf on.now memo.old }
    ensures memo { OnOk result (IsMemoOf on.now memo.new) }
    ensures gains { OnOk result (Gains (sources_on on.now) (λ x. SourceFits x on.now.arena.now item.now) rivals.old.items rivals.new.items) }
{
    match item {
        SourceItem::Col(number) => put_column(on, *number, rivals),
        SourceItem::Select(listed) => put_lookups(on, memo, set, listed, rivals),
    }
}

/// Puts the lookups that an item of the set stands for.
#[cycle(sets)]
fn put_lookups(
    on: &OnRow<'_>,
    memo: &mut Memo,
    set: SourceSet,
    item: &SelectItem,
    rivals: &mut Vec<ValuedSource>,
) -> Result<(), NoMemory>
    requires item { IsSelectItem on.now.arena.now set item.now }
    requires row { IsOnRow on.now }
    requires memo { IsMemoOf on.now memo.old }
    ensures memo { OnOk result (IsMemoOf on.now memo.new) }
    ensures gains { OnOk result (Gains (sources_on on.now) (λ x. SourceFits x on.now.arena.now (SourceItem.Select item.now)) rivals.old.items rivals.new.items) }
{
    let rows = rows_of(on, memo, set, item.conditions.as_slice())?;
    put_selects(on, item, rows.as_slice(), rivals)
}

/// The least rows of conditions, by their texts, put together from the last condition on.
#[cycle(sets)]
fn rows_of(
    on: &OnRow<'_>,
    memo: &mut Memo,
    set: SourceSet,
    items: &[ConditionItem],
) -> Result<Vec<Program>, NoMemory>
    requires items { EachIn (IsConditionItem on.now.arena.now set) items.now }
    requires row { IsOnRow on.now }
    requires memo { IsMemoOf on.now memo.old }
    ensures memo { OnOk result (IsMemoOf on.now memo.new) }
    ensures least { IfOk result (λ rows. AreRows on.now items.now rows.items) }
{
    let mut rows = no_conditions(on.alloc)?;
    let mut left = items.len();
    while left > 0 {
        left -= 1;
        rows = longer_rows(on, memo, set, &items[left], rows.as_slice())?;
    }
    Ok(rows)
}

#[cycle(sets)]
fn longer_rows(
    on: &OnRow<'_>,
    memo: &mut Memo,
    set: SourceSet,
    item: &ConditionItem,
    rows: &[Program],
) -> Result<Vec<Program>, NoMemory>
    requires item { IsConditionItem on.now.arena.now set item.now }
    requires row { IsOnRow on.now }
    requires memo { IsMemoOf on.now memo.old }
    ensures memo { OnOk result (IsMemoOf on.now memo.new) }
    ensures least { IfOk result (λ made. (is : Items Listed) → AreRows on.now is rows.now → AreRows on.now (item.now ∷ is) made.items) }
{
    let parts = conditions_of(on, memo, set, item)?;
    put_in_front(on.alloc, &item.constant, parts.as_slice(), rows)
}

/// The least conditions of an item that are no constants.
#[cycle(sets)]
fn conditions_of(
    on: &OnRow<'_>,
    memo: &mut Memo,
    set: SourceSet,
    item: &ConditionItem,
) -> Result<Rc<Vec<ValuedAtom>>, NoMemory>
    requires item { IsConditionItem on.now.arena.now set item.now }
    requires row { IsOnRow on.now }
    requires memo { IsMemoOf on.now memo.old }
    ensures memo { OnOk result (IsMemoOf on.now memo.new) }
    ensures least { IfOk result (λ leasts. AreParts on.now item.now leasts.value.items) }
{
    match item.atoms {
        Some(s) => parts_of(on, memo, s),
        None => Ok(Rc::new(on.alloc, Vec::new(on.alloc))?),
    }
}

/// The least atoms of a set that are no constants, by their texts.
#[cycle(sets)]
fn parts_of(on: &OnRow<'_>, memo: &mut Memo, s: AtomSet) -> Result<Rc<Vec<ValuedAtom>>, NoMemory>
    requires set { IsAtomSet on.now.arena.now s }
    requires row { IsOnRow on.now }
    requires memo { IsMemoOf on.now memo.old }
    ensures memo { OnOk result (IsMemoOf on.now memo.new) }
    ensures least { IfOk result (λ leasts. AreLeasts (atoms_on on.now) (PartStands on.now.arena.now s) leasts.value.items) }
{
    if let Some(leasts) = memo.parts(s) {
        return Ok(leasts.clone()?);
    }
    let leasts = Rc::new(on.alloc, scan_parts(on, memo, s)?)?;
    memo.keep_parts(s, leasts.clone()?)?;
    Ok(leasts)
}

#[cycle(sets)]
pub(crate) fn scan_parts(
    on: &OnRow<'_>,
    memo: &mut Memo,
    s: AtomSet,
) -> Result<Vec<ValuedAtom>, NoMemory>
    requires set { IsAtomSet on.now.arena.now s }
    requires row { IsOnRow on.now }
    requires memo { IsMemoOf on.now memo.old }
    ensures memo { OnOk result (IsMemoOf on.now memo.new) }
    ensures least { IfOk result (λ rivals. AreLeasts (atoms_on on.now) (PartStands on.now.arena.now s) rivals.items) }
{
    let arena = on.arena;
    arena.keeps_made();
    let items = arena.atoms(s);
    let mut rivals = Vec::new(on.alloc);
    for item in items {
        put_part(on, memo, s, item, &mut rivals)?;
    }
    Ok(rivals)
}

/// Puts the atoms that an item of the set stands for, if it is no constant.
#[cycle(sets)]
fn put_part(
    on: &OnRow<'_>,
    memo: &mut Memo,
    set: AtomSet,
    item: &AtomItem,
    rivals: &mut Vec<ValuedAtom>,
) -> Result<(), NoMemory>
    requires item { IsAtomItem on.now.arena.now set item.now }
    requires row { IsOnRow on.now }
    requires memo { IsMemoOf on.now memo.old }
    ensures memo { OnOk result (IsMemoOf on.now memo.new) }
    ensures gains { OnOk result (Gains (atoms_on on.now) (PartFits on.now.arena.now item.now) rivals.old.items rivals.new.items) }
{
    match item {
        AtomItem::Const(_) => Ok(()),
        AtomItem::Whole(sources) => {
            let leasts = sources_of(on, memo, *sources)?;
            put_wholes(on, leasts.as_slice(), rivals)
        }
        AtomItem::Sub(sources, lefts, rights) => {
            let leasts = sources_of(on, memo, *sources)?;
            put_pieces(on, memo, leasts.as_slice(), *lefts, *rights, rivals)
        }
    }
}
