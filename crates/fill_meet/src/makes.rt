//! What two large sets of atoms have in common, by the index of the second one.
ghost use Rattle.std.specs.Prelude.{◌<◌, ◌≤◌, ◌+◌, length, IfOk, OnOk};
ghost use Rattle.fill_arena.specs.Contents.{Extends, IsAtomSet};
ghost use Rattle.fill_meet.specs.Guides.{IsGuide, IsMadeTo, IsSharedOf, IsTask};
ghost use Rattle.fill_meet.specs.Memory.{IsRight};
ghost use Rattle.fill_meet.specs.Rows.{AreAlikeDone, AreEndsDone, ArePiecesDone, IsEntryDone};
ghost use Rattle.fill_meet.specs.Runs.{Grows};
ghost use Rattle.fill_meet.specs.Sets.{AtomSetsMeet};

use crate::index::{Index, WHOLE, hash_constant, hash_piece};
use crate::mates::Mates;
use crate::memo::Memo;
use crate::runs::Run;
use crate::sets::{MOSTLY, item_at, make_atoms, meet_atom_items, meet_atom_row, push_some};
use fill_arena::{Arena, AtomItem, AtomSet};
use fill_text::{List, NoMemory};

/// What finds the items of the second graph's sets that may have something in common with one of the first.
#[derive(Drop)]
pub(crate) struct Guide {
    pub(crate) index: Index,
    pub(crate) mates: Mates,
}

/// An item of a set of the first graph, by its place; a set of the second graph, with its number in the index; and what finds
/// the items of this one.
#[derive(Clone, Copy)]
pub(crate) struct Task<'a> {
    pub(crate) guide: &'a Guide,
    pub(crate) first: AtomSet,
    pub(crate) place: usize,
    pub(crate) second: AtomSet,
    pub(crate) number: usize,
}

/// The set of the atoms that stand in both sets, or none where there are none. Of the items of the second set only those are
/// looked at that may have something in common with one of the first.
pub(crate) fn make_guided(
    arena: &mut Arena,
    memo: &mut Memo,
    guide: &Guide,
    s: AtomSet,
    t: AtomSet,
) -> Result<Option<AtomSet>, NoMemory>
    requires memo { IsRight arena.old memo.old }
    requires guide { IsGuide arena.old guide.now }
    requires first { IsAtomSet arena.old s }
    requires second { IsAtomSet arena.old t }
    ensures extends { Extends arena.old arena.new }
    ensures memo { OnOk result (IsRight arena.new memo.new) }
    ensures met { IfOk result (AtomSetsMeet arena.new s t) }
{
    let Some(number) = guide.index.labels.number(t) else {
        return make_atoms(arena, memo, s, t);
    };
    arena.keeps_made();
    let mut zs = List::with_capacity(memo.alloc, MOSTLY)?;
    for place in 0..arena.atoms(s).len() {
        let task = Task {
            guide,
            first: s,
            place,
            second: t,
            number,
        };
        make_row(arena, memo, &task, &mut zs)?;
    }
    if zs.len() == 0 {
        return Ok(None);
    }
    Ok(Some(arena.intern_atoms(zs)?))
}

/// Puts at the end what the task's item has in common with those of the second set.
fn make_row(
    arena: &mut Arena,
    memo: &mut Memo,
    task: &Task<'_>,
    zs: &mut List<AtomItem>,
) -> Result<(), NoMemory>
    requires memo { IsRight arena.old memo.old }
    requires task { IsTask arena.old task.now }
    requires made { IsMadeTo arena.old task.now task.now.place zs.old }
    ensures extends { Extends arena.old arena.new }
    ensures memo { OnOk result (IsRight arena.new memo.new) }
    ensures made { OnOk result (IsMadeTo arena.new task.now (task.now.place + 1) zs.new) }
{
    match item_at(arena, task.first, task.place) {
        AtomItem::Const(text) => {
            let hash = hash_constant(text.len());
            make_alike(arena, memo, task, hash, zs)
        }
        AtomItem::Whole(_) => make_alike(arena, memo, task, WHOLE, zs),
        AtomItem::Sub(_, lefts, rights) => {
            let (lefts, rights) = (*lefts, *rights);
            let Some(begins) = task.guide.mates.run_of(lefts) else {
                return meet_atom_row(arena, memo, task.first, task.place, task.second, zs);
            };
            let Some(ends) = task.guide.mates.run_of(rights) else {
                return meet_atom_row(arena, memo, task.first, task.place, task.second, zs);
            };
            make_pieces(arena, memo, task, begins, ends, zs)
        }
    }
}

/// Puts at the end what the task's item has in common with pieces that begin at a mate of the one run and end at one of the
/// other.
fn make_pieces(
    arena: &mut Arena,
    memo: &mut Memo,
    task: &Task<'_>,
    begins: Run,
    ends: Run,
    zs: &mut List<AtomItem>,
) -> Result<(), NoMemory>
    requires memo { IsRight arena.old memo.old }
    requires task { IsTask arena.old task.now }
    requires begins { begins.end ≤ length task.now.guide.now.mates.lists.numbers.items }
    requires ends { ends.end ≤ length task.now.guide.now.mates.lists.numbers.items }
    requires made { IsMadeTo arena.old task.now task.now.place zs.old }
    ensures extends { Extends arena.old arena.new }
    ensures memo { OnOk result (IsRight arena.new memo.new) }
    ensures made { OnOk result (IsMadeTo arena.new task.now task.now.place zs.new) }
    ensures grown { OnOk result (Grows zs.old zs.new) }
    ensures done { OnOk result (ArePiecesDone arena.new task.now.guide.now.index (IsSharedOf arena.new task.now zs.new) task.now.guide.now.mates.lists.numbers.items begins ends) }
{
    let numbers = task.guide.mates.lists.numbers.as_slice();
    for k in begins.start..begins.end {
        make_ends(arena, memo, task, numbers[k], ends, zs)?;
    }
    Ok(())
}

/// Puts at the end what the task's item has in common with pieces that begin at places of the set of the number and end at a
/// mate of the run.
fn make_ends(
    arena: &mut Arena,
    memo: &mut Memo,
    task: &Task<'_>,
    left: usize,
    ends: Run,
    zs: &mut List<AtomItem>,
) -> Result<(), NoMemory>
    requires memo { IsRight arena.old memo.old }
    requires task { IsTask arena.old task.now }
    requires ends { ends.end ≤ length task.now.guide.now.mates.lists.numbers.items }
    requires made { IsMadeTo arena.old task.now task.now.place zs.old }
    ensures extends { Extends arena.old arena.new }
    ensures memo { OnOk result (IsRight arena.new memo.new) }
    ensures made { OnOk result (IsMadeTo arena.new task.now task.now.place zs.new) }
    ensures grown { OnOk result (Grows zs.old zs.new) }
    ensures done { OnOk result (AreEndsDone arena.new task.now.guide.now.index (IsSharedOf arena.new task.now zs.new) task.now.guide.now.mates.lists.numbers.items left ends.start ends.end) }
{
    let numbers = task.guide.mates.lists.numbers.as_slice();
    for k in ends.start..ends.end {
        make_alike(arena, memo, task, hash_piece(left, numbers[k]), zs)?;
    }
    Ok(())
}

/// Puts at the end what the task's item has in common with those of the second set that have the hash.
fn make_alike(
    arena: &mut Arena,
    memo: &mut Memo,
    task: &Task<'_>,
    hash: u64,
    zs: &mut List<AtomItem>,
) -> Result<(), NoMemory>
    requires memo { IsRight arena.old memo.old }
    requires task { IsTask arena.old task.now }
    requires made { IsMadeTo arena.old task.now task.now.place zs.old }
    ensures extends { Extends arena.old arena.new }
    ensures memo { OnOk result (IsRight arena.new memo.new) }
    ensures made { OnOk result (IsMadeTo arena.new task.now task.now.place zs.new) }
    ensures grown { OnOk result (Grows zs.old zs.new) }
    ensures done { OnOk result (AreAlikeDone arena.new task.now.guide.now.index (IsSharedOf arena.new task.now zs.new) hash) }
{
    let index = &task.guide.index;
    let mut e = index.groups.first_of(hash);
    while e < index.items.len() {
        make_one(arena, memo, task, e, hash, zs)?;
        e = index.groups.next(e);
    }
    Ok(())
}

/// Puts at the end what the task's item has in common with that of the entry `e`, if this has the hash and is of the second set.
fn make_one(
    arena: &mut Arena,
    memo: &mut Memo,
    task: &Task<'_>,
    e: usize,
    hash: u64,
    zs: &mut List<AtomItem>,
) -> Result<(), NoMemory>
    requires memo { IsRight arena.old memo.old }
    requires task { IsTask arena.old task.now }
    requires within { e < length task.now.guide.now.index.items.items }
    requires made { IsMadeTo arena.old task.now task.now.place zs.old }
    ensures extends { Extends arena.old arena.new }
    ensures memo { OnOk result (IsRight arena.new memo.new) }
    ensures made { OnOk result (IsMadeTo arena.new task.now task.now.place zs.new) }
    ensures grown { OnOk result (Grows zs.old zs.new) }
    ensures done { OnOk result (IsEntryDone arena.new task.now.guide.now.index (IsSharedOf arena.new task.now zs.new) hash e) }
{
    let item = task.guide.index.items[e];
    if item.hash != hash {
        return Ok(());
    }
    if item.set != task.number {
        return Ok(());
    }
    let made = meet_atom_items(arena, memo, task.first, task.place, task.second, item.place)?;
    push_some(zs, made)
}
