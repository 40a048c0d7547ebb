//! The sets of a graph that may have an atom in common with a given one.
ghost use Rattle.std.specs.Prelude.{◌≡◌, ◌⊎◌, ◌≤◌, ◌<◌, ℕ, List, false, length, set, IfOk, IfSome, None, OnOk, Some};
ghost use Rattle.fill_arena.specs.Contents.{EachIn, In, IsAtomSet};
ghost use Rattle.fill_arena.specs.WellMade.{IsAtomItem};
ghost use Rattle.fill_arena.specs.declared.entry.Entry.{Entry};
ghost use Rattle.fill_meet.specs.Index.{IsSomeIndex};
ghost use Rattle.fill_meet.specs.Meet.{AreApart};
ghost use Rattle.fill_meet.specs.Rows.{AreAlikeDone, AreDone, AreEndsDone, ArePiecesDone, AreRows, IsCovered, IsEntryDone, IsRow, IsSearch};
ghost use Rattle.fill_meet.specs.Runs.{Grows};
ghost use Rattle.fill_meet.specs.Sets.{AtomIn};
ghost use Rattle.fill_meet.specs.Verdicts.{AreVerdicts};

use crate::apart::sources_may_meet;
use crate::index::{Index, WHOLE, hash_constant, hash_piece, item_at};
use crate::mates::Mates;
use crate::runs::{Run, Runs};
use crate::verdicts::Verdicts;
use fill_arena::{Arena, AtomItem, AtomSet};
use fill_text::NoMemory;
use std::alloc::Global;

/// The rows so far, and answers about sets of sources.
#[derive(Drop)]
pub(crate) struct Findings {
    pub(crate) rows: Runs,
    pub(crate) verdicts: Verdicts,
}

/// What was found so far, with the mates of sets of places.
#[derive(Drop)]
pub(crate) struct Search {
    pub(crate) mates: Mates,
    pub(crate) findings: Findings,
}

/// An item whose row is looked for in the index, and the place from which on the row stands in the list of all rows.
#[derive(Clone, Copy)]
struct Ask<'a> {
    index: &'a Index,
    x: &'a AtomItem,
    start: usize,
}

impl Search {
    pub(crate) fn new(alloc: Global, index: &Index) -> Result<Search, NoMemory>
        ensures { IfOk result (λ search. (c : List Entry) → IsSearch c index.now search) }
    {
        let mates = Mates::new(alloc, index)?;
        let rows = Runs::new(alloc, index.labels.sets.len())?;
        let verdicts = Verdicts::new(alloc, 0)?;
        let findings = Findings { rows, verdicts };
        Ok(Search { mates, findings })
    }

    /// The numbers of the sets that may have an atom in common with this one.
    fn find_row(&mut self, arena: &Arena, index: &Index, s: AtomSet) -> Result<Run, NoMemory>
        requires index { IsSomeIndex arena.now index.now }
        requires set { IsAtomSet arena.now s }
        requires state { IsSearch arena.now index.now self.old }
        ensures state { OnOk result (IsSearch arena.now index.now self.new) }
        ensures row { IfOk result (IsRow arena.now index.now.labels.sets.items self.new.findings.rows.numbers.items s) }
        ensures grown { OnOk result (Grows self.old.findings.rows.numbers.items self.new.findings.rows.numbers.items) }
    {
        arena.keeps_made();
        let start = self.findings.rows.numbers.len();
        let items = arena.atoms(s);
        for i in 0..items.len() {
            put_item(arena, index, self, start, &items[i])?;
        }
        Ok(Run {
            start,
            end: self.findings.rows.numbers.len(),
        })
    }
}

/// The most rows that are kept.
const MOST_ROWS: usize = 262_144;

/// A set of the first graph, and its row.
#[derive(Clone, Copy)]
pub(crate) struct Slot {
    pub(crate) set: AtomSet,
    pub(crate) row: Run,
}

/// Rows of sets of the first graph, each in the slot that its set's number tells. A row that gave way to another is found again.
#[derive(Drop)]
pub(crate) struct Rows {
    pub(crate) slots: Vec<Option<Slot>>,
    pub(crate) search: Search,
}

impl Rows {
    /// No row is known yet. There is a slot for each edge of the first graph, up to the most.
    pub(crate) fn new(alloc: Global, index: &Index, edges: usize) -> Result<Rows, NoMemory>
        ensures { IfOk result (λ rows. (c : List Entry) → AreRows c index.now rows) }
    {
        Ok(Rows {
            slots: no_rows(alloc, edges.min(MOST_ROWS))?,
            search: Search::new(alloc, index)?,
        })
    }

    /// The row of the set.
    pub(crate) fn row_of(
        &mut self,
        arena: &Arena,
        index: &Index,
        s: AtomSet,
    ) -> Result<Run, NoMemory>
        requires index { IsSomeIndex arena.now index.now }
        requires set { IsAtomSet arena.now s }
        requires state { AreRows arena.now index.now self.old }
        ensures state { OnOk result (AreRows arena.now index.now self.new) }
        ensures row { IfOk result (IsRow arena.now index.now.labels.sets.items self.new.search.findings.rows.numbers.items s) }
    {
        if let Some(row) = told_row(self.slots.as_slice(), s) {
            return Ok(row);
        }
        let row = self.search.find_row(arena, index, s)?;
        keep_row(self.slots.as_mut_slice(), Slot { set: s, row });
        Ok(row)
    }
}

/// Slots without a row.
#[tactic(auto, using(crate::proofs::Trials::each_same))]
fn no_rows(alloc: Global, count: usize) -> Result<Vec<Option<Slot>>, NoMemory>
    ensures { IfOk result (λ made. EachIn (λ r. r ≡ None) made.items) }
{
    let none: Option<Slot> = None;
    let made = vec![in alloc; none; count]?;
    Ok(made)
}

/// The set's row, if its slot has that.
fn told_row(slots: &[Option<Slot>], s: AtomSet) -> Option<Run>
    ensures { IfSome result (λ row. In (Some (record { set = s; row = row })) slots.now) }
{
    if slots.len() == 0 {
        return None;
    }
    let Some(slot) = slots[s.index() % slots.len()] else {
        return None;
    };
    if slot.set != s {
        return None;
    }
    Some(slot.row)
}

/// Keeps a set's row in its slot, in place of what stands there.
fn keep_row(slots: &mut [Option<Slot>], slot: Slot)
    ensures { (slots.new ≡ slots.old) ⊎ ((at : ℕ) × (slots.new ≡ set slots.old at (Some slot))) }
{
    if slots.len() == 0 {
        return;
    }
    let at = slot.set.index() % slots.len();
    slots[at] = Some(slot);
}

/// Puts the sets that may have an atom in common with the item.
fn put_item(
    arena: &Arena,
    index: &Index,
    search: &mut Search,
    start: usize,
    x: &AtomItem,
) -> Result<(), NoMemory>
    requires index { IsSomeIndex arena.now index.now }
    requires item { (n : ℕ) × IsAtomItem arena.now n x.now }
    requires start { start ≤ length search.old.findings.rows.numbers.items }
    requires state { IsSearch arena.now index.now search.old }
    ensures state { OnOk result (IsSearch arena.now index.now search.new) }
    ensures grown { OnOk result (Grows search.old.findings.rows.numbers.items search.new.findings.rows.numbers.items) }
    ensures done { OnOk result (AreDone arena.now index.now.labels.sets.items (IsCovered arena.now search.new.findings.rows.numbers.items start x.now)) }
{
    let ask = Ask { index, x, start };
    match x {
        AtomItem::Const(text) => {
            put_alike(arena, ask, &mut search.findings, hash_constant(text.len()))
        }
        AtomItem::Whole(_) => put_alike(arena, ask, &mut search.findings, WHOLE),
        AtomItem::Sub(_, lefts, rights) => {
            let begins = search.mates.find(arena, index, *lefts)?;
            let ends = search.mates.find(arena, index, *rights)?;
            let numbers = search.mates.lists.numbers.as_slice();
            put_pieces(arena, ask, &mut search.findings, numbers, begins, ends)
        }
    }
}

/// Puts the sets of pieces that begin at a mate of the one run and end at one of the other.
fn put_pieces(
    arena: &Arena,
    ask: Ask<'_>,
    findings: &mut Findings,
    numbers: &[usize],
    begins: Run,
    ends: Run,
) -> Result<(), NoMemory>
    requires index { IsSomeIndex arena.now ask.index.now }
    requires item { (n : ℕ) × IsAtomItem arena.now n ask.x.now }
    requires start { ask.start ≤ length findings.old.rows.numbers.items }
    requires begins { begins.end ≤ length numbers.now }
    requires ends { ends.end ≤ length numbers.now }
    requires verdicts { AreVerdicts arena.now findings.old.verdicts }
    ensures verdicts { OnOk result (AreVerdicts arena.now findings.new.verdicts) }
    ensures grown { OnOk result (Grows findings.old.rows.numbers.items findings.new.rows.numbers.items) }
    ensures done { OnOk result (ArePiecesDone arena.now ask.entry.index.now (IsCovered arena.now findings.new.rows.numbers.items ask.entry.start ask.entry.x.now) numbers.now begins ends) }
{
    for k in begins.start..begins.end {
        put_ends(arena, ask, findings, numbers, numbers[k], ends)?;
    }
    Ok(())
}

/// Puts the sets of pieces that begin at places of the set of the number and end at a mate of the run.
fn put_ends(
    arena: &Arena,
    ask: Ask<'_>,
    findings: &mut Findings,
    numbers: &[usize],
    left: usize,
    ends: Run,
) -> Result<(), NoMemory>
    requires index { IsSomeIndex arena.now ask.index.now }
    requires item { (n : ℕ) × IsAtomItem arena.now n ask.x.now }
    requires start { ask.start ≤ length findings.old.rows.numbers.items }
    requires ends { ends.end ≤ length numbers.now }
    requires verdicts { AreVerdicts arena.now findings.old.verdicts }
    ensures verdicts { OnOk result (AreVerdicts arena.now findings.new.verdicts) }
    ensures grown { OnOk result (Grows findings.old.rows.numbers.items findings.new.rows.numbers.items) }
    ensures done { OnOk result (AreEndsDone arena.now ask.entry.index.now (IsCovered arena.now findings.new.rows.numbers.items ask.entry.start ask.entry.x.now) numbers.now left ends.start ends.end) }
{
    for k in ends.start..ends.end {
        put_alike(arena, ask, findings, hash_piece(left, numbers[k]))?;
    }
    Ok(())
}

/// Puts the sets of the items of this hash that may have an atom in common with the given one.
fn put_alike(
    arena: &Arena,
    ask: Ask<'_>,
    findings: &mut Findings,
    hash: u64,
) -> Result<(), NoMemory>
    requires index { IsSomeIndex arena.now ask.index.now }
    requires item { (n : ℕ) × IsAtomItem arena.now n ask.x.now }
    requires start { ask.start ≤ length findings.old.rows.numbers.items }
    requires verdicts { AreVerdicts arena.now findings.old.verdicts }
    ensures verdicts { OnOk result (AreVerdicts arena.now findings.new.verdicts) }
    ensures grown { OnOk result (Grows findings.old.rows.numbers.items findings.new.rows.numbers.items) }
    ensures done { OnOk result (AreAlikeDone arena.now ask.entry.index.now (IsCovered arena.now findings.new.rows.numbers.items ask.entry.start ask.entry.x.now) hash) }
{
    let groups = &ask.index.groups;
    let mut e = groups.first_of(hash);
    while e < ask.index.items.len() {
        put_entry(arena, ask, findings, e, hash)?;
        e = groups.next(e);
    }
    Ok(())
}

/// Puts the set of the entry `e`, if it has the hash and its item may have an atom in common with the given one.
fn put_entry(
    arena: &Arena,
    ask: Ask<'_>,
    findings: &mut Findings,
    e: usize,
    hash: u64,
) -> Result<(), NoMemory>
    requires index { IsSomeIndex arena.now ask.index.now }
    requires within { e < length ask.index.now.items.items }
    requires item { (n : ℕ) × IsAtomItem arena.now n ask.x.now }
    requires start { ask.start ≤ length findings.old.rows.numbers.items }
    requires verdicts { AreVerdicts arena.now findings.old.verdicts }
    ensures verdicts { OnOk result (AreVerdicts arena.now findings.new.verdicts) }
    ensures grown { OnOk result (Grows findings.old.rows.numbers.items findings.new.rows.numbers.items) }
    ensures done { OnOk result (IsEntryDone arena.now ask.entry.index.now (IsCovered arena.now findings.new.rows.numbers.items ask.entry.start ask.entry.x.now) hash e) }
{
    let item = ask.index.items[e];
    if item.hash != hash {
        return Ok(());
    }
    if findings.rows.has(ask.start, item.set) {
        return Ok(());
    }
    arena.keeps_made();
    let y = item_at(arena, ask.index, e);
    if !may_meet(arena, &mut findings.verdicts, ask.x, y) {
        return Ok(());
    }
    findings.rows.put(ask.start, item.set)
}

/// Whether some atom may be of both items, whose places are not looked at.
fn may_meet(arena: &Arena, verdicts: &mut Verdicts, x: &AtomItem, y: &AtomItem) -> bool
    requires first { (n : ℕ) × IsAtomItem arena.now n x.now }
    requires second { (n : ℕ) × IsAtomItem arena.now n y.now }
    requires verdicts { AreVerdicts arena.now verdicts.old }
    ensures verdicts { AreVerdicts arena.now verdicts.new }
    ensures apart { result ≡ false → AreApart AtomIn arena.now x.now y.now }
{
    match (x, y) {
        (AtomItem::Const(u), AtomItem::Const(v)) => u.same(v),
        (AtomItem::Whole(s), AtomItem::Whole(t)) => sources_may_meet(arena, verdicts, *s, *t),
        (AtomItem::Sub(s, _, _), AtomItem::Sub(t, _, _)) => {
            sources_may_meet(arena, verdicts, *s, *t)
        }
        _ => false,
    }
}
