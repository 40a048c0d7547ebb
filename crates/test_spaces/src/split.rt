//! Branches of numbers whose sum is at most ten.
ghost use Rattle.std.specs.Prelude.{◌≡◌, ◌+◌, ◌-◌, ◌<◌, ◌≤◌, List as Listed, ℕ, [], ◌∷◌, ◌++◌, sum, slice_get, Some, length, IfOk, OnErr, MatchOption};
ghost use Rattle.std.proofs.Common.{◌∙◌, sym};
ghost use Rattle.fill_split.specs.Standing.{FoldsStand};
ghost use Rattle.fill_split.specs.Changes.{put_in, taken_out, IsPlace};

use fill_edge::{Ledger, Steps};
use fill_split::{
    Change, Fold, FoldError, Folds, Maker, Placing, folds_stay, placed_once, renewed_folds_stand,
};
use fill_text::{List, NoMemory};
use std::alloc::Global;
use std::marker::{Brand, Model};
use std::sync::ledger::Blank;
use std::test::Fail;

/// Sums that are at most ten, how many calls were made for them, and the number of the call that finds no memory.
#[derive(Drop)]
struct Sums {
    kept: Vec<u32>,
    firsts: u64,
    joins: u64,
    fails_at: u64,
}

impl Model for Sums {
    ghost use Rattle.std.specs.Prelude.{List as Listed, ℕ};

    ghost Value = { Listed ℕ };

    ghost view = { λ sums. sums.kept.items };
}

impl Sums {
    fn new(alloc: Global, fails_at: u64) -> Sums
        ensures { result ≡ [] }
    {
        Sums {
            kept: Vec::new(alloc),
            firsts: 0,
            joins: 0,
            fails_at,
        }
    }

    /// Refuses the call that is to find no memory.
    fn admit(&mut self) -> Result<(), NoMemory>
        ensures { self.new ≡ self.old }
    {
        if self.firsts.wrapping_add(self.joins) == self.fails_at {
            return Err(NoMemory);
        }
        Ok(())
    }

    /// Keeps a sum that is at most ten.
    fn keep(&mut self, sum: u32) -> Result<Option<usize>, NoMemory>
        ensures kept { IfOk result (λ made. MatchOption made ((sum ≤ 10 → ⊥) × (self.new ≡ self.old))
            (λ k. (sum ≤ 10) × (self.new ≡ self.old ++ sum ∷ []) × (k ≡ length self.old))) }
        ensures err { OnErr result (self.new ≡ self.old) }
    {
        self.admit()?;
        if sum > 10 {
            return Ok(None);
        }
        let place = self.kept.len();
        match self.kept.push(sum) {
            Ok(()) => Ok(Some(place)),
            Err(_refused) => Err(NoMemory),
        }
    }
}

impl Maker for Sums {
    type Item = u32;

    type Kept = usize;

    type Mark = usize;

    type Base = ();

    ghost base = { λ _. tt };

    ghost fits = { λ _ l. sum l ≤ 10 };

    ghost weight = { λ _ l n. n ≡ 10 - sum l };

    ghost allowed = { λ _ _. Unit {0} };

    ghost stands = { λ sums k l. (slice_get sums k ≡ Some (sum l)) × (sum l ≤ 10) };

    ghost marked = { λ sums mark k l. (k < mark) × (slice_get sums k ≡ Some (sum l)) × (sum l ≤ 10) };

    ghost valid = { λ sums mark. mark ≤ length sums };

    ghost no_later = { λ a b. a ≤ b };

    fn first<L: Ledger>(
        &mut self,
        item: &u32,
        steps: &mut Steps<L>,
    ) -> Result<Option<usize>, NoMemory> {
        steps.tick();
        self.firsts = self.firsts.wrapping_add(1);
        self.keep(*item)
    }

    fn join<L: Ledger>(
        &mut self,
        kept: usize,
        one: usize,
        steps: &mut Steps<L>,
    ) -> Result<Option<usize>, NoMemory> {
        steps.tick();
        self.joins = self.joins.wrapping_add(1);
        let sum = self.kept[kept] + self.kept[one];
        self.keep(sum)
    }

    fn mark(&self) -> usize {
        self.kept.len()
    }

    fn cut(&mut self, mark: usize) {
        self.kept.truncate(mark);
    }

    fn weight(&mut self, kept: usize) -> Result<u64, NoMemory> {
        Ok(10 - self.kept[kept] as u64)
    }

    ghost stands_fit = { λ m k l s. s.1 };

    ghost one_weight = { λ b l v w h k. h ∙ sym k };
}

/// Folds, and how many items they stand for.
#[derive(Drop)]
struct Held {
    folds: Folds<Sums>,
    count: usize,
}

/// How many items there are after the change, where its place is one.
fn count_after(change: &Change<u32>, at: usize, count: usize) -> Option<usize>
    ensures { MatchOption result (Unit {0}) (λ n. IsPlace change.now at count × (n + taken_out change.now ≡ count + length (put_in change.now))) }
{
    match change {
        Change::Insert(_item) => {
            if at <= count && count < 100 {
                Some(count + 1)
            } else {
                None
            }
        }
        Change::Replace(_item) => { if at < count { Some(count) } else { None } }
        Change::Remove => { if at < count { Some(count - 1) } else { None } }
    }
}

/// The change of a row of a table.
#[derive(Clone, Copy)]
enum Edit {
    Insert(usize, u32),
    Replace(usize, u32),
    Remove(usize),
}

fn change_of(edit: Edit) -> (usize, Change<u32>) {
    match edit {
        Edit::Insert(at, item) => (at, Change::Insert(item)),
        Edit::Replace(at, item) => (at, Change::Replace(item)),
        Edit::Remove(at) => (at, Change::Remove),
    }
}

/// Makes a change, where its place is one.
fn apply<L: Ledger>(
    sums: &mut Sums,
    held: &mut Held,
    edit: Edit,
    steps: &mut Steps<L>,
) -> Result<(), FoldError>
    requires { (items : Listed ℕ) × FoldsStand ⟦<Sums as Maker>⟧ sums.old items held.old.folds × (length items ≡ held.old.count) }
    ensures { (items : Listed ℕ) × FoldsStand ⟦<Sums as Maker>⟧ sums.new items held.new.folds × (length items ≡ held.new.count) }
{
    let (at, change) = change_of(edit);
    let count = match count_after(&change, at, held.count) {
        Some(count) => count,
        None => return Err(FoldError::NoMemory),
    };
    match held.folds.refold(sums, at, change, steps) {
        Ok(folds) => {
            held.folds = folds;
            held.count = count;
            Ok(())
        }
        Err(refusal) => Err(refusal),
    }
}

/// Whether these are the places of the branches' items.
fn are(branches: &[Fold<usize>], wanted: &'static [&'static [usize]]) -> bool {
    if branches.len() != wanted.len() {
        return false;
    }
    for i in 0..branches.len() {
        if branches[i].items.as_slice() != wanted[i] {
            return false;
        }
    }
    true
}

/// A change, the branches after it and the calls that it makes.
#[derive(Clone, Copy)]
struct Row {
    edit: Edit,
    branches: &'static [&'static [usize]],
    firsts: u64,
    joins: u64,
}

/// The branches of no items.
const NO_BRANCHES: &[&[usize]] = &[];

/// Six, five, four and three at the end in turn, and then the first one taken out.
const FIRST: [Row; 5] = [
    Row {
        edit: Edit::Insert(0, 6),
        branches: &[&[0]],
        firsts: 1,
        joins: 0,
    },
    Row {
        edit: Edit::Insert(1, 5),
        branches: &[&[0], &[1]],
        firsts: 1,
        joins: 1,
    },
    Row {
        edit: Edit::Insert(2, 4),
        branches: &[&[0, 2], &[1]],
        firsts: 1,
        joins: 1,
    },
    Row {
        edit: Edit::Insert(3, 3),
        branches: &[&[0, 2], &[1, 3]],
        firsts: 1,
        joins: 2,
    },
    Row {
        edit: Edit::Remove(0),
        branches: &[&[0, 1], &[2]],
        firsts: 0,
        joins: 2,
    },
];

/// Five, six and four by weight.
const LIGHTEST: [Row; 3] = [
    Row {
        edit: Edit::Insert(0, 5),
        branches: &[&[0]],
        firsts: 1,
        joins: 0,
    },
    Row {
        edit: Edit::Insert(1, 6),
        branches: &[&[0], &[1]],
        firsts: 1,
        joins: 1,
    },
    Row {
        edit: Edit::Insert(2, 4),
        branches: &[&[0], &[1, 2]],
        firsts: 1,
        joins: 2,
    },
];

/// Five, six and four by the first branch that fits.
const BY_FIRST: [Row; 3] = [
    Row {
        edit: Edit::Insert(0, 5),
        branches: &[&[0]],
        firsts: 1,
        joins: 0,
    },
    Row {
        edit: Edit::Insert(1, 6),
        branches: &[&[0], &[1]],
        firsts: 1,
        joins: 1,
    },
    Row {
        edit: Edit::Insert(2, 4),
        branches: &[&[0, 2], &[1]],
        firsts: 1,
        joins: 1,
    },
];

/// One branch of three items.
const ALL_IN_ONE: &[&[usize]] = &[&[0, 1, 2]];

/// Five, four and three at the end in turn.
const THREE: [Row; 3] = [
    Row {
        edit: Edit::Insert(0, 5),
        branches: &[&[0]],
        firsts: 1,
        joins: 0,
    },
    Row {
        edit: Edit::Insert(1, 4),
        branches: &[&[0, 1]],
        firsts: 1,
        joins: 1,
    },
    Row {
        edit: Edit::Insert(2, 3),
        branches: &[&[0, 1], &[2]],
        firsts: 1,
        joins: 1,
    },
];

/// And then two in place of the four.
const REPLACED: Row = Row {
    edit: Edit::Replace(1, 2),
    branches: ALL_IN_ONE,
    firsts: 1,
    joins: 2,
};

/// Makes a row's change, and again where the call that is to find no memory is one of it: whether all is as it was after
/// that, and the branches and the calls are the row's in the end.
fn holds<L: Ledger>(
    sums: &mut Sums,
    held: &mut Held,
    before: &'static [&'static [usize]],
    row: Row,
    steps: &mut Steps<L>,
) -> Result<bool, NoMemory>
    requires { (items : Listed ℕ) × FoldsStand ⟦<Sums as Maker>⟧ sums.old items held.old.folds × (length items ≡ held.old.count) }
    ensures { (items : Listed ℕ) × FoldsStand ⟦<Sums as Maker>⟧ sums.new items held.new.folds × (length items ≡ held.new.count) }
{
    let live = sums.kept.len();
    let (firsts, joins) = (sums.firsts, sums.joins);
    match apply(sums, held, row.edit, steps) {
        Ok(()) => Ok(
            are(held.folds.branches(), row.branches)
                && sums.firsts.wrapping_sub(firsts) == row.firsts
                && sums.joins.wrapping_sub(joins) == row.joins,
        ),
        Err(FoldError::NoMemory) => {
            if sums.firsts.wrapping_add(sums.joins) != sums.fails_at {
                return Err(NoMemory);
            }
            let as_before = sums.kept.len() == live && are(held.folds.branches(), before);
            match apply(sums, held, row.edit, steps) {
                Ok(()) => Ok(as_before && are(held.folds.branches(), row.branches)),
                Err(FoldError::NoMemory) => Err(NoMemory),
                Err(_other) => Ok(false),
            }
        }
        Err(_other) => Ok(false),
    }
}

/// Whether all rows hold.
fn rows_hold<L: Ledger>(
    sums: &mut Sums,
    held: &mut Held,
    rows: &[Row],
    steps: &mut Steps<L>,
) -> Result<bool, NoMemory>
    requires { (items : Listed ℕ) × FoldsStand ⟦<Sums as Maker>⟧ sums.old items held.old.folds × (length items ≡ held.old.count) }
    ensures { (items : Listed ℕ) × FoldsStand ⟦<Sums as Maker>⟧ sums.new items held.new.folds × (length items ≡ held.new.count) }
{
    let mut before = NO_BRANCHES;
    for i in 0..rows.len() {
        let row = rows[i];
        match holds(sums, held, before, row, steps) {
            Ok(true) => before = row.branches,
            Ok(false) => return Ok(false),
            Err(e) => return Err(e),
        }
    }
    Ok(true)
}

/// Whether an item that is too large by itself is refused, and all is as before apart from the call that was made for it.
fn refuses<L: Ledger>(
    sums: &mut Sums,
    held: &mut Held,
    branches: &'static [&'static [usize]],
    steps: &mut Steps<L>,
) -> Result<bool, NoMemory>
    requires { (items : Listed ℕ) × FoldsStand ⟦<Sums as Maker>⟧ sums.old items held.old.folds × (length items ≡ held.old.count) }
    ensures { (items : Listed ℕ) × FoldsStand ⟦<Sums as Maker>⟧ sums.new items held.new.folds × (length items ≡ held.new.count) }
{
    let live = sums.kept.len();
    let (firsts, joins) = (sums.firsts, sums.joins);
    match apply(sums, held, Edit::Insert(3, 11), steps) {
        Err(FoldError::Alone { item: 3 }) => Ok(
            sums.kept.len() == live
                && are(held.folds.branches(), branches)
                && sums.firsts == firsts.wrapping_add(1)
                && sums.joins == joins,
        ),
        Err(FoldError::NoMemory) => Err(NoMemory),
        _ => Ok(false),
    }
}

/// Whether folds are the same after they are renewed by what they have, and empty once they are cleared.
fn renews(alloc: Global, folds: &mut Folds<Sums>) -> Result<bool, NoMemory> {
    let mut kept: List<usize> = List::new(alloc);
    kept.append(folds.kept())?;
    folds.renew(kept.as_slice());
    let renewed = folds.kept() == kept.as_slice() && are(folds.branches(), ALL_IN_ONE);
    folds.clear();
    Ok(renewed && folds.branches().is_empty() && folds.kept().is_empty())
}

/// Whether the folds refuse an item after the rows, take another one for one of theirs, and are renewed and cleared.
fn changes_hold<L: Ledger>(
    alloc: Global,
    sums: &mut Sums,
    held: &mut Held,
    steps: &mut Steps<L>,
) -> Result<bool, NoMemory>
    requires { (items : Listed ℕ) × FoldsStand ⟦<Sums as Maker>⟧ sums.old items held.old.folds × (length items ≡ held.old.count) }
{
    let branches = THREE[2].branches;
    Ok(
        rows_hold(sums, held, THREE.as_slice(), steps)?
            && refuses(sums, held, branches, steps)?
            && holds(sums, held, branches, REPLACED, steps)?
            && renews(alloc, &mut held.folds)?,
    )
}

/// What folds of no items are to do.
#[derive(Clone, Copy)]
enum Task<'a> {
    Rows(&'a [Row]),
    Changes,
}

/// Whether the folds do what they are to do, and how many calls are made in all.
fn does<L: Ledger>(
    alloc: Global,
    sums: &mut Sums,
    held: &mut Held,
    task: Task,
    steps: &mut Steps<L>,
) -> Result<Option<u64>, NoMemory>
    requires { (items : Listed ℕ) × FoldsStand ⟦<Sums as Maker>⟧ sums.old items held.old.folds × (length items ≡ held.old.count) }
{
    let done = match task {
        Task::Rows(rows) => rows_hold(sums, held, rows, steps)?,
        Task::Changes => changes_hold(alloc, sums, held, steps)?,
    };
    if !done {
        return Ok(None);
    }
    Ok(Some(sums.firsts.wrapping_add(sums.joins)))
}

/// Whether new folds under the rule do, where the call of this number finds no memory.
fn counted<L: Ledger>(
    alloc: Global,
    blank: Blank,
    rule: Placing,
    fails_at: u64,
    task: Task,
) -> Result<Option<u64>, NoMemory>
    requires name { blank.name ≡ L.name }
    requires parts { blank.parts ≡ L.parts }
    requires one { blank.parts ≡ 1 }
{
    let (book, share) = blank.open::<L>();
    let mut steps: Steps<L> = Steps::new(book, share);
    let mut sums = Sums::new(alloc, fails_at);
    let mut held = Held {
        folds: Folds::new(alloc, rule),
        count: 0,
    };
    does(alloc, &mut sums, &mut held, task, &mut steps)
}

/// Whether new folds do it, with steps of their own.
fn calls(alloc: Global, rule: Placing, fails_at: u64, task: Task) -> Result<Option<u64>, NoMemory> {
    counted::<Brand>(alloc, Blank::new(1), rule, fails_at, task)
}

#[test]
fn the_first_branch_that_fits_takes_an_item(rt: HostRuntime) -> Result<(), Fail> {
    let rows = Task::Rows(FIRST.as_slice());
    assert_eq!(rt; calls(rt.alloc(), Placing::First, 0, rows)?, Some(10));
    Ok(())
}

#[test]
fn the_lightest_branch_takes_an_item(rt: HostRuntime) -> Result<(), Fail> {
    for (rule, rows, wanted) in [
        (Placing::Lightest, LIGHTEST.as_slice(), 6),
        (Placing::First, BY_FIRST.as_slice(), 5),
    ] {
        assert_eq!(rt; calls(rt.alloc(), rule, 0, Task::Rows(rows))?, Some(wanted));
    }
    Ok(())
}

#[test]
fn a_call_without_memory_changes_nothing(rt: HostRuntime) -> Result<(), Fail> {
    for call in 1..11u64 {
        let rows = Task::Rows(FIRST.as_slice());
        assert!(rt; calls(rt.alloc(), Placing::First, call, rows)?.is_some());
    }
    Ok(())
}

#[test]
fn branches_follow_changes(rt: HostRuntime) -> Result<(), Fail> {
    folds_stay::<Sums>();
    renewed_folds_stand::<Sums>();
    placed_once::<Sums>();
    assert!(rt; calls(rt.alloc(), Placing::First, 0, Task::Changes)?.is_some());
    Ok(())
}
