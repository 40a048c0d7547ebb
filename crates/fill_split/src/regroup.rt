//! The branches of a changed list of items.
ghost use Rattle.std.specs.Prelude.{◌≡◌, ◌+◌, ◌-◌, ◌*◌, ◌≤◌, List as Listed, length, take, drop, IfOk, IfErr, OnOk};
ghost use Rattle.fill_split.specs.Keeping.{Keeps, KeepsMarks};
ghost use Rattle.fill_split.specs.Standing.{StandsBy, TracedBy, Traced, SinglesStand, rule_of};
ghost use Rattle.fill_split.specs.Changes.{changed, IsPlace, IsAllowed};
ghost use Rattle.fill_split.specs.Refusals.{Refuses};

use crate::change::{Change, FoldError, taken};
use crate::folds::Folds;
use crate::maker::Maker;
use crate::place::{MOST_BRANCHES, place};
use crate::prefix::front;
use crate::singles::{changed_singles, single_put, singles};
use fill_edge::{Ledger, Steps};

/// Places the items from one on; `singles` stand for all items.
pub fn place_rest<M: Maker, L: Ledger>(
    maker: &mut M,
    singles: &[M::Kept],
    at: usize,
    folds: &mut Folds<M>,
    steps: &mut Steps<L>,
) -> Result<(), FoldError>
    requires at { at ≤ length singles.now }
    requires stands { (items : Listed M.Item) × SinglesStand (M.stands maker.old) singles.now items ×
        StandsBy (M.stands maker.old) (M.fits (M.base maker.old)) (M.weight (M.base maker.old)) (take at items) folds.old }
    ensures base { M.base maker.new ≡ M.base maker.old }
    ensures older { Keeps (M.stands maker.old) (M.stands maker.new) }
    ensures marks { KeepsMarks (M.valid maker.old) (M.valid maker.new) (M.marked maker.old) (M.marked maker.new) }
    ensures cost { steps.new ≤ steps.old + MOST_BRANCHES * (length singles.now - at) }
    ensures rule { rule_of folds.new ≡ rule_of folds.old }
    ensures folds { OnOk result ((items : Listed M.Item) → SinglesStand (M.stands maker.old) singles.now items →
        StandsBy (M.stands maker.old) (M.fits (M.base maker.old)) (M.weight (M.base maker.old)) (take at items) folds.old →
        StandsBy (M.stands maker.new) (M.fits (M.base maker.old)) (M.weight (M.base maker.old)) items folds.new) }
    ensures refused { IfErr result (λ error. (items : Listed M.Item) → SinglesStand (M.stands maker.old) singles.now items →
        StandsBy (M.stands maker.old) (M.fits (M.base maker.old)) (M.weight (M.base maker.old)) (take at items) folds.old →
        Refuses (rule_of folds.old) (M.fits (M.base maker.old)) (M.weight (M.base maker.old)) items at error) }
{
    for i in at..singles.len() {
        let single = singles[i];
        match place(maker, folds, single, steps) {
            Ok(true) => {}
            Ok(false) => return Err(FoldError::Ninth { item: i }),
            Err(_want) => return Err(FoldError::NoMemory),
        }
    }
    Ok(())
}

/// The branches of the items that the singles stand for, of which those before one came to their branches as `before` tells.
fn regroup_from<M: Maker, L: Ledger>(
    maker: &mut M,
    before: &Folds<M>,
    at: usize,
    singles: &[M::Kept],
    steps: &mut Steps<L>,
) -> Result<Folds<M>, FoldError>
    requires at { at ≤ length singles.now }
    requires within { at ≤ length before.now.places }
    requires paired { length before.now.kept.items ≡ 2 * length before.now.places }
    requires stands { (items : Listed M.Item) × SinglesStand (M.stands maker.old) singles.now items ×
        Traced (M.stands maker.old) before.now.rule (M.fits (M.base maker.old)) (M.weight (M.base maker.old)) (take at items) (take (2 * at) before.now.kept.items) (take at before.now.places) }
    ensures base { M.base maker.new ≡ M.base maker.old }
    ensures older { Keeps (M.stands maker.old) (M.stands maker.new) }
    ensures marks { KeepsMarks (M.valid maker.old) (M.valid maker.new) (M.marked maker.old) (M.marked maker.new) }
    ensures cost { steps.new ≤ steps.old + MOST_BRANCHES * (length singles.now - at) }
    ensures rule { IfOk result (λ folds. rule_of folds ≡ rule_of before.now) }
    ensures folds { IfOk result (λ folds. (items : Listed M.Item) → SinglesStand (M.stands maker.old) singles.now items →
        Traced (M.stands maker.old) before.now.rule (M.fits (M.base maker.old)) (M.weight (M.base maker.old)) (take at items) (take (2 * at) before.now.kept.items) (take at before.now.places) →
        StandsBy (M.stands maker.new) (M.fits (M.base maker.old)) (M.weight (M.base maker.old)) items folds) }
    ensures refused { IfErr result (λ error. (items : Listed M.Item) → SinglesStand (M.stands maker.old) singles.now items →
        Traced (M.stands maker.old) before.now.rule (M.fits (M.base maker.old)) (M.weight (M.base maker.old)) (take at items) (take (2 * at) before.now.kept.items) (take at before.now.places) →
        Refuses (rule_of before.now) (M.fits (M.base maker.old)) (M.weight (M.base maker.old)) items at error) }
{
    let (kept, _) = before.kept.as_slice().split_at(2 * at);
    let (places, _) = before.places.as_slice().split_at(at);
    let mut folds = match front(maker, before, kept, places) {
        Ok(folds) => folds,
        Err(_want) => return Err(FoldError::NoMemory),
    };
    match place_rest(maker, singles, at, &mut folds, steps) {
        Ok(()) => Ok(folds),
        Err(refusal) => Err(refusal),
    }
}

/// The branches of the changed list of items, where the items before the change came to theirs as `before` tells.
pub fn regroup<M: Maker, L: Ledger>(
    maker: &mut M,
    before: &Folds<M>,
    at: usize,
    change: &Change<M::Item>,
    steps: &mut Steps<L>,
) -> Result<Folds<M>, FoldError>
    requires stands { (items : Listed M.Item) × TracedBy (M.stands maker.old) (M.fits (M.base maker.old)) (M.weight (M.base maker.old)) items before.now × IsPlace change.now at (length items) }
    requires allowed { IsAllowed (M.allowed (M.base maker.old)) change.now }
    ensures base { M.base maker.new ≡ M.base maker.old }
    ensures older { Keeps (M.stands maker.old) (M.stands maker.new) }
    ensures marks { KeepsMarks (M.valid maker.old) (M.valid maker.new) (M.marked maker.old) (M.marked maker.new) }
    ensures cost { (items : Listed M.Item) → TracedBy (M.stands maker.old) (M.fits (M.base maker.old)) (M.weight (M.base maker.old)) items before.now →
        steps.new ≤ steps.old + (1 + MOST_BRANCHES * length (drop at (changed change.now at items))) }
    ensures rule { IfOk result (λ folds. rule_of folds ≡ rule_of before.now) }
    ensures folds { IfOk result (λ folds. (items : Listed M.Item) →
        TracedBy (M.stands maker.old) (M.fits (M.base maker.old)) (M.weight (M.base maker.old)) items before.now →
        StandsBy (M.stands maker.new) (M.fits (M.base maker.old)) (M.weight (M.base maker.old)) (changed change.now at items) folds) }
    ensures refused { IfErr result (λ error. (items : Listed M.Item) →
        TracedBy (M.stands maker.old) (M.fits (M.base maker.old)) (M.weight (M.base maker.old)) items before.now →
        Refuses (rule_of before.now) (M.fits (M.base maker.old)) (M.weight (M.base maker.old)) (changed change.now at items) at error) }
{
    let alloc = *before.branches.allocator();
    let one = match single_put(maker, change, at, steps) {
        Ok(one) => one,
        Err(refusal) => return Err(refusal),
    };
    let was = match singles(alloc, before.kept.as_slice(), before.places.len()) {
        Ok(was) => was,
        Err(_want) => return Err(FoldError::NoMemory),
    };
    let now = match changed_singles(alloc, was.as_slice(), at, one, taken(change)) {
        Ok(now) => now,
        Err(_want) => return Err(FoldError::NoMemory),
    };
    regroup_from(maker, before, at, now.as_slice(), steps)
}
