//! An item's place among the branches.
ghost use Rattle.std.specs.Prelude.{◌≡◌, ◌+◌, ◌<◌, ◌≤◌, List as Listed, [], ◌∷◌, ◌++◌, Some, slice_get, slice_set, length, IfOk, OnOk, MatchBool};
ghost use Rattle.fill_split.specs.Keeping.{Keeps, KeepsMarks};
ghost use Rattle.fill_split.specs.Standing.{FoldsStand, StandsBy, rule_of};
ghost use Rattle.fill_split.specs.Placement.{OpensNinth};
ghost use Rattle.fill_split.specs.declared.folds.Fold.{Fold};

use crate::find::find;
use crate::folds::{Fold, Folds};
use crate::maker::Maker;
use fill_edge::{Ledger, Steps};
use fill_text::{List, NoMemory};
use std::alloc::Global;

/// How many branches there are at most.
pub const MOST_BRANCHES: usize = 8;

/// Puts an item to a branch.
pub fn join_branch<K: Copy>(
    branches: &mut Vec<Fold<K>>,
    branch: usize,
    item: usize,
    kept: K,
    place: usize,
) -> Result<(), NoMemory>
    requires { branch < length branches.old.items }
    ensures { OnOk result ((f : Fold K) × (g : Fold K) × (slice_get branches.old.items branch ≡ Some f)
        × (branches.new.items ≡ slice_set branches.old.items branch g) × (g.kept ≡ kept) × (g.items ≡ f.items ++ item ∷ []) × (g.place ≡ place)) }
{
    let fold = &mut branches[branch];
    fold.items.push(item)?;
    fold.kept = kept;
    fold.place = place;
    Ok(())
}

/// Opens a branch for an item.
pub fn open_branch<K: Copy>(
    alloc: Global,
    branches: &mut Vec<Fold<K>>,
    item: usize,
    kept: K,
    place: usize,
) -> Result<(), NoMemory>
    ensures { OnOk result ((g : Fold K) × (branches.new.items ≡ branches.old.items ++ g ∷ []) × (g.kept ≡ kept) × (g.items ≡ item ∷ []) × (g.place ≡ place)) }
{
    let mut items = List::new(alloc);
    items.push(item)?;
    match branches.push(Fold { items, kept, place }) {
        Ok(()) => Ok(()),
        Err(_refused) => Err(NoMemory),
    }
}

/// Notes what stands for an item and for its branch with it, and which branch that is. The second value's place.
fn note<K: Copy>(
    kept: &mut Vec<K>,
    places: &mut List<usize>,
    one: K,
    joined: K,
    branch: usize,
) -> Result<usize, NoMemory>
    ensures { IfOk result (λ place. (place ≡ length kept.old.items + 1) × (kept.new.items ≡ kept.old.items ++ one ∷ joined ∷ []) × (places.new ≡ places.old ++ branch ∷ [])) }
{
    match kept.push(one) {
        Ok(()) => {}
        Err(_refused) => return Err(NoMemory),
    }
    let place = kept.len();
    match kept.push(joined) {
        Ok(()) => {}
        Err(_refused) => return Err(NoMemory),
    }
    places.push(branch)?;
    Ok(place)
}

/// Puts the next item to the branch that it goes to, or opens one for it. False where that would be a ninth.
pub fn place<M: Maker, L: Ledger>(
    maker: &mut M,
    folds: &mut Folds<M>,
    single: M::Kept,
    steps: &mut Steps<L>,
) -> Result<bool, NoMemory>
    requires stands { (seen : Listed M.Item) × FoldsStand M.Maker maker.old seen folds.old }
    requires single { (x : M.Item) × M.stands maker.old single (x ∷ []) }
    ensures base { M.base maker.new ≡ M.base maker.old }
    ensures older { Keeps (M.stands maker.old) (M.stands maker.new) }
    ensures marks { KeepsMarks (M.valid maker.old) (M.valid maker.new) (M.marked maker.old) (M.marked maker.new) }
    ensures cost { steps.new ≤ steps.old + MOST_BRANCHES }
    ensures rule { rule_of folds.new ≡ rule_of folds.old }
    ensures placed { IfOk result (λ placed. (seen : Listed M.Item) (x : M.Item) →
        FoldsStand M.Maker maker.old seen folds.old → M.stands maker.old single (x ∷ []) →
        MatchBool placed
        (StandsBy (M.stands maker.new) (M.fits (M.base maker.old)) (M.weight (M.base maker.old)) (seen ++ x ∷ []) folds.new)
        (OpensNinth (rule_of folds.old) (M.fits (M.base maker.old)) (M.weight (M.base maker.old)) seen x)) }
{
    let item = folds.places.len();
    let count = folds.branches.len();
    match find(maker, folds.rule, folds.branches.as_slice(), single, steps)? {
        Some(found) => {
            let place = note(
                &mut folds.kept,
                &mut folds.places,
                single,
                found.kept,
                found.branch,
            )?;
            join_branch(&mut folds.branches, found.branch, item, found.kept, place)?;
            Ok(true)
        }
        None => {
            if count == MOST_BRANCHES {
                return Ok(false);
            }
            let alloc = *folds.branches.allocator();
            let place = note(&mut folds.kept, &mut folds.places, single, single, count)?;
            open_branch(alloc, &mut folds.branches, item, single, place)?;
            Ok(true)
        }
    }
}
