//! The branch that an item goes to.
ghost use Rattle.std.specs.Prelude.{◌≡◌, ◌+◌, ◌<◌, ◌≤◌, List as Listed, [], ◌∷◌, length, IfOk, IfSome, MatchOption};
ghost use Rattle.fill_split.specs.Keeping.{Keeps, KeepsMarks};
ghost use Rattle.fill_split.specs.Placement.{NoneFits};
ghost use Rattle.fill_split.specs.Standing.{KeptStand};
ghost use Rattle.fill_split.specs.Choices.{IsChosen, IsLighter, Weighs};
ghost use Rattle.fill_split.specs.declared.folds.Fold.{Fold};

use crate::folds::Fold;
use crate::maker::Maker;
use crate::rule::Placing;
use fill_edge::{Ledger, Steps};
use fill_text::NoMemory;

/// A branch that fits together with an item: what stands for both, and what they weigh, once that was asked.
#[derive(Clone, Copy)]
pub struct Choice<K: Copy> {
    pub branch: usize,
    pub kept: K,
    pub weight: Option<u64>,
}

/// What the items that a choice is for weigh.
fn weighed<M: Maker>(maker: &mut M, choice: Choice<M::Kept>) -> Result<u64, NoMemory>
    requires { (l : Listed M.Item) × M.stands maker.old choice.kept l }
    ensures same { maker.new ≡ maker.old }
    ensures weight { IfOk result (λ w. Weighs (M.stands maker.old) (M.weight (M.base maker.old)) choice w) }
{
    match choice.weight {
        Some(weight) => Ok(weight),
        None => maker.weight(choice.kept),
    }
}

/// The lighter of the best choice so far and the next one, and the best so far where they weigh the same. Where there is none
/// so far, it is the next one, and no weight is asked.
fn lighter<M: Maker>(
    maker: &mut M,
    best: Option<Choice<M::Kept>>,
    next: Choice<M::Kept>,
) -> Result<Choice<M::Kept>, NoMemory>
    requires best { IfSome best (λ c. (l : Listed M.Item) × M.stands maker.old c.kept l) }
    requires next { (l : Listed M.Item) × M.stands maker.old next.kept l }
    ensures same { maker.new ≡ maker.old }
    ensures lighter { IfOk result (λ after. MatchOption best (after ≡ next)
        (λ b. IsLighter (M.stands maker.old) (M.weight (M.base maker.old)) b next after)) }
{
    let best = match best {
        Some(best) => best,
        None => return Ok(next),
    };
    let least = match weighed(maker, best) {
        Ok(least) => least,
        Err(want) => return Err(want),
    };
    let weight = match weighed(maker, next) {
        Ok(weight) => weight,
        Err(want) => return Err(want),
    };
    if weight < least {
        Ok(Choice {
            weight: Some(weight),
            ..next
        })
    } else {
        Ok(Choice {
            weight: Some(least),
            ..best
        })
    }
}

/// The branch that one more item goes to under the rule, and what stands for both. A weight is asked only once a second
/// branch fits.
pub fn find<M: Maker, L: Ledger>(
    maker: &mut M,
    rule: Placing,
    branches: &[Fold<M::Kept>],
    single: M::Kept,
    steps: &mut Steps<L>,
) -> Result<Option<Choice<M::Kept>>, NoMemory>
    requires single { (l : Listed M.Item) × M.stands maker.old single l }
    requires live { (bs : Listed (Listed M.Item)) × KeptStand (M.stands maker.old) branches.now bs }
    ensures base { M.base maker.new ≡ M.base maker.old }
    ensures older { Keeps (M.stands maker.old) (M.stands maker.new) }
    ensures marks { KeepsMarks (M.valid maker.old) (M.valid maker.new) (M.marked maker.old) (M.marked maker.new) }
    ensures cost { steps.new ≤ steps.old + length branches.now }
    ensures within { IfOk result (λ found. IfSome found (λ f. f.branch < length branches.now)) }
    ensures found { IfOk result (λ found. (bs : Listed (Listed M.Item)) (x : M.Item) →
        KeptStand (M.stands maker.old) branches.now bs → M.stands maker.old single (x ∷ []) →
        MatchOption found
        (NoneFits (M.fits (M.base maker.old)) bs x)
        (λ f. IsChosen (M.stands maker.new) rule (M.fits (M.base maker.old)) (M.weight (M.base maker.old)) bs x f.branch f.kept)) }
{
    let mut best = None;
    for i in 0..branches.len() {
        let kept = match maker.join(branches[i].kept, single, steps) {
            Ok(Some(kept)) => kept,
            Ok(None) => continue,
            Err(want) => return Err(want),
        };
        let next = Choice {
            branch: i,
            kept,
            weight: None,
        };
        match rule {
            Placing::First => return Ok(Some(next)),
            Placing::Lightest => {}
        }
        best = match lighter(maker, best, next) {
            Ok(choice) => Some(choice),
            Err(want) => return Err(want),
        };
    }
    Ok(best)
}
