//! Laws of the definitions that the contracts of this crate cite.
//!
//! Each function does nothing: what it tells is its clauses, which hold for all makers, folds and lists of items.
ghost use Rattle.std.specs.Prelude.{◌≡◌};
ghost use Rattle.fill_split.specs.LawsOfFolds.{FoldsStay, PlacedOnce, RenewedStand};

use crate::maker::Maker;
use crate::place::MOST_BRANCHES;

/// Folds that stood in a maker stand in it after each call of `first`, `join` and `refold`, and after a `cut` they stand
/// where they stood at the mark: what they stand on is kept by each of these calls, in the words of its contract.
pub fn folds_stay<M: Maker>()
    ensures { FoldsStay M.Maker }
{}

/// Renewed folds stand in a maker of the same meanings in which each given value stands for what the one at its place stood
/// for.
pub fn renewed_folds_stand<M: Maker>()
    ensures { RenewedStand M.Maker }
{}

/// Under a rule a list of items has at most one list of branches.
pub fn placed_once<M: Maker>()
    ensures { PlacedOnce M.Maker }
{}

/// How many branches items may have.
pub fn limits_are_as_specified()
    ensures { MOST_BRANCHES ≡ 8 }
{}
