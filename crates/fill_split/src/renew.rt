//! Other kept values in place of those that folds hold.
ghost use Rattle.std.specs.List.{AllZip};
ghost use Rattle.fill_split.specs.Renewal.{IsRenewedBranch};

use crate::folds::Fold;

/// Gives a branch the value at its place, where there is one.
fn renew_branch<K: Copy>(fold: &mut Fold<K>, kept: &[K])
    ensures { IsRenewedBranch kept.now fold.old fold.new }
{
    if let Some(value) = kept.get(fold.place) {
        fold.kept = *value;
    }
}

/// Gives each branch the value at its place.
pub fn renew_branches<K: Copy>(branches: &mut Vec<Fold<K>>, kept: &[K])
    ensures { AllZip (IsRenewedBranch kept.now) branches.old.items branches.new.items }
{
    for i in 0..branches.len() {
        let fold = &mut branches[i];
        renew_branch(fold, kept);
    }
}
