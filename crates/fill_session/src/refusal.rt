//! Why branches of changed examples are refused.
ghost use Rattle.std.specs.Prelude.{◌≡◌, ◌≢◌, List as Listed, Some, length};
ghost use Rattle.fill_tree.specs.declared.user.Example.{Example};
ghost use Rattle.fill_split.specs.Changes.{changed as changed_at, IsPlace};
ghost use Rattle.fill_split.specs.Refusals.{Refuses};
ghost use Rattle.fill_split.specs.Standing.{FoldsStand, rule_of};
ghost use Rattle.fill_split.specs.declared.change.Change.{Change};
ghost use Rattle.fill_space.specs.Ground.{FitsOn, WeighsOn};
ghost use Rattle.fill_session.specs.Branches.{rule_of_profile};
ghost use Rattle.fill_session.specs.Fate.{FateIs};

use crate::error::EditError;
use fill_space::Spaces;
use fill_split::{FoldError, Folds, Maker};
use fill_tree::Example;

/// Why the changed examples are refused, where their folds were. The folds are those of the examples before the change.
pub(crate) fn refusal_of(
    spaces: &Spaces,
    folds: &Folds<Spaces>,
    changed: &[Example],
    at: usize,
    refused: FoldError,
) -> EditError
    requires rule { rule_of folds.now ≡ rule_of_profile spaces.now.ground.settings.profile }
    requires stands { (old : Listed Example) × (change : Change Example) × FoldsStand ⟦<Spaces as Maker>⟧ spaces.now old folds.now
        × IsPlace change at (length old) × (changed_at change at old ≡ changed.now) }
    requires refused { Refuses (rule_of folds.now) (FitsOn spaces.now.ground) (WeighsOn spaces.now.ground) changed.now at refused }
    ensures { result ≢ EditError.NoMemory → FateIs spaces.now.ground changed.now (Some result) }
{
    let _rule = folds.branches();
    let _ground = spaces.sheet();
    match refused {
        FoldError::Alone { item } => EditError::NoProgram {
            row: changed[item].row,
        },
        FoldError::Ninth { item } => EditError::TooManyBranches {
            row: changed[item].row,
        },
        FoldError::NoMemory => EditError::NoMemory,
    }
}
