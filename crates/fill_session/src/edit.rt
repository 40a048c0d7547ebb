//! What is present after an edit.
ghost use Rattle.std.specs.Prelude.{◌≡◌, ◌≢◌, ◌+◌, ◌≤◌, None, Ok, Some, IfOk, IfErr, IsOk, OnErr};
ghost use Rattle.fill_split.specs.Keeping.{Keeps};
ghost use Rattle.fill_space.specs.Spaces.{SpaceStands};
ghost use Rattle.fill_session.specs.Edits.{changed};
ghost use Rattle.fill_session.specs.Fate.{FateIs};
ghost use Rattle.fill_session.specs.Change.{IsChangeOf};
ghost use Rattle.fill_session.specs.Outcome.{first_reason, term};
ghost use Rattle.fill_session.specs.State.{IsHeld};

use crate::branches::branches_of;
use crate::error::EditError;
use crate::examples::{ChangeAt, change_of, changed_examples};
use crate::present::Present;
use crate::refusal::refusal_of;
use fill_edge::{Ledger, Steps};
use fill_space::Spaces;
use fill_split::Maker;
use fill_tree::Edit;
use std::alloc::Global;

/// What is present after an edit against which no reason was seen, or why it is refused. What the spaces stood for they
/// stand for.
pub(crate) fn present_after<L: Ledger>(
    alloc: Global,
    spaces: &mut Spaces,
    present: &Present,
    edit: &Edit,
    steps: &mut Steps<L>,
) -> Result<Present, EditError>
    requires held { IsHeld spaces.old present.now.examples present.now.folds present.now.branches }
    requires free { first_reason spaces.old.ground.sheet present.now.examples edit.now ≡ None }
    ensures ground { spaces.new.ground ≡ spaces.old.ground }
    ensures older { Keeps (SpaceStands spaces.old) (SpaceStands spaces.new) }
    ensures cut { OnErr result (Keeps (SpaceStands spaces.new) (SpaceStands spaces.old)) }
    ensures made { IfOk result (λ made. IsHeld spaces.new made.examples made.folds made.branches × (made.examples ≡ changed present.now.examples edit.now)) }
    ensures refused { IfErr result (λ reason. reason ≢ EditError.NoMemory → FateIs spaces.old.ground (changed present.now.examples edit.now) (Some reason)) }
    ensures cleared { edit.now ≡ Edit.Clear → IsOk result }
    ensures same { edit.now ≡ Edit.Clear → spaces.new ≡ spaces.old }
    ensures cost { steps.new ≤ steps.old + term spaces.old.ground.sheet present.now.examples edit.now }
{
    match change_of(present.examples.as_slice(), edit) {
        Ok(Some(change)) => changed_present(alloc, spaces, present, edit, change, steps),
        Ok(None) => Ok(Present::none(alloc, spaces.settings())),
        Err(_want) => Err(EditError::NoMemory),
    }
}

/// The examples after this change, with their branches.
fn changed_present<L: Ledger>(
    alloc: Global,
    spaces: &mut Spaces,
    present: &Present,
    edit: &Edit,
    change: ChangeAt,
    steps: &mut Steps<L>,
) -> Result<Present, EditError>
    requires held { IsHeld spaces.old present.now.examples present.now.folds present.now.branches }
    requires free { first_reason spaces.old.ground.sheet present.now.examples edit.now ≡ None }
    requires change { IsChangeOf spaces.old.ground present.now.examples edit.now change }
    ensures ground { spaces.new.ground ≡ spaces.old.ground }
    ensures older { Keeps (SpaceStands spaces.old) (SpaceStands spaces.new) }
    ensures cut { OnErr result (Keeps (SpaceStands spaces.new) (SpaceStands spaces.old)) }
    ensures made { IfOk result (λ made. IsHeld spaces.new made.examples made.folds made.branches × (made.examples ≡ changed present.now.examples edit.now)) }
    ensures refused { IfErr result (λ reason. reason ≢ EditError.NoMemory → FateIs spaces.old.ground (changed present.now.examples edit.now) (Some reason)) }
    ensures cost { steps.new ≤ steps.old + term spaces.old.ground.sheet present.now.examples edit.now }
{
    let examples = match changed_examples(alloc, present.examples.as_slice(), edit) {
        Ok(examples) => examples,
        Err(_want) => return Err(EditError::NoMemory),
    };
    let ChangeAt { at, change } = change;
    let mark = spaces.mark();
    let folds = match present.folds.refold(spaces, at, change, steps) {
        Ok(folds) => folds,
        Err(refused) => {
            return Err(refusal_of(spaces, &present.folds, examples.as_slice(), at, refused));
        }
    };
    match branches_of(alloc, spaces, present, examples.as_slice(), &folds) {
        Ok(branches) => Ok(Present {
            examples,
            folds,
            branches,
        }),
        Err(refusal) => {
            spaces.cut(mark);
            Err(refusal)
        }
    }
}
