//! The branches that folds stand for.
ghost use Rattle.std.specs.Prelude.{◌≡◌, ◌≢◌, ◌≤◌, ◌++◌, List as Listed, length, Some, IfOk, IfErr, OnOk, All};
ghost use Rattle.fill_split.specs.Standing.{rule_of};
ghost use Rattle.fill_guard.specs.Read.{IsRowOf};
ghost use Rattle.fill_tree.specs.declared.user.Example.{Example};
ghost use Rattle.fill_tree.specs.Meaning.{program_tree};
ghost use Rattle.fill_space.specs.Ground.{ChosenOn, MayStand};
ghost use Rattle.fill_space.specs.Spaces.{SpaceStands};
ghost use Rattle.fill_session.specs.Branches.{rule_of_profile, all_rows};
ghost use Rattle.fill_session.specs.Edits.{rows_of};
ghost use Rattle.fill_session.specs.Fate.{EachHasProgram, FateIs};
ghost use Rattle.fill_session.specs.Folded.{ArePicked, ArePickedAll, AreKept, IsGuardOf, IsUnguarded, AreBranchesOf, LacksGuard};
ghost use Rattle.fill_session.specs.State.{AreShown, IsHeld, SpacesStand};

use crate::before::{guard_before, program_before};
use crate::branch::Branch;
use crate::error::EditError;
use crate::present::Present;
use fill_guard::guard;
use fill_space::{Space, Spaces};
use fill_split::{Fold, Folds, MOST_BRANCHES};
use fill_text::{List, NoMemory};
use fill_tree::{Example, Guard, MOST_EXAMPLES, Program};
use std::alloc::Global;

/// The branches that folds stand for, each with its guard and its program, or the first one that no guard tells from the
/// later ones. What was present before gives those that still hold.
pub(crate) fn branches_of(
    alloc: Global,
    spaces: &Spaces,
    before: &Present,
    examples: &[Example],
    folds: &Folds<Spaces>,
) -> Result<List<Branch>, EditError>
    requires before { IsHeld spaces.now before.now.examples before.now.folds before.now.branches }
    requires stand { SpacesStand spaces.now examples.now folds.now }
    requires rule { rule_of folds.now ≡ rule_of_profile spaces.now.ground.settings.profile }
    requires each { All (MayStand spaces.now.ground) examples.now }
    requires few { length examples.now ≤ MOST_EXAMPLES }
    ensures shown { IfOk result (AreShown spaces.now.ground examples.now) }
    ensures refused { IfErr result (λ reason. reason ≢ EditError.NoMemory → EachHasProgram spaces.now.ground examples.now →
        FateIs spaces.now.ground examples.now (Some reason)) }
{
    let folds = folds.branches();
    match rows_in_order(alloc, examples, folds) {
        Ok(rows) => guarded(alloc, spaces, before, folds, rows.as_slice()),
        Err(_want) => Err(EditError::NoMemory),
    }
}

/// The rows of all branches, one branch after the other.
fn rows_in_order(
    alloc: Global,
    examples: &[Example],
    folds: &[Fold<Space>],
) -> Result<List<u32>, NoMemory>
    requires { (lists : Listed (Listed Example)) × ArePickedAll examples.now folds.now lists }
    ensures { IfOk result (λ rows. (lists : Listed (Listed Example)) → ArePickedAll examples.now folds.now lists → rows ≡ all_rows lists) }
{
    let mut rows = List::new(alloc);
    for fold in folds {
        push_rows(&mut rows, examples, fold.items.as_slice())?;
    }
    Ok(rows)
}

/// Puts the rows of the examples at these places at the end.
fn push_rows(rows: &mut List<u32>, examples: &[Example], places: &[usize]) -> Result<(), NoMemory>
    requires { (list : Listed Example) × ArePicked examples.now places.now list }
    ensures { OnOk result ((list : Listed Example) → ArePicked examples.now places.now list → rows.new ≡ rows.old ++ rows_of list) }
{
    for place in places {
        rows.push(examples[*place].row)?;
    }
    Ok(())
}

/// The branches of the folds, whose rows stand one branch after the other.
fn guarded(
    alloc: Global,
    spaces: &Spaces,
    before: &Present,
    folds: &[Fold<Space>],
    rows: &[u32],
) -> Result<List<Branch>, EditError>
    requires before { IsHeld spaces.now before.now.examples before.now.folds before.now.branches }
    requires kept { (lists : Listed (Listed Example)) × AreKept spaces.now folds.now lists × (rows.now ≡ all_rows lists) }
    requires short { length folds.now ≤ MOST_BRANCHES }
    requires few { length rows.now ≤ MOST_EXAMPLES }
    requires each { All (IsRowOf spaces.now.ground.sheet) rows.now }
    ensures made { IfOk result (λ made. (lists : Listed (Listed Example)) → AreKept spaces.now folds.now lists → rows.now ≡ all_rows lists →
        AreBranchesOf spaces.now.ground lists made) }
    ensures refused { IfErr result (λ reason. reason ≢ EditError.NoMemory → (lists : Listed (Listed Example)) →
        AreKept spaces.now folds.now lists → rows.now ≡ all_rows lists → LacksGuard spaces.now.ground lists reason) }
{
    let mut made = List::new(alloc);
    let mut rest = rows;
    for k in 0..folds.len() {
        let fold = &folds[k];
        let (inside, outside) = rest.split_at(fold.items.len());
        let number = k as u32 + 1;
        let is_last = k + 1 == folds.len();
        let guard = match guard_of(alloc, spaces, before, inside, outside, number, is_last) {
            Ok(guard) => guard,
            Err(refusal) => return Err(refusal),
        };
        match branch_of(alloc, spaces, before, fold.kept, inside, guard) {
            Ok(branch) => match made.push(branch) {
                Ok(()) => {}
                Err(_want) => return Err(EditError::NoMemory),
            },
            Err(_want) => return Err(EditError::NoMemory),
        }
        rest = outside;
    }
    Ok(made)
}

/// The guard that tells the rows inside from those outside, that of a branch of before where it does; none for the last
/// branch.
fn guard_of(
    alloc: Global,
    spaces: &Spaces,
    before: &Present,
    inside: &[u32],
    outside: &[u32],
    branch: u32,
    is_last: bool,
) -> Result<Option<Guard>, EditError>
    requires before { IsHeld spaces.now before.now.examples before.now.folds before.now.branches }
    requires inside { All (IsRowOf spaces.now.ground.sheet) inside.now }
    requires outside { All (IsRowOf spaces.now.ground.sheet) outside.now }
    requires few { length outside.now ≤ MOST_EXAMPLES }
    ensures made { IfOk result (IsGuardOf spaces.now.ground inside.now outside.now is_last) }
    ensures refused { IfErr result (λ reason. reason ≢ EditError.NoMemory → IsUnguarded spaces.now.ground inside.now outside.now branch is_last reason) }
{
    if is_last {
        return Ok(None);
    }
    if let Some(guard) = guard_before(spaces, before.branches.as_slice(), inside, outside) {
        return Ok(Some(guard));
    }
    match guard(alloc, spaces.sheet(), inside, outside, spaces.settings()) {
        Ok(Some(guard)) => Ok(Some(guard)),
        Ok(None) => Err(EditError::NoGuard { branch }),
        Err(_want) => Err(EditError::NoMemory),
    }
}

/// The branch of these rows, which this space stands for.
fn branch_of(
    alloc: Global,
    spaces: &Spaces,
    before: &Present,
    space: Space,
    rows: &[u32],
    guard: Option<Guard>,
) -> Result<Branch, NoMemory>
    requires before { IsHeld spaces.now before.now.examples before.now.folds before.now.branches }
    requires stands { (list : Listed Example) × SpaceStands spaces.now space list }
    ensures rows { IfOk result (λ made. made.rows ≡ rows.now) }
    ensures guard { IfOk result (λ made. made.guard ≡ guard) }
    ensures program { IfOk result (λ made. (list : Listed Example) → SpaceStands spaces.now space list →
        ChosenOn spaces.now.ground list (program_tree made.program)) }
{
    let mut copied = List::new(alloc);
    copied.append(rows)?;
    Ok(Branch {
        rows: copied,
        guard,
        program: program_of(alloc, spaces, before, space)?,
    })
}

/// The chosen program of the examples that the space stands for, that of a branch of before where it has the same space.
fn program_of(
    alloc: Global,
    spaces: &Spaces,
    before: &Present,
    space: Space,
) -> Result<Program, NoMemory>
    requires before { IsHeld spaces.now before.now.examples before.now.folds before.now.branches }
    requires stands { (list : Listed Example) × SpaceStands spaces.now space list }
    ensures { IfOk result (λ p. (list : Listed Example) → SpaceStands spaces.now space list →
        ChosenOn spaces.now.ground list (program_tree p)) }
{
    let folds = before.folds.branches();
    match program_before(alloc, folds, before.branches.as_slice(), space) {
        Ok(Some(program)) => Ok(program),
        Ok(None) => spaces.least(space),
        Err(want) => Err(want),
    }
}
