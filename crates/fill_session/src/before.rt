//! What an edit keeps of the branches that stood before it: a program whose space is the same, and a guard that tells more rows
//! apart as well.
ghost use Rattle.std.specs.Prelude.{◌↔◌, List as Listed, All, Contains, IfOk, IfSome, IsTrue};
ghost use Rattle.fill_guard.specs.Read.{IsRowOf};
ghost use Rattle.fill_tree.specs.Guard.{GuardHolds, ReadsInputs};
ghost use Rattle.fill_tree.specs.Meaning.{program_tree};
ghost use Rattle.fill_tree.specs.Separate.{IsLeastGuard};
ghost use Rattle.fill_tree.specs.declared.user.Example.{Example};
ghost use Rattle.fill_space.specs.Ground.{ChosenOn};
ghost use Rattle.fill_space.specs.Spaces.{SpacesData, SpaceStands};
ghost use Rattle.fill_session.specs.Before.{AreTold, HaveChosen, IsTold};

use crate::branch::Branch;
use fill_eval::guard_holds;
use fill_sheet::Sheet;
use fill_space::{Space, Spaces};
use fill_split::Fold;
use fill_text::NoMemory;
use fill_tree::{Guard, Program};
use std::alloc::Global;

/// The program of a branch that stood before and has this space, copied. Equal spaces stand for examples that the same
/// programs explain.
pub(crate) fn program_before(
    alloc: Global,
    folds: &[Fold<Space>],
    stood: &[Branch],
    space: Space,
) -> Result<Option<Program>, NoMemory>
    ensures { IfOk result (λ found. (s : SpacesData) (list : Listed Example) → HaveChosen s folds.now stood.now →
        SpaceStands s space list → IfSome found (λ p. ChosenOn s.ground list (program_tree p))) }
{
    for k in 0..folds.len().min(stood.len()) {
        if folds[k].kept == space {
            return Ok(Some(stood[k].program.copy(alloc)?));
        }
    }
    Ok(None)
}

/// The guard of a branch that stood before, where it is the least one that tells these rows apart.
pub(crate) fn guard_before(
    spaces: &Spaces,
    stood: &[Branch],
    inside: &[u32],
    outside: &[u32],
) -> Option<Guard>
    requires inside { All (IsRowOf spaces.now.ground.sheet) inside.now }
    requires outside { All (IsRowOf spaces.now.ground.sheet) outside.now }
    requires told { AreTold spaces.now.ground stood.now }
    ensures { IfSome result (IsLeastGuard spaces.now.ground.settings spaces.now.ground.sheet inside.now outside.now) }
{
    for k in 0..stood.len() {
        let (_, later) = stood.split_at(k + 1);
        if let Some(guard) = guard_still(spaces, &stood[k], later, inside, outside) {
            return Some(guard);
        }
    }
    None
}

/// The guard of a branch before later ones, where their rows are among those outside, its own among those inside, and the
/// guard tells all of these apart. As it is the least one for fewer rows, it is so for these.
fn guard_still(
    spaces: &Spaces,
    branch: &Branch,
    later: &[Branch],
    inside: &[u32],
    outside: &[u32],
) -> Option<Guard>
    requires inside { All (IsRowOf spaces.now.ground.sheet) inside.now }
    requires outside { All (IsRowOf spaces.now.ground.sheet) outside.now }
    requires told { IsTold spaces.now.ground branch.now later.now }
    ensures { IfSome result (IsLeastGuard spaces.now.ground.settings spaces.now.ground.sheet inside.now outside.now) }
{
    let Some(guard) = branch.guard else {
        return None;
    };
    let sheet = spaces.sheet();
    if !are_among(branch.rows.as_slice(), inside) {
        return None;
    }
    if !all_among(later, outside) {
        return None;
    }
    if !holds_on_all(sheet, &guard, inside) {
        return None;
    }
    if !holds_on_none(sheet, &guard, outside) {
        return None;
    }
    Some(guard)
}

/// Whether the rows are among the others.
fn are_among(rows: &[u32], others: &[u32]) -> bool
    ensures { IsTrue result → All (Contains others.now) rows.now }
{
    for row in rows {
        if !is_among(*row, others) {
            return false;
        }
    }
    true
}

fn is_among(row: u32, others: &[u32]) -> bool
    ensures { IsTrue result ↔ Contains others.now row }
{
    others.contains(&row)
}

/// Whether the rows of all these branches are among the others.
fn all_among(branches: &[Branch], others: &[u32]) -> bool
    ensures { IsTrue result → All (λ x. All (Contains others.now) x.rows) branches.now }
{
    for k in 0..branches.len() {
        if !are_among(branches[k].rows.as_slice(), others) {
            return false;
        }
    }
    true
}

/// Whether the guard holds on all of the rows.
fn holds_on_all(sheet: &Sheet, guard: &Guard, rows: &[u32]) -> bool
    requires rows { All (IsRowOf sheet.now) rows.now }
    requires inputs { ReadsInputs sheet.now guard.now }
    ensures { IsTrue result → All (λ row. GuardHolds sheet.now row guard.now) rows.now }
{
    for row in rows {
        if !guard_holds(guard, *row, sheet) {
            return false;
        }
    }
    true
}

/// Whether the guard holds on none of the rows.
fn holds_on_none(sheet: &Sheet, guard: &Guard, rows: &[u32]) -> bool
    requires rows { All (IsRowOf sheet.now) rows.now }
    requires inputs { ReadsInputs sheet.now guard.now }
    ensures { IsTrue result → All (λ row. ¬ (GuardHolds sheet.now row guard.now)) rows.now }
{
    for row in rows {
        if guard_holds(guard, *row, sheet) {
            return false;
        }
    }
    true
}
