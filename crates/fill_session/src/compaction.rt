//! Compaction: the spaces forget what neither what is present nor a state of the history needs.
ghost use Rattle.std.specs.Prelude.{◌≡◌, ◌↔◌, ◌++◌, length, IfOk, IsTrue};
ghost use Rattle.fill_split.specs.Standing.{kept_of};
ghost use Rattle.fill_session.specs.Compaction.{IsCompactionDue, LeavesSpaces};
ghost use Rattle.fill_session.specs.Renewed.{AllReplaced, AreRenewed, all_moves, spaces_of};
ghost use Rattle.fill_session.specs.State.{AreHeld, IsHeld, seen_as};

use crate::present::Present;
use fill_space::{Space, Spaces};
use fill_split::renewed_folds_stand;
use fill_text::{List, NoMemory};
use fill_tree::Edit;
use fill_undo::History;
use std::alloc::Global;

/// How far the spaces may grow past twice their size after the last compaction, in sets and graphs.
const SLACK: u128 = 1024;

/// Whether the spaces, of this size, are to be compacted after an edit, which may have made the history forget a state.
/// They had the last size after the last compaction.
///
/// A correction and a retraction leave spaces behind once the history forgets the state before them, and any edit does where
/// it makes the history forget one. Clearing takes no memory, so what it leaves behind stays until a later edit.
pub(crate) fn is_due(edit: &Edit, forgets: bool, size: u128, last: u128) -> bool
    ensures { IsTrue result ↔ IsCompactionDue edit.now forgets size last }
{
    leaves_spaces(edit, forgets) && size.saturating_sub(last).saturating_sub(last) > SLACK
}

/// Whether an edit leaves spaces behind that a compaction may take.
fn leaves_spaces(edit: &Edit, forgets: bool) -> bool
    ensures { IsTrue result ↔ LeavesSpaces edit.now forgets }
{
    match edit {
        Edit::Correct { .. } | Edit::Retract { .. } => true,
        Edit::Add { .. } => forgets,
        Edit::Clear => false,
    }
}

/// The spaces of what is present and of all states of the history.
fn live_spaces(
    alloc: Global,
    present: &Present,
    history: &History<Present>,
) -> Result<List<Space>, NoMemory>
    ensures { IfOk result (λ made. made ≡ kept_of present.now.folds ++ spaces_of (λ p. kept_of p.folds) (all_moves history.now)) }
{
    let mut live = List::new(alloc);
    live.append(present.folds.kept())?;
    for i in 0..history.len() {
        live.append(history.state(i).folds.kept())?;
    }
    Ok(live)
}

/// Puts these spaces in place of those of all states of the history, in the order of `live_spaces`.
fn renew_states(history: &mut History<Present>, spaces: &[Space])
    requires { length spaces.now ≡ length (spaces_of (λ p. kept_of p.folds) (all_moves history.old)) }
    ensures past { length history.new.past ≡ length history.old.past }
    ensures replaced { AllReplaced (λ p own q. AreRenewed p.folds own q.folds × (q.examples ≡ p.examples) × (q.branches ≡ p.branches))
        (all_moves history.old) spaces.now (all_moves history.new) }
{
    let mut left = spaces;
    for i in 0..history.len() {
        let state = history.state_mut(i);
        let (own, rest) = left.split_at(state.folds.kept().len());
        state.folds.renew(own);
        left = rest;
    }
}

/// Forgets all spaces but those of what is present and of the history. Out of memory leaves all as it was.
pub(crate) fn compact(
    alloc: Global,
    spaces: &mut Spaces,
    present: &mut Present,
    history: &mut History<Present>,
) -> Result<(), NoMemory>
    requires held { IsHeld spaces.old present.old.examples present.old.folds present.old.branches }
    requires history { AreHeld (λ p. IsHeld spaces.old p.examples p.folds p.branches) history.old }
    ensures ground { spaces.new.ground ≡ spaces.old.ground }
    ensures held { IsHeld spaces.new present.new.examples present.new.folds present.new.branches }
    ensures history { AreHeld (λ p. IsHeld spaces.new p.examples p.folds p.branches) history.new }
    ensures examples { present.new.examples ≡ present.old.examples }
    ensures branches { present.new.branches ≡ present.old.branches }
    ensures seen { seen_as (λ p. p.examples) history.new ≡ seen_as (λ p. p.examples) history.old }
{
    renewed_folds_stand::<Spaces>();
    let mut live = live_spaces(alloc, present, history)?.into_vec();
    spaces.compact(live.as_mut_slice())?;
    let (own, others) = live.as_slice().split_at(present.folds.kept().len());
    present.folds.renew(own);
    renew_states(history, others);
    Ok(())
}
