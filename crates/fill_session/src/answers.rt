//! Answers on rows, and the conditional program.
ghost use Rattle.std.specs.Prelude.{◌≡◌, ◌<◌, ◌≤◌, ◌^◌, [], List as Listed, None, length, IfOk, IfSome, IsTrue, ◌↔◌, MatchOption, map, option_map};
ghost use Rattle.std.specs.List.{AllZip, flat_map};
ghost use Rattle.fill_tree.specs.Cost.{program_cost};
ghost use Rattle.fill_tree.specs.Guard.{ReadsInputs};
ghost use Rattle.fill_tree.specs.Meaning.{program_tree};
ghost use Rattle.fill_tree.specs.Switch.{case_tree, switch_tree};
ghost use Rattle.fill_tree.specs.declared.user.Example.{Example};
ghost use Rattle.fill_doubt.specs.Shapes.{ShapesStand};
ghost use Rattle.fill_space.specs.Objector.{objection_tree};
ghost use Rattle.fill_space.specs.Spaces.{SpaceStands};
ghost use Rattle.fill_session.specs.Answers.{AnswerIs, StateIs, TakesRow, cases_of, switch_of};
ghost use Rattle.fill_session.specs.Branches.{BranchData};
ghost use Rattle.fill_session.specs.Objector.{ObjectorIs};
ghost use Rattle.fill_session.specs.State.{Shows};
ghost use Rattle.fill_session.specs.Taken.{ReadInputs, NoneTakes, IsFirstTaker, IsTaken};

use crate::answer::{Answer, State};
use crate::branch::Branch;
use crate::reasons::is_given;
use crate::session::Session;
use fill_eval::{guard_holds, program_value};
use fill_sheet::Sheet;
use fill_space::{Objection, Shapes, Space, Spaces};
use fill_text::{List, NoMemory, Text};
use fill_tree::{Case, Example, Guard, Switch};
use std::alloc::Global;

/// The branch that a row takes, and what its program answers there.
#[derive(Drop)]
pub(crate) struct Taken {
    /// Its number, from 1.
    pub branch: u32,
    /// What its program answers; none where it has no value.
    pub text: Option<Text>,
}

/// The answer on a row.
pub(crate) fn answer_on(
    alloc: Global,
    session: &Session,
    shapes: &mut Shapes,
    row: u32,
) -> Result<Answer, NoMemory>
    requires first { 1 ≤ row }
    requires last { row ≤ length session.now.spaces.ground.sheet.rows }
    requires shapes { ShapesStand session.now.spaces.arena shapes.old }
    ensures shapes { ShapesStand session.now.spaces.arena shapes.new }
    ensures answer { IfOk result (AnswerIs session.now.spaces.ground session.now.examples row) }
{
    let Some(taken) = taken_on(alloc, session, row)? else {
        return Ok(Answer {
            branch: 0,
            text: None,
            state: State::Sure,
        });
    };
    let space = session.space(taken.branch);
    let state = state_of(shapes, session.spaces(), session.examples(), space, row)?;
    Ok(Answer {
        branch: taken.branch,
        text: taken.text,
        state,
    })
}

/// Who objects on a row to what is answered there.
pub(crate) fn objector_on(
    alloc: Global,
    session: &Session,
    row: u32,
) -> Result<Option<Objection>, NoMemory>
    requires first { 1 ≤ row }
    requires last { row ≤ length session.now.spaces.ground.sheet.rows }
    ensures objector { IfOk result (λ found. ObjectorIs session.now.spaces.ground session.now.examples row (option_map objection_tree found)) }
    ensures few { IfOk result (λ found. IfSome found (λ o. program_cost session.now.spaces.ground.settings.profile.prices (program_tree o.program) < 2 ^ 64)) }
{
    let Some(taken) = taken_on(alloc, session, row)? else {
        return Ok(None);
    };
    let space = session.space(taken.branch);
    session.spaces().object(space, row, taken.text.as_ref())
}

/// The branch that a row takes; none only where there is no example.
pub(crate) fn taken_on(
    alloc: Global,
    session: &Session,
    row: u32,
) -> Result<Option<Taken>, NoMemory>
    requires first { 1 ≤ row }
    requires last { row ≤ length session.now.spaces.ground.sheet.rows }
    ensures none { IfOk result (λ found. found ≡ None → session.now.examples ≡ []) }
    ensures taken { IfOk result (λ found. IfSome found (λ t. IsTaken session.now.spaces.ground session.now.examples row t.branch t.text)) }
    ensures bounds { IfOk result (λ found. IfSome found (λ t. (1 ≤ t.branch) × (t.branch ≤ length session.now.branches))) }
{
    let spaces = session.spaces();
    let shown = session.branches();
    let Some(k) = first_taker(spaces.sheet(), shown, row) else {
        return Ok(None);
    };
    let program = &shown[k].program;
    let text = program_value(alloc, program, row, spaces.sheet(), spaces.tables())?;
    Ok(Some(Taken {
        branch: k as u32 + 1,
        text,
    }))
}

/// The place of the first branch that takes the row.
fn first_taker(sheet: &Sheet, shown: &[Branch], row: u32) -> Option<usize>
    requires first { 1 ≤ row }
    requires last { row ≤ length sheet.now.rows }
    requires inputs { ReadInputs sheet.now shown.now }
    ensures { MatchOption result (NoneTakes sheet.now row shown.now) (IsFirstTaker sheet.now row shown.now) }
{
    for k in 0..shown.len() {
        if takes(sheet, shown[k].guard, row) {
            return Some(k);
        }
    }
    None
}

/// Whether a branch with this guard takes the row.
fn takes(sheet: &Sheet, guard: Option<Guard>, row: u32) -> bool
    requires first { 1 ≤ row }
    requires last { row ≤ length sheet.now.rows }
    requires inputs { IfSome guard (ReadsInputs sheet.now) }
    ensures { IsTrue result ↔ TakesRow sheet.now row guard }
{
    match guard {
        Some(guard) => guard_holds(&guard, row, sheet),
        None => true,
    }
}

/// What is known of the answer on a row of the branch of this space.
fn state_of(
    shapes: &mut Shapes,
    spaces: &Spaces,
    examples: &[Example],
    space: Space,
    row: u32,
) -> Result<State, NoMemory>
    requires stands { (list : Listed Example) × SpaceStands spaces.now space list }
    requires first { 1 ≤ row }
    requires last { row ≤ length spaces.now.ground.sheet.rows }
    requires shapes { ShapesStand spaces.now.arena shapes.old }
    ensures shapes { ShapesStand spaces.now.arena shapes.new }
    ensures state { IfOk result (λ state. (list : Listed Example) → SpaceStands spaces.now space list → StateIs spaces.now.ground examples.now list row state) }
{
    if is_given(examples, row) {
        return Ok(State::Given);
    }
    if spaces.doubt_with(shapes, space, row)? {
        Ok(State::Doubt)
    } else {
        Ok(State::Sure)
    }
}

/// The conditional program of branches; none where there is none.
pub(crate) fn switch_from(alloc: Global, shown: &[Branch]) -> Result<Option<Switch>, NoMemory>
    ensures { IfOk result (λ made. (branches : Listed BranchData) → AllZip Shows shown.now branches → option_map switch_tree made ≡ switch_of branches) }
{
    match shown.split_last() {
        Some((last, others)) => {
            let cases = cases_from(alloc, others)?;
            let last = last.program.copy(alloc)?;
            Ok(Some(Switch { cases, last }))
        }
        None => Ok(None),
    }
}

/// The cases of branches that have guards.
fn cases_from(alloc: Global, shown: &[Branch]) -> Result<List<Case>, NoMemory>
    ensures { IfOk result (λ made. (branches : Listed BranchData) → AllZip Shows shown.now branches → map case_tree made ≡ flat_map (λ b. cases_of b.guard b.program) branches) }
{
    let mut cases = List::new(alloc);
    for branch in shown {
        if let Some(guard) = branch.guard {
            let program = branch.program.copy(alloc)?;
            cases.push(Case { guard, program })?;
        }
    }
    Ok(cases)
}
