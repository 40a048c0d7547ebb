//! What is told of rows.
ghost use Rattle.std.specs.Prelude.{◌≡◌, ◌≤◌, ◌<◌, ◌+◌, ◌++◌, ◌∷◌, [], List, length, IfOk, OnOk};
ghost use Rattle.fill_doubt.specs.Shapes.{ShapesStand};
ghost use Rattle.fill_session.specs.Answers.{AnswerIs};
ghost use Rattle.fill_report.specs.Counts.{AreCounts, IsMemoOf, CountRows, IsWithin};
ghost use Rattle.fill_report.specs.Entries.{IsCountRecord};
ghost use Rattle.fill_states.specs.States.{row_state};
ghost use Rattle.fill_report.specs.Rows.{IsRowRecord, row_record};
ghost use Rattle.fill_states.specs.declared.row_state.RowState.{RowState};

use fill_output::{Record, answer_field};
use fill_session::{Answer, Session, Shapes};
use fill_sheet::MOST_ROWS;
use fill_states::RowState;
use fill_text::NoMemory;
use std::alloc::Global;

/// The record of a row with an answer.
fn record_of(alloc: Global, row: u32, answer: &Answer) -> Result<Record, NoMemory>
    ensures { IfOk result (λ made. made ≡ row_record row answer.now) }
{
    let text = answer_field(alloc, &answer.text)?;
    Record::of(alloc, b"row")?
        .with_number(row)?
        .with(text.as_slice())?
        .with(RowState::of(answer).name())
}

/// The record of a row of the sheet.
pub(crate) fn row_record(alloc: Global, session: &Session, row: u32) -> Result<Record, NoMemory>
    requires first { 1 ≤ row }
    requires last { row ≤ length session.now.spaces.ground.sheet.rows }
    ensures { IfOk result (IsRowRecord session.now.spaces.ground session.now.examples row) }
{
    let answer = session.answer(row)?;
    record_of(alloc, row, &answer)
}

/// How many rows have each state.
#[derive(Clone, Copy)]
pub(crate) struct Counts {
    given: u32,
    sure: u32,
    doubt: u32,
    nothing: u32,
    nothing_in_doubt: u32,
}

impl Counts {
    pub(crate) const NONE: Counts = Counts {
        given: 0,
        sure: 0,
        doubt: 0,
        nothing: 0,
        nothing_in_doubt: 0,
    };

    /// Counts one more row.
    fn add(&mut self, state: RowState)
        requires { IsWithin self.old MOST_ROWS }
        ensures { (states : List RowState) → AreCounts self.old states → AreCounts self.new (states ++ state ∷ []) }
    {
        match state {
            RowState::Given => self.given += 1,
            RowState::Sure => self.sure += 1,
            RowState::Doubt => self.doubt += 1,
            RowState::Nothing => self.nothing += 1,
            RowState::NothingInDoubt => self.nothing_in_doubt += 1,
        }
    }
}

/// The answer on row `above + 1`; adds its state to `counts`.
fn counted_answer(
    shapes: &mut Shapes,
    session: &Session,
    above: u32,
    counts: &mut Counts,
) -> Result<Answer, NoMemory>
    requires there { above < length session.now.spaces.ground.sheet.rows }
    requires few { above < MOST_ROWS }
    requires shapes { ShapesStand session.now.spaces.arena shapes.old }
    requires counts { CountRows session.now.spaces.ground session.now.examples above counts.old }
    ensures shapes { ShapesStand session.now.spaces.arena shapes.new }
    ensures answer { IfOk result (AnswerIs session.now.spaces.ground session.now.examples (above + 1)) }
    ensures counts { OnOk result (CountRows session.now.spaces.ground session.now.examples (above + 1) counts.new) }
{
    let answer = session.answer_with(shapes, above + 1)?;
    counts.add(RowState::of(&answer));
    Ok(answer)
}

/// The record of row `above + 1`; adds its state to `counts`.
pub(crate) fn counted_record(
    alloc: Global,
    shapes: &mut Shapes,
    session: &Session,
    above: u32,
    counts: &mut Counts,
) -> Result<Record, NoMemory>
    requires there { above < length session.now.spaces.ground.sheet.rows }
    requires few { above < MOST_ROWS }
    requires shapes { ShapesStand session.now.spaces.arena shapes.old }
    requires counts { CountRows session.now.spaces.ground session.now.examples above counts.old }
    ensures shapes { ShapesStand session.now.spaces.arena shapes.new }
    ensures made { IfOk result (IsRowRecord session.now.spaces.ground session.now.examples (above + 1)) }
    ensures counts { OnOk result (CountRows session.now.spaces.ground session.now.examples (above + 1) counts.new) }
{
    let answer = counted_answer(shapes, session, above, counts)?;
    record_of(alloc, above + 1, &answer)
}

/// How many rows of the sheet have each state.
fn count_states(alloc: Global, session: &Session) -> Result<Counts, NoMemory>
    ensures { IfOk result (CountRows session.now.spaces.ground session.now.examples (length session.now.spaces.ground.sheet.rows)) }
{
    let mut shapes = Shapes::new(alloc);
    let mut counts = Counts::NONE;
    let rows = session.sheet().rows();
    for above in 0..rows {
        counted_answer(&mut shapes, session, above, &mut counts)?;
    }
    Ok(counts)
}

/// How many rows of the sheet have each state, which are counted unless that is known.
fn row_counts(
    alloc: Global,
    session: &Session,
    memo: &mut Option<Counts>,
) -> Result<Counts, NoMemory>
    requires { IsMemoOf session.now.spaces.ground session.now.examples memo.old }
    ensures memo { IsMemoOf session.now.spaces.ground session.now.examples memo.new }
    ensures counts { IfOk result (CountRows session.now.spaces.ground session.now.examples (length session.now.spaces.ground.sheet.rows)) }
{
    if let Some(counts) = *memo {
        return Ok(counts);
    }
    let counts = count_states(alloc, session)?;
    *memo = Some(counts);
    Ok(counts)
}

/// The record of how many rows of the sheet have each state.
pub(crate) fn count_record(
    alloc: Global,
    session: &Session,
    memo: &mut Option<Counts>,
) -> Result<Record, NoMemory>
    requires { IsMemoOf session.now.spaces.ground session.now.examples memo.old }
    ensures memo { IsMemoOf session.now.spaces.ground session.now.examples memo.new }
    ensures made { IfOk result (IsCountRecord session.now.spaces.ground session.now.examples) }
{
    let counts = row_counts(alloc, session, memo)?;
    Record::of(alloc, b"count")?
        .with_number(counts.given)?
        .with_number(counts.sure)?
        .with_number(counts.doubt)?
        .with_number(counts.nothing)?
        .with_number(counts.nothing_in_doubt)
}
