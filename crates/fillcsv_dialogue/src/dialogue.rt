//! The dialogue: it asks about the row to look at next, until none is left or the answers end.
ghost use Rattle.std.specs.Prelude.{◌≡◌, ◌≤◌, ◌++◌, [], IfOk, OnOk, map, option_map};
ghost use Rattle.std.specs.Io.KnownBytes.{prepend_known};
ghost use Rattle.fill_session.specs.Suggested.{asked_of};
ghost use Rattle.fillcsv_dialogue.specs.Dialogue.{AreAnswered, QuestionIs};
ghost use Rattle.fillcsv_dialogue.specs.Replies.{rows_of};
ghost use Rattle.fillcsv_dialogue.specs.Told.{Grew};
ghost use Rattle.fillcsv_dialogue.specs.Turns.{Hears, Turns};

use crate::lines::Lines;
use crate::questions::{remark_on, tell_question};
use crate::reasons::tell_refusal;
use crate::replies::{Kept, reply_in, rows_of, take_reply, typed_with};
use fill_edge::{Ledger, Sink, Steps};
use fill_session::{Session, Suggestion};
use fill_stream::Source;
use fill_text::{List, NoMemory};
use fill_tree::{Edit, Example};
use fillcsv_prose::Named;
use fillcsv_rows::{Refused, learn};
use std::alloc::Global;

/// What a dialogue is about.
#[derive(Clone, Copy)]
pub struct Topic<'a> {
    /// The texts that the words give for rows.
    pub words: &'a [Example],
    /// The names of the columns that rules may read.
    pub columns: &'a [Named],
    /// How many records stand above the rows, which are numbered as a spreadsheet shows them.
    pub above: u32,
}

/// Asks about the rows in doubt, one after another, and answers the typed texts with those of the replies. What cannot be
/// written is passed over, and so is a question for which there is no memory.
pub fn ask<S: Source, E: Sink, L: Ledger>(
    alloc: Global,
    topic: &Topic<'_>,
    session: &mut Session,
    input: &mut S,
    err: &mut E,
    steps: &mut Steps<L>,
) -> Result<List<Example>, NoMemory>
    requires { session.old.examples ≡ [] }
    ensures ground { session.new.spaces.ground ≡ session.old.spaces.ground }
    ensures empty { OnOk result (session.new.examples ≡ []) }
    ensures grew { Grew (E.written err.old) (E.written err.new) (E.faults err.old) (E.faults err.new) }
    ensures answered { IfOk result (AreAnswered session.old.spaces.ground topic.now.words.now (S.left input.old) (S.faults input.old) (S.faults input.new)) }
{
    let mut dialogue = Dialogue::new(alloc);
    for _ in 0..u64::MAX {
        match dialogue.turn(topic, session, input, err, steps) {
            Ok(true) => {}
            Ok(false) => return typed_with(alloc, topic.words, &dialogue.kept),
            Err(NoMemory) => return Err(NoMemory),
        }
    }
    Err(NoMemory)
}

/// A dialogue so far.
#[derive(Drop)]
struct Dialogue {
    alloc: Global,
    lines: Lines,
    /// The replies that were not taken back.
    kept: Vec<Kept>,
    /// How many replies in a row took what stands in the cell.
    right: u32,
}

impl Dialogue {
    fn new(alloc: Global) -> Dialogue
        ensures kept { result.kept.items ≡ [] }
        ensures held { result.lines.held ≡ [] }
    {
        Dialogue {
            alloc,
            lines: Lines::new(alloc),
            kept: Vec::new(alloc),
            right: 0,
        }
    }

    /// Asks the next question and hears what is replied. Answers whether the dialogue goes on.
    fn turn<S: Source, E: Sink, L: Ledger>(
        &mut self,
        topic: &Topic<'_>,
        session: &mut Session,
        input: &mut S,
        err: &mut E,
        steps: &mut Steps<L>,
    ) -> Result<bool, NoMemory>
        requires { session.old.examples ≡ [] }
        ensures ground { session.new.spaces.ground ≡ session.old.spaces.ground }
        ensures empty { OnOk result (session.new.examples ≡ []) }
        ensures grew { Grew (E.written err.old) (E.written err.new) (E.faults err.old) (E.faults err.new) }
        ensures turns { IfOk result (λ on. Turns on session.old.spaces.ground topic.now.words.now self.old.kept.items self.new.kept.items
            (prepend_known self.old.lines.held (S.left input.old)) (prepend_known self.new.lines.held (S.left input.new)) (S.faults input.old) (S.faults input.new)) }
        ensures later { S.faults input.old ≤ S.faults input.new }
    {
        let asked = question(self.alloc, topic, session, &self.kept, err, steps)?;
        match asked {
            Some(asked) => self.hear(asked, input, err),
            None => Ok(false),
        }
    }

    /// Hears what is replied to a question. Answers whether the dialogue goes on.
    fn hear<S: Source, E: Sink>(
        &mut self,
        asked: Suggestion,
        input: &mut S,
        err: &mut E,
    ) -> Result<bool, NoMemory>
        ensures grew { Grew (E.written err.old) (E.written err.new) (E.faults err.old) (E.faults err.new) }
        ensures hears { IfOk result (λ on. Hears on (asked_of asked) self.old.kept.items self.new.kept.items
            (prepend_known self.old.lines.held (S.left input.old)) (prepend_known self.new.lines.held (S.left input.new)) (S.faults input.old) (S.faults input.new)) }
        ensures later { S.faults input.old ≤ S.faults input.new }
    {
        let Some(line) = self.lines.next(input)? else {
            return Ok(false);
        };
        let reply = reply_in(self.alloc, line.as_slice())?;
        remark_on(&reply, &mut self.right, err);
        take_reply(self.alloc, asked, reply, &mut self.kept)
    }
}

/// Asks the next question, where there is one: learns what is typed so far, and forgets it again.
fn question<E: Sink, L: Ledger>(
    alloc: Global,
    topic: &Topic<'_>,
    session: &mut Session,
    kept: &[Kept],
    err: &mut E,
    steps: &mut Steps<L>,
) -> Result<Option<Suggestion>, NoMemory>
    requires { session.old.examples ≡ [] }
    ensures ground { session.new.spaces.ground ≡ session.old.spaces.ground }
    ensures empty { OnOk result (session.new.examples ≡ []) }
    ensures grew { Grew (E.written err.old) (E.written err.new) (E.faults err.old) (E.faults err.new) }
    ensures asked { IfOk result (λ asked. QuestionIs session.old.spaces.ground topic.now.words.now kept.now (option_map asked_of asked)) }
{
    let typed = typed_with(alloc, topic.words, kept)?;
    let refused = learn(alloc, session, typed.as_slice(), steps)?;
    let passed = passed_over(alloc, kept, refused.as_slice())?;
    let found = session.suggest_beside(&passed)?;
    let asked = match found {
        Some(asked) => asked,
        None => {
            clear(session, steps);
            return Ok(None);
        }
    };
    let refusal = refusal_of(refused.as_slice(), kept);
    tell_refusal(alloc, session, topic.above, refusal, err);
    tell_question(alloc, topic, session.sheet(), &asked, err);
    clear(session, steps);
    Ok(Some(asked))
}

/// The rows that are not asked about: those that were replied to, and those whose text is not learned from.
fn passed_over(alloc: Global, kept: &[Kept], refused: &[Refused]) -> Result<Vec<u32>, NoMemory>
    ensures { IfOk result (λ rows. rows.items ≡ rows_of kept.now ++ map (λ r. r.row) refused.now) }
{
    let mut rows = rows_of(alloc, kept)?;
    for cell in refused {
        rows.push(cell.row)?;
    }
    Ok(rows)
}

/// Forgets what was learned.
fn clear<L: Ledger>(session: &mut Session, steps: &mut Steps<L>)
    ensures ground { session.new.spaces.ground ≡ session.old.spaces.ground }
    ensures empty { session.new.examples ≡ [] }
{
    let _ = session.edit(&Edit::Clear, steps);
}

/// The refusal of the text of the last reply, where it is not learned from.
fn refusal_of<'a>(refused: &'a [Refused], kept: &[Kept]) -> Option<&'a Refused> {
    let last = kept.last()?;
    refused.iter().find(|cell| cell.row == last.row)
}
