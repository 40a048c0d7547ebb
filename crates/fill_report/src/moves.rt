//! What undo and redo write.
ghost use Rattle.std.specs.Prelude.{◌≡◌, ◌≤◌, IfOk, IsErrOf};
ghost use Rattle.fill_edge.specs.Outside.{Rose};
ghost use Rattle.fill_session.specs.Timeline.{timeline};
ghost use Rattle.fill_report.specs.Entries.{GoesTo, MoveWrites, TaskBegins};
ghost use Rattle.fill_report.specs.Output.{Leaves};
ghost use Rattle.fill_report.specs.Records.{move_record, way_reason, way_word};
ghost use Rattle.fill_report.specs.Tasks.{go};

use crate::edits::with_done;
use crate::queries::write_made;
use crate::tasks::Way;
use fill_edge::Sink;
use fill_output::{Halt, Record};
use fill_session::Session;
use fill_text::NoMemory;
use fill_undo::Done;
use std::alloc::Global;

impl Way {
    /// The word for the way.
    fn word(self) -> &'static [u8]
        ensures { result.now ≡ way_word self }
    {
        match self {
            Way::Back => b"undo",
            Way::Forth => b"redo",
        }
    }

    /// Why there is nothing on the way.
    fn reason(self) -> &'static [u8]
        ensures { result.now ≡ way_reason self }
    {
        match self {
            Way::Back => b"nothing to undo",
            Way::Forth => b"nothing to redo",
        }
    }

    /// Goes to the next state on the way, and tells what the edit did that lies between, if there is one.
    fn go(self, session: &mut Session) -> Option<Done>
        ensures spaces { session.new.spaces ≡ session.old.spaces }
        ensures timeline { GoesTo self (timeline session.old) result (timeline session.new) }
    {
        match self {
            Way::Back => session.undo(),
            Way::Forth => session.redo(),
        }
    }
}

/// The record of an edit that was undone or redone, or that of a refusal where there was none.
fn move_record(alloc: Global, way: Way, done: Option<Done>) -> Result<Record, NoMemory>
    ensures { IfOk result (λ made. made ≡ move_record way done) }
{
    match done {
        Some(done) => with_done(Record::of(alloc, b"ok")?.with(way.word())?, done),
        None => Record::of(alloc, b"refused")?
            .with(way.word())?
            .with(way.reason()),
    }
}

/// Undoes the last accepted edit, or redoes the last undone one, and writes the record of it. Answers whether there was none.
pub(crate) fn write_move<O: Sink>(
    alloc: Global,
    session: &mut Session,
    way: Way,
    out: &mut O,
) -> Result<bool, Halt>
    ensures ground { session.new.spaces.ground ≡ session.old.spaces.ground }
    ensures leaves { Leaves (λ w. MoveWrites way (timeline session.old) w (timeline session.new))
        (TaskBegins session.old.spaces.ground (timeline session.old) (go way)) result (O.written out.old) (O.written out.new) 0 0 }
    ensures fault { IsErrOf result Halt.Fault → Rose (O.faults out.old) (O.faults out.new) }
    ensures later { O.faults out.old ≤ O.faults out.new }
{
    let done = way.go(session);
    let refused = done.is_none();
    write_made(move_record(alloc, way, done), refused, out)
}
