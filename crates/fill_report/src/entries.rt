//! What one entry writes.
ghost use Rattle.std.specs.Prelude.{◌≡◌, ◌↔◌, ◌≤◌, IsErrOf, IsTrue};
ghost use Rattle.fill_edge.specs.Outside.{Rose};
ghost use Rattle.fill_script.specs.Entries.{IsEntry};
ghost use Rattle.fill_session.specs.Timeline.{timeline};
ghost use Rattle.fill_report.specs.Counts.{IsMemoOf};
ghost use Rattle.fill_report.specs.Entries.{EditWrites, EntryBegins, EntryWrites, QueryBegins, QueryWrites, TaskBegins};
ghost use Rattle.fill_report.specs.Output.{Leaves};
ghost use Rattle.fill_report.specs.Tasks.{AsksSome, change};

use crate::best::write_best;
use crate::edits::{ok_record, refused_record};
use crate::moves::write_move;
use crate::objector::write_object;
use crate::queries::{switch_record, write_answer, write_branches, write_made, write_rows};
use crate::rows::{Counts, count_record};
use crate::tasks::{Query, Task, task_of};
use fill_edge::{Ledger, Sink, Steps};
use fill_output::Halt;
use fill_script::Entry;
use fill_session::{EditError, Session};
use fill_tree::Edit;
use std::alloc::Global;

/// Whether memory was wanted, which is no reason to refuse an edit.
fn is_memory(reason: &EditError) -> bool
    ensures { IsTrue result ↔ (reason.now ≡ EditError.NoMemory) }
{
    match reason {
        EditError::NoMemory => true,
        _ => false,
    }
}

/// Makes an edit and writes its record, and answers whether it was refused.
pub(crate) fn write_edit<O: Sink, L: Ledger>(
    alloc: Global,
    session: &mut Session,
    edit: &Edit,
    out: &mut O,
    steps: &mut Steps<L>,
) -> Result<bool, Halt>
    ensures ground { session.new.spaces.ground ≡ session.old.spaces.ground }
    ensures leaves { Leaves (λ w. EditWrites session.old.spaces.ground (timeline session.old) edit.now w (timeline session.new))
        (TaskBegins session.old.spaces.ground (timeline session.old) (change edit.now)) result (O.written out.old) (O.written out.new) steps.old steps.new }
    ensures fault { IsErrOf result Halt.Fault → Rose (O.faults out.old) (O.faults out.new) }
    ensures later { O.faults out.old ≤ O.faults out.new }
{
    match session.edit(edit, steps) {
        Ok(()) => write_made(ok_record(alloc, edit), false, out),
        Err(reason) => {
            if is_memory(&reason) {
                return Err(Halt::NoMemory);
            }
            write_made(refused_record(alloc, edit, &reason), true, out)
        }
    }
}

/// Writes the answer to a question.
fn write_query<O: Sink>(
    alloc: Global,
    session: &Session,
    query: Query,
    memo: &mut Option<Counts>,
    out: &mut O,
) -> Result<bool, Halt>
    requires some { AsksSome query }
    requires memo { IsMemoOf session.now.spaces.ground session.now.examples memo.old }
    ensures memo { IsMemoOf session.now.spaces.ground session.now.examples memo.new }
    ensures leaves { Leaves (QueryWrites session.now.spaces.ground session.now.examples query)
        (QueryBegins session.now.spaces.ground session.now.examples query) result (O.written out.old) (O.written out.new) 0 0 }
    ensures fault { IsErrOf result Halt.Fault → Rose (O.faults out.old) (O.faults out.new) }
    ensures later { O.faults out.old ≤ O.faults out.new }
{
    match query {
        Query::Programs => write_branches(alloc, session.branches(), out),
        Query::Switch => write_made(switch_record(alloc, session), false, out),
        Query::Fill => write_rows(alloc, session, memo, out),
        Query::Count => write_made(count_record(alloc, session, memo), false, out),
        Query::Answer { row } => write_answer(alloc, session, row, out),
        Query::Object { row } => write_object(alloc, session, row, out),
        Query::Best { branch, k } => write_best(alloc, session, branch, k, out),
    }
}

/// Writes the records of an entry, each when it is made, and answers whether one of them is a refusal.
///
/// What is known of how many rows have each state is forgotten where the examples may change.
pub(crate) fn write_entry<O: Sink, L: Ledger>(
    alloc: Global,
    session: &mut Session,
    entry: &Entry,
    memo: &mut Option<Counts>,
    out: &mut O,
    steps: &mut Steps<L>,
) -> Result<bool, Halt>
    requires proper { IsEntry entry.now }
    requires memo { IsMemoOf session.old.spaces.ground session.old.examples memo.old }
    ensures memo { IsMemoOf session.new.spaces.ground session.new.examples memo.new }
    ensures ground { session.new.spaces.ground ≡ session.old.spaces.ground }
    ensures leaves { Leaves (λ w. EntryWrites session.old.spaces.ground (timeline session.old) entry.now w (timeline session.new))
        (EntryBegins session.old.spaces.ground (timeline session.old) entry.now) result (O.written out.old) (O.written out.new) steps.old steps.new }
    ensures fault { IsErrOf result Halt.Fault → Rose (O.faults out.old) (O.faults out.new) }
    ensures later { O.faults out.old ≤ O.faults out.new }
{
    match task_of(entry) {
        Task::Change(edit) => {
            *memo = None;
            write_edit(alloc, session, edit, out, steps)
        }
        Task::Go(way) => {
            *memo = None;
            write_move(alloc, session, way, out)
        }
        Task::Ask(query) => write_query(alloc, session, query, memo, out),
    }
}
