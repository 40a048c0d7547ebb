//! What questions write.
ghost use Rattle.std.specs.Prelude.{◌≡◌, ◌≤◌, length, IfOk, IsErrOf, option_map};
ghost use Rattle.fill_edge.specs.Outside.{Rose};
ghost use Rattle.fill_tree.specs.Switch.{switch_tree};
ghost use Rattle.fill_session.specs.Outcome.{is_row};
ghost use Rattle.fill_report.specs.Counts.{IsMemoOf};
ghost use Rattle.fill_report.specs.Entries.{FillBegins, IsSwitchRecord, QueryBegins, QueryWrites};
ghost use Rattle.fill_report.specs.Output.{Leaves};
ghost use Rattle.fill_report.specs.Records.{guard_field, no_row_record, shown_record, shown_records, switch_field};
ghost use Rattle.fill_report.specs.Writing.{LeavesFirst, LeavesOne};
ghost use Rattle.fill_report.specs.declared.tasks.Query.TheVariants as query;

use crate::rows::{Counts, counted_record, row_record};
use fill_edge::Sink;
use fill_output::{Halt, Record};
use fill_print::{print_guard, print_program, print_switch};
use fill_session::{Branch, Session, Shapes};
use fill_sheet::Sheet;
use fill_split::MOST_BRANCHES;
use fill_text::{List, NoMemory};
use fill_tree::{Guard, Switch};
use std::alloc::Global;

/// Writes the one record of an entry, if there was memory for it, and answers whether it is a refusal.
pub(crate) fn write_made<O: Sink>(
    made: Result<Record, NoMemory>,
    refused: bool,
    out: &mut O,
) -> Result<bool, Halt>
    ensures leaves { LeavesOne made refused result (O.written out.old) (O.written out.new) }
    ensures fault { IsErrOf result Halt.Fault → Rose (O.faults out.old) (O.faults out.new) }
    ensures later { O.faults out.old ≤ O.faults out.new }
{
    let record = match made {
        Ok(record) => record,
        Err(NoMemory) => return Err(Halt::NoMemory),
    };
    match record.write(out) {
        Ok(()) => Ok(refused),
        Err(halt) => Err(halt),
    }
}

/// The field of a branch's guard.
fn guard_field(alloc: Global, guard: &Option<Guard>) -> Result<List<u8>, NoMemory>
    ensures { IfOk result (λ made. made ≡ guard_field guard.now) }
{
    match guard {
        Some(guard) => print_guard(alloc, guard),
        None => {
            let mut made = List::new(alloc);
            made.append(b"else")?;
            Ok(made)
        }
    }
}

/// The record of the branch of a number.
fn branch_record(alloc: Global, number: u32, branch: &Branch) -> Result<Record, NoMemory>
    ensures { IfOk result (λ made. made ≡ shown_record number branch.now) }
{
    let guard = guard_field(alloc, &branch.guard)?;
    let program = print_program(alloc, &branch.program)?;
    Record::of(alloc, b"branch")?
        .with_number(number)?
        .with(guard.as_slice())?
        .with(program.as_slice())
}

/// Writes the records of branches, each when it is made.
pub(crate) fn write_branches<O: Sink>(
    alloc: Global,
    branches: &[Branch],
    out: &mut O,
) -> Result<bool, Halt>
    requires { length branches.now ≤ MOST_BRANCHES }
    ensures leaves { LeavesFirst (shown_records 1 branches.now) result (O.written out.old) (O.written out.new) }
    ensures fault { IsErrOf result Halt.Fault → Rose (O.faults out.old) (O.faults out.new) }
    ensures later { O.faults out.old ≤ O.faults out.new }
{
    for (i, branch) in branches.iter().enumerate() {
        match write_made(branch_record(alloc, i as u32 + 1, branch), false, out) {
            Ok(_) => {}
            Err(halt) => return Err(halt),
        }
    }
    Ok(false)
}

/// The field of a conditional program.
fn switch_field(alloc: Global, switch: &Option<Switch>) -> Result<List<u8>, NoMemory>
    ensures { IfOk result (λ made. made ≡ switch_field (option_map switch_tree switch.now)) }
{
    match switch {
        Some(switch) => print_switch(alloc, switch),
        None => Ok(List::new(alloc)),
    }
}

/// The record of the conditional program.
pub(crate) fn switch_record(alloc: Global, session: &Session) -> Result<Record, NoMemory>
    ensures { IfOk result (IsSwitchRecord session.now.spaces.ground session.now.examples) }
{
    let switch = session.switch()?;
    let text = switch_field(alloc, &switch)?;
    Record::of(alloc, b"switch")?.with(text.as_slice())
}

/// Writes the records of all rows in order, each when it is made. How many rows have each state is known then.
pub(crate) fn write_rows<O: Sink>(
    alloc: Global,
    session: &Session,
    memo: &mut Option<Counts>,
    out: &mut O,
) -> Result<bool, Halt>
    requires { IsMemoOf session.now.spaces.ground session.now.examples memo.old }
    ensures memo { IsMemoOf session.now.spaces.ground session.now.examples memo.new }
    ensures leaves { Leaves (QueryWrites session.now.spaces.ground session.now.examples query.Fill) (FillBegins session.now.spaces.ground session.now.examples)
        result (O.written out.old) (O.written out.new) 0 0 }
    ensures fault { IsErrOf result Halt.Fault → Rose (O.faults out.old) (O.faults out.new) }
    ensures later { O.faults out.old ≤ O.faults out.new }
{
    let mut shapes = Shapes::new(alloc);
    let mut counts = Counts::NONE;
    let rows = session.sheet().rows();
    for above in 0..rows {
        match write_made(
            counted_record(alloc, &mut shapes, session, above, &mut counts),
            false,
            out,
        ) {
            Ok(_) => {}
            Err(halt) => return Err(halt),
        }
    }
    *memo = Some(counts);
    Ok(false)
}

/// The record of what was asked for, by this word, on a row that the sheet has not.
pub(crate) fn no_row_record(alloc: Global, word: &[u8], row: u32) -> Result<Record, NoMemory>
    ensures { IfOk result (λ made. made ≡ no_row_record word.now row) }
{
    Record::of(alloc, b"refused")?
        .with(word)?
        .with_number(row)?
        .with(b"no such row")
}

/// Whether the sheet has the row.
pub(crate) fn has_row(sheet: &Sheet, row: u32) -> bool
    ensures { result ≡ is_row sheet.now row }
{
    1 <= row && row <= sheet.rows()
}

/// Writes the record of the answer on a row, or that of a refusal where the sheet has not the row.
pub(crate) fn write_answer<O: Sink>(
    alloc: Global,
    session: &Session,
    row: u32,
    out: &mut O,
) -> Result<bool, Halt>
    ensures leaves { Leaves (QueryWrites session.now.spaces.ground session.now.examples (query.Answer row))
        (QueryBegins session.now.spaces.ground session.now.examples (query.Answer row)) result (O.written out.old) (O.written out.new) 0 0 }
    ensures fault { IsErrOf result Halt.Fault → Rose (O.faults out.old) (O.faults out.new) }
    ensures later { O.faults out.old ≤ O.faults out.new }
{
    if has_row(session.sheet(), row) {
        write_made(row_record(alloc, session, row), false, out)
    } else {
        write_made(no_row_record(alloc, b"answer", row), true, out)
    }
}
