//! What a question for an objection writes.
ghost use Rattle.std.specs.Prelude.{◌≡◌, ◌≤◌, IfOk, IsErrOf, None, Some, length};
ghost use Rattle.fill_edge.specs.Outside.{Rose};
ghost use Rattle.fill_space.specs.Objector.{objection_tree};
ghost use Rattle.fill_report.specs.Entries.{QueryBegins, QueryWrites};
ghost use Rattle.fill_report.specs.Objections.{IsObjectRecord, object_record};
ghost use Rattle.fill_report.specs.Output.{Leaves};
ghost use Rattle.fill_report.specs.declared.tasks.Query.TheVariants as query;

use crate::queries::{has_row, no_row_record, write_made};
use fill_edge::Sink;
use fill_object::Objection;
use fill_output::{Halt, Record, answer_field, value_word};
use fill_print::print_program;
use fill_session::Session;
use fill_text::NoMemory;
use std::alloc::Global;

/// The record of an objection on a row.
fn objection_record(alloc: Global, row: u32, objection: &Objection) -> Result<Record, NoMemory>
    ensures { IfOk result (λ made. made ≡ object_record row (Some (objection_tree objection.now))) }
{
    let program = print_program(alloc, &objection.program)?;
    let text = answer_field(alloc, &objection.text)?;
    Record::of(alloc, b"object")?
        .with_number(row)?
        .with(program.as_slice())?
        .with(text.as_slice())?
        .with(value_word(&objection.text))
}

/// The record of a row on which no program objects.
fn agreed_record(alloc: Global, row: u32) -> Result<Record, NoMemory>
    ensures { IfOk result (λ made. made ≡ object_record row None) }
{
    Record::of(alloc, b"object")?
        .with_number(row)?
        .with(b"")?
        .with(b"")?
        .with(b"agreed")
}

/// The record of the objection on a row of the sheet.
fn object_record(alloc: Global, session: &Session, row: u32) -> Result<Record, NoMemory>
    requires first { 1 ≤ row }
    requires last { row ≤ length session.now.spaces.ground.sheet.rows }
    ensures { IfOk result (IsObjectRecord session.now.spaces.ground session.now.examples row) }
{
    match session.object(row) {
        Ok(Some(objection)) => objection_record(alloc, row, &objection),
        Ok(None) => agreed_record(alloc, row),
        Err(NoMemory) => Err(NoMemory),
    }
}

/// Writes the record of the objection on a row, or that of a refusal where the sheet has not the row.
pub(crate) fn write_object<O: Sink>(
    alloc: Global,
    session: &Session,
    row: u32,
    out: &mut O,
) -> Result<bool, Halt>
    ensures leaves { Leaves (QueryWrites session.now.spaces.ground session.now.examples (query.Object row))
        (QueryBegins session.now.spaces.ground session.now.examples (query.Object row)) result (O.written out.old) (O.written out.new) 0 0 }
    ensures fault { IsErrOf result Halt.Fault → Rose (O.faults out.old) (O.faults out.new) }
    ensures later { O.faults out.old ≤ O.faults out.new }
{
    if has_row(session.sheet(), row) {
        write_made(object_record(alloc, session, row), false, out)
    } else {
        write_made(no_row_record(alloc, b"object", row), true, out)
    }
}
