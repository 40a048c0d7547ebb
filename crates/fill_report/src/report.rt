//! The walk over all entries.
ghost use Rattle.std.specs.Prelude.{◌≡◌, ◌≤◌, length, All, IfOk, IsErrOf};
ghost use Rattle.fill_edge.specs.Outside.{Rose};
ghost use Rattle.fill_script.specs.Entries.{IsEntry};
ghost use Rattle.fill_session.specs.Timeline.{timeline};
ghost use Rattle.fill_report.specs.Output.{Leaves};
ghost use Rattle.fill_report.specs.Report.{EntriesBegin, EntriesWrite, Reports, ReportsPart, ReportsRecords, addition_at, additions, start};

use crate::entries::{write_edit, write_entry};
use fill_edge::{Ledger, Sink, Steps};
use fill_output::Halt;
use fill_script::Entry;
use fill_session::Session;
use fill_text::NoMemory;
use fill_tree::Edit;
use std::alloc::Global;

/// Adds the text that a row is given, where it is given one, and writes the record of the addition.
fn write_addition<O: Sink, L: Ledger>(
    alloc: Global,
    session: &mut Session,
    row: u32,
    out: &mut O,
    steps: &mut Steps<L>,
) -> Result<bool, Halt>
    requires first { 1 ≤ row }
    requires last { row ≤ length session.old.spaces.ground.sheet.rows }
    ensures ground { session.new.spaces.ground ≡ session.old.spaces.ground }
    ensures leaves { let g = session.old.spaces.ground in
        Leaves (λ w. EntriesWrite g (timeline session.old) (addition_at g.sheet row) w (timeline session.new)) (EntriesBegin g (timeline session.old) (addition_at g.sheet row))
        result (O.written out.old) (O.written out.new) steps.old steps.new }
    ensures fault { IsErrOf result Halt.Fault → Rose (O.faults out.old) (O.faults out.new) }
    ensures later { O.faults out.old ≤ O.faults out.new }
{
    let text = match session.sheet().given(row) {
        None => return Ok(false),
        Some(text) => text.copy(),
    };
    match text {
        Ok(text) => {
            let edit = Edit::Add { row, text };
            write_edit(alloc, session, &edit, out, steps)
        }
        Err(NoMemory) => Err(Halt::NoMemory),
    }
}

/// Adds the texts that rows are given, in order, and writes the records of the additions, each when it is made.
fn write_additions<O: Sink, L: Ledger>(
    alloc: Global,
    session: &mut Session,
    out: &mut O,
    steps: &mut Steps<L>,
) -> Result<bool, Halt>
    ensures ground { session.new.spaces.ground ≡ session.old.spaces.ground }
    ensures leaves { let g = session.old.spaces.ground in let all = additions g.sheet (length g.sheet.rows) in
        Leaves (λ w. EntriesWrite g (timeline session.old) all w (timeline session.new)) (EntriesBegin g (timeline session.old) all)
        result (O.written out.old) (O.written out.new) steps.old steps.new }
    ensures fault { IsErrOf result Halt.Fault → Rose (O.faults out.old) (O.faults out.new) }
    ensures later { O.faults out.old ≤ O.faults out.new }
{
    let rows = session.sheet().rows();
    let mut refused = false;
    for above in 0..rows {
        match write_addition(alloc, session, above + 1, out, steps) {
            Ok(one) => refused = refused || one,
            Err(halt) => return Err(halt),
        }
    }
    Ok(refused)
}

/// Writes the records of entries, each when it is made.
fn write_entries<O: Sink, L: Ledger>(
    alloc: Global,
    session: &mut Session,
    entries: &[Entry],
    out: &mut O,
    steps: &mut Steps<L>,
) -> Result<bool, Halt>
    requires { All IsEntry entries.now }
    ensures ground { session.new.spaces.ground ≡ session.old.spaces.ground }
    ensures leaves { let g = session.old.spaces.ground in
        Leaves (λ w. EntriesWrite g (timeline session.old) entries.now w (timeline session.new)) (EntriesBegin g (timeline session.old) entries.now)
        result (O.written out.old) (O.written out.new) steps.old steps.new }
    ensures fault { IsErrOf result Halt.Fault → Rose (O.faults out.old) (O.faults out.new) }
    ensures later { O.faults out.old ≤ O.faults out.new }
{
    let mut memo = None;
    let mut refused = false;
    for entry in entries {
        match write_entry(alloc, session, entry, &mut memo, out, steps) {
            Ok(one) => refused = refused || one,
            Err(halt) => return Err(halt),
        }
    }
    Ok(refused)
}

/// Writes the report of the entries over a session without examples and history, each record when it is made, and
/// answers whether some record of it is a refusal.
///
/// The texts that the sheet's output column gives are added before the entries, and no entry undoes these additions.
pub fn write_report<O: Sink, L: Ledger>(
    alloc: Global,
    session: &mut Session,
    entries: &[Entry],
    out: &mut O,
    steps: &mut Steps<L>,
) -> Result<bool, Halt>
    requires empty { timeline session.old ≡ start }
    requires proper { All IsEntry entries.now }
    ensures whole { IfOk result (λ refused. Reports session.old.spaces.ground entries.now refused (O.written out.old) (O.written out.new) steps.old steps.new) }
    ensures part { IsErrOf result Halt.Fault → ReportsPart session.old.spaces.ground entries.now (O.written out.old) (O.written out.new) steps.old steps.new }
    ensures fault { IsErrOf result Halt.Fault → Rose (O.faults out.old) (O.faults out.new) }
    ensures memory { IsErrOf result Halt.NoMemory → ReportsRecords session.old.spaces.ground entries.now (O.written out.old) (O.written out.new) steps.old steps.new }
    ensures ground { session.new.spaces.ground ≡ session.old.spaces.ground }
{
    let opening = match write_additions(alloc, session, out, steps) {
        Ok(refused) => refused,
        Err(halt) => return Err(halt),
    };
    session.forget();
    match write_entries(alloc, session, entries, out, steps) {
        Ok(refused) => Ok(opening || refused),
        Err(halt) => Err(halt),
    }
}
