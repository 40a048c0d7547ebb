//! The run of a session.
ghost use Rattle.std.specs.Prelude.{◌≡◌, ◌⊎◌, ◌≤◌, IfOk, IsErrOf};
ghost use Rattle.std.specs.Io.KnownBytes.{Keeps};
ghost use Rattle.fill_edge.specs.Outside.{Files, Rose};
ghost use Rattle.fill_script.specs.Script.{IsScript};
ghost use Rattle.fill_open.specs.Command.{made, replay};
ghost use Rattle.fill_opening.specs.Stops.{Counts};
ghost use Rattle.fill_report.specs.Report.{Reports, ReportsPart, ReportsRecords};
ghost use Rattle.fill_command.specs.Ending.{report_ending};
ghost use Rattle.fill_command.specs.Output.{ground_of};
ghost use Rattle.fill_command.specs.Run.{Ends, world};

use crate::Ending;
use fill_edge::{Cabinet, Ledger, Sink, Steps};
use fill_open::{MOST_MADE_LINES, Ready, open_made, open_replay};
use fill_output::Halt;
use fill_report::write_report;
use fill_session::Session;
use fill_text::NoMemory;
use std::alloc::Global;

/// Replays the session in the file of a name, and writes its report.
pub fn replay<C: Cabinet, O: Sink, L: Ledger>(
    alloc: Global,
    session: &str,
    cabinet: &mut C,
    out: &mut O,
    steps: &mut Steps<L>,
) -> Ending
    ensures ends { Ends (replay session.now) (world (C.files cabinet.old) (C.faults cabinet.old) (O.written out.old) (O.faults out.old) steps.old)
        (world (C.files cabinet.new) (C.faults cabinet.new) (O.written out.new) (O.faults out.new) steps.new) result }
    ensures files { C.files cabinet.new ≡ C.files cabinet.old }
{
    match open_replay(alloc, cabinet, session) {
        Ok(ready) => ended(report(alloc, ready, out, steps)),
        Err(stop) => Ending::of_stop(alloc, &stop),
    }
}

/// Replays the generated session over `n` lines, and writes its report.
pub fn made<O: Sink, L: Ledger>(alloc: Global, n: u32, out: &mut O, steps: &mut Steps<L>) -> Ending
    requires first { 1 ≤ n }
    requires last { n ≤ MOST_MADE_LINES }
    ensures { (files : Files) (unread : Counts) → Ends (made n) (world files unread (O.written out.old) (O.faults out.old) steps.old)
        (world files unread (O.written out.new) (O.faults out.new) steps.new) result }
{
    match open_made(alloc, n) {
        Ok(ready) => ended(report(alloc, ready, out, steps)),
        Err(stop) => Ending::of_stop(alloc, &stop),
    }
}

/// How a run ends with its report.
fn ended(report: Result<bool, Halt>) -> Ending
    ensures { result ≡ report_ending report }
{
    match report {
        Ok(false) => Ending::Done,
        Ok(true) => Ending::Refusing,
        Err(halt) => Ending::of_halt(halt),
    }
}

/// Writes the report of a session, and answers whether some record of it is a refusal.
fn report<O: Sink, L: Ledger>(
    alloc: Global,
    ready: Ready,
    out: &mut O,
    steps: &mut Steps<L>,
) -> Result<bool, Halt>
    requires { IsScript ready.script }
    ensures whole { IfOk result (λ refused. Reports (ground_of ready) ready.script.entries refused (O.written out.old) (O.written out.new) steps.old steps.new) }
    ensures part { IsErrOf result Halt.Fault → ReportsPart (ground_of ready) ready.script.entries (O.written out.old) (O.written out.new) steps.old steps.new }
    ensures fault { IsErrOf result Halt.Fault → Rose (O.faults out.old) (O.faults out.new) }
    ensures memory { IsErrOf result Halt.NoMemory → (Keeps (O.written out.old) (O.written out.new) × (steps.new ≡ steps.old))
        ⊎ ReportsRecords (ground_of ready) ready.script.entries (O.written out.old) (O.written out.new) steps.old steps.new }
{
    let Ready {
        script,
        sheet,
        tables,
    } = ready;
    let mut session = match Session::new(alloc, script.settings, sheet, tables) {
        Ok(session) => session,
        Err(NoMemory) => return Err(Halt::NoMemory),
    };
    write_report(alloc, &mut session, script.entries.as_slice(), out, steps)
}
