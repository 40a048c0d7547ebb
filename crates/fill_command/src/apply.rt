//! The run of an application.
ghost use Rattle.std.specs.Prelude.{◌≡◌, ℕ};
ghost use Rattle.fill_open.specs.Apply.{named};
ghost use Rattle.fill_open.specs.Command.{apply};
ghost use Rattle.fill_command.specs.Run.{Ends, world};

use crate::Ending;
use crate::applied::write_applied;
use fill_edge::{Cabinet, Sink};
use fill_open::open_application;
use std::alloc::Global;

/// Runs the program of a report on the rows of a sheet, and writes the record of each row when it is made.
pub fn apply<C: Cabinet, O: Sink>(
    alloc: Global,
    session: &str,
    program: &str,
    sheet: &str,
    cabinet: &mut C,
    out: &mut O,
) -> Ending
    ensures ends { (steps : ℕ) → Ends (apply (named session.now program.now sheet.now)) (world (C.files cabinet.old) (C.faults cabinet.old) (O.written out.old) (O.faults out.old) steps)
        (world (C.files cabinet.new) (C.faults cabinet.new) (O.written out.new) (O.faults out.new) steps) result }
    ensures files { C.files cabinet.new ≡ C.files cabinet.old }
{
    match open_application(alloc, cabinet, session, program, sheet) {
        Ok(application) => match write_applied(alloc, &application, out) {
            Ok(()) => Ending::Done,
            Err(halt) => Ending::of_halt(halt),
        },
        Err(stop) => Ending::of_stop(alloc, &stop),
    }
}
