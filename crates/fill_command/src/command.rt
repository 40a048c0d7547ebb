//! The command: all that the program does, over any cabinet of files and any sinks.
ghost use Rattle.std.specs.Prelude.{◌≡◌, ◌⊎◌, ◌≤◌, ℕ, None, Some, map, string_bytes};
ghost use Rattle.fill_open.specs.Command.{IsCommand, command_data, command_in, made};
ghost use Rattle.fill_command.specs.Ending.{Says, line_of, status_of};
ghost use Rattle.fill_command.specs.Run.{Ends, Gives, IsOfSession, RunEnds, world};
ghost use Rattle.fill_command.specs.declared.ending.Ending.{Ending};

use crate::Ending;
use crate::apply::apply;
use crate::keys::keys;
use crate::replay::{made, replay};
use fill_apply::saved_programs_are_one;
use fill_edge::{Cabinet, Ledger, Sink, Steps};
use fill_open::{Command, command_of, generated_session_opens};
use std::alloc::Global;

/// Runs the command of these words, those after the program's name, and answers the status.
///
/// `replay SESSION` reads a session file, its sheet and its tables, replays the session, and writes its report to `out`,
/// each record at once when it is made. `made N` does the same with a session that is generated. `apply SESSION PROGRAM
/// SHEET` reads the conditional program that a report shows, and writes what it gives on each row of another sheet, with
/// the session's inputs and tables. `keys FILE` writes the minimal keys of the table in a file. Where there is no report,
/// or not all of it, one line on `err` says why.
///
/// | status | meaning |
/// |---|---|
/// | 0 | the whole report was written, and nothing in it is refused |
/// | 1 | the whole report was written, and something in it is refused |
/// | 2 | the words are no command |
/// | 3 | a file is not there or could not be read |
/// | 4 | the output could not be written |
/// | 5 | a file is refused |
/// | 6 | out of memory |
pub fn run<C: Cabinet, O: Sink, E: Sink, L: Ledger>(
    alloc: Global,
    words: &[String],
    cabinet: &mut C,
    out: &mut O,
    err: &mut E,
    steps: &mut Steps<L>,
) -> u8
    // A status is that of an ending, which says what was written and why. `err` gets its line, and nothing where it has none.
    ensures ends { (ending : Ending) × (result ≡ status_of ending)
        × Says (E.written err.old) (E.written err.new) (E.faults err.old) (E.faults err.new) (line_of ending)
        × RunEnds (command_in (map string_bytes words.now)) (world (C.files cabinet.old) (C.faults cabinet.old) (O.written out.old) (O.faults out.old) steps.old)
        (world (C.files cabinet.new) (C.faults cabinet.new) (O.written out.new) (O.faults out.new) steps.new) ending }

    // The other way round: 2 where the words are no command, 3 where a file is not there, 5 where one is refused, and 0 or 1
    // where every step passes; unless a read fails, a write fails, or memory runs out.
    ensures gives { Gives (command_in (map string_bytes words.now)) (C.files cabinet.old) result }

    // Words that are no command change nothing; only the line is written.
    ensures untouched { command_in (map string_bytes words.now) ≡ None → (cabinet.new ≡ cabinet.old) × (out.new ≡ out.old) }

    // A generated session reads nothing and always opens: its report is written, unless a write fails or memory runs out.
    ensures generated { (n : ℕ) → command_in (map string_bytes words.now) ≡ Some (made n) → ((result ≤ 1) ⊎ (result ≡ 4) ⊎ (result ≡ 6)) × (cabinet.new ≡ cabinet.old) }

    // Sessions alone make steps, and no file changes.
    ensures steps { IsOfSession (command_in (map string_bytes words.now)) ⊎ (steps.new ≡ steps.old) }
    ensures files { C.files cabinet.new ≡ C.files cabinet.old }
{
    let Some(command) = command_of(words) else {
        return Ending::NoCommand.tell(err);
    };
    saved_programs_are_one();
    generated_session_opens();
    run_command(alloc, &command, cabinet, out, steps).tell(err)
}

/// Runs a command, and answers how it ends.
fn run_command<C: Cabinet, O: Sink, L: Ledger>(
    alloc: Global,
    command: &Command<'_>,
    cabinet: &mut C,
    out: &mut O,
    steps: &mut Steps<L>,
) -> Ending
    requires { IsCommand (command_data command.now) }
    ensures ends { Ends (command_data command.now) (world (C.files cabinet.old) (C.faults cabinet.old) (O.written out.old) (O.faults out.old) steps.old)
        (world (C.files cabinet.new) (C.faults cabinet.new) (O.written out.new) (O.faults out.new) steps.new) result }
    ensures generated { (n : ℕ) → command_data command.now ≡ made n → cabinet.new ≡ cabinet.old }
    ensures steps { IsOfSession (Some (command_data command.now)) ⊎ (steps.new ≡ steps.old) }
    ensures files { C.files cabinet.new ≡ C.files cabinet.old }
{
    match command {
        Command::Replay { session } => replay(alloc, session, cabinet, out, steps),
        Command::Made { n } => made(alloc, *n, out, steps),
        Command::Apply {
            session,
            program,
            sheet,
        } => apply(alloc, session, program, sheet, cabinet, out),
        Command::Keys { file } => keys(alloc, file, cabinet, out),
    }
}
