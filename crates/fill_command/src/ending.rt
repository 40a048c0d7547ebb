//! How a run ends.
ghost use Rattle.std.specs.Prelude.{◌≡◌, option_map};
ghost use Rattle.fill_command.specs.Ending.{IsOfStop, Says, halt_ending, line_of, status_of};

use fill_edge::{Sink, write_all};
use fill_open::{Stop, line_of};
use fill_output::Halt;
use std::alloc::Global;

/// How a run ends.
#[derive(Debug, Drop)]
pub enum Ending {
    /// All records were written, and none of them is a refusal.
    Done,
    /// All records were written, and some of them is a refusal.
    Refusing,
    /// The words are no command.
    NoCommand,
    /// A file is not there or could not be read; this is the line that says so.
    Unread(String),
    /// The output could not be written.
    Unwritten,
    /// A file is refused; this is the line that says so.
    Refused(String),
    /// Out of memory.
    NoMemory,
}

const USAGE_LINE: &[u8] =
    b"usage: flashfill replay SESSION or flashfill made N or flashfill apply SESSION PROGRAM SHEET or flashfill keys FILE\n";

const OUTPUT_LINE: &[u8] = b"flashfill: output cannot be written\n";

const MEMORY_LINE: &[u8] = b"flashfill: out of memory\n";

impl Ending {
    /// The ending of steps that stopped, for which the line is made here; out of memory where there is none for it.
    pub(crate) fn of_stop(alloc: Global, stop: &Stop) -> Ending
        ensures { IsOfStop stop.now result }
    {
        let Ok(line) = line_of(alloc, stop) else {
            return Ending::NoMemory;
        };
        match stop {
            Stop::Unread(_) => Ending::Unread(line),
            Stop::Refused(_) => Ending::Refused(line),
            Stop::NoMemory => Ending::NoMemory,
        }
    }

    /// The ending of a writing that halted.
    pub(crate) fn of_halt(halt: Halt) -> Ending
        ensures { result ≡ halt_ending halt }
    {
        match halt {
            Halt::Fault => Ending::Unwritten,
            Halt::NoMemory => Ending::NoMemory,
        }
    }

    /// The exit status.
    pub fn status(&self) -> u8
        ensures { result ≡ status_of self.now }
    {
        match self {
            Ending::Done => 0,
            Ending::Refusing => 1,
            Ending::NoCommand => 2,
            Ending::Unread(_) => 3,
            Ending::Unwritten => 4,
            Ending::Refused(_) => 5,
            Ending::NoMemory => 6,
        }
    }

    /// The line that says why there are no records, or not all of them.
    pub fn line(&self) -> Option<&[u8]>
        ensures { option_map (λ line. line.now) result ≡ line_of self.now }
    {
        match self {
            Ending::Done => None,
            Ending::Refusing => None,
            Ending::NoCommand => Some(USAGE_LINE),
            Ending::Unread(line) => Some(line.as_bytes()),
            Ending::Unwritten => Some(OUTPUT_LINE),
            Ending::Refused(line) => Some(line.as_bytes()),
            Ending::NoMemory => Some(MEMORY_LINE),
        }
    }

    /// Writes the line on `err`, and answers the status. A fault there changes nothing.
    pub fn tell<E: Sink>(&self, err: &mut E) -> u8
        ensures status { result ≡ status_of self.now }
        ensures said { Says (E.written err.old) (E.written err.new) (E.faults err.old) (E.faults err.new) (line_of self.now) }
    {
        if let Some(line) = self.line() {
            let _ = write_all(err, line);
        }
        self.status()
    }
}
