//! Why there is no filled sheet, told on `err`.
ghost use Rattle.fillcsv_run.specs.Said.{Says, Tells};

use crate::lines::unread_line;
use fill_edge::{Sink, write_all};
use fill_opening::Stop;
use fillcsv_tables::Line;
use std::alloc::{AllocError, Global};

pub(crate) const OUTPUT_LINE: &[u8] = b"fillcsv: output cannot be written\n";

/// The line that says that memory ran out.
pub const MEMORY_LINE: &[u8] = b"fillcsv: out of memory\n";

/// Writes a line on `err`. A fault there changes nothing.
pub fn say<E: Sink>(err: &mut E, line: &[u8])
    ensures { Says (E.written err.old) (E.written err.new) (E.faults err.old) (E.faults err.new) line.now }
{
    let _ = write_all(err, line);
}

/// Writes the line of a stop, and answers its status. Where there is no memory for the line of a file that could not be
/// read, the stop is one of memory.
pub(crate) fn tell<E: Sink>(alloc: Global, err: &mut E, stop: &Stop<Line>) -> u8
    ensures { Tells stop.now result (Says (E.written err.old) (E.written err.new) (E.faults err.old) (E.faults err.new)) }
{
    match stop {
        Stop::Unread(name) => match unread_line(alloc, name.as_str()) {
            Ok(line) => {
                say(err, line.as_bytes());
                3
            }
            Err(AllocError) => {
                say(err, MEMORY_LINE);
                6
            }
        },
        Stop::Refused(line) => {
            say(err, line.as_str().as_bytes());
            5
        }
        Stop::NoMemory => {
            say(err, MEMORY_LINE);
            6
        }
    }
}
