//! The run of the keys of a table.
ghost use Rattle.std.specs.Prelude.{◌≡◌, ℕ};
ghost use Rattle.fill_open.specs.Command.{keys};
ghost use Rattle.fill_command.specs.Run.{Ends, world};

use crate::Ending;
use crate::keyed::write_keys;
use fill_edge::{Cabinet, Sink};
use fill_open::open_keys;
use std::alloc::Global;

/// Lists the minimal keys of the table in a file, and writes the record of each when it is made.
pub fn keys<C: Cabinet, O: Sink>(alloc: Global, file: &str, cabinet: &mut C, out: &mut O) -> Ending
    ensures ends { (steps : ℕ) → Ends (keys file.now) (world (C.files cabinet.old) (C.faults cabinet.old) (O.written out.old) (O.faults out.old) steps)
        (world (C.files cabinet.new) (C.faults cabinet.new) (O.written out.new) (O.faults out.new) steps) result }
    ensures files { C.files cabinet.new ≡ C.files cabinet.old }
{
    match open_keys(alloc, cabinet, file) {
        Ok(keys) => match write_keys(alloc, keys.as_slice(), out) {
            Ok(()) => Ending::Done,
            Err(halt) => Ending::of_halt(halt),
        },
        Err(stop) => Ending::of_stop(alloc, &stop),
    }
}
