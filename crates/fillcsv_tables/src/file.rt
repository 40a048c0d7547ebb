//! Reading a file.
ghost use Rattle.std.specs.Prelude.{◌≡◌, ◌≤◌, IfOk, IfErr};
ghost use Rattle.fill_edge.specs.Outside.{NoneFell};
ghost use Rattle.fill_opening.specs.Opened.{Told, Passed};
ghost use Rattle.fill_opening.specs.Stops.{Stops};
ghost use Rattle.fillcsv_tables.specs.Files.{file_opens};

use crate::Line;
use crate::line::refused;
use crate::lines::long_line;
use fill_edge::{Cabinet, LAST_PLACE, ReadError, read_all};
use fill_opening::Stop;
use fill_text::List;
use std::alloc::Global;

/// The bytes of a file, which may have at most `most`.
pub fn open_file<C: Cabinet>(
    alloc: Global,
    cabinet: &mut C,
    most: usize,
    name: &str,
) -> Result<List<u8>, Stop<Line>>
    requires { most ≤ LAST_PLACE }
    ensures ready { IfOk result (λ bytes. Told (C.files cabinet.old) (λ held. (file_opens most held name.now).outcome ≡ Passed bytes)) }
    ensures stopped { IfErr result (Stops (λ held. file_opens most held name.now) (C.files cabinet.old) (C.faults cabinet.old) (C.faults cabinet.new)) }
    ensures files { C.files cabinet.new ≡ C.files cabinet.old }
    ensures later { NoneFell (C.faults cabinet.old) (C.faults cabinet.new) }
{
    match read_all(alloc, cabinet, name, most) {
        Ok(bytes) => Ok(bytes),
        Err(ReadError::NoMemory) => Err(Stop::NoMemory),
        Err(ReadError::TooLong { .. }) => Err(refused(long_line(alloc, most, name))),
        Err(_) => match String::from_str(alloc, name) {
            Ok(name) => Err(Stop::Unread(name)),
            Err(_) => Err(Stop::NoMemory),
        },
    }
}
