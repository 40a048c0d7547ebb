//! Reading a file.
ghost use Rattle.std.specs.Prelude.{◌≡◌, IfOk, IfErr};
ghost use Rattle.fill_edge.specs.Outside.{NoneFell};
ghost use Rattle.fill_opening.specs.Opened.{Told, Passed};
ghost use Rattle.fill_open.specs.Steps.{file_opens};
ghost use Rattle.fill_opening.specs.Stops.{Stops};

use crate::stop::refused;
use crate::{Fault, Stop};
use fill_edge::{Cabinet, LARGEST_FILE, ReadError, read_all};
use fill_text::List;
use std::alloc::Global;

/// The bytes of a file.
pub(crate) fn open_file<C: Cabinet>(
    alloc: Global,
    cabinet: &mut C,
    name: &str,
) -> Result<List<u8>, Stop>
    ensures ready { IfOk result (λ bytes. Told (C.files cabinet.old) (λ held. (file_opens held name.now).outcome ≡ Passed bytes)) }
    ensures stopped { IfErr result (Stops (λ held. file_opens held name.now) (C.files cabinet.old) (C.faults cabinet.old) (C.faults cabinet.new)) }
    ensures files { C.files cabinet.new ≡ C.files cabinet.old }
    ensures later { NoneFell (C.faults cabinet.old) (C.faults cabinet.new) }
{
    match read_all(alloc, cabinet, name, LARGEST_FILE) {
        Ok(bytes) => Ok(bytes),
        Err(ReadError::NoMemory) => Err(Stop::NoMemory),
        Err(ReadError::TooLong { .. }) => Err(refused(alloc, name, Fault::TooLong)),
        Err(_) => match String::from_str(alloc, name) {
            Ok(name) => Err(Stop::Unread(name)),
            Err(_) => Err(Stop::NoMemory),
        },
    }
}
