//! The file of a sheet, before its records are read.
ghost use Rattle.std.specs.Prelude.{◌≡◌, ◌≤◌, IfErr, IfOk, IfSome, IsErrOf, slice_get};
ghost use Rattle.fill_edge.specs.Outside.{IsMissing, NoneFell, Rose};
ghost use Rattle.fill_opening.specs.Stops.{Stops};
ghost use Rattle.fill_passes.specs.Files.{IsThere, told_bytes};
ghost use Rattle.fill_stream.specs.Fronts.{is_marked};
ghost use Rattle.fillcsv_run.specs.Opening.{sheet_file_opens};
ghost use Rattle.fillcsv_run.specs.Read.{IsStopUnread};

use crate::lines::long_line;
use fill_edge::{Cabinet, LAST_PLACE, ReadError, ReadRefusal};
use fill_opening::Stop;
use fill_passes::measure;
use fillcsv_tables::{Line, refused};
use std::alloc::Global;

/// The byte order mark.
const MARK: [u8; 3] = [0xef, 0xbb, 0xbf];

/// Whether the file of a sheet, which can be read to its end, begins with a byte order mark.
pub(crate) fn find_file<C: Cabinet>(
    alloc: Global,
    cabinet: &mut C,
    name: &str,
) -> Result<bool, Stop<Line>>
    ensures marked { IfOk result (λ marked. IfSome (told_bytes (C.files cabinet.old) name.now) (λ bytes. marked ≡ is_marked bytes)) }
    ensures there { IfOk result (λ marked. IsThere (C.files cabinet.old) name.now LAST_PLACE) }
    ensures stopped { IfErr result (Stops (λ held. sheet_file_opens held name.now) (C.files cabinet.old) (C.faults cabinet.old) (C.faults cabinet.new)) }
    ensures files { C.files cabinet.new ≡ C.files cabinet.old }
    ensures later { NoneFell (C.faults cabinet.old) (C.faults cabinet.new) }
{
    match measure(alloc, cabinet, name, LAST_PLACE) {
        Ok(_) => match is_marked(cabinet, name) {
            Ok(marked) => Ok(marked),
            Err(_) => Err(unread(alloc, name)),
        },
        Err(ReadError::NoMemory) => Err(Stop::NoMemory),
        Err(ReadError::TooLong { .. }) => Err(refused(long_line(alloc, LAST_PLACE, name))),
        Err(_) => Err(unread(alloc, name)),
    }
}

/// The stop of a file that could not be read. Where there is no memory for its name, it is one of memory.
pub(crate) fn unread(alloc: Global, name: &str) -> Stop<Line>
    ensures { IsStopUnread name.now result }
{
    match String::from_str(alloc, name) {
        Ok(name) => Stop::Unread(name),
        Err(_) => Stop::NoMemory,
    }
}

/// Whether a file begins with a byte order mark.
fn is_marked<C: Cabinet>(cabinet: &mut C, name: &str) -> Result<bool, ReadRefusal>
    ensures marked { IfOk result (λ marked. IfSome (told_bytes (C.files cabinet.old) name.now) (λ bytes. marked ≡ is_marked bytes)) }
    ensures files { C.files cabinet.new ≡ C.files cabinet.old }
    ensures later { NoneFell (C.faults cabinet.old) (C.faults cabinet.new) }
    ensures fault { IsErrOf result ReadRefusal.Failed → Rose (C.faults cabinet.old name.now) (C.faults cabinet.new name.now) }
    ensures missing { IsErrOf result ReadRefusal.Missing → IsMissing (C.files cabinet.old) name.now }
{
    for at in 0..3 {
        match byte_at(cabinet, name, at as u64) {
            Ok(Some(byte)) => {
                if byte != MARK[at] {
                    return Ok(false);
                }
            }
            Ok(None) => return Ok(false),
            Err(refusal) => return Err(refusal),
        }
    }
    Ok(true)
}

/// The byte at a place of a file; none past its end.
fn byte_at<C: Cabinet>(cabinet: &mut C, name: &str, at: u64) -> Result<Option<u8>, ReadRefusal>
    requires { at ≤ LAST_PLACE }
    ensures byte { IfOk result (λ byte. IfSome (told_bytes (C.files cabinet.old) name.now) (λ bytes. byte ≡ slice_get bytes at)) }
    ensures files { C.files cabinet.new ≡ C.files cabinet.old }
    ensures later { NoneFell (C.faults cabinet.old) (C.faults cabinet.new) }
    ensures fault { IsErrOf result ReadRefusal.Failed → Rose (C.faults cabinet.old name.now) (C.faults cabinet.new name.now) }
    ensures missing { IsErrOf result ReadRefusal.Missing → IsMissing (C.files cabinet.old) name.now }
{
    let mut byte = [0u8; 1];
    match cabinet.read(name, at, &mut byte) {
        Ok(0) => Ok(None),
        Ok(_) => Ok(Some(byte[0])),
        Err(refusal) => Err(refusal),
    }
}
