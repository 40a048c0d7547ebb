//! Why steps of `flashfill` stop.
ghost use Rattle.std.specs.Prelude.{◌≡◌, IfOk, string_bytes};
ghost use Rattle.fill_opening.specs.Stops.{IsStopOf};
ghost use Rattle.fill_open.specs.Lines.{stop_line};
ghost use Rattle.fill_open.specs.Refusal.{refusal};

use crate::{Fault, Refusal};
use std::alloc::{AllocError, Global};

/// Why steps that read files stop.
pub type Stop<R = Refusal> = fill_opening::Stop<R>;

/// The refusal of the file of a name, or `NoMemory` if there is none for the name.
pub(crate) fn refused(alloc: Global, file: &str, fault: Fault) -> Stop
    ensures { IsStopOf (refusal file.now fault) result }
{
    match Refusal::of(alloc, file, fault) {
        Ok(refusal) => Stop::Refused(refusal),
        Err(AllocError) => Stop::NoMemory,
    }
}

/// The line that says why, with its end; there may be no memory for it.
pub fn line_of(alloc: Global, stop: &Stop) -> Result<String, AllocError>
    ensures { IfOk result (λ line. string_bytes line ≡ stop_line stop.now) }
{
    match stop {
        Stop::Unread(name) => format!(in alloc; "flashfill: {name}: cannot be read\n"),
        Stop::Refused(refusal) => {
            format!(in alloc; "flashfill: {}: {}\n", refusal.file(), refusal.fault())
        }
        Stop::NoMemory => Err(AllocError),
    }
}
