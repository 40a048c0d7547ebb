//! The script of a session file.
ghost use Rattle.std.specs.Prelude.{◌≡◌, IfOk, IfErr};
ghost use Rattle.fill_edge.specs.Outside.{NoneFell};
ghost use Rattle.fill_script.specs.Script.{IsScript};
ghost use Rattle.fill_opening.specs.Opened.{Told, Passed};
ghost use Rattle.fill_open.specs.Steps.{script_in, script_opens};
ghost use Rattle.fill_opening.specs.Stops.{Refuses, Stops};

use crate::file::open_file;
use crate::stop::refused;
use crate::{Fault, Stop};
use fill_edge::Cabinet;
use fill_script::{Script, ScriptError};
use std::alloc::Global;

/// The script of the session file of a name.
pub(crate) fn open_script<C: Cabinet>(
    alloc: Global,
    cabinet: &mut C,
    session: &str,
) -> Result<Script, Stop>
    ensures ready { IfOk result (λ script. Told (C.files cabinet.old) (λ held. (script_opens held session.now).outcome ≡ Passed script)) }
    ensures proper { IfOk result IsScript }
    ensures stopped { IfErr result (Stops (λ held. script_opens held session.now) (C.files cabinet.old) (C.faults cabinet.old) (C.faults cabinet.new)) }
    ensures files { C.files cabinet.new ≡ C.files cabinet.old }
    ensures later { NoneFell (C.faults cabinet.old) (C.faults cabinet.new) }
{
    match open_file(alloc, cabinet, session) {
        Ok(bytes) => script_in(alloc, session, bytes.as_slice()),
        Err(stop) => Err(stop),
    }
}

/// The script of a session's bytes.
pub(crate) fn script_in(alloc: Global, session: &str, bytes: &[u8]) -> Result<Script, Stop>
    ensures ready { IfOk result (λ script. script_in session.now bytes.now ≡ Passed script) }
    ensures proper { IfOk result IsScript }
    ensures stopped { IfErr result (Refuses (script_in session.now bytes.now)) }
{
    match Script::read(alloc, bytes) {
        Ok(script) => Ok(script),
        Err(ScriptError::NoMemory) => Err(Stop::NoMemory),
        Err(e) => Err(refused(alloc, session, Fault::Script(e))),
    }
}
