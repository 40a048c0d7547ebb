//! Sheets.
ghost use Rattle.std.specs.Prelude.{◌≡◌, IfOk, IfErr};
ghost use Rattle.std.specs.List.Sorted.{IsPermutation};
ghost use Rattle.fill_edge.specs.Outside.{NoneFell};
ghost use Rattle.fill_sheet.specs.Columns.{IsOutput};
ghost use Rattle.fill_script.specs.Script.{IsScript};
ghost use Rattle.fill_opening.specs.Opened.{Told, Passed};
ghost use Rattle.fill_open.specs.Steps.{sheet_in, sheet_opens};
ghost use Rattle.fill_opening.specs.Stops.{Refuses, Stops};

use crate::file::open_file;
use crate::stop::refused;
use crate::{Fault, Stop};
use fill_edge::Cabinet;
use fill_script::Script;
use fill_sheet::{Sheet, SheetError};
use std::alloc::Global;

/// The sheet of a name, by a script's header line and inputs, with this output column.
pub(crate) fn open_sheet<C: Cabinet>(
    alloc: Global,
    cabinet: &mut C,
    script: &Script,
    output: Option<u32>,
    name: &str,
) -> Result<Sheet, Stop>
    requires script { IsScript script.now }
    requires output { IsOutput script.now.inputs output }
    ensures ready { IfOk result (λ sheet. Told (C.files cabinet.old) (λ held. (sheet_opens held script.now output name.now).outcome ≡ Passed sheet)) }
    ensures inputs { IfOk result (λ sheet. IsPermutation script.now.inputs sheet.inputs) }
    ensures stopped { IfErr result (Stops (λ held. sheet_opens held script.now output name.now) (C.files cabinet.old) (C.faults cabinet.old) (C.faults cabinet.new)) }
    ensures files { C.files cabinet.new ≡ C.files cabinet.old }
    ensures later { NoneFell (C.faults cabinet.old) (C.faults cabinet.new) }
{
    match open_file(alloc, cabinet, name) {
        Ok(bytes) => sheet_in(alloc, script, output, name, bytes.as_slice()),
        Err(stop) => Err(stop),
    }
}

/// The sheet in the bytes of the file of a name, by a script's header line and inputs, with this output column.
pub(crate) fn sheet_in(
    alloc: Global,
    script: &Script,
    output: Option<u32>,
    name: &str,
    bytes: &[u8],
) -> Result<Sheet, Stop>
    requires script { IsScript script.now }
    requires output { IsOutput script.now.inputs output }
    ensures ready { IfOk result (λ sheet. sheet_in script.now output name.now bytes.now ≡ Passed sheet) }
    ensures inputs { IfOk result (λ sheet. IsPermutation script.now.inputs sheet.inputs) }
    ensures stopped { IfErr result (Refuses (sheet_in script.now output name.now bytes.now)) }
{
    let inputs = script.inputs.as_slice();
    match Sheet::read(alloc, bytes, script.header, inputs, output) {
        Ok(sheet) => Ok(sheet),
        Err(SheetError::NoMemory) => Err(Stop::NoMemory),
        Err(e) => Err(refused(alloc, name, Fault::Sheet(e))),
    }
}
