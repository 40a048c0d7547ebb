//! Sessions.
ghost use Rattle.std.specs.Prelude.{◌≡◌, ◌≤◌, IfOk, IfErr};
ghost use Rattle.fill_edge.specs.Outside.{NoneFell};
ghost use Rattle.fill_script.specs.Script.{IsScript};
ghost use Rattle.fill_opening.specs.Opened.{Told, Passed};
ghost use Rattle.fill_open.specs.Steps.{made_opens, replay_opens};
ghost use Rattle.fill_opening.specs.Stops.{Refuses, Stops};

use crate::script::{open_script, script_in};
use crate::sheet::{open_sheet, sheet_in};
use crate::tables::open_tables;
use crate::{MOST_MADE_LINES, Stop, made};
use fill_edge::Cabinet;
use fill_script::Script;
use fill_sheet::Sheet;
use fill_tables::Tables;
use fill_text::NoMemory;
use std::alloc::Global;

/// All that a session begins with.
#[derive(Debug, Drop)]
pub struct Ready {
    pub script: Script,
    pub sheet: Sheet,
    pub tables: Tables,
}

/// Opens the session in the file of a name.
///
/// The files are read and checked in this order: the session, the sheet, and then for each `table` line its file. The
/// first thing that fails decides.
pub fn open_replay<C: Cabinet>(alloc: Global, cabinet: &mut C, session: &str) -> Result<Ready, Stop>
    ensures ready { IfOk result (λ ready. Told (C.files cabinet.old) (λ held. (replay_opens held session.now).outcome ≡ Passed ready)) }
    ensures proper { IfOk result (λ ready. IsScript ready.script) }
    ensures stopped { IfErr result (Stops (λ held. replay_opens held session.now) (C.files cabinet.old) (C.faults cabinet.old) (C.faults cabinet.new)) }
    ensures files { C.files cabinet.new ≡ C.files cabinet.old }
    ensures later { NoneFell (C.faults cabinet.old) (C.faults cabinet.new) }
{
    let script = match open_script(alloc, cabinet, session) {
        Ok(script) => script,
        Err(stop) => return Err(stop),
    };
    let name = script.sheet.as_str();
    let sheet = match open_sheet(alloc, cabinet, &script, script.output, name) {
        Ok(sheet) => sheet,
        Err(stop) => return Err(stop),
    };
    let tables = match open_tables(alloc, cabinet, session, script.tables.as_slice()) {
        Ok(tables) => tables,
        Err(stop) => return Err(stop),
    };
    Ok(Ready {
        script,
        sheet,
        tables,
    })
}

/// Opens the generated session over `n` lines. Nothing is read, and it always opens unless memory runs out.
pub fn open_made(alloc: Global, n: u32) -> Result<Ready, Stop>
    requires first { 1 ≤ n }
    requires last { n ≤ MOST_MADE_LINES }
    ensures ready { IfOk result (λ ready. (made_opens n).outcome ≡ Passed ready) }
    ensures proper { IfOk result (λ ready. IsScript ready.script) }
    ensures stopped { IfErr result (Refuses (made_opens n).outcome) }
{
    let files = match made(alloc, n) {
        Ok(files) => files,
        Err(NoMemory) => return Err(Stop::NoMemory),
    };
    let script = match script_in(alloc, "made", files.session.as_slice()) {
        Ok(script) => script,
        Err(stop) => return Err(stop),
    };
    let name = script.sheet.as_str();
    let bytes = files.sheet.as_slice();
    let sheet = match sheet_in(alloc, &script, script.output, name, bytes) {
        Ok(sheet) => sheet,
        Err(stop) => return Err(stop),
    };
    Ok(Ready {
        script,
        sheet,
        tables: Tables::new(alloc),
    })
}
