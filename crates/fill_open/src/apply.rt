//! What is applied: a saved program, and the sheet on whose rows it is run.
ghost use Rattle.std.specs.Prelude.{◌≡◌, All, Contains, IfErr, IfOk, Ok};
ghost use Rattle.fill_edge.specs.Outside.{NoneFell};
ghost use Rattle.fill_apply.specs.Saved.{SavedIs, columns_read};
ghost use Rattle.fill_tree.specs.Switch.{switch_tree};
ghost use Rattle.fill_open.specs.Apply.{AppliedIs, ApplyStops, ProgramRefuses, application_data, named};
ghost use Rattle.fill_opening.specs.Opened.{Told, Passed};

use crate::file::open_file;
use crate::script::open_script;
use crate::sheet::open_sheet;
use crate::stop::refused;
use crate::tables::open_tables;
use crate::{Fault, Stop};
use fill_apply::{ApplyError, open_switch, saved_programs_are_one};
use fill_edge::Cabinet;
use fill_script::Script;
use fill_sheet::Sheet;
use fill_tables::Tables;
use fill_tree::Switch;
use std::alloc::Global;

/// A conditional program, the sheet on whose rows it is run, and the tables in which it looks up.
#[derive(Debug, Drop)]
pub struct Application {
    pub switch: Switch,
    pub sheet: Sheet,
    pub tables: Tables,
}

/// Opens a saved program and the sheet on whose rows it is run.
///
/// The files are read and checked in this order: the session, the report with the program, the sheet, and then for each
/// `table` line of the session its file. The first thing that fails decides. Of the session only the header line, the
/// inputs, the tables and the keys are used.
pub fn open_application<C: Cabinet>(
    alloc: Global,
    cabinet: &mut C,
    session: &str,
    program: &str,
    sheet: &str,
) -> Result<Application, Stop>
    ensures ready { IfOk result (λ a. Told (C.files cabinet.old) (λ held. AppliedIs (named session.now program.now sheet.now) held (Passed (application_data a)))) }
    ensures reads { IfOk result (λ a. let s = switch_tree a.switch in let rows = a.sheet in All (Contains rows.inputs) (columns_read s.cases)) }
    ensures stopped { IfErr result (ApplyStops (named session.now program.now sheet.now) (C.files cabinet.old) (C.faults cabinet.old) (C.faults cabinet.new)) }
    ensures files { C.files cabinet.new ≡ C.files cabinet.old }
    ensures later { NoneFell (C.faults cabinet.old) (C.faults cabinet.new) }
{
    saved_programs_are_one();
    let script = match open_script(alloc, cabinet, session) {
        Ok(script) => script,
        Err(stop) => return Err(stop),
    };
    let bytes = match open_file(alloc, cabinet, program) {
        Ok(bytes) => bytes,
        Err(stop) => return Err(stop),
    };
    let switch = match program_in(alloc, &script, program, bytes.as_slice()) {
        Ok(switch) => switch,
        Err(stop) => return Err(stop),
    };
    drop(bytes);
    let sheet = match open_sheet(alloc, cabinet, &script, None, sheet) {
        Ok(sheet) => sheet,
        Err(stop) => return Err(stop),
    };
    let tables = match open_tables(alloc, cabinet, session, script.tables.as_slice()) {
        Ok(tables) => tables,
        Err(stop) => return Err(stop),
    };
    Ok(Application {
        switch,
        sheet,
        tables,
    })
}

/// The conditional program that a report's bytes save, for the inputs of a script.
fn program_in(alloc: Global, script: &Script, program: &str, bytes: &[u8]) -> Result<Switch, Stop>
    ensures ready { IfOk result (λ s. SavedIs script.now.inputs bytes.now (Ok (switch_tree s))) }
    ensures reads { IfOk result (λ s. let tree = switch_tree s in All (Contains script.now.inputs) (columns_read tree.cases)) }
    ensures stopped { IfErr result (ProgramRefuses script.now.inputs program.now bytes.now) }
{
    match open_switch(alloc, bytes, script.inputs.as_slice()) {
        Ok(switch) => Ok(switch),
        Err(ApplyError::NoMemory) => Err(Stop::NoMemory),
        Err(e) => Err(refused(alloc, program, Fault::Program(e))),
    }
}
