//! The tables and keys of a session.
ghost use Rattle.std.specs.Prelude.{◌≡◌, [], All, IfOk, IfErr, OnOk};
ghost use Rattle.std.specs.Str.{chars};
ghost use Rattle.fill_edge.specs.Outside.{NoneFell};
ghost use Rattle.fill_script.specs.Script.{IsTableLine};
ghost use Rattle.fill_tables.specs.Keys.{AreKeyColumns};
ghost use Rattle.fill_tables.specs.Tables.{add_key_to};
ghost use Rattle.fill_opening.specs.Opened.{Told, Passed, checked};
ghost use Rattle.fill_open.specs.Refusal.{key_refusal};
ghost use Rattle.fill_open.specs.Steps.{line_opens, table_in, tables_open};
ghost use Rattle.fill_opening.specs.Stops.{Refuses, Stops};

use crate::file::open_file;
use crate::stop::refused;
use crate::{Fault, Stop};
use fill_edge::Cabinet;
use fill_script::TableLine;
use fill_tables::{TableError, Tables};
use std::alloc::Global;

/// The tables of a session's lines, which are added one after the other. The first that is refused decides.
pub(crate) fn open_tables<C: Cabinet>(
    alloc: Global,
    cabinet: &mut C,
    session: &str,
    lines: &[TableLine],
) -> Result<Tables, Stop>
    requires { All IsTableLine lines.now }
    ensures ready { IfOk result (λ tables. Told (C.files cabinet.old) (λ held. (tables_open held session.now [] lines.now).outcome ≡ Passed tables)) }
    ensures stopped { IfErr result (Stops (λ held. tables_open held session.now [] lines.now) (C.files cabinet.old) (C.faults cabinet.old) (C.faults cabinet.new)) }
    ensures files { C.files cabinet.new ≡ C.files cabinet.old }
    ensures later { NoneFell (C.faults cabinet.old) (C.faults cabinet.new) }
{
    let mut tables = Tables::new(alloc);
    for line in lines {
        match open_line(alloc, cabinet, session, &mut tables, line) {
            Ok(()) => {}
            Err(stop) => return Err(stop),
        }
    }
    Ok(tables)
}

/// Adds the table or the key of a line.
fn open_line<C: Cabinet>(
    alloc: Global,
    cabinet: &mut C,
    session: &str,
    tables: &mut Tables,
    line: &TableLine,
) -> Result<(), Stop>
    requires { IsTableLine line.now }
    ensures ready { OnOk result (Told (C.files cabinet.old) (λ held. (line_opens held session.now tables.old line.now).outcome ≡ Passed tables.new)) }
    ensures stopped { IfErr result (Stops (λ held. line_opens held session.now tables.old line.now) (C.files cabinet.old) (C.faults cabinet.old) (C.faults cabinet.new)) }
    ensures files { C.files cabinet.new ≡ C.files cabinet.old }
    ensures later { NoneFell (C.faults cabinet.old) (C.faults cabinet.new) }
{
    match line {
        TableLine::Table { number, name, file } => {
            let file = file.as_str();
            match open_file(alloc, cabinet, file) {
                Ok(bytes) => add_table(
                    alloc,
                    session,
                    *number,
                    file,
                    name.as_str(),
                    tables,
                    bytes.as_slice(),
                ),
                Err(stop) => Err(stop),
            }
        }
        TableLine::Key {
            number,
            name,
            columns,
        } => add_key(
            alloc,
            session,
            *number,
            name.as_str(),
            tables,
            columns.as_slice(),
        ),
    }
}

/// Adds the table of a file's bytes under a name, for the session's line of this number.
fn add_table(
    alloc: Global,
    session: &str,
    number: u32,
    file: &str,
    name: &str,
    tables: &mut Tables,
    bytes: &[u8],
) -> Result<(), Stop>
    ensures ready { OnOk result (table_in session.now number file.now (chars name.now) tables.old bytes.now ≡ Passed tables.new) }
    ensures stopped { IfErr result (Refuses (table_in session.now number file.now (chars name.now) tables.old bytes.now)) }
{
    match tables.add_table(name, bytes) {
        Ok(()) => Ok(()),
        Err(TableError::NoMemory) => Err(Stop::NoMemory),
        Err(error) => match error {
            TableError::TooManyRows { .. } | TableError::NotUtf8 { .. } => {
                Err(refused(alloc, file, Fault::Table(error)))
            }
            _ => Err(refused(alloc, session, Fault::Line { number, error })),
        },
    }
}

/// Adds a key to the table of a name, for the session's line of this number.
fn add_key(
    alloc: Global,
    session: &str,
    number: u32,
    name: &str,
    tables: &mut Tables,
    columns: &[u32],
) -> Result<(), Stop>
    requires { AreKeyColumns columns.now }
    ensures ready { OnOk result (checked (key_refusal session.now number) (add_key_to tables.old (chars name.now) columns.now) ≡ Passed tables.new) }
    ensures stopped { IfErr result (Refuses (checked (key_refusal session.now number) (add_key_to tables.old (chars name.now) columns.now))) }
{
    match tables.add_key(name, columns) {
        Ok(()) => Ok(()),
        Err(TableError::NoMemory) => Err(Stop::NoMemory),
        Err(error) => Err(refused(alloc, session, Fault::Line { number, error })),
    }
}
