//! The tables in which rules may look up, and their keys.
ghost use Rattle.std.specs.Prelude.{◌≡◌, [], All, IfOk, IfErr, OnOk, map};
ghost use Rattle.fill_edge.specs.Outside.{NoneFell};
ghost use Rattle.fill_tables.specs.Keys.{AreKeyColumns};
ghost use Rattle.fill_opening.specs.Opened.{Told, Passed};
ghost use Rattle.fill_opening.specs.Stops.{Refuses, Stops};
ghost use Rattle.fillcsv_options.specs.Words.{IsLookup, lookup_data};
ghost use Rattle.fillcsv_tables.specs.Tables.{key_in, lookup_opens, lookups_open, table_in};

use crate::Line;
use crate::file::open_file;
use crate::line::refused;
use crate::lines::lookup_line;
use fill_edge::{Cabinet, LARGEST_FILE};
use fill_opening::Stop;
use fill_tables::Tables;
use fillcsv_options::Lookup;
use std::alloc::Global;

/// The tables that words name, with their keys, added one after the other. The first that is refused decides.
pub fn open_tables<C: Cabinet>(
    alloc: Global,
    cabinet: &mut C,
    lookups: &[Lookup],
) -> Result<Tables, Stop<Line>>
    requires { All IsLookup (map lookup_data lookups.now) }
    ensures ready { IfOk result (λ tables. Told (C.files cabinet.old) (λ held. (lookups_open held [] (map lookup_data lookups.now)).outcome ≡ Passed tables)) }
    ensures stopped { IfErr result (Stops (λ held. lookups_open held [] (map lookup_data lookups.now)) (C.files cabinet.old) (C.faults cabinet.old) (C.faults cabinet.new)) }
    ensures files { C.files cabinet.new ≡ C.files cabinet.old }
    ensures later { NoneFell (C.faults cabinet.old) (C.faults cabinet.new) }
{
    let mut tables = Tables::new(alloc);
    for lookup in lookups {
        match add(alloc, cabinet, &mut tables, lookup) {
            Ok(()) => {}
            Err(stop) => return Err(stop),
        }
    }
    Ok(tables)
}

/// Adds a table or a key.
fn add<C: Cabinet>(
    alloc: Global,
    cabinet: &mut C,
    tables: &mut Tables,
    lookup: &Lookup,
) -> Result<(), Stop<Line>>
    requires { IsLookup (lookup_data lookup.now) }
    ensures ready { OnOk result (Told (C.files cabinet.old) (λ held. (lookup_opens held tables.old (lookup_data lookup.now)).outcome ≡ Passed tables.new)) }
    ensures stopped { IfErr result (Stops (λ held. lookup_opens held tables.old (lookup_data lookup.now)) (C.files cabinet.old) (C.faults cabinet.old) (C.faults cabinet.new)) }
    ensures files { C.files cabinet.new ≡ C.files cabinet.old }
    ensures later { NoneFell (C.faults cabinet.old) (C.faults cabinet.new) }
{
    match lookup {
        Lookup::Table { name, file } => {
            let file = file.as_str();
            match open_file(alloc, cabinet, LARGEST_FILE, file) {
                Ok(bytes) => add_table(alloc, tables, name.as_str(), file, bytes.as_slice()),
                Err(stop) => Err(stop),
            }
        }
        Lookup::Key { table, columns } => add_key(alloc, tables, table.as_str(), columns),
    }
}

/// Adds the table of a file's bytes under a name.
fn add_table(
    alloc: Global,
    tables: &mut Tables,
    name: &str,
    file: &str,
    bytes: &[u8],
) -> Result<(), Stop<Line>>
    ensures ready { OnOk result (table_in name.now file.now tables.old bytes.now ≡ Passed tables.new) }
    ensures stopped { IfErr result (Refuses (table_in name.now file.now tables.old bytes.now)) }
{
    match tables.add_table(name, bytes) {
        Ok(()) => Ok(()),
        Err(e) => Err(refused(lookup_line(alloc, file, e))),
    }
}

/// Adds a key to the table of a name.
fn add_key(
    alloc: Global,
    tables: &mut Tables,
    name: &str,
    columns: &[u32],
) -> Result<(), Stop<Line>>
    requires { AreKeyColumns columns.now }
    ensures ready { OnOk result (key_in name.now columns.now tables.old ≡ Passed tables.new) }
    ensures stopped { IfErr result (Refuses (key_in name.now columns.now tables.old)) }
{
    match tables.add_key(name, columns) {
        Ok(()) => Ok(()),
        Err(e) => Err(refused(lookup_line(alloc, name, e))),
    }
}
