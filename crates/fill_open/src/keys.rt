//! The keys of a table file.
ghost use Rattle.std.specs.Prelude.{◌≡◌, IfErr, IfOk, List, length};
ghost use Rattle.fill_edge.specs.Outside.{NoneFell};
ghost use Rattle.fill_text.specs.Data.{TableData};
ghost use Rattle.fill_open.specs.Keys.{AreKeys, OpensKeys, keys_opens, narrow_table_opens, unless_wide};
ghost use Rattle.fill_opening.specs.Opened.{Passed};
ghost use Rattle.fill_opening.specs.Stops.{Refuses, Stops};

use crate::file::open_file;
use crate::stop::refused;
use crate::{Fault, Stop};
use fill_edge::Cabinet;
use fill_keys::{KeysError, keys_of};
use fill_tables::{TableError, Tables};
use fill_text::List;
use std::alloc::Global;

/// The minimal keys of the table in a file: each a list of one to three columns that together tell its rows apart, and of
/// which no part does.
///
/// The file is read, checked as one that a `table` line of a session names, and refused if it has more than 32 columns.
pub fn open_keys<C: Cabinet>(
    alloc: Global,
    cabinet: &mut C,
    file: &str,
) -> Result<List<List<u32>>, Stop>
    ensures ready { IfOk result (OpensKeys (C.files cabinet.old) file.now) }
    ensures stopped { IfErr result (Stops (keys_opens file.now) (C.files cabinet.old) (C.faults cabinet.old) (C.faults cabinet.new)) }
    ensures files { C.files cabinet.new ≡ C.files cabinet.old }
    ensures later { NoneFell (C.faults cabinet.old) (C.faults cabinet.new) }
{
    match open_file(alloc, cabinet, file) {
        Ok(bytes) => keys_in(alloc, file, bytes.as_slice()),
        Err(stop) => Err(stop),
    }
}

/// The keys of the table in the bytes of a file.
fn keys_in(alloc: Global, file: &str, bytes: &[u8]) -> Result<List<List<u32>>, Stop>
    ensures ready { IfOk result (λ keys. (tables : List TableData) × ((narrow_table_opens file.now bytes.now).outcome ≡ Passed tables) × AreKeys tables keys) }
    ensures stopped { IfErr result (Refuses (narrow_table_opens file.now bytes.now).outcome) }
{
    let mut tables = Tables::new(alloc);
    match tables.add_table(file, bytes) {
        Ok(()) => table_keys(alloc, file, &tables),
        Err(TableError::NoMemory) => Err(Stop::NoMemory),
        Err(e) => Err(refused(alloc, file, Fault::Table(e))),
    }
}

/// The keys of the one table, which is that of a file.
fn table_keys(alloc: Global, file: &str, tables: &Tables) -> Result<List<List<u32>>, Stop>
    requires { length tables.now ≡ 1 }
    ensures ready { IfOk result (AreKeys tables.now) }
    ensures narrow { IfOk result (λ keys. unless_wide file.now tables.now ≡ Passed tables.now) }
    ensures stopped { IfErr result (Refuses (unless_wide file.now tables.now)) }
{
    match keys_of(alloc, tables, 1) {
        Ok(keys) => Ok(keys),
        Err(KeysError::TooWide { .. }) => Err(refused(alloc, file, Fault::TooWide)),
        Err(KeysError::NoMemory) => Err(Stop::NoMemory),
    }
}
