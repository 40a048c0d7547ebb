//! The search for the minimal keys, size by size.
//!
//! The sets of a size are gone through from the left. One of which a part was found already is passed over, so that the
//! rows are looked at for those sets alone of which no part is a key.
ghost use Rattle.std.specs.Prelude.{◌≡◌, ◌<◌, ◌≤◌, ◌+◌, ◌↔◌, Any, Contains, IfOk, IfErr, OnOk, IsTrue, length};
ghost use Rattle.fill_text.specs.Lists.{Adds, Lists};
ghost use Rattle.fill_tables.specs.Tables.{column_count};
ghost use Rattle.fill_keys.specs.Keys.{AreColumns, IsMinimalKey, Refuses, keys_cmp};
ghost use Rattle.fill_keys.specs.Search.{AreSmaller, BeginsMinimalKey, IsNext, IsPrefix, IsWithin};
ghost use Rattle.fill_keys.specs.Ranks.{IsRanked};

use crate::KeysError;
use crate::ranks::RankedTable;
use fill_tables::Tables;
use fill_text::{List, NoMemory};
use std::alloc::Global;

/// How many columns a table has at most whose keys are listed.
const MOST_WIDE: u32 = 32;

/// How many columns a key has at most that is listed.
const MOST_COLUMNS: usize = 3;

/// The minimal keys of one to three columns of a table, each a list of the columns' numbers, from 1, in rising order.
///
/// Those of fewer columns come first, and those of as many from the left. Of a table of one row or none each column is
/// one; a table without columns has none.
pub fn keys_of(alloc: Global, tables: &Tables, table: u32) -> Result<List<List<u32>>, KeysError>
    requires first { 1 ≤ table }
    requires last { table ≤ length tables.now }
    ensures listed { IfOk result (Lists keys_cmp (IsMinimalKey tables.now table)) }
    ensures narrow { OnOk result (column_count tables.now table ≤ 32) }
    ensures refused { IfErr result (Refuses (column_count tables.now table)) }
{
    let width = tables.width(table);
    if width > MOST_WIDE {
        return Err(KeysError::TooWide { width });
    }
    Ok(minimal_keys(alloc, tables, table)?)
}

/// The minimal keys of one to three columns of a table that is not too wide.
fn minimal_keys(alloc: Global, tables: &Tables, table: u32) -> Result<List<List<u32>>, NoMemory>
    requires first { 1 ≤ table }
    requires last { table ≤ length tables.now }
    requires narrow { column_count tables.now table ≤ 32 }
    ensures { IfOk result (Lists keys_cmp (IsMinimalKey tables.now table)) }
{
    let ranked = RankedTable::new(alloc, tables, table)?;
    let mut keys = List::new(alloc);
    let mut columns = Vec::with_capacity(alloc, MOST_COLUMNS)?;
    for size in 1..MOST_COLUMNS + 1 {
        columns.clear();
        push_keys(tables, &ranked, size, &mut columns, 1, &mut keys)?;
    }
    Ok(keys)
}

/// Puts to the list the minimal keys of this size that begin with the columns; the next one is the first that can follow.
fn push_keys(
    tables: &Tables,
    ranked: &RankedTable,
    size: usize,
    columns: &mut Vec<u32>,
    next: u32,
    keys: &mut List<List<u32>>,
) -> Result<(), NoMemory>
    requires first { 1 ≤ ranked.now.table }
    requires last { ranked.now.table ≤ length tables.now }
    requires ranked { IsRanked tables.now ranked.now }
    requires narrow { column_count tables.now ranked.now.table ≤ 32 }
    requires some { 1 ≤ size }
    requires few { size ≤ 3 }
    requires prefix { IsPrefix (column_count tables.now ranked.now.table) size columns.old.items }
    requires next { IsNext columns.old.items next }
    requires small { next ≤ 33 }
    requires smaller { AreSmaller tables.now ranked.now.table size keys.old }
    ensures same_columns { OnOk result (columns.new.items ≡ columns.old.items) }
    ensures added { OnOk result (Adds keys_cmp keys.old keys.new (BeginsMinimalKey tables.now ranked.now.table size columns.old.items)) }
{
    let long_before = columns.len();
    if long_before == size {
        return push_key(*columns.allocator(), tables, ranked, columns, keys);
    }
    for column in next..tables.width(ranked.table) + 1 {
        columns.push(column)?;
        push_keys(tables, ranked, size, columns, column + 1, keys)?;
        columns.truncate(long_before);
    }
    Ok(())
}

/// Puts the columns to the list, if they are a minimal key.
fn push_key(
    alloc: Global,
    tables: &Tables,
    ranked: &RankedTable,
    columns: &[u32],
    keys: &mut List<List<u32>>,
) -> Result<(), NoMemory>
    requires ranked { IsRanked tables.now ranked.now }
    requires set { AreColumns (column_count tables.now ranked.now.table) columns.now }
    requires smaller { AreSmaller tables.now ranked.now.table (length columns.now) keys.old }
    ensures { OnOk result (Adds keys_cmp keys.old keys.new (λ key. (key ≡ columns.now) × IsMinimalKey tables.now ranked.now.table key)) }
{
    if !is_minimal_key(alloc, tables, ranked, columns, keys.as_slice())? {
        return Ok(());
    }
    keys.push(copied(alloc, columns)?)
}

/// Whether the columns are a minimal key, where all smaller ones are known.
fn is_minimal_key(
    alloc: Global,
    tables: &Tables,
    ranked: &RankedTable,
    columns: &[u32],
    keys: &[List<u32>],
) -> Result<bool, NoMemory>
    requires ranked { IsRanked tables.now ranked.now }
    requires set { AreColumns (column_count tables.now ranked.now.table) columns.now }
    requires smaller { AreSmaller tables.now ranked.now.table (length columns.now) keys.now }
    ensures { IfOk result (λ key. IsTrue key ↔ IsMinimalKey tables.now ranked.now.table columns.now) }
{
    let _tables = tables;
    if has_part(columns, keys) {
        return Ok(false);
    }
    ranked.is_key(alloc, columns)
}

/// Whether fewer of the columns are one of the keys.
fn has_part(columns: &[u32], keys: &[List<u32>]) -> bool
    ensures { IsTrue result ↔ Any (IsWithin columns.now) keys.now }
{
    for key in keys {
        if is_within(columns, key.as_slice()) {
            return true;
        }
    }
    false
}

/// Whether a key is of some of the columns, and of fewer.
fn is_within(columns: &[u32], key: &[u32]) -> bool
    ensures { IsTrue result ↔ IsWithin columns.now key.now }
{
    if key.len() >= columns.len() {
        return false;
    }
    for column in key {
        if !has_column(columns, *column) {
            return false;
        }
    }
    true
}

/// Whether the column is one of these.
fn has_column(columns: &[u32], column: u32) -> bool
    ensures { IsTrue result ↔ Contains columns.now column }
{
    columns.contains(&column)
}

/// A list of the columns.
fn copied(alloc: Global, columns: &[u32]) -> Result<List<u32>, NoMemory>
    ensures { IfOk result (λ list. list ≡ columns.now) }
{
    let mut list = List::with_capacity(alloc, columns.len())?;
    list.append(columns)?;
    Ok(list)
}
