//! The rows of tables by their keys.
ghost use Rattle.std.specs.Prelude.{◌≡◌, ◌≤◌, ◌↔◌, IsTrue, All, IfOk, OnOk, length, map, nat_lt};
ghost use Rattle.std.specs.List.{filter};
ghost use Rattle.fill_tables.specs.Tables.{AreTables, column_count};
ghost use Rattle.fill_text.specs.Lists.{Lists};
ghost use Rattle.fill_reach.specs.Spots.{AddsRows, HasFree, IsFree, IsKeyOf, IsSpot, spot_cmp, spot_of};

use fill_tables::Tables;
use fill_text::{List, NoMemory};
use std::alloc::Global;

/// A row of a table that some lookup of the grammar picks.
#[derive(Clone, Copy, Debug, PartialEq, Eq)]
pub struct ReachedRow {
    /// The number of the table, from 1.
    pub table: u32,
    /// The number of the key by which it is picked, from 1.
    pub key: u32,
    /// The number of the row, from 1.
    pub row: u32,
    /// The least depth of a lookup that picks it.
    pub depth: u8,
}

/// The rows that are picked, in the order of their tables, keys and numbers.
#[derive(Debug, Drop)]
pub struct ReachedRows {
    pub rows: List<ReachedRow>,
}

/// All rows by all keys that leave a column free, none with a depth yet.
pub(crate) fn all_rows(alloc: Global, tables: &Tables) -> Result<Vec<ReachedRow>, NoMemory>
    ensures spots { IfOk result (λ rows. Lists spot_cmp (IsSpot tables.now) (map spot_of rows.items)) }
    ensures shape { AreTables tables.now }
    ensures unmarked { IfOk result (λ rows. All (λ r. r.depth ≡ 0) rows.items) }
{
    let mut rows = Vec::new(alloc);
    for table in 1..=tables.count() {
        push_table(&mut rows, table, tables)?;
    }
    Ok(rows)
}

/// Puts the rows of a table by its keys to the list.
fn push_table(rows: &mut Vec<ReachedRow>, table: u32, tables: &Tables) -> Result<(), NoMemory>
    requires first { 1 ≤ table }
    requires last { table ≤ length tables.now }
    ensures { OnOk result (AddsRows rows.old.items rows.new.items (λ s. (s.table ≡ table) × IsSpot tables.now s)) }
{
    for key in 1..=tables.keys(table) {
        push_rows(rows, table, key, tables)?;
    }
    Ok(())
}

/// Puts the rows of a table by one of its keys to the list, if a column is free of it.
fn push_rows(
    rows: &mut Vec<ReachedRow>,
    table: u32,
    key: u32,
    tables: &Tables,
) -> Result<(), NoMemory>
    requires keyed { IsKeyOf tables.now table key }
    ensures { OnOk result (AddsRows rows.old.items rows.new.items (λ s. (s.table ≡ table) × (s.key ≡ key) × IsSpot tables.now s)) }
{
    if !leaves_free(table, key, tables) {
        return Ok(());
    }
    for row in 1..=tables.rows(table) {
        rows.push(ReachedRow {
            table,
            key,
            row,
            depth: 0,
        })?;
    }
    Ok(())
}

/// Whether some column of the table is none of the key's.
fn leaves_free(table: u32, key: u32, tables: &Tables) -> bool
    requires keyed { IsKeyOf tables.now table key }
    ensures { IsTrue result ↔ HasFree tables.now table key }
{
    for column in 1..=tables.width(table) {
        if is_free(table, key, column, tables) {
            return true;
        }
    }
    false
}

/// Whether the column of the table is none of the key's.
pub(crate) fn is_free(table: u32, key: u32, column: u32, tables: &Tables) -> bool
    requires keyed { IsKeyOf tables.now table key }
    requires first { 1 ≤ column }
    requires last { column ≤ column_count tables.now table }
    ensures { IsTrue result ↔ IsFree tables.now table key column }
{
    !tables.key(table, key).contains(&column)
}

/// The rows that have a depth.
pub(crate) fn with_depth(alloc: Global, rows: &[ReachedRow]) -> Result<List<ReachedRow>, NoMemory>
    ensures { IfOk result (λ kept. kept ≡ filter (λ r. nat_lt 0 r.depth) rows.now) }
{
    let mut kept = List::new(alloc);
    for row in rows {
        if row.depth == 0 {
            continue;
        }
        kept.push(*row)?;
    }
    Ok(kept)
}
