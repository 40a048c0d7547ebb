//! The ranks of a table's cells: numbers that tell apart what the texts of a column tell apart.
//!
//! Each text is looked at once, when its rank is found. Sets of columns compare ranks.
ghost use Rattle.std.specs.Prelude.{◌≡◌, ◌↔◌, ◌<◌, ◌≤◌, true, All, IfOk, IsTrue, List as Items, OnOk, length, map, nat_eq, not};
ghost use Rattle.std.specs.HashSet.{Updates, contains};
ghost use Rattle.fill_text.specs.Data.{TableData};
ghost use Rattle.fill_tables.specs.Keys.{DistinguishRows};
ghost use Rattle.fill_tables.specs.Tables.{column_count};
ghost use Rattle.fill_keys.specs.Ranks.{AreRanks, IsRanked, number_of, rank_in};

use fill_tables::Tables;
use fill_text::{List, NoMemory};
use std::alloc::Global;
use std::collections::{HashMap, HashSet};

/// How many ranks there may be.
const RANKS: u64 = 65_536;

/// A table by the ranks of its cells.
#[derive(Debug, Drop)]
pub(crate) struct RankedTable {
    /// The number of the table.
    pub table: u32,
    /// The number of its rows.
    rows: usize,
    /// For each column the ranks of its cells, row by row.
    columns: Vec<List<u16>>,
}

impl RankedTable {
    pub fn new(alloc: Global, tables: &Tables, table: u32) -> Result<RankedTable, NoMemory>
        requires first { 1 ≤ table }
        requires last { table ≤ length tables.now }
        requires narrow { column_count tables.now table ≤ 32 }
        ensures ranked { IfOk result (IsRanked tables.now) }
        ensures same { IfOk result (λ ranked. ranked.table ≡ table) }
    {
        let mut columns = Vec::new(alloc);
        for column in 1..tables.width(table) + 1 {
            columns.push(ranks_of(alloc, tables, table, column)?)?;
        }
        Ok(RankedTable {
            table,
            rows: tables.rows(table) as usize,
            columns,
        })
    }

    /// Whether no two rows of the table agree in all of these columns.
    pub fn is_key(&self, alloc: Global, columns: &[u32]) -> Result<bool, NoMemory>
        requires ranked { (tables : Items TableData) × IsRanked tables self.now }
        requires few { length columns.now ≤ 3 }
        requires within { All (λ column. (1 ≤ column) × (column ≤ length self.now.columns.items)) columns.now }
        ensures { (tables : Items TableData) → IsRanked tables self.now → IfOk result (λ key. IsTrue key ↔ DistinguishRows tables self.now.table columns.now) }
    {
        let mut numbers_so_far = HashSet::with_capacity(alloc, self.rows)?;
        for row in 0..self.rows {
            if !put(&mut numbers_so_far, self.number(columns, row))? {
                return Ok(false);
            }
        }
        Ok(true)
    }

    /// One number of a row's ranks in these columns.
    fn number(&self, columns: &[u32], row: usize) -> u64
        requires ranked { (tables : Items TableData) × IsRanked tables self.now }
        requires few { length columns.now ≤ 3 }
        requires within { All (λ column. (1 ≤ column) × (column ≤ length self.now.columns.items)) columns.now }
        requires row { row < self.now.rows }
        ensures { result ≡ number_of (map (rank_in self.now.columns.items row) columns.now) }
    {
        let mut number = 0;
        for i in 0..columns.len() {
            number = number * RANKS + self.rank(columns[i], row) as u64;
        }
        number
    }

    /// The rank of a row's cell in a column.
    fn rank(&self, column: u32, row: usize) -> u16
        requires ranked { (tables : Items TableData) × IsRanked tables self.now }
        requires first { 1 ≤ column }
        requires last { column ≤ length self.now.columns.items }
        requires row { row < self.now.rows }
        ensures { result ≡ rank_in self.now.columns.items row column }
    {
        let ranks = &self.columns[column as usize - 1];
        ranks.as_slice()[row]
    }
}

/// The ranks of a column's cells, row by row: each the number of the first row with the same cell.
fn ranks_of(alloc: Global, tables: &Tables, table: u32, column: u32) -> Result<List<u16>, NoMemory>
    requires first { 1 ≤ table }
    requires last { table ≤ length tables.now }
    requires first_column { 1 ≤ column }
    requires last_column { column ≤ column_count tables.now table }
    ensures { IfOk result (AreRanks tables.now table column) }
{
    tables.count();
    let mut firsts = HashMap::new(alloc);
    let mut ranks = List::new(alloc);
    for row in 1..tables.rows(table) + 1 {
        let cell = tables.cell(table, row, column).as_slice();
        let rank = firsts.get(cell).copied().unwrap_or(row as u16);
        match firsts.insert(cell, rank) {
            Ok(_) => ranks.push(rank)?,
            Err(_) => return Err(NoMemory),
        }
    }
    Ok(ranks)
}

/// Puts a number to those that were met, and tells whether it is a new one.
fn put(numbers_so_far: &mut HashSet<u64>, number: u64) -> Result<bool, NoMemory>
    ensures told { IfOk result (λ added. added ≡ not (contains nat_eq numbers_so_far.old number)) }
    ensures updates { OnOk result (Updates nat_eq numbers_so_far.old numbers_so_far.new number true) }
{
    match numbers_so_far.insert(number) {
        Ok(added) => Ok(added),
        Err(_) => Err(NoMemory),
    }
}
