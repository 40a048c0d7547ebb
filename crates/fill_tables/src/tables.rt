//! Tables.
ghost use Rattle.std.specs.Prelude.{◌≡◌, ◌≢◌, ℕ, ◌<◌, ◌≤◌, ◌↔◌, IsTrue, [], length, map, Ok, Err, Some, MatchOption, IfOk, IfErr, OnOk, OnErr};
ghost use Rattle.std.specs.Str.{chars};
ghost use Rattle.fill_text.specs.Data.{key_at, table_cell_at, width_at};
ghost use Rattle.fill_tables.specs.Keys.{AreKeyColumns, DistinguishRows, IsKeyedRow, KeysDistinguish};
ghost use Rattle.fill_tables.specs.Tables.{AreTables, add_key_to, add_table_to, column_count, key_count, place_of, row_count};

use crate::TableError;
use crate::order::{cell_in, order_by, row_with};
use crate::table::Table;
use arrayvec::ArrayVec;
use fill_text::{List, Name, NoMemory, Text, TextError};
use indexmap::IndexSet;
use std::alloc::Global;
use std::marker::Model;

/// How many tables there can be.
pub const MOST_TABLES: usize = 8;

/// How many columns a key can have.
const MOST_COLUMNS: usize = 3;

/// Lookup tables, which programs find texts in by keys. All their numbers count from 1.
#[derive(Debug, Drop)]
pub struct Tables {
    /// The tables' names, each at the place of its table.
    names: IndexSet<String>,
    tables: Vec<Table>,
}

impl Model for Tables {
    ghost use Rattle.std.specs.Prelude.{List};
    ghost use Rattle.fill_text.specs.Data.{TableData};
    ghost use Rattle.fill_tables.specs.Index.{IsIndex};
    ghost use Rattle.fill_tables.specs.Tables.{AreTables};

    ghost Value = { List TableData };

    ghost view = { λ tables. tables.tables.items };

    ghost invariant = { λ tables. AreTables tables.tables.items × IsIndex tables.names.keys tables.tables.items };
}

impl Tables {
    /// No tables, which take no memory.
    pub fn new(alloc: Global) -> Tables
        ensures { result ≡ [] }
    {
        Tables {
            names: IndexSet::new(alloc),
            tables: Vec::new(alloc),
        }
    }

    /// Adds the table of a CSV file's bytes at the end, without a key.
    ///
    /// Each record is a row. Fields past the thousandth of a record are passed over, and a field that a record lacks is
    /// the empty text.
    pub fn add_table(&mut self, name: &str, bytes: &[u8]) -> Result<(), TableError>
        ensures ok { OnOk result (add_table_to self.old (chars name.now) bytes.now ≡ Ok self.new) }
        ensures err { IfErr result (λ e. e ≢ TableError.NoMemory → add_table_to self.old (chars name.now) bytes.now ≡ Err e) }
        ensures kept { OnErr result (self.new ≡ self.old) }
    {
        let count = self.tables.len();
        if count == MOST_TABLES {
            return Err(TableError::TooManyTables {
                limit: MOST_TABLES as u32,
            });
        }
        if let Some(place) = self.place_of(name) {
            return Err(TableError::SameName {
                first: place as u32 + 1,
            });
        }
        let alloc = *self.tables.allocator();
        let Ok(key) = String::from_str(alloc, name) else {
            return Err(TableError::NoMemory);
        };
        let table = Table::read(alloc, name_of(alloc, name)?, bytes)?;
        if self.tables.push(table).is_err() {
            return Err(TableError::NoMemory);
        }
        if let Err(_refused) = self.names.insert(key) {
            self.tables.truncate(count);
            return Err(TableError::NoMemory);
        }
        Ok(())
    }

    /// Adds a key at the end of the keys of the table of this name: columns in which no two rows agree.
    pub fn add_key(&mut self, name: &str, columns: &[u32]) -> Result<(), TableError>
        requires columns { AreKeyColumns columns.now }
        ensures ok { OnOk result (add_key_to self.old (chars name.now) columns.now ≡ Ok self.new) }
        ensures err { IfErr result (λ e. e ≢ TableError.NoMemory → add_key_to self.old (chars name.now) columns.now ≡ Err e) }
        ensures kept { OnErr result (self.new ≡ self.old) }
    {
        let Some(place) = self.place_of(name) else {
            return Err(TableError::NoSuchTable);
        };
        self.tables[place].add_key(columns)
    }

    /// The place of the table of a name.
    fn place_of(&self, name: &str) -> Option<usize>
        ensures { result ≡ place_of self.now (chars name.now) }
    {
        self.names.get_index_of(name)
    }

    /// The number of tables.
    pub fn count(&self) -> u32
        ensures count { result ≡ length self.now }
        ensures shape { AreTables self.now }
    {
        self.tables.len() as u32
    }

    /// The number of a table's rows.
    pub fn rows(&self, table: u32) -> u32
        requires first { 1 ≤ table }
        requires last { table ≤ length self.now }
        ensures { result ≡ row_count self.now table }
    {
        self.tables[table as usize - 1].rows.len() as u32
    }

    /// The number of a table's columns: the most fields of a record that are kept.
    pub fn width(&self, table: u32) -> u32
        requires first { 1 ≤ table }
        requires last { table ≤ length self.now }
        ensures { width_at self.now table ≡ Some result }
    {
        self.tables[table as usize - 1].width
    }

    /// The number of a table's keys.
    pub fn keys(&self, table: u32) -> u32
        requires first { 1 ≤ table }
        requires last { table ≤ length self.now }
        ensures { result ≡ key_count self.now table }
    {
        self.tables[table as usize - 1].keys.len() as u32
    }

    /// The columns of a table's key.
    pub fn key(&self, table: u32, key: u32) -> &[u32]
        requires first { 1 ≤ table }
        requires last { table ≤ length self.now }
        requires first_key { 1 ≤ key }
        requires last_key { key ≤ key_count self.now table }
        ensures { key_at self.now table key ≡ Some result.now }
    {
        let table = &self.tables[table as usize - 1];
        table.keys[key as usize - 1].columns.as_slice()
    }

    /// The cell of a table's row and column.
    pub fn cell(&self, table: u32, row: u32, column: u32) -> &Text
        requires first { 1 ≤ table }
        requires last { table ≤ length self.now }
        requires first_row { 1 ≤ row }
        requires last_row { row ≤ row_count self.now table }
        requires first_column { 1 ≤ column }
        requires last_column { column ≤ column_count self.now table }
        ensures { table_cell_at self.now table row column ≡ Some result.now }
    {
        let table = &self.tables[table as usize - 1];
        let row = &table.rows[row as usize - 1];
        cell_in(row.as_slice(), column).unwrap()
    }

    /// The row of a table that has these cells in the columns of one of its keys, in the order of the key.
    ///
    /// It halves the rows, which each key has in the order of their cells.
    pub fn find(&self, table: u32, key: u32, cells: &List<Text>) -> Option<u32>
        requires first { 1 ≤ table }
        requires last { table ≤ length self.now }
        requires first_key { 1 ≤ key }
        requires last_key { key ≤ key_count self.now table }
        ensures { MatchOption result ((row : ℕ) → ¬ (IsKeyedRow self.now table key cells.now row)) (IsKeyedRow self.now table key cells.now) }
    {
        let _kept = &self.tables;
        let slices = slices_of(cells.as_slice())?;
        self.find_slices(table, key, slices.as_slice())
    }

    /// Finds the row as `find` does, by cells that are lent as slices: a caller need not own them.
    pub fn find_slices(&self, table: u32, key: u32, cells: &[&[char]]) -> Option<u32>
        requires first { 1 ≤ table }
        requires last { table ≤ length self.now }
        requires first_key { 1 ≤ key }
        requires last_key { key ≤ key_count self.now table }
        ensures { let texts = map (λ cell. cell.now) cells.now in
            MatchOption result ((row : ℕ) → ¬ (IsKeyedRow self.now table key texts row)) (IsKeyedRow self.now table key texts) }
    {
        let table = &self.tables[table as usize - 1];
        let key = &table.keys[key as usize - 1];
        let place = row_with(
            &table.rows,
            key.columns.as_slice(),
            key.order.as_slice(),
            cells,
        )?;
        Some(place as u32 + 1)
    }

    /// Whether no two rows of a table agree in all of these columns.
    pub fn is_key(&self, table: u32, columns: &[u32]) -> bool
        requires first { 1 ≤ table }
        requires last { table ≤ length self.now }
        ensures { IsTrue result ↔ DistinguishRows self.now table columns.now }
    {
        match order_by(&self.tables[table as usize - 1].rows, columns) {
            Ok(_) => true,
            Err(_) => false,
        }
    }

    /// What tables keep: no two rows of a table agree in a key. It does nothing.
    pub fn keeps_keys(&self)
        ensures { KeysDistinguish self.now }
    {
        let _kept = &self.tables;
    }
}

/// The characters of cells, where they are no more than a key can have.
fn slices_of(cells: &[Text]) -> Option<ArrayVec<&[char], MOST_COLUMNS>>
    ensures { MatchOption result (3 < length cells.now) (λ slices. map (λ slice. slice.now) slices.items ≡ cells.now) }
{
    let mut slices: ArrayVec<&[char], MOST_COLUMNS> = ArrayVec::new();
    for cell in cells {
        if slices.is_full() {
            return None;
        }
        slices.push(cell.as_slice());
    }
    Some(slices)
}

/// A text as a name.
fn name_of(alloc: Global, name: &str) -> Result<Name, NoMemory>
    ensures { IfOk result (λ made. made ≡ chars name.now) }
{
    match Name::from_utf8(alloc, name.as_bytes()) {
        Ok(name) => Ok(name),
        Err(TextError::NoMemory) => Err(NoMemory),
        Err(TextError::NotUtf8 { .. }) => unreachable!(),
    }
}
