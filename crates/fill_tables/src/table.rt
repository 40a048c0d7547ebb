//! A table.
ghost use Rattle.std.specs.Prelude.{◌≡◌, ◌≢◌, nat_lt, Ok, Err, IfOk, IfErr, OnOk, OnErr};
ghost use Rattle.std.specs.List.{list_any};
ghost use Rattle.fill_tables.specs.Keys.{AreKeyColumns};
ghost use Rattle.fill_tables.specs.Reading.{read_table, table_of};
ghost use Rattle.fill_tables.specs.Tables.{IsTable, with_key};

use crate::TableError;
use crate::order::order_by;
use crate::reading::{MOST_TABLE_ROWS, columns_to, rows_of, width_of};
use fill_records::{Record, first_bad, first_records, read_records};
use fill_text::{List, Name, NoMemory, Text};
use std::alloc::Global;
use std::marker::Model;

/// How many keys a table can have.
pub const MOST_KEYS: usize = 4;

/// A key of a table.
#[derive(Debug, Drop)]
pub(crate) struct Key {
    /// The columns, as they were given.
    pub(crate) columns: List<u32>,
    /// The places of all rows, from 0, in the order of their cells in these columns.
    pub(crate) order: List<u16>,
}

/// A table: rows of texts, and keys, each a list of columns in which no two rows agree.
#[derive(Debug, Drop)]
pub(crate) struct Table {
    pub(crate) name: Name,
    pub(crate) width: u32,
    pub(crate) rows: Vec<List<Text>>,
    pub(crate) keys: Vec<Key>,
}

impl Model for Table {
    ghost use Rattle.std.specs.Prelude.{length, map, All};
    ghost use Rattle.fill_text.specs.Data.{TableData};
    ghost use Rattle.fill_tables.specs.Orders.{IsOrder};
    ghost use Rattle.fill_tables.specs.Tables.{IsTable};

    ghost Value = { TableData };

    ghost view = { λ table. record { name = table.name; width = table.width; rows = table.rows.items; keys = map (λ key. key.columns) table.keys.items } };

    ghost invariant = { λ table. IsTable (record { name = table.name; width = table.width; rows = table.rows.items; keys = map (λ key. key.columns) table.keys.items }) × All (λ key. IsOrder key.columns table.rows.items (length table.rows.items) key.order) table.keys.items };
}

impl Table {
    /// The table of a CSV file's bytes, whose records are its rows. It has no key.
    pub(crate) fn read(alloc: Global, name: Name, bytes: &[u8]) -> Result<Table, TableError>
        ensures ok { IfOk result (λ table. read_table name bytes.now ≡ Ok table) }
        ensures err { IfErr result (λ e. e ≢ TableError.NoMemory → read_table name bytes.now ≡ Err e) }
        ensures name { IfOk result (λ table. table.name ≡ name) }
        ensures shape { IfOk result IsTable }
    {
        let records = read_records(alloc, bytes, MOST_TABLE_ROWS + 1)?;
        Table::of_records(alloc, name, records.as_slice())
    }

    /// The table of a file's records, or of the first of them, more than a table may have.
    fn of_records(alloc: Global, name: Name, records: &[Record]) -> Result<Table, TableError>
        ensures ok { IfOk result (λ table. table_of name records.now ≡ Ok table) }
        ensures err { IfErr result (λ e. e ≢ TableError.NoMemory → table_of name records.now ≡ Err e) }
        ensures name { IfOk result (λ table. table.name ≡ name) }
        ensures shape { IfOk result IsTable }
    {
        let kept = first_records(records, MOST_TABLE_ROWS);
        let width = width_of(kept);
        let columns = columns_to(alloc, width)?;
        if let Some((number, column)) = first_bad(kept, 1, &columns) {
            return Err(TableError::NotUtf8 { number, column });
        }
        if records.len() > MOST_TABLE_ROWS {
            return Err(TableError::TooManyRows {
                limit: MOST_TABLE_ROWS as u32,
            });
        }
        let rows = rows_of(alloc, kept, &columns)?;
        Ok(Table {
            name,
            width,
            rows,
            keys: Vec::new(alloc),
        })
    }

    /// Adds a key.
    pub(crate) fn add_key(&mut self, columns: &[u32]) -> Result<(), TableError>
        requires columns { AreKeyColumns columns.now }
        ensures ok { OnOk result (with_key self.old columns.now ≡ Ok self.new) }
        ensures err { IfErr result (λ e. e ≢ TableError.NoMemory → with_key self.old columns.now ≡ Err e) }
        ensures kept { OnErr result (self.new ≡ self.old) }
        ensures name { self.new.name ≡ self.old.name }
        ensures shape { IsTable self.new }
    {
        if is_past(columns, self.width) {
            return Err(TableError::NoSuchColumn {
                columns: self.width,
            });
        }
        if self.keys.len() == MOST_KEYS {
            return Err(TableError::TooManyKeys {
                limit: MOST_KEYS as u32,
            });
        }
        let order = match order_by(&self.rows, columns) {
            Ok(order) => order,
            Err((row1, row2)) => return Err(TableError::NotAKey { row1, row2 }),
        };
        let key = key_of(*self.keys.allocator(), columns, order.as_slice())?;
        if self.keys.push(key).is_err() {
            return Err(TableError::NoMemory);
        }
        Ok(())
    }
}

/// Whether one of these columns is past the last.
fn is_past(columns: &[u32], width: u32) -> bool
    ensures { result ≡ list_any (λ column. nat_lt width column) columns.now }
{
    columns.iter().any(|column| width < *column)
}

/// The key of these columns, with the rows' order in them.
fn key_of(alloc: Global, columns: &[u32], order: &[u16]) -> Result<Key, NoMemory>
    ensures columns { IfOk result (λ key. key.columns ≡ columns.now) }
    ensures order { IfOk result (λ key. key.order ≡ order.now) }
{
    let mut key = Key {
        columns: List::new(alloc),
        order: List::new(alloc),
    };
    key.columns.append(columns)?;
    key.order.append(order)?;
    Ok(key)
}
