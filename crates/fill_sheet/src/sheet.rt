//! Sheets.
ghost use Rattle.std.specs.Prelude.{◌≡◌, ◌≢◌, ◌<◌, ◌≤◌, ◌==◌, [], ◌∷◌, ◌++◌, length, position, Contains, Ok, Err, Some, IfOk, IfErr, OnOk, OnErr, option_copied, option_to_list};
ghost use Rattle.std.specs.List.Sorted.{IsPermutation};
ghost use Rattle.std.specs.Option.{ForSome};
ghost use Rattle.fill_text.specs.Data.{cell_at};
ghost use Rattle.fill_records.specs.Texts.{IsText};
ghost use Rattle.fill_sheet.specs.Columns.{AreInputs, IsColumn, IsOutput, rising};
ghost use Rattle.fill_sheet.specs.Sheet.{IsSheet, given_at, read_sheet, read_up_to, row_of, row_sheet, sheet_of};

use crate::SheetError;
use crate::columns::{rising, used};
use crate::reading::{first_number, row_of, row_records, rows_of};
use crate::row::Row;
use fill_records::{Record, first_bad, read_records};
use fill_text::{List, NoMemory, Text};
use std::alloc::Global;
use std::marker::Model;

/// The most rows of a sheet in memory.
pub const MOST_ROWS: u32 = 16_777_216;

/// How many records the file of a sheet may have where nothing else is said, the header among them.
pub const MOST_RECORDS: u32 = 20_000;

/// A sheet: rows of texts in a few input columns, some with a given text for the output.
#[derive(Debug, Drop)]
pub struct Sheet {
    inputs: Vec<u32>,
    rows: Vec<Row>,
}

impl Model for Sheet {
    ghost use Rattle.fill_text.specs.Data.{SheetData};
    ghost use Rattle.fill_sheet.specs.Sheet.{IsSheet};

    ghost Value = { SheetData };

    ghost view = { λ sheet. record { inputs = sheet.inputs.items; rows = sheet.rows.items } };

    ghost invariant = { λ sheet. IsSheet (record { inputs = sheet.inputs.items; rows = sheet.rows.items }) };
}

impl Sheet {
    /// The sheet of a CSV file's bytes, which may have [`MOST_RECORDS`].
    ///
    /// Each record is a row. Where `header` is true the first one is passed over and not looked at. Only the fields in the
    /// inputs and the output are read; one that a record lacks is the empty text.
    pub fn read(
        alloc: Global,
        bytes: &[u8],
        header: bool,
        inputs: &[u32],
        output: Option<u32>,
    ) -> Result<Sheet, SheetError>
        requires inputs { AreInputs inputs.now }
        requires output { IsOutput inputs.now output }
        ensures ok { IfOk result (λ sheet. read_sheet header inputs.now output bytes.now ≡ Ok sheet) }
        ensures err { IfErr result (λ e. e ≢ SheetError.NoMemory → read_sheet header inputs.now output bytes.now ≡ Err e) }
        ensures inputs { IfOk result (λ sheet. IsPermutation inputs.now sheet.inputs) }
        ensures shape { IfOk result IsSheet }
    {
        Sheet::read_up_to(alloc, MOST_RECORDS, bytes, header, inputs, output)
    }

    /// As `read`, of a file that may have `most` records, the header among them.
    pub fn read_up_to(
        alloc: Global,
        most: u32,
        bytes: &[u8],
        header: bool,
        inputs: &[u32],
        output: Option<u32>,
    ) -> Result<Sheet, SheetError>
        requires most { most ≤ MOST_ROWS }
        requires inputs { AreInputs inputs.now }
        requires output { IsOutput inputs.now output }
        ensures ok { IfOk result (λ sheet. read_up_to most header inputs.now output bytes.now ≡ Ok sheet) }
        ensures err { IfErr result (λ e. e ≢ SheetError.NoMemory → read_up_to most header inputs.now output bytes.now ≡ Err e) }
        ensures inputs { IfOk result (λ sheet. IsPermutation inputs.now sheet.inputs) }
        ensures shape { IfOk result IsSheet }
    {
        let records = read_records(alloc, bytes, most as usize + 1)?;
        Sheet::of_records(alloc, most, records.as_slice(), header, inputs, output)
    }

    /// The sheet of a file's records, or of the first of them, more than a sheet may have.
    fn of_records(
        alloc: Global,
        most: u32,
        records: &[Record],
        header: bool,
        inputs: &[u32],
        output: Option<u32>,
    ) -> Result<Sheet, SheetError>
        requires most { most ≤ MOST_ROWS }
        requires inputs { AreInputs inputs.now }
        requires output { IsOutput inputs.now output }
        ensures ok { IfOk result (λ sheet. sheet_of most header inputs.now output records.now ≡ Ok sheet) }
        ensures err { IfErr result (λ e. e ≢ SheetError.NoMemory → sheet_of most header inputs.now output records.now ≡ Err e) }
        ensures inputs { IfOk result (λ sheet. IsPermutation inputs.now sheet.inputs) }
        ensures shape { IfOk result IsSheet }
    {
        let columns = used(alloc, inputs, output)?;
        let inputs = rising(alloc, inputs)?;
        let most_records = most as usize;
        let rows = row_records(most_records, header, records);
        if let Some((number, column)) = first_bad(rows, first_number(header), &columns) {
            return Err(SheetError::NotUtf8 { number, column });
        }
        if records.len() > most_records {
            return Err(SheetError::TooManyRows { limit: most });
        }
        let rows = rows_of(alloc, rows, &inputs, output)?;
        Ok(Sheet { inputs, rows })
    }

    /// The sheet whose one row has these cells in the input columns, and no given text.
    pub fn of_row(alloc: Global, inputs: &[u32], cells: List<Text>) -> Result<Sheet, NoMemory>
        requires { IsSheet (row_sheet inputs.now cells) }
        ensures { IfOk result (λ sheet. sheet ≡ row_sheet inputs.now cells) }
    {
        let inputs = Vec::from_slice(alloc, inputs)?;
        let mut rows = Vec::new(alloc);
        let cells = cells.into_vec();
        rows.push(Row { cells, given: None })?;
        Ok(Sheet { inputs, rows })
    }

    /// The sheet of these input columns, in any order, without rows.
    pub fn without_rows(alloc: Global, inputs: &[u32]) -> Result<Sheet, NoMemory>
        requires { AreInputs inputs.now }
        ensures { IfOk result (λ sheet. sheet ≡ record { inputs = rising inputs.now; rows = [] }) }
    {
        Ok(Sheet {
            inputs: rising(alloc, inputs)?,
            rows: Vec::new(alloc),
        })
    }

    /// Adds the row of a record after the last one; where the output is set, it may give a text.
    pub fn add_row(&mut self, fields: &Record, output: Option<u32>) -> Result<(), NoMemory>
        requires room { length self.old.rows < MOST_ROWS }
        requires output { ForSome output IsColumn }
        requires text { IsText (self.old.inputs ++ option_to_list output) fields.now }
        ensures ok { OnOk result (self.new ≡ record self.old { rows = self.old.rows ++ row_of self.old.inputs output fields.now ∷ [] }) }
        ensures err { OnErr result (self.new ≡ self.old) }
    {
        let alloc = *self.inputs.allocator();
        let row = row_of(alloc, fields, &self.inputs, output)?;
        self.rows.push(row)?;
        Ok(())
    }

    /// The number of rows.
    pub fn rows(&self) -> u32
        ensures count { result ≡ length self.now.rows }
        ensures limited { result ≤ MOST_ROWS }
        ensures shape { IsSheet self.now }
    {
        self.rows.len() as u32
    }

    /// The input columns, in rising order.
    pub fn inputs(&self) -> &[u32]
        ensures { result.now ≡ self.now.inputs }
    {
        &self.inputs
    }

    /// The cell of a row, from 1, in an input column.
    pub fn cell(&self, row: u32, column: u32) -> &Text
        requires first { 1 ≤ row }
        requires last { row ≤ length self.now.rows }
        requires input { Contains self.now.inputs column }
        ensures { cell_at self.now row column ≡ Some result.now }
    {
        let at = place_of(&self.inputs, column).unwrap();
        let row = &self.rows[row as usize - 1];
        &row.cells[at]
    }

    /// The text that a row, from 1, is given in the output column: none where no output column was set or the cell is
    /// empty.
    pub fn given(&self, row: u32) -> Option<&Text>
        requires first { 1 ≤ row }
        requires last { row ≤ length self.now.rows }
        ensures { option_copied result ≡ given_at self.now row }
    {
        self.rows[row as usize - 1].given.as_ref()
    }
}

/// The place of a column among the inputs.
fn place_of(inputs: &[u32], column: u32) -> Option<usize>
    ensures { result ≡ position (λ input. input == column) inputs.now }
{
    inputs.iter().position(|input| *input == column)
}
