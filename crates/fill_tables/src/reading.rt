//! What is read of a table's records.
ghost use Rattle.std.specs.Prelude.{◌≡◌, ◌<◌, ◌≤◌, map, All, IfOk};
ghost use Rattle.fill_records.specs.Texts.{IsText, text_in};
ghost use Rattle.fill_tables.specs.Reading.{columns_to, kept, row_of, width_of};

use fill_records::Record;
use fill_text::{List, NoMemory, Text};
use std::alloc::Global;

/// The most rows of a table.
pub const MOST_TABLE_ROWS: usize = 2_000;

/// The most fields of a record that are kept.
pub const MOST_FIELDS: usize = 1_000;

/// How many fields of a record are kept.
fn kept(fields: &Record) -> u32
    ensures { result ≡ kept fields.now }
{
    fields.len().min(MOST_FIELDS) as u32
}

/// The largest number of kept fields in a record.
pub(crate) fn width_of(records: &[Record]) -> u32
    ensures { result ≡ width_of records.now }
{
    let mut width = 0;
    for record in records {
        width = kept(record).max(width);
    }
    width
}

/// The columns of a table of this width.
pub(crate) fn columns_to(alloc: Global, width: u32) -> Result<Vec<u32>, NoMemory>
    requires { width ≤ MOST_FIELDS }
    ensures { IfOk result (λ columns. columns.items ≡ columns_to width) }
{
    let mut columns = Vec::with_capacity(alloc, width as usize)?;
    for i in 0..width {
        columns.push(i + 1)?;
    }
    Ok(columns)
}

/// The row of a record's fields in these columns.
fn row_of(alloc: Global, fields: &Record, columns: &[u32]) -> Result<List<Text>, NoMemory>
    requires columns { All (λ column. 0 < column) columns.now }
    requires text { IsText columns.now fields.now }
    ensures { IfOk result (λ row. row ≡ map (text_in fields.now) columns.now) }
{
    let mut row = List::new(alloc);
    for column in columns {
        row.push(fields.text(alloc, *column)?)?;
    }
    Ok(row)
}

/// The rows of records, in these columns.
pub(crate) fn rows_of(
    alloc: Global,
    records: &[Record],
    columns: &[u32],
) -> Result<Vec<List<Text>>, NoMemory>
    requires columns { All (λ column. 0 < column) columns.now }
    requires text { All (IsText columns.now) records.now }
    ensures { IfOk result (λ rows. rows.items ≡ map (row_of columns.now) records.now) }
{
    let mut rows = Vec::with_capacity(alloc, records.len())?;
    for record in records {
        rows.push(row_of(alloc, record, columns)?)?;
    }
    Ok(rows)
}
