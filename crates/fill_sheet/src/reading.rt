//! What is read of a sheet's records.
ghost use Rattle.std.specs.Prelude.{◌≡◌, ◌+◌, ◌++◌, map, All, IfOk, option_to_list};
ghost use Rattle.std.specs.Option.{ForSome};
ghost use Rattle.fill_sheet.specs.Columns.{IsColumn};
ghost use Rattle.fill_records.specs.Texts.{IsText, text_in};
ghost use Rattle.fill_sheet.specs.Sheet.{given_in, headers, row_of, row_records};

use crate::row::Row;
use fill_records::Record;
use fill_text::{NoMemory, Text};
use std::alloc::Global;

/// The records of the rows, of a file's first ones: `most` at most, the header among them.
pub(crate) fn row_records(most: usize, header: bool, records: &[Record]) -> &[Record]
    ensures { result.now ≡ row_records most header records.now }
{
    let end = records.len().min(most);
    let start = if header { end.min(1) } else { 0 };
    &records[start..end]
}

/// The number of the first row's record.
pub(crate) fn first_number(header: bool) -> u32
    ensures { result ≡ headers header + 1 }
{
    if header { 2 } else { 1 }
}

/// The texts of a record's fields in these columns.
fn cells_in(alloc: Global, fields: &Record, inputs: &[u32]) -> Result<Vec<Text>, NoMemory>
    requires columns { All IsColumn inputs.now }
    requires text { IsText inputs.now fields.now }
    ensures { IfOk result (λ cells. cells.items ≡ map (text_in fields.now) inputs.now) }
{
    let mut cells = Vec::with_capacity(alloc, inputs.len())?;
    for column in inputs {
        cells.push(fields.text(alloc, *column)?)?;
    }
    Ok(cells)
}

/// The text that a record gives for its row: that of the output column, where it has one.
fn given_in(alloc: Global, fields: &Record, output: Option<u32>) -> Result<Option<Text>, NoMemory>
    requires column { ForSome output IsColumn }
    requires text { IsText (option_to_list output) fields.now }
    ensures { IfOk result (λ given. given ≡ given_in output fields.now) }
{
    let Some(column) = output else {
        return Ok(None);
    };
    let text = fields.text(alloc, column)?;
    if text.len() == 0 {
        return Ok(None);
    }
    Ok(Some(text))
}

/// The row of a record.
pub(crate) fn row_of(
    alloc: Global,
    fields: &Record,
    inputs: &[u32],
    output: Option<u32>,
) -> Result<Row, NoMemory>
    requires inputs { All IsColumn inputs.now }
    requires output { ForSome output IsColumn }
    requires text { IsText (inputs.now ++ option_to_list output) fields.now }
    ensures { IfOk result (λ row. row ≡ row_of inputs.now output fields.now) }
{
    let cells = cells_in(alloc, fields, inputs)?;
    let given = given_in(alloc, fields, output)?;
    Ok(Row { cells, given })
}

/// The rows of records.
pub(crate) fn rows_of(
    alloc: Global,
    records: &[Record],
    inputs: &[u32],
    output: Option<u32>,
) -> Result<Vec<Row>, NoMemory>
    requires inputs { All IsColumn inputs.now }
    requires output { ForSome output IsColumn }
    requires text { All (IsText (inputs.now ++ option_to_list output)) records.now }
    ensures { IfOk result (λ rows. rows.items ≡ map (row_of inputs.now output) records.now) }
{
    let mut rows = Vec::with_capacity(alloc, records.len())?;
    for record in records {
        rows.push(row_of(alloc, record, inputs, output)?)?;
    }
    Ok(rows)
}
