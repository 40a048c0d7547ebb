//! Fields of a record that was read.
ghost use Rattle.std.specs.Prelude.{◌≡◌, ◌<◌, [], All, IfOk, IsTrue, map, slice_get, unwrap_or};
ghost use Rattle.std.specs.Str.{is_utf8};
ghost use Rattle.csv.specs.Records.{fields_of};
ghost use Rattle.fill_records.specs.Records.{field_of};
ghost use Rattle.fill_records.specs.Texts.{IsText, bad_column, text_in};

use csv::ByteRecord;
use fill_records::is_text;
use fill_text::{List, NoMemory, Text, TextError};
use std::alloc::Global;

/// The bytes of the field at a place, none where the record ends before it.
pub(crate) fn field_at(row: &ByteRecord, i: usize) -> &[u8]
    ensures { result.now ≡ unwrap_or (slice_get (fields_of row.now) i) [] }
{
    row.get(i).unwrap_or(b"")
}

/// The bytes of the field in a column, from 1.
pub(crate) fn field(row: &ByteRecord, column: usize) -> &[u8]
    requires { 0 < column }
    ensures { result.now ≡ field_of column (fields_of row.now) }
{
    field_at(row, column - 1)
}

/// The first of these columns whose field is not UTF-8.
pub(crate) fn bad_column(row: &ByteRecord, columns: &[usize]) -> Option<usize>
    requires { All (λ column. 0 < column) columns.now }
    ensures { result ≡ bad_column columns.now (fields_of row.now) }
{
    for column in columns {
        if !is_text(field(row, *column)) {
            return Some(*column);
        }
    }
    None
}

/// The text of the field in a column.
fn text(alloc: Global, row: &ByteRecord, column: usize) -> Result<Text, NoMemory>
    requires column { 0 < column }
    requires text { IsTrue (is_utf8 (field_of column (fields_of row.now))) }
    ensures { IfOk result (λ text. text ≡ text_in (fields_of row.now) column) }
{
    match Text::from_utf8(alloc, field(row, column)) {
        Ok(text) => Ok(text),
        Err(TextError::NoMemory) => Err(NoMemory),
        Err(TextError::NotUtf8 { .. }) => unreachable!(),
    }
}

/// The texts of the fields in these columns.
pub(crate) fn texts(
    alloc: Global,
    row: &ByteRecord,
    columns: &[usize],
) -> Result<List<Text>, NoMemory>
    requires columns { All (λ column. 0 < column) columns.now }
    requires text { IsText columns.now (fields_of row.now) }
    ensures { IfOk result (λ texts. texts ≡ map (text_in (fields_of row.now)) columns.now) }
{
    let mut texts = List::with_capacity(alloc, columns.len())?;
    for column in columns {
        texts.push(text(alloc, row, *column)?)?;
    }
    Ok(texts)
}
