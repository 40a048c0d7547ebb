//! Records with another field in one column.
ghost use Rattle.std.specs.Prelude.{◌≡◌, ◌≤◌, ◌<◌, IfOk, [], length, get_or};
ghost use Rattle.fillcsv_columns.specs.Fields.{padded, with_field};

use fill_records::Record;
use fill_text::{List, NoMemory};
use std::alloc::Global;

/// The fields of a record, copied.
pub fn fields_of(alloc: Global, row: &Record) -> Result<Vec<List<u8>>, NoMemory>
    ensures { IfOk result (λ fields. fields.items ≡ row.now) }
{
    let mut fields = Vec::with_capacity(alloc, row.len())?;
    for i in 0..row.len() {
        fields.push(field_at(alloc, row, i)?)?;
    }
    Ok(fields)
}

/// The field at a place, copied.
fn field_at(alloc: Global, row: &Record, i: usize) -> Result<List<u8>, NoMemory>
    requires { i < length row.now }
    ensures { IfOk result (λ field. field ≡ get_or row.now i []) }
{
    let mut field = List::new(alloc);
    field.append(row.get(i).unwrap_or(b""))?;
    Ok(field)
}

/// The fields of a record with this one in a column, from 1. A record that is too short gets empty fields up to there.
pub fn with_field(
    alloc: Global,
    fields: Vec<List<u8>>,
    column: usize,
    field: List<u8>,
) -> Result<Vec<List<u8>>, NoMemory>
    requires { 1 ≤ column }
    ensures { IfOk result (λ made. made.items ≡ with_field column field fields.items) }
{
    let mut fields = padded(alloc, fields, column)?;
    let slots = fields.as_mut_slice();
    slots[column - 1] = field;
    Ok(fields)
}

/// The fields with empty ones up to a column.
fn padded(
    alloc: Global,
    mut fields: Vec<List<u8>>,
    column: usize,
) -> Result<Vec<List<u8>>, NoMemory>
    ensures { IfOk result (λ made. made.items ≡ padded column fields.items) }
{
    let length = fields.as_slice().len();
    for _ in length..column {
        fields.push(List::new(alloc))?;
    }
    Ok(fields)
}
