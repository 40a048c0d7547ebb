//! The text of a record, as a CSV file has it.
ghost use Rattle.std.specs.Prelude.{◌≡◌, ◌<◌, IfOk};
ghost use Rattle.csv.specs.Records.{fields_of};
ghost use Rattle.fill_sheet.specs.Report.{record_text};
ghost use Rattle.fillcsv_columns.specs.Fields.{with_field};

use crate::rows::other_field;
use csv::ByteRecord;
use fill_sheet::{push_end, push_field, push_sep};
use fill_text::{List, NoMemory};
use std::alloc::Global;

/// The text of a record with this field in a column.
pub(crate) fn row_bytes(
    alloc: Global,
    row: &ByteRecord,
    column: usize,
    field: &[u8],
) -> Result<List<u8>, NoMemory>
    requires { 0 < column }
    ensures { IfOk result (λ text. text ≡ record_text (with_field column field.now (fields_of row.now))) }
{
    let mut text = List::new(alloc);
    let width = row.len().max(column);
    for i in 0..width {
        push_sep(i, &mut text)?;
        push_field(other_field(row, column, field, i), &mut text)?;
    }
    push_end(&mut text)?;
    Ok(text)
}
