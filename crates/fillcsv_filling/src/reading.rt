//! Reading the rows of a sheet in a pass over its file, a block of rows at a time.
ghost use Rattle.std.specs.Prelude.{◌≡◌, ◌+◌, ◌≤◌, IfOk, IfSome, IsTrue, OnOk, Some, drop, length, option_to_list, take, ◌++◌};
ghost use Rattle.fill_records.specs.Texts.{IsText};
ghost use Rattle.fill_sheet.specs.Columns.{rising};
ghost use Rattle.fill_sheet.specs.Sheet.{headers};
ghost use Rattle.fillcsv_filling.specs.Long.{AreFit, IsSet};
ghost use Rattle.fillcsv_filling.specs.Reading.{AreFrom, most_rows, numbered};

use crate::sheet::LongSheet;
use fill_edge::Cabinet;
use fill_passes::{Origin, Pass};
use fill_records::Record;
use fill_text::NoMemory;
use fillcsv_blocks::Numbered;
use std::alloc::Global;

/// The most rows of a block.
const BLOCK_ROWS: u32 = 16_384;

/// The most records that a pass reads, the header among them.
pub const MOST_LONG_RECORDS: u32 = 16_777_216;

/// Passes the header over, where there is one.
pub(crate) fn skip_header<C: Cabinet + Drop, B: Origin>(
    alloc: Global,
    pass: &mut Pass<C, B>,
    header: bool,
) -> Result<(), NoMemory>
    ensures { OnOk result (IfSome pass.old (λ records. pass.new ≡ Some (drop (headers header) records))) }
{
    if !header {
        return Ok(());
    }
    match pass.next(alloc) {
        Ok(_) => Ok(()),
        Err(NoMemory) => Err(NoMemory),
    }
}

/// The next rows after the first ones of a sheet, as many as a block has at most; no rows after the last one.
///
/// A file that has changed since it was opened may have rows that cannot be read, or too many. Both are answered as memory that
/// ran out is.
pub(crate) fn next_rows<C: Cabinet + Drop, B: Origin>(
    alloc: Global,
    pass: &mut Pass<C, B>,
    sheet: &LongSheet<'_>,
    done: u32,
) -> Result<Vec<Numbered>, NoMemory>
    requires set { IsSet sheet.now }
    requires done { done ≤ MOST_LONG_RECORDS }
    ensures rows { IfOk result (λ rows. IfSome pass.old (λ left. rows.items ≡ numbered (done + 1) (take most_rows left))) }
    ensures left { OnOk result (IfSome pass.old (λ left. pass.new ≡ Some (drop most_rows left))) }
    ensures fit { IfOk result (λ rows. AreFit sheet.now most_rows rows.items) }
    ensures from { IfOk result (λ rows. AreFrom (done + 1) rows.items) }
    ensures few { IfOk result (λ rows. done + length rows.items ≤ MOST_LONG_RECORDS) }
{
    let mut rows = Vec::new(alloc);
    for n in 0..BLOCK_ROWS {
        let fields = match pass.next(alloc) {
            Ok(Some(fields)) => fields,
            Ok(None) => return Ok(rows),
            Err(NoMemory) => return Err(NoMemory),
        };
        if done + n >= MOST_LONG_RECORDS || !is_readable(sheet, &fields) {
            return Err(NoMemory);
        }
        let number = done + n + 1;
        rows.push(Numbered { number, fields })?;
    }
    Ok(rows)
}

/// Whether the fields of a record are UTF-8 in the columns that are read.
fn is_readable(sheet: &LongSheet<'_>, fields: &Record) -> bool
    requires { IsSet sheet.now }
    ensures { IsTrue result → IsText (rising sheet.now.inputs.now ++ option_to_list sheet.now.output) fields.now }
{
    if fields.bad_column(sheet.inputs).is_some() {
        return false;
    }
    match sheet.output {
        Some(column) => fields.bad_column(&[column]).is_none(),
        None => true,
    }
}
