//! Which example a given text clashes with. No contract says what is found.
ghost use Rattle.std.specs.Prelude.{◌≡◌, ◌≤◌, length, true};

use fill_session::Session;
use fill_sheet::Sheet;

/// The row of the first example that reads the same cells as this row, and 0 where there is none.
pub fn clash_of(session: &Session, row: u32) -> u32 {
    for example in session.examples() {
        if is_pair(session.sheet(), row, example.row)
            && reads_same(session.sheet(), row, example.row)
        {
            return example.row;
        }
    }
    0
}

/// Whether these are two rows of the sheet.
fn is_pair(sheet: &Sheet, row: u32, other: u32) -> bool
    ensures { result ≡ true → (1 ≤ row) × (row ≤ length sheet.now.rows) × (1 ≤ other) × (other ≤ length sheet.now.rows) }
{
    row >= 1 && row <= sheet.rows() && other >= 1 && other <= sheet.rows() && row != other
}

/// Whether two rows have the same cells to read.
fn reads_same(sheet: &Sheet, row: u32, other: u32) -> bool
    requires first { (1 ≤ row) × (row ≤ length sheet.now.rows) }
    requires second { (1 ≤ other) × (other ≤ length sheet.now.rows) }
{
    for column in sheet.inputs() {
        if !sheet.cell(row, *column).same(sheet.cell(other, *column)) {
            return false;
        }
    }
    true
}
