//! Cells, and the rows that lookups find, by numbers that may be out of range.
ghost use Rattle.std.specs.Prelude.{◌≡◌, ◌≤◌, ℕ, true, false, MatchOption, None, length, map, option_copied};
ghost use Rattle.fill_text.specs.Data.{cell_at, key_at, table_cell_at};
ghost use Rattle.fill_tables.specs.Keys.{IsKeyedRow, KeysDistinguish};
ghost use Rattle.fill_tables.specs.Tables.{AreTables, key_count};

use fill_sheet::Sheet;
use fill_tables::Tables;
use fill_text::Text;
use fill_tree::is_input;

/// The cell of a row in a column, if that is an input. The text is lent by the sheet.
pub fn input_cell(row: u32, column: u32, sheet: &Sheet) -> Option<&Text>
    requires first { 1 ≤ row }
    requires last { row ≤ length sheet.now.rows }
    ensures { option_copied result ≡ cell_at sheet.now row column }
{
    if is_input(column, sheet) {
        Some(sheet.cell(row, column))
    } else {
        None
    }
}

/// The cell of a table, if the numbers are in range. The text is lent by the tables.
pub fn table_cell(table: u32, row: u32, column: u32, tables: &Tables) -> Option<&Text>
    ensures { option_copied result ≡ table_cell_at tables.now table row column }
{
    if table == 0 || table > tables.count() {
        return None;
    }
    if row == 0 || row > tables.rows(table) || column == 0 || column > tables.width(table) {
        return None;
    }
    Some(tables.cell(table, row, column))
}

/// Whether there is a key of these numbers.
pub(crate) fn has_key(table: u32, key: u32, tables: &Tables) -> bool
    ensures there { result ≡ true → (1 ≤ table) × (table ≤ length tables.now) × (1 ≤ key) × (key ≤ key_count tables.now table) }
    ensures absent { result ≡ false → key_at tables.now table key ≡ None }
    ensures shape { AreTables tables.now }
{
    let count = tables.count();
    if table == 0 || table > count {
        return false;
    }
    if key == 0 || key > tables.keys(table) {
        return false;
    }
    true
}

/// The row whose cells in the columns of the key are these texts, if there is such a key and such a row.
///
/// It halves the rows of the table.
pub fn found_row(table: u32, key: u32, cells: &[&[char]], tables: &Tables) -> Option<u32>
    ensures found { let texts = map (λ cell. cell.now) cells.now in
        MatchOption result ((row : ℕ) → ¬ (IsKeyedRow tables.now table key texts row)) (IsKeyedRow tables.now table key texts) }
    ensures one { KeysDistinguish tables.now }
{
    tables.keeps_keys();
    if !has_key(table, key, tables) {
        return None;
    }
    tables.find_slices(table, key, cells)
}
