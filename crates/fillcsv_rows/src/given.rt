//! What rows give before any rule is asked.
ghost use Rattle.std.specs.Prelude.{◌≡◌, ◌≤◌, length, option_copied};
ghost use Rattle.fillcsv_rows.specs.Learned.{given_for, typed_at};

use fill_sheet::Sheet;
use fill_text::Text;
use fill_tree::Example;

/// The text that is typed for a row, where there is one.
pub fn typed_at(typed: &[Example], row: u32) -> Option<&Text>
    ensures { option_copied result ≡ typed_at typed.now row }
{
    for example in typed {
        if example.row == row {
            return Some(&example.text);
        }
    }
    None
}

/// What a row gives: the text that is typed for it, or else that of its cell.
pub(crate) fn given_for<'a>(typed: &'a [Example], sheet: &'a Sheet, row: u32) -> Option<&'a Text>
    requires first { 1 ≤ row }
    requires last { row ≤ length sheet.now.rows }
    ensures { option_copied result ≡ given_for typed.now sheet.now row }
{
    match typed_at(typed, row) {
        Some(text) => Some(text),
        None => sheet.given(row),
    }
}
