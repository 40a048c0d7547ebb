//! Fields that are not UTF-8.
ghost use Rattle.std.specs.Prelude.{◌≡◌, ◌+◌, ◌<◌, ◌^◌, length, All};
ghost use Rattle.std.specs.Str.{is_utf8};
ghost use Rattle.fill_records.specs.Texts.{first_bad};

use crate::Record;
use fill_text::is_ascii;

/// Whether bytes are UTF-8.
pub fn is_text(bytes: &[u8]) -> bool
    ensures { result ≡ is_utf8 bytes.now }
{
    if is_ascii(bytes) {
        return true;
    }
    match str::from_utf8(bytes) {
        Ok(_) => true,
        Err(_) => false,
    }
}

/// The number of the first record that has a field in one of these columns that is not UTF-8, where they count from
/// `first`, and the first such column of it.
pub fn first_bad(records: &[Record], first: u32, columns: &[u32]) -> Option<(u32, u32)>
    requires fits { first + length records.now < 2 ^ 32 }
    requires columns { All (λ column. 0 < column) columns.now }
    ensures { result ≡ first_bad columns.now first records.now }
{
    let mut number = first;
    for record in records {
        if let Some(column) = record.bad_column(columns) {
            return Some((number, column));
        }
        number += 1;
    }
    None
}
