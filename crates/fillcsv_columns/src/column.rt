//! The column of a word.
ghost use Rattle.std.specs.Prelude.{◌≡◌, ◌≢◌, ◌<◌, IfOk, IfErr, Ok, Err, [], unwrap_or, length, option_map, get_or};
ghost use Rattle.std.specs.Str.{bytes_eq};
ghost use Rattle.fillcsv_columns.specs.Columns.{column_in, column_of, named, names_of, numbered, within};

use crate::ColumnError;
use fill_numbers::number_in;
use fill_records::Record;
use fill_sheet::LAST_COLUMN;
use fill_text::NoMemory;
use std::alloc::Global;

/// The column of a word, from 1, in a sheet of this many columns: the one of this name in the header, or else the one of
/// this number.
pub fn column_of(
    alloc: Global,
    header: Option<&Record>,
    width: usize,
    word: &str,
) -> Result<u32, ColumnError>
    ensures ok { IfOk result (λ column. column_in (names_of (option_map (λ h. h.now) header.entry)) width word.now ≡ Ok column) }
    ensures err { IfErr result (λ e. e ≢ ColumnError.NoMemory → column_in (names_of (option_map (λ h. h.now) header.entry)) width word.now ≡ Err e) }
{
    match header {
        Some(names) => column_with(alloc, names, width, word.as_bytes()),
        None => numbered(width, word.as_bytes()),
    }
}

/// The column of a word in a sheet with a header.
fn column_with(alloc: Global, names: &Record, width: usize, word: &[u8]) -> Result<u32, ColumnError>
    ensures ok { IfOk result (λ column. column_in names.now width word.now ≡ Ok column) }
    ensures err { IfErr result (λ e. e ≢ ColumnError.NoMemory → column_in names.now width word.now ≡ Err e) }
{
    let Ok(columns) = named(alloc, names, word) else {
        return Err(ColumnError::NoMemory);
    };
    column_among(columns.as_slice(), width, word)
}

/// The column of a word that is the name of these.
fn column_among(columns: &[usize], width: usize, word: &[u8]) -> Result<u32, ColumnError>
    ensures { result ≡ column_of columns.now width word.now }
{
    match columns {
        [] => numbered(width, word),
        [column] => within(LAST_COLUMN as usize, *column),
        _ => Err(ColumnError::Ambiguous),
    }
}

/// The columns of this name.
pub(crate) fn named(alloc: Global, names: &Record, word: &[u8]) -> Result<Vec<usize>, NoMemory>
    ensures { IfOk result (λ columns. columns.items ≡ named word.now 1 names.now) }
{
    let mut columns = Vec::new(alloc);
    for i in 0..names.len() {
        if !is_name(names, i, word) {
            continue;
        }
        columns.push(i + 1)?;
    }
    Ok(columns)
}

/// Whether the field at a place is this word.
fn is_name(names: &Record, i: usize, word: &[u8]) -> bool
    requires { i < length names.now }
    ensures { result ≡ bytes_eq (get_or names.now i []) word.now }
{
    names.get(i).unwrap_or(b"") == word
}

/// The column of this number in a sheet of this many columns.
fn numbered(width: usize, word: &[u8]) -> Result<u32, ColumnError>
    ensures { result ≡ numbered width word.now }
{
    let Some(column) = number_in(word) else {
        return Err(ColumnError::Missing);
    };
    within(width, column as usize)
}

/// The column of this number, where it is at most the last one.
fn within(last: usize, column: usize) -> Result<u32, ColumnError>
    ensures { result ≡ within last column }
{
    if 1 <= column && column <= last.min(LAST_COLUMN as usize) {
        Ok(column as u32)
    } else {
        Err(ColumnError::Missing)
    }
}
