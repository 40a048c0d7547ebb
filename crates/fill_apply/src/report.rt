//! The text of the conditional program that a report shows last.
ghost use Rattle.std.specs.Prelude.{◌≡◌, ◌<◌, if◌then◌else◌, IfOk};
ghost use Rattle.std.specs.Str.{bytes_eq};
ghost use Rattle.csv.specs.Reading.{error_kind};
ghost use Rattle.csv.specs.Records.{fields_of};
ghost use Rattle.fill_records.specs.Errors.{IsOfMemory};
ghost use Rattle.fill_records.specs.Records.{field_of, records_of};
ghost use Rattle.fill_apply.specs.Saved.{is_shown, shown_text};

use csv::{ByteRecord, Error, ErrorKind, ReaderBuilder};
use fill_records::records_are_few;
use fill_text::{List, NoMemory};
use std::alloc::Global;

/// The text of the last record that shows a conditional program, the empty one where there is none.
///
/// A report may have millions of records. They are read one after the other, and of those that were read only the text
/// that counts so far is kept.
pub(crate) fn shown_text(alloc: Global, bytes: &[u8]) -> Result<List<u8>, NoMemory>
    ensures { IfOk result (λ text. text ≡ shown_text (records_of bytes.now)) }
{
    records_are_few(bytes);
    let mut reader = ReaderBuilder::new()
        .has_headers(false)
        .flexible(true)
        .from_reader(alloc, bytes);
    let mut row = ByteRecord::new(alloc);
    let mut text = List::new(alloc);
    for _ in 0..bytes.len() {
        match reader.read_byte_record(&mut row) {
            Ok(true) => text = text_after(alloc, text, &row)?,
            Ok(false) => break,
            Err(error) => return Err(memory_of(error)),
        }
    }
    Ok(text)
}

/// The text that a record shows, or else the one that was shown before it.
fn text_after(alloc: Global, text: List<u8>, row: &ByteRecord) -> Result<List<u8>, NoMemory>
    ensures { IfOk result (λ after. after ≡ (if is_shown (fields_of row.now) then field_of 2 (fields_of row.now) else text)) }
{
    if !is_shown(row) {
        return Ok(text);
    }
    let mut shown = List::new(alloc);
    shown.append(field(row, 2))?;
    Ok(shown)
}

/// Whether a record shows a conditional program.
fn is_shown(row: &ByteRecord) -> bool
    ensures { result ≡ is_shown (fields_of row.now) }
{
    row.len() == 2 && is_word(row, b"switch")
}

/// Whether a record's first field is this word.
fn is_word(row: &ByteRecord, word: &[u8]) -> bool
    ensures { result ≡ bytes_eq (field_of 1 (fields_of row.now)) word.now }
{
    field(row, 1) == word
}

/// The bytes of a field; the first field is that of column 1. Where the record ends before the column they are none.
fn field(row: &ByteRecord, column: usize) -> &[u8]
    requires { 0 < column }
    ensures { result.now ≡ field_of column (fields_of row.now) }
{
    row.get(column - 1).unwrap_or(b"")
}

/// What an error of reading bytes in memory tells. They can always be read, so one of their source is memory's too.
fn memory_of(error: Error) -> NoMemory
    requires { IsOfMemory (error_kind error) }
{
    match error.into_kind() {
        ErrorKind::Io(_) => NoMemory,
        ErrorKind::OutOfMemory => NoMemory,
        ErrorKind::UnequalLengths { .. } => unreachable!(),
        ErrorKind::Utf8 { .. } => unreachable!(),
        ErrorKind::Serialize(_) => unreachable!(),
        ErrorKind::Deserialize { .. } => unreachable!(),
    }
}
