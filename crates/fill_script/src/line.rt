//! The fields of a line.
ghost use Rattle.std.specs.Prelude.{◌≡◌, ◌<◌, IfOk, IsTrue};
ghost use Rattle.fill_records.specs.Records.{field_of};
ghost use Rattle.fill_numbers.specs.Columns.{is_word};
ghost use Rattle.fill_script.specs.Line.{is_begin, is_text, name_in};

use fill_records::Record;
use fill_text::{Name, NoMemory, TextError};
use std::alloc::Global;

/// Whether the line's first field is this word.
pub(crate) fn is_word(line: &Record, word: &[u8]) -> bool
    ensures { result ≡ is_word word.now line.now }
{
    line.field(1) == word
}

/// Whether a line ends the opening section.
pub(crate) fn is_begin(line: &Record) -> bool
    ensures { result ≡ is_begin line.now }
{
    line.len() == 1 && is_word(line, b"begin")
}

/// The name that a line's field spells, where it is not empty.
pub(crate) fn name_in(alloc: Global, line: &Record, column: u32) -> Result<Option<Name>, NoMemory>
    requires column { 0 < column }
    requires text { IsTrue (is_text line.now) }
    ensures { IfOk result (λ name. name ≡ name_in (field_of column line.now)) }
{
    let field = line.field(column);
    if field.is_empty() {
        return Ok(None);
    }
    match Name::from_utf8(alloc, field) {
        Ok(name) => Ok(Some(name)),
        Err(TextError::NoMemory) => Err(NoMemory),
        Err(TextError::NotUtf8 { .. }) => unreachable!(),
    }
}
