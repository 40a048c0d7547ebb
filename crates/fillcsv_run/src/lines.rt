//! The lines that say why no sheet was written.
ghost use Rattle.std.specs.Prelude.{◌≡◌, ◌≢◌, ◌++◌, IfOk, codes, option_copied, option_map, string_bytes};
ghost use Rattle.fillcsv_columns.specs.Columns.{names_of};
ghost use Rattle.fillcsv_tables.specs.Lines.{line_of, long_line};
ghost use Rattle.fillcsv_run.specs.Near.{near};
ghost use Rattle.fillcsv_run.specs.Lines.{IsChoiceLine, question, row_line, sheet_line, unread_line, unsaved_line};

use crate::near::near;
use fill_records::Record;
use fill_sheet::SheetError;
use fillcsv_columns::ChoiceError;
use std::alloc::{AllocError, Global};

/// The line of a file that could not be read.
pub(crate) fn unread_line(alloc: Global, name: &str) -> Result<String, AllocError>
    ensures { IfOk result (λ line. string_bytes line ≡ unread_line name.now) }
{
    format!(in alloc; "fillcsv: {name}: cannot be read\n")
}

/// The line of a file that has more bytes than one may have.
pub(crate) fn long_line(alloc: Global, most: usize, name: &str) -> Result<String, AllocError>
    ensures { IfOk result (λ line. string_bytes line ≡ long_line most name.now) }
{
    format!(in alloc; "fillcsv: {name}: more than {most} bytes\n")
}

/// The line of a rule that could not be saved under this path.
pub(crate) fn unsaved_line(alloc: Global, path: &str) -> Result<String, AllocError>
    ensures { IfOk result (λ line. string_bytes line ≡ unsaved_line path.now) }
{
    format!(in alloc; "fillcsv: {path}: cannot be written\n")
}

/// The line of a file that spells no sheet.
pub(crate) fn sheet_line(alloc: Global, name: &str, error: SheetError) -> Result<String, AllocError>
    ensures line { IfOk result (λ line. string_bytes line ≡ sheet_line name.now error) }
    ensures memory { IfOk result (λ line. error ≢ SheetError.NoMemory) }
{
    match error {
        SheetError::TooManyRows { limit } => {
            format!(in alloc;
                "fillcsv: {name}: more than {limit} records: learn from some of them with --save-rule, and fill all with --rule\n"
            )
        }
        SheetError::NotUtf8 { number, column } => {
            format!(in alloc; "fillcsv: {name}: record {number}, column {column}: not UTF-8\n")
        }
        SheetError::NoMemory => Err(AllocError),
    }
}

/// The line of an example for a row that is not there.
pub(crate) fn row_line(alloc: Global, name: &str, row: u32) -> Result<String, AllocError>
    ensures { IfOk result (λ line. string_bytes line ≡ row_line name.now row) }
{
    format!(in alloc; "fillcsv: {name}: row {row}: no such row, and --example names it\n")
}

/// The line of a name that is not there, with the one that is like it.
fn missing_line(
    alloc: Global,
    name: &str,
    word: &str,
    near: Option<&str>,
) -> Result<String, AllocError>
    ensures { IfOk result (λ line. string_bytes line ≡ line_of name.now (codes "no column \"" ++ (word.now ++ (codes "\"" ++ question (option_map (λ n. n.now) near.entry))))) }
{
    match near {
        Some(near) => {
            format!(in alloc; "fillcsv: {name}: no column \"{word}\", did you mean \"{near}\"?\n")
        }
        None => format!(in alloc; "fillcsv: {name}: no column \"{word}\"\n"),
    }
}

/// The name in a header that is like a word, if there is a header.
fn near_in<'a>(
    alloc: Global,
    word: &str,
    header: Option<&'a Record>,
) -> Result<Option<&'a str>, AllocError>
    ensures { IfOk result (λ found. option_map (λ name. name.now) found ≡ near word.now (names_of (option_copied header.entry))) }
{
    match header {
        Some(header) => near(alloc, word, header),
        None => Ok(None),
    }
}

/// The line of words that choose no columns among those of a header.
pub(crate) fn choice_line(
    alloc: Global,
    name: &str,
    header: Option<&Record>,
    error: ChoiceError<'_>,
) -> Result<String, AllocError>
    ensures { IfOk result (λ line. IsChoiceLine name.now (names_of (option_copied header.entry)) error.entry (string_bytes line)) }
{
    match error {
        ChoiceError::Missing(word) => missing_line(
            alloc,
            name,
            word,
            near_in(alloc, word, header)?,
        ),
        ChoiceError::Ambiguous(word) => {
            format!(in alloc; "fillcsv: {name}: more than one column \"{word}\"\n")
        }
        ChoiceError::Filled(word) => {
            format!(in alloc;
                "fillcsv: {name}: column \"{word}\" is filled, and cannot be read too\n"
            )
        }
        ChoiceError::Again(word) => {
            format!(in alloc; "fillcsv: {name}: column \"{word}\" is named twice\n")
        }
        ChoiceError::Present(word) => {
            format!(in alloc; "fillcsv: {name}: column \"{word}\" is there already\n")
        }
        ChoiceError::Full => {
            format!(in alloc; "fillcsv: {name}: 1000 columns are there, and no more can be named\n")
        }
        ChoiceError::TooMany => format!(in alloc; "fillcsv: {name}: more than 8 columns to read\n"),
        ChoiceError::Nothing => format!(in alloc; "fillcsv: {name}: no column to read\n"),
        ChoiceError::NoMemory => Err(AllocError),
    }
}
