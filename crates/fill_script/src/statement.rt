//! What a line of the opening section says.
ghost use Rattle.std.specs.Prelude.{◌≡◌, IfOk, IsTrue};
ghost use Rattle.fill_script.specs.Line.{constants_in, constants_of, depth_in, header_in, inputs_in, is_text, key_in, output_in, profile_in, sheet_in, statement_in, table_in};

use crate::TableLine;
use crate::line::{is_word, name_in};
use fill_numbers::{columns_in, number_between};
use fill_records::Record;
use fill_sheet::{LAST_COLUMN, MOST_INPUTS};
use fill_text::{List, Name, NoMemory};
use fill_tree::Constants;
use std::alloc::Global;

/// What a line before `begin` says.
#[derive(Debug, Drop)]
pub(crate) enum Statement {
    /// The sheet's file.
    Sheet(Name),
    /// The sheet's first record is no row.
    Header,
    /// The input columns.
    Inputs(List<u32>),
    /// The output column.
    Output(u32),
    /// A table or a key.
    Lookup(TableLine),
    /// How deep lookups may stand inside each other.
    Depth(u8),
    /// Which constants programs may have.
    Constants(Constants),
    /// The table of tokens.
    Profile(u8),
}

/// What the line of a number says, where it has a form of the opening section.
pub(crate) fn statement_in(
    alloc: Global,
    number: u32,
    line: &Record,
) -> Result<Option<Statement>, NoMemory>
    requires { IsTrue (is_text line.now) }
    ensures { IfOk result (λ statement. statement ≡ statement_in number line.now) }
{
    if is_word(line, b"sheet") {
        return sheet_in(alloc, line);
    }
    if is_word(line, b"header") {
        return Ok(header_in(line));
    }
    if is_word(line, b"inputs") {
        return inputs_in(alloc, line);
    }
    if is_word(line, b"output") {
        return Ok(output_in(line));
    }
    if is_word(line, b"table") {
        return table_in(alloc, number, line);
    }
    if is_word(line, b"key") {
        return key_in(alloc, number, line);
    }
    if is_word(line, b"depth") {
        return Ok(depth_in(line));
    }
    if is_word(line, b"constants") {
        return Ok(constants_in(line));
    }
    if is_word(line, b"profile") {
        return Ok(profile_in(line));
    }
    Ok(None)
}

/// `sheet,FILE`
fn sheet_in(alloc: Global, line: &Record) -> Result<Option<Statement>, NoMemory>
    requires { IsTrue (is_text line.now) }
    ensures { IfOk result (λ statement. statement ≡ sheet_in line.now) }
{
    if line.len() != 2 {
        return Ok(None);
    }
    match name_in(alloc, line, 2)? {
        Some(file) => Ok(Some(Statement::Sheet(file))),
        None => Ok(None),
    }
}

/// `header`
fn header_in(line: &Record) -> Option<Statement>
    ensures { result ≡ header_in line.now }
{
    if line.len() == 1 {
        Some(Statement::Header)
    } else {
        None
    }
}

/// `inputs,COLUMN,..`
fn inputs_in(alloc: Global, line: &Record) -> Result<Option<Statement>, NoMemory>
    ensures { IfOk result (λ statement. statement ≡ inputs_in line.now) }
{
    match columns_in(alloc, line, 1, MOST_INPUTS, LAST_COLUMN)? {
        Some(columns) => Ok(Some(Statement::Inputs(columns))),
        None => Ok(None),
    }
}

/// `output,COLUMN`
fn output_in(line: &Record) -> Option<Statement>
    ensures { result ≡ output_in line.now }
{
    if line.len() != 2 {
        return None;
    }
    let column = number_between(1, LAST_COLUMN, line.field(2))?;
    Some(Statement::Output(column))
}

/// `table,NAME,FILE`
fn table_in(alloc: Global, number: u32, line: &Record) -> Result<Option<Statement>, NoMemory>
    requires { IsTrue (is_text line.now) }
    ensures { IfOk result (λ statement. statement ≡ table_in number line.now) }
{
    if line.len() != 3 {
        return Ok(None);
    }
    let Some(name) = name_in(alloc, line, 2)? else {
        return Ok(None);
    };
    let Some(file) = name_in(alloc, line, 3)? else {
        return Ok(None);
    };
    Ok(Some(Statement::Lookup(TableLine::Table { number, name, file })))
}

/// `key,NAME,COLUMN,..`
fn key_in(alloc: Global, number: u32, line: &Record) -> Result<Option<Statement>, NoMemory>
    requires { IsTrue (is_text line.now) }
    ensures { IfOk result (λ statement. statement ≡ key_in number line.now) }
{
    let Some(name) = name_in(alloc, line, 2)? else {
        return Ok(None);
    };
    let Some(columns) = columns_in(alloc, line, 2, 3, u32::MAX)? else {
        return Ok(None);
    };
    Ok(Some(Statement::Lookup(TableLine::Key {
        number,
        name,
        columns,
    })))
}

/// `depth,DEPTH`
fn depth_in(line: &Record) -> Option<Statement>
    ensures { result ≡ depth_in line.now }
{
    if line.len() != 2 {
        return None;
    }
    let depth = number_between(0, 3, line.field(2))?;
    Some(Statement::Depth(depth as u8))
}

/// The constants that a word allows.
fn constants_of(word: &[u8]) -> Option<Constants>
    ensures { result ≡ constants_of word.now }
{
    if word == b"any".as_slice() {
        Some(Constants::Any)
    } else if word == b"separators".as_slice() {
        Some(Constants::Separators)
    } else {
        None
    }
}

/// `constants,WHICH`
fn constants_in(line: &Record) -> Option<Statement>
    ensures { result ≡ constants_in line.now }
{
    if line.len() != 2 {
        return None;
    }
    let which = constants_of(line.field(2))?;
    Some(Statement::Constants(which))
}

/// `profile,PROFILE`
fn profile_in(line: &Record) -> Option<Statement>
    ensures { result ≡ profile_in line.now }
{
    if line.len() != 2 {
        return None;
    }
    let profile = number_between(1, 2, line.field(2))?;
    Some(Statement::Profile(profile as u8))
}
