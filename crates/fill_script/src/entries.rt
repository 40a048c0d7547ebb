//! The lines after `begin`.
ghost use Rattle.std.specs.Prelude.{◌≡◌, ◌≢◌, ◌+◌, ◌<◌, ◌^◌, length, Ok, Err, IfOk, IfErr, IsTrue};
ghost use Rattle.fill_script.specs.Entries.{alone, best_in, entries_from, entry_at, entry_in, question_in, row_in, row_text_in};
ghost use Rattle.fill_script.specs.Line.{is_text};

use crate::line::is_word;
use crate::{Entry, ScriptError};
use fill_numbers::{number_between, number_in};
use fill_records::Record;
use fill_text::{List, NoMemory, Text};
use fill_tree::{Edit, MOST_PROGRAMS};
use std::alloc::Global;

/// What lines that count from `first` ask for.
pub(crate) fn entries_of(
    alloc: Global,
    lines: &[Record],
    first: u32,
) -> Result<List<Entry>, ScriptError>
    requires { first + length lines.now < 2 ^ 32 }
    ensures ok { IfOk result (λ entries. entries_from first lines.now ≡ Ok entries) }
    ensures err { IfErr result (λ e. e ≢ ScriptError.NoMemory → entries_from first lines.now ≡ Err e) }
{
    let mut entries = List::new(alloc);
    let mut number = first;
    for line in lines {
        let entry = entry_at(alloc, number, line)?;
        entries.push(entry)?;
        number += 1;
    }
    Ok(entries)
}

/// What the line of a number asks for.
fn entry_at(alloc: Global, number: u32, line: &Record) -> Result<Entry, ScriptError>
    ensures ok { IfOk result (λ entry. entry_at number line.now ≡ Ok entry) }
    ensures err { IfErr result (λ e. e ≢ ScriptError.NoMemory → entry_at number line.now ≡ Err e) }
{
    if !line.is_text() {
        return Err(ScriptError::NotUtf8 { number });
    }
    match entry_in(alloc, line)? {
        Some(entry) => Ok(entry),
        None => Err(ScriptError::BadRecord { number }),
    }
}

/// What a line asks for, where it has a form of this section.
fn entry_in(alloc: Global, line: &Record) -> Result<Option<Entry>, NoMemory>
    requires { IsTrue (is_text line.now) }
    ensures { IfOk result (λ entry. entry ≡ entry_in line.now) }
{
    if is_word(line, b"add") {
        return Ok(row_text_in(alloc, line)?.map(|(row, text)| Entry::Edit(Edit::Add {
            row,
            text,
        })));
    }
    if is_word(line, b"correct") {
        return Ok(row_text_in(alloc, line)?.map(|(row, text)| Entry::Edit(Edit::Correct {
            row,
            text,
        })));
    }
    if is_word(line, b"retract") {
        return Ok(row_in(line).map(|row| Entry::Edit(Edit::Retract { row })));
    }
    if is_word(line, b"clear") {
        return Ok(alone(line, Entry::Edit(Edit::Clear)));
    }
    if is_word(line, b"undo") {
        return Ok(alone(line, Entry::Undo));
    }
    if is_word(line, b"redo") {
        return Ok(alone(line, Entry::Redo));
    }
    Ok(question_in(line))
}

/// What a line that leaves the examples asks for.
fn question_in(line: &Record) -> Option<Entry>
    ensures { result ≡ question_in line.now }
{
    if is_word(line, b"programs") {
        return alone(line, Entry::Programs);
    }
    if is_word(line, b"switch") {
        return alone(line, Entry::Switch);
    }
    if is_word(line, b"fill") {
        return alone(line, Entry::Fill);
    }
    if is_word(line, b"count") {
        return alone(line, Entry::Count);
    }
    if is_word(line, b"answer") {
        return row_in(line).map(|row| Entry::Answer { row });
    }
    if is_word(line, b"object") {
        return row_in(line).map(|row| Entry::Object { row });
    }
    if is_word(line, b"best") {
        return best_in(line);
    }
    None
}

/// An entry, where the line is a word alone.
fn alone(line: &Record, entry: Entry) -> Option<Entry>
    ensures { result ≡ alone entry line.now }
{
    if line.len() == 1 { Some(entry) } else { None }
}

/// The row of a line of two fields.
fn row_in(line: &Record) -> Option<u32>
    ensures { result ≡ row_in line.now }
{
    if line.len() != 2 {
        return None;
    }
    number_in(line.field(2))
}

/// The branch and the number of programs of a line of three fields.
fn best_in(line: &Record) -> Option<Entry>
    ensures { result ≡ best_in line.now }
{
    if line.len() != 3 {
        return None;
    }
    let branch = number_in(line.field(2))?;
    let k = number_between(1, MOST_PROGRAMS, line.field(3))?;
    Some(Entry::Best { branch, k })
}

/// The row and the text of a line of three fields.
fn row_text_in(alloc: Global, line: &Record) -> Result<Option<(u32, Text)>, NoMemory>
    requires { IsTrue (is_text line.now) }
    ensures { IfOk result (λ given. given ≡ row_text_in line.now) }
{
    if line.len() != 3 {
        return Ok(None);
    }
    let Some(row) = number_in(line.field(2)) else {
        return Ok(None);
    };
    let text = line.text(alloc, 3)?;
    Ok(Some((row, text)))
}
