//! The columns that words choose.
ghost use Rattle.std.specs.Prelude.{◌≡◌, [], ◌==◌, IfOk, IfErr, Ok, Some, map, option_copied, string_bytes};
ghost use Rattle.std.specs.List.{list_any};
ghost use Rattle.fill_sheet.specs.Columns.{AreInputs, IsOutput};
ghost use Rattle.fillcsv_columns.specs.Columns.{names_of};
ghost use Rattle.fillcsv_columns.specs.Choice.{Refuses, choice_after, choice_data, choice_in, chosen, new_among, new_column, one_more, others, sources_in};

use crate::column::{column_of, named};
use crate::{ChoiceError, ColumnError};
use fill_records::Record;
use fill_sheet::{LAST_COLUMN, MOST_INPUTS};
use fill_text::NoMemory;
use std::alloc::Global;

/// The columns that words choose, counted from 1.
#[derive(Debug, Drop)]
pub struct Choice {
    /// The column that is filled.
    pub to: u32,
    /// The columns that rules may read, one to [`MOST_INPUTS`], without the one that is filled.
    pub from: Vec<u32>,
}

/// The columns that words choose in a sheet of this many columns: the one to fill, and those to read, or without words
/// all others, the first eight. A word is the name of a column in the header, or else its number.
pub fn choose<'a>(
    alloc: Global,
    header: Option<&Record>,
    width: usize,
    to: &'a str,
    from: &'a [String],
) -> Result<Choice, ChoiceError<'a>>
    ensures ok { IfOk result (λ c. choice_in (names_of (option_copied header.entry)) width to.now (map string_bytes from.now) ≡ Ok (choice_data c)) }
    ensures err { IfErr result (Refuses (choice_in (names_of (option_copied header.entry)) width to.now (map string_bytes from.now))) }
    ensures inputs { IfOk result (λ c. AreInputs c.from.items) }
    ensures output { IfOk result (λ c. IsOutput c.from.items (Some c.to)) }
{
    let to = chosen(alloc, header, width, to)?;
    let from = sources(alloc, header, width, to, from)?;
    Ok(Choice { to, from })
}

/// The same where a new column is filled, which no column has the name of. It comes after all others.
pub fn choose_new<'a>(
    alloc: Global,
    header: Option<&Record>,
    width: usize,
    name: &'a str,
    from: &'a [String],
) -> Result<Choice, ChoiceError<'a>>
    ensures ok { IfOk result (λ c. choice_after (names_of (option_copied header.entry)) width name.now (map string_bytes from.now) ≡ Ok (choice_data c)) }
    ensures err { IfErr result (Refuses (choice_after (names_of (option_copied header.entry)) width name.now (map string_bytes from.now))) }
    ensures inputs { IfOk result (λ c. AreInputs c.from.items) }
    ensures output { IfOk result (λ c. IsOutput c.from.items (Some c.to)) }
{
    let to = new_column(alloc, header, width, name)?;
    let from = sources(alloc, header, width, to, from)?;
    Ok(Choice { to, from })
}

/// The new column of a name.
fn new_column<'a>(
    alloc: Global,
    header: Option<&Record>,
    width: usize,
    name: &'a str,
) -> Result<u32, ChoiceError<'a>>
    ensures ok { IfOk result (λ n. new_column (names_of (option_copied header.entry)) width name.now ≡ Ok n) }
    ensures err { IfErr result (Refuses (new_column (names_of (option_copied header.entry)) width name.now)) }
{
    let Some(names) = header else {
        return new_among(&[], width, name);
    };
    match named(alloc, names, name.as_bytes()) {
        Ok(columns) => new_among(columns.as_slice(), width, name),
        Err(NoMemory) => Err(ChoiceError::NoMemory),
    }
}

/// The new column of a name that these columns have.
fn new_among<'a>(columns: &[usize], width: usize, name: &'a str) -> Result<u32, ChoiceError<'a>>
    ensures ok { IfOk result (λ n. new_among columns.now width name.now ≡ Ok n) }
    ensures err { IfErr result (Refuses (new_among columns.now width name.now)) }
{
    if !columns.is_empty() {
        return Err(ChoiceError::Present(name));
    }
    if width >= LAST_COLUMN as usize {
        return Err(ChoiceError::Full);
    }
    Ok(width as u32 + 1)
}

/// The column that a word chooses.
fn chosen<'a>(
    alloc: Global,
    header: Option<&Record>,
    width: usize,
    word: &'a str,
) -> Result<u32, ChoiceError<'a>>
    ensures ok { IfOk result (λ n. chosen (names_of (option_copied header.entry)) width word.now ≡ Ok n) }
    ensures err { IfErr result (Refuses (chosen (names_of (option_copied header.entry)) width word.now)) }
{
    match column_of(alloc, header, width, word) {
        Ok(column) => Ok(column),
        Err(ColumnError::Missing) => Err(ChoiceError::Missing(word)),
        Err(ColumnError::Ambiguous) => Err(ChoiceError::Ambiguous(word)),
        Err(ColumnError::NoMemory) => Err(ChoiceError::NoMemory),
    }
}

/// The columns to read.
fn sources<'a>(
    alloc: Global,
    header: Option<&Record>,
    width: usize,
    to: u32,
    words: &'a [String],
) -> Result<Vec<u32>, ChoiceError<'a>>
    ensures ok { IfOk result (λ from. sources_in (names_of (option_copied header.entry)) width to (map string_bytes words.now) ≡ Ok from.items) }
    ensures err { IfErr result (Refuses (sources_in (names_of (option_copied header.entry)) width to (map string_bytes words.now))) }
{
    if words.is_empty() {
        return some_others(alloc, width, to);
    }
    let mut from = Vec::new(alloc);
    for word in words {
        let column = chosen(alloc, header, width, word.as_str())?;
        from = one_more(from, to, word.as_str(), column)?;
    }
    Ok(from)
}

/// The columns to read with one more, which a word names.
fn one_more<'a>(
    mut before: Vec<u32>,
    to: u32,
    word: &'a str,
    column: u32,
) -> Result<Vec<u32>, ChoiceError<'a>>
    ensures ok { IfOk result (λ now. one_more to before.items word.now column ≡ Ok now.items) }
    ensures err { IfErr result (Refuses (one_more to before.items word.now column)) }
{
    if column == to {
        return Err(ChoiceError::Filled(word));
    }
    if is_among(before.as_slice(), column) {
        return Err(ChoiceError::Again(word));
    }
    if before.len() >= MOST_INPUTS {
        return Err(ChoiceError::TooMany);
    }
    match before.push(column) {
        Ok(()) => Ok(before),
        Err(_) => Err(ChoiceError::NoMemory),
    }
}

/// Whether a column is among others.
fn is_among(columns: &[u32], column: u32) -> bool
    ensures { result ≡ list_any (λ other. other == column) columns.now }
{
    columns.iter().any(|other| *other == column)
}

/// All columns but the one that is filled, the first eight; there must be one.
fn some_others<'a>(alloc: Global, width: usize, to: u32) -> Result<Vec<u32>, ChoiceError<'a>>
    ensures ok { IfOk result (λ from. sources_in [] width to [] ≡ Ok from.items) }
    ensures err { IfErr result (Refuses (sources_in [] width to [])) }
{
    match others(alloc, width, to) {
        Ok(from) => {
            if from.is_empty() {
                Err(ChoiceError::Nothing)
            } else {
                Ok(from)
            }
        }
        Err(NoMemory) => Err(ChoiceError::NoMemory),
    }
}

/// All columns but the one that is filled, the first eight.
fn others(alloc: Global, width: usize, to: u32) -> Result<Vec<u32>, NoMemory>
    ensures { IfOk result (λ from. from.items ≡ others width to) }
{
    let last = width.min(LAST_COLUMN as usize) as u32;
    let mut from = Vec::new(alloc);
    for column in 1..last + 1 {
        if from.as_slice().len() == MOST_INPUTS {
            break;
        }
        if column == to {
            continue;
        }
        from.push(column)?;
    }
    Ok(from)
}
