//! Keys of lookup tables among the words.
ghost use Rattle.std.specs.Prelude.{◌≡◌, IfOk, IfErr, Some, map, option_map, string_bytes};
ghost use Rattle.fill_numbers.specs.Columns.{columns_in as numbers_of_columns, is_distinct, number_between, numbers_in};
ghost use Rattle.fillcsv_options.specs.Words.{IsRefusedBy, RefusesPart, Wrong, added, columns_in, key_in, lookup_data};

use crate::columns::columns_of;
use crate::{Lookup, Refusal};
use fill_numbers::number_in;
use std::alloc::{AllocError, Global};

/// The tables, and after them the keys of these words.
pub(crate) fn with_keys(
    alloc: Global,
    tables: Vec<Lookup>,
    words: &[&str],
) -> Result<Vec<Lookup>, Refusal>
    ensures ok { IfOk result (λ lookups. added key_in (map lookup_data tables.items) (map (λ w. w.now) words.now) ≡ Some (map lookup_data lookups.items)) }
    ensures err { IfErr result (RefusesPart (added key_in (map lookup_data tables.items) (map (λ w. w.now) words.now))) }
{
    let mut lookups = tables;
    for word in words {
        let key = key_of(alloc, word)?;
        match lookups.push(key) {
            Ok(()) => {}
            Err(_) => return Err(Refusal::NoMemory),
        }
    }
    Ok(lookups)
}

/// The key of a word, `TABLE:COLUMN,..`.
fn key_of(alloc: Global, word: &str) -> Result<Lookup, Refusal>
    ensures ok { IfOk result (λ key. key_in word.now ≡ Some (lookup_data key)) }
    ensures err { IfErr result (RefusesPart (key_in word.now)) }
{
    let Some((table, list)) = word.split_once(':') else {
        return Err(no_key(alloc, word));
    };
    let Some(columns) = key_columns(alloc, list)? else {
        return Err(no_key(alloc, word));
    };
    Ok(Lookup::Key {
        table: String::from_str(alloc, table)?,
        columns,
    })
}

/// The refusal of a word that gives no key.
fn no_key(alloc: Global, word: &str) -> Refusal
    ensures { IsRefusedBy Wrong result }
{
    Refusal::of_value(
        alloc,
        word,
        "--key <TABLE:COLUMN,..>",
        "a table's name and ':' stand in front of the numbers of one to three of its columns",
    )
}

/// The columns of a list: one to three numbers from 1, no two of them equal.
fn key_columns(alloc: Global, list: &str) -> Result<Option<Vec<u32>>, AllocError>
    ensures { IfOk result (λ columns. option_map (λ c. c.items) columns ≡ numbers_of_columns 0 3 4294967295 (columns_in list.now)) }
{
    let fields = columns_of(alloc, &[list])?;
    if fields.is_empty() || fields.len() > 3 {
        return Ok(None);
    }
    let Some(columns) = numbers_of(alloc, &fields)? else {
        return Ok(None);
    };
    if is_distinct(&columns) {
        Ok(Some(columns))
    } else {
        Ok(None)
    }
}

/// The numbers that the fields spell, where each spells one from 1.
fn numbers_of(alloc: Global, fields: &[String]) -> Result<Option<Vec<u32>>, AllocError>
    ensures { IfOk result (λ numbers. option_map (λ n. n.items) numbers ≡ numbers_in 4294967295 (map string_bytes fields.now)) }
{
    let mut numbers = Vec::new(alloc);
    for field in fields {
        match number_of(field.as_str()) {
            Some(number) => numbers.push(number)?,
            None => return Ok(None),
        }
    }
    Ok(Some(numbers))
}

/// The number from 1 that a field spells.
fn number_of(field: &str) -> Option<u32>
    ensures { result ≡ number_between 1 4294967295 field.now }
{
    match number_in(field.as_bytes()) {
        Some(0) => None,
        number => number,
    }
}

/// Whether no number stands twice.
fn is_distinct(numbers: &[u32]) -> bool
    ensures { result ≡ is_distinct numbers.now }
{
    for (i, number) in numbers.iter().enumerate() {
        if numbers[i + 1..].contains(number) {
            return false;
        }
    }
    true
}
