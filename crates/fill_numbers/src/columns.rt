//! What the fields of a record spell: numbers, and distinct columns.
ghost use Rattle.std.specs.List.{list_any};
ghost use Rattle.std.specs.Prelude.{◌≡◌, ◌==◌, ◌&&◌, ◌+◌, ◌<◌, ◌^◌, [], IfOk, drop, length, nat_le, slice_index_or};
ghost use Rattle.fill_numbers.specs.Columns.{columns_in, is_distinct, number_between, numbers_in};

use crate::number::number_in;
use fill_records::Record;
use fill_text::{List, NoMemory};
use std::alloc::Global;

/// The number from `low` to `high` that a field spells.
pub fn number_between(low: u32, high: u32, field: &[u8]) -> Option<u32>
    ensures { result ≡ number_between low high field.now }
{
    let number = number_in(field)?;
    if low <= number && number <= high {
        Some(number)
    } else {
        None
    }
}

/// The numbers from 1 to `high` that the fields from a place on spell, where each of them spells one.
fn numbers_in(
    alloc: Global,
    line: &Record,
    first: usize,
    high: u32,
) -> Result<Option<List<u32>>, NoMemory>
    ensures { IfOk result (λ numbers. numbers ≡ numbers_in high (drop first line.now)) }
{
    let mut numbers = List::new(alloc);
    for i in first..line.len() {
        match number_at(line, i, high) {
            Some(number) => numbers.push(number)?,
            None => return Ok(None),
        }
    }
    Ok(Some(numbers))
}

/// The number from 1 to `high` that the field at a place spells.
fn number_at(line: &Record, i: usize, high: u32) -> Option<u32>
    requires { i < length line.now }
    ensures { result ≡ number_between 1 high (slice_index_or line.now i []) }
{
    number_between(1, high, line.get(i).unwrap_or(b""))
}

/// Whether a number is among others.
pub fn is_among(numbers: &[u32], number: u32) -> bool
    ensures { result ≡ list_any (λ other. other == number) numbers.now }
{
    numbers.iter().any(|other| *other == number)
}

/// Whether no number stands twice.
fn is_distinct(numbers: &[u32]) -> bool
    ensures { result ≡ is_distinct numbers.now }
{
    for (i, number) in numbers.iter().enumerate() {
        if is_among(&numbers[i + 1..], *number) {
            return false;
        }
    }
    true
}

fn is_between(n: usize, low: usize, high: usize) -> bool
    ensures { result ≡ (nat_le low n && nat_le n high) }
{
    low <= n && n <= high
}

/// The distinct columns up to `high` that the fields from a place on spell, at least one and at most `most`.
pub fn columns_in(
    alloc: Global,
    line: &Record,
    first: usize,
    most: usize,
    high: u32,
) -> Result<Option<List<u32>>, NoMemory>
    requires { first + most < 2 ^ 32 }
    ensures { IfOk result (λ columns. columns ≡ columns_in first most high line.now) }
{
    if !is_between(line.len(), first + 1, first + most) {
        return Ok(None);
    }
    let Some(columns) = numbers_in(alloc, line, first, high)? else {
        return Ok(None);
    };
    if is_distinct(columns.as_slice()) {
        Ok(Some(columns))
    } else {
        Ok(None)
    }
}
