//! What the lines of a rule's file say.
ghost use Rattle.std.specs.List.{list_any};
ghost use Rattle.std.specs.Prelude.{◌≡◌, ◌==◌, ◌&&◌, ◌+◌, ◌<◌, ◌≤◌, [], IfOk, IfSome, codes, drop, get_or, length, nat_le, option_map, slice_index_or, take};
ghost use Rattle.fill_numbers.specs.Columns.{has_form, is_word, number_between, numbers_in};
ghost use Rattle.fill_apply.specs.Saved.{is_shown};
ghost use Rattle.fillcsv_rules.specs.File.{inputs_in, is_first, is_header, is_rising, names_in, output_in};

use crate::Names;
use fill_numbers::number_in;
use fill_records::Record;
use fill_sheet::{LAST_COLUMN, MOST_INPUTS};
use fill_text::{List, NoMemory};
use std::alloc::Global;

/// Whether a line has this word and this many fields.
pub(crate) fn has_form(line: &Record, word: &[u8], fields: usize) -> bool
    ensures { result ≡ has_form word.now fields line.now }
{
    line.len() == fields && line.field(1) == word
}

/// Whether a rule's file may begin with this line.
pub(crate) fn is_first(line: &Record) -> bool
    ensures { result ≡ is_first line.now }
{
    has_form(line, b"rule", 2) && line.field(2) == b"1".as_slice()
}

/// Whether a line says that the sheet had a header.
pub(crate) fn is_header(line: &Record) -> bool
    ensures { result ≡ is_header line.now }
{
    has_form(line, b"header", 1)
}

/// Whether a line shows a conditional program.
pub(crate) fn is_shown(line: &Record) -> bool
    ensures { result ≡ is_shown line.now }
{
    has_form(line, b"switch", 2)
}

/// The column that a field spells.
fn column_in(field: &[u8]) -> Option<u32>
    ensures { result ≡ number_between 1 LAST_COLUMN field.now }
{
    let column = number_in(field)?;
    if 1 <= column && column <= LAST_COLUMN {
        Some(column)
    } else {
        None
    }
}

/// The column that the field at a place spells.
fn column_at(line: &Record, i: usize) -> Option<u32>
    requires { i < length line.now }
    ensures { result ≡ number_between 1 LAST_COLUMN (slice_index_or line.now i []) }
{
    column_in(line.get(i).unwrap_or(b""))
}

/// The columns that the fields after the first one spell, where each of them spells one.
fn columns_in(alloc: Global, line: &Record) -> Result<Option<Vec<u32>>, NoMemory>
    ensures { IfOk result (λ columns. option_map (λ v. v.items) columns ≡ numbers_in LAST_COLUMN (drop 1 line.now)) }
{
    let mut columns = Vec::new(alloc);
    for i in 1..line.len() {
        match column_at(line, i) {
            Some(column) => columns.push(column)?,
            None => return Ok(None),
        }
    }
    Ok(Some(columns))
}

/// Whether each number is greater than the one before it.
fn is_rising(numbers: &[u32]) -> bool
    ensures { result ≡ is_rising numbers.now }
{
    for i in 1..numbers.len() {
        if numbers[i] <= numbers[i - 1] {
            return false;
        }
    }
    true
}

/// The columns of a line of inputs.
#[tactic(auto, using(crate::proofs::Forms::few_numbers))]
pub(crate) fn inputs_in(alloc: Global, line: &Record) -> Result<Option<Vec<u32>>, NoMemory>
    ensures columns { IfOk result (λ columns. option_map (λ v. v.items) columns ≡ inputs_in line.now) }
    ensures few { IfOk result (λ columns. IfSome columns (λ v. length v.items ≤ MOST_INPUTS)) }
{
    if !is_inputs(line) {
        return Ok(None);
    }
    let Some(columns) = columns_in(alloc, line)? else {
        return Ok(None);
    };
    if is_rising(columns.as_slice()) {
        Ok(Some(columns))
    } else {
        Ok(None)
    }
}

/// Whether a line has the word of inputs and as many columns as there may be.
fn is_inputs(line: &Record) -> bool
    ensures { result ≡ (is_word (codes "inputs") line.now && (nat_le 2 (length line.now) && nat_le (length line.now) (MOST_INPUTS + 1))) }
{
    line.field(1) == b"inputs".as_slice() && 2 <= line.len() && line.len() <= MOST_INPUTS + 1
}

/// Whether a column is among others.
fn is_among(columns: &[u32], column: u32) -> bool
    ensures { result ≡ list_any (λ other. other == column) columns.now }
{
    columns.iter().any(|other| *other == column)
}

/// The column of a line of an output, which is none of the inputs.
pub(crate) fn output_in(inputs: &[u32], line: &Record) -> Option<u32>
    ensures { result ≡ output_in inputs.now line.now }
{
    if !has_form(line, b"output", 2) {
        return None;
    }
    let column = column_in(line.field(2))?;
    if is_among(inputs, column) {
        None
    } else {
        Some(column)
    }
}

/// The names of a line of names, those of this many inputs and of the output.
pub(crate) fn names_in(
    alloc: Global,
    count: usize,
    line: &Record,
) -> Result<Option<Names>, NoMemory>
    requires { count ≤ MOST_INPUTS }
    ensures { IfOk result (λ names. names ≡ names_in count line.now) }
{
    if !has_form(line, b"names", count + 2) {
        return Ok(None);
    }
    let inputs = fields_in(alloc, line, count)?;
    let output = copied(alloc, line.field(count as u32 + 2))?;
    Ok(Some(Names { inputs, output }))
}

/// So many fields after the first one, copied.
#[tactic(auto, using(crate::proofs::Forms::field_next))]
fn fields_in(alloc: Global, line: &Record, count: usize) -> Result<List<List<u8>>, NoMemory>
    requires few { count ≤ MOST_INPUTS }
    requires there { count + 1 ≤ length line.now }
    ensures { IfOk result (λ fields. fields ≡ take count (drop 1 line.now)) }
{
    let mut fields = List::new(alloc);
    for i in 0..count {
        fields.push(field_at(alloc, line, i + 1)?)?;
    }
    Ok(fields)
}

/// The field at a place, copied.
fn field_at(alloc: Global, line: &Record, i: usize) -> Result<List<u8>, NoMemory>
    requires { i < length line.now }
    ensures { IfOk result (λ field. field ≡ get_or line.now i []) }
{
    copied(alloc, line.get(i).unwrap_or(b""))
}

/// Bytes, copied.
pub(crate) fn copied(alloc: Global, bytes: &[u8]) -> Result<List<u8>, NoMemory>
    ensures { IfOk result (λ made. made ≡ bytes.now) }
{
    let mut made = List::new(alloc);
    made.append(bytes)?;
    Ok(made)
}
