ghost use Rattle.std.specs.Prelude.{◌<◌, All};

use fill_records::*;
use fill_text::NoMemory;
use std::alloc::Global;
use std::test::Fail;

/// Whether the record has these fields.
fn has_fields(record: &Record, fields: &[&[u8]]) -> bool {
    if record.len() != fields.len() {
        return false;
    }
    for (i, field) in fields.iter().enumerate() {
        if record.get(i) != Some(*field) {
            return false;
        }
    }
    true
}

/// Whether the records have these fields.
fn are(records: &[Record], expected: &[&[&[u8]]]) -> bool {
    if records.len() != expected.len() {
        return false;
    }
    for (record, fields) in records.iter().zip(expected) {
        if !has_fields(record, fields) {
            return false;
        }
    }
    true
}

/// Whether a file's first records, no more than `most`, have these fields.
fn reads_as(alloc: Global, bytes: &[u8], most: usize, expected: &[&[&[u8]]]) -> bool {
    match read_records(alloc, bytes, most) {
        Ok(records) => are(records.as_slice(), expected),
        Err(_) => false,
    }
}

#[test]
fn records_as_spreadsheets_write_them(rt: HostRuntime) {
    let alloc = rt.alloc();
    let bytes = b"\xef\xbb\xbfa,\"b,\nc\"\"d\"\r\n\r\n\n1\n2,,\xff";
    let expected: [&[&[u8]]; 3] = [&[b"a", b"b,\nc\"d"], &[b"1"], &[b"2", b"", b"\xff"]];
    assert!(rt; reads_as(alloc, bytes, 10, &expected));
    assert!(rt; reads_as(alloc, bytes, 2, &expected[..2]));
    assert!(rt; reads_as(alloc, bytes, 0, &[]));
}

#[test]
fn files_without_records(rt: HostRuntime) {
    let alloc = rt.alloc();
    assert!(rt; reads_as(alloc, b"", 10, &[]));
    assert!(rt; reads_as(alloc, b"\xef\xbb\xbf", 10, &[]));
    assert!(rt; reads_as(alloc, b"\r\n\n", 10, &[]));
}

/// A file whose last two records have a field that is no UTF-8.
const BAD: &[u8] = b"a,b\n\xff,b\na,b,\xc3\n";

/// What is asked of records.
#[derive(Clone, Copy)]
enum Asked {
    /// Whether the first one has `a` and `b`, and nothing behind them.
    Fields,
    /// Whether the first fields of three records that are no UTF-8 are found, by columns.
    FirstBad,
    /// Whether the first one's second field is the text `b`.
    Text,
}

/// Whether what is asked of records is so.
fn is_so(alloc: Global, records: &[Record], asked: Asked) -> Result<bool, NoMemory> {
    let Some(first) = records.first() else {
        return Ok(false);
    };
    match asked {
        Asked::Fields => Ok(is_a_and_b(first)),
        Asked::FirstBad => Ok(are_first(records)),
        Asked::Text => second_is(alloc, first, &['b']),
    }
}

/// Whether what is asked of a file's first records, no more than `most`, is so.
fn holds(alloc: Global, bytes: &[u8], most: usize, asked: Asked) -> Result<bool, NoMemory> {
    let records = read_records(alloc, bytes, most)?;
    is_so(alloc, records.as_slice(), asked)
}

/// Whether the record is of `a` and `b`, and has nothing behind them.
fn is_a_and_b(record: &Record) -> bool {
    record.field(1) == b"a".as_slice()
        && record.field(2) == b"b".as_slice()
        && record.field(3) == b"".as_slice()
        && record.get(2).is_none()
}

#[test]
fn fields_by_column(rt: HostRuntime) -> Result<(), Fail> {
    assert!(rt; holds(rt.alloc(), b"a,b\n", 1, Asked::Fields)?);
    Ok(())
}

/// Whether this is the first of the columns whose field is no UTF-8, and all fields are just if this says so.
fn is_found(record: &Record, columns: &[u32], bad: Option<u32>, all: bool) -> bool
    requires { All (λ column. 0 < column) columns.now }
{
    record.bad_column(columns) == bad && record.is_text() == all
}

/// Whether this is the first of the columns with a bad field, in the record at this place, from 0.
fn is_found_at(
    records: &[Record],
    place: usize,
    columns: &[u32],
    bad: Option<u32>,
    all: bool,
) -> bool
    requires { All (λ column. 0 < column) columns.now }
{
    match records.get(place) {
        Some(record) => is_found(record, columns, bad, all),
        None => false,
    }
}

/// Whether this is the first of the columns with a bad field, in a record of the file with such fields.
fn finds(alloc: Global, place: usize, columns: &[u32], bad: Option<u32>, all: bool) -> bool
    requires { All (λ column. 0 < column) columns.now }
{
    match read_records(alloc, BAD, 3) {
        Ok(records) => is_found_at(records.as_slice(), place, columns, bad, all),
        Err(_) => false,
    }
}

/// Whether the first fields of three records that are no UTF-8 are found, by columns.
fn are_first(records: &[Record]) -> bool {
    records.len() == 3
        && first_bad(records, 5, &[2, 1]) == Some((6, 1))
        && first_bad(records, 5, &[2, 3]) == Some((7, 3))
        && first_bad(records, 5, &[2]).is_none()
}

#[test]
fn fields_that_are_not_utf8(rt: HostRuntime) -> Result<(), Fail> {
    for (place, columns, bad, all) in [
        (0, [1, 2, 4], None, true),
        (1, [3, 2, 1], Some(1), false),
        (1, [2, 3, 4], None, false),
        (2, [1, 3, 2], Some(3), false),
    ] {
        assert!(rt; finds(rt.alloc(), place, &columns, bad, all), "{place}");
    }
    assert!(rt; holds(rt.alloc(), BAD, 3, Asked::FirstBad)?);
    Ok(())
}

/// Whether the second field is this text.
fn second_is(alloc: Global, record: &Record, expected: &[char]) -> Result<bool, NoMemory> {
    if !is_text(record.field(2)) {
        return Ok(false);
    }
    let text = record.text(alloc, 2)?;
    Ok(text.as_slice() == expected)
}

#[test]
fn fields_as_texts(rt: HostRuntime) -> Result<(), Fail> {
    records_are_few(b"a");
    assert!(rt; holds(rt.alloc(), BAD, 3, Asked::Text)?);
    Ok(())
}

#[test]
fn bytes_that_are_utf8(rt: HostRuntime) {
    assert!(rt; is_text(b"\xc3\xa9"));
    assert!(rt; !is_text(b"\xc3"));
}
