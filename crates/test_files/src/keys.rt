//! Minimal keys of small tables.
use fill_keys::*;
use fill_tables::Tables;
use fill_text::List;
use std::alloc::Global;

/// Prices by item and year.
const PRICES: &[u8] = b"pen,2011,$1\npen,2012,$2\ncup,2011,$5\ncup,2012,$7\n";

/// A record of 32 empty fields.
const WIDE: &[u8] = b",,,,,,,,,,,,,,,,,,,,,,,,,,,,,,,\n";

/// A record of 33 empty fields.
const TOO_WIDE: &[u8] = b",,,,,,,,,,,,,,,,,,,,,,,,,,,,,,,,\n";

/// Whether the lists are these, in this order.
fn are(keys: &[List<u32>], expected: &[&[u32]]) -> bool {
    if keys.len() != expected.len() {
        return false;
    }
    for (key, columns) in keys.iter().zip(expected) {
        if key.as_slice() != *columns {
            return false;
        }
    }
    true
}

/// Whether the first table has exactly these minimal keys.
fn has_keys(alloc: Global, tables: &Tables, expected: &[&[u32]]) -> bool {
    if tables.count() < 1 {
        return false;
    }
    match keys_of(alloc, tables, 1) {
        Ok(keys) => are(keys.as_slice(), expected),
        Err(_) => false,
    }
}

/// Whether the table of a file can be added, and the first table has exactly these minimal keys then.
fn adds_with(alloc: Global, tables: &mut Tables, bytes: &[u8], expected: &[&[u32]]) -> bool {
    tables.add_table("table.csv", bytes).is_ok() && has_keys(alloc, tables, expected)
}

/// Whether the table of a file has exactly these minimal keys.
fn file_has(alloc: Global, bytes: &[u8], expected: &[&[u32]]) -> bool {
    let mut tables = Tables::new(alloc);
    adds_with(alloc, &mut tables, bytes, expected)
}

/// How many minimal keys the first table has, or why they are not listed.
fn count(alloc: Global, tables: &Tables) -> Result<usize, KeysError> {
    if tables.count() < 1 {
        return Ok(0);
    }
    Ok(keys_of(alloc, tables, 1)?.len())
}

/// Adds the table of a file, and counts its minimal keys.
fn added_count(alloc: Global, tables: &mut Tables, bytes: &[u8]) -> Result<usize, KeysError> {
    if tables.add_table("table.csv", bytes).is_err() {
        return Err(KeysError::NoMemory);
    }
    count(alloc, tables)
}

/// How many minimal keys the table of a file has, or why they are not listed.
fn file_count(alloc: Global, bytes: &[u8]) -> Result<usize, KeysError> {
    let mut tables = Tables::new(alloc);
    added_count(alloc, &mut tables, bytes)
}

#[test]
fn keys_of_small_files(rt: HostRuntime) {
    let alloc = rt.alloc();
    assert!(rt; file_has(alloc, PRICES, &[&[3], &[1, 2]]));
    assert!(rt; file_has(alloc, b"a,a,a\na,a,b\na,b,a\nb,a,a\n", &[&[1, 2, 3]]));
    assert!(rt; file_has(alloc, b"a,b\n", &[&[1], &[2]]));
    assert!(rt; file_has(alloc, b"a,b\na,b\n", &[]));
    assert!(rt; file_has(alloc, b"", &[]));
}

#[test]
fn wide_files(rt: HostRuntime) {
    let alloc = rt.alloc();
    assert!(rt; file_count(alloc, WIDE) == Ok(32));
    assert!(rt; file_count(alloc, TOO_WIDE) == Err(KeysError::TooWide { width: 33 }));
}
