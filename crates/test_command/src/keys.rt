//! The keys of a table file, and the words that ask for them.
use fill_edge::MemoryCabinet;
use fill_open::{Stop, line_of, open_keys};
use fill_text::{List, NoMemory};
use std::alloc::Global;
use std::test::Fail;

const PLENTY: usize = 100_000;

const PRICES: &[u8] = b"pen,2011,$1\npen,2012,$2\ncup,2011,$5\ncup,2012,$7\n";

/// A record of 33 empty fields.
const WIDE: &[u8] = b",,,,,,,,,,,,,,,,,,,,,,,,,,,,,,,,\n";

/// Whether the lists are these, in this order.
fn are(keys: &[List<u32>], expected: &[&[u32]]) -> bool {
    if keys.len() != expected.len() {
        return false;
    }
    for (key, columns) in keys.iter().zip(expected) {
        if key.as_slice() != *columns {
            return false;
        }
    }
    true
}

/// Puts the file `t.csv` of these bytes into the cabinet, and opens its keys, where the read of this number fails; two read it.
fn opened(
    alloc: Global,
    cabinet: &mut MemoryCabinet,
    bytes: &[u8],
    failing: u64,
) -> Result<List<List<u32>>, Stop> {
    if cabinet.put("t.csv", bytes).is_err() || cabinet.fail_at(failing).is_err() {
        return Err(Stop::NoMemory);
    }
    open_keys(alloc, cabinet, "t.csv")
}

/// Whether this is the line of the stop.
fn is_told(alloc: Global, stop: &Stop, expected: &str) -> Result<bool, NoMemory> {
    let line = line_of(alloc, stop)?;
    Ok(line.as_str() == expected)
}

/// Whether the file has these keys, or has none for the reason that the line says; it is empty where there are keys.
fn comes_to(
    alloc: Global,
    cabinet: &mut MemoryCabinet,
    bytes: &[u8],
    failing: u64,
    keys: &[&[u32]],
    line: &str,
) -> Result<bool, NoMemory> {
    match opened(alloc, cabinet, bytes, failing) {
        Ok(found) => Ok(line.is_empty() && are(found.as_slice(), keys)),
        Err(stop) => is_told(alloc, &stop, line),
    }
}

/// Whether the file has these keys, or none for this reason, in a cabinet that held nothing before.
fn ends(
    alloc: Global,
    bytes: &[u8],
    failing: u64,
    keys: &[&[u32]],
    line: &str,
) -> Result<bool, NoMemory> {
    let mut cabinet = MemoryCabinet::new(alloc, PLENTY);
    comes_to(alloc, &mut cabinet, bytes, failing, keys, line)
}

#[test]
fn keys_of_files(rt: HostRuntime) -> Result<(), Fail> {
    let alloc = rt.alloc();
    assert!(rt; ends(alloc, PRICES, 3, &[&[3], &[1, 2]], "")?);
    assert!(rt; ends(alloc, b"", 3, &[], "")?);
    Ok(())
}

/// Whether a file of these bytes and this many lines behind them has no keys, for the reason that this line says.
fn fills_and_ends(
    alloc: Global,
    bytes: &mut List<u8>,
    times: usize,
    line: &str,
) -> Result<bool, NoMemory> {
    for _ in 0..times {
        bytes.append(b"x\n")?;
    }
    ends(alloc, bytes.as_slice(), 3, &[], line)
}

/// Whether a file that begins empty has no keys, once this many lines are put into it.
fn rows_end(alloc: Global, times: usize, line: &str) -> Result<bool, NoMemory> {
    let mut bytes = List::new(alloc);
    fills_and_ends(alloc, &mut bytes, times, line)
}

#[test]
fn files_without_keys(rt: HostRuntime) -> Result<(), Fail> {
    let alloc = rt.alloc();
    let table: [(&[u8], u64, &str); 3] = [
        (PRICES, 2, "flashfill: t.csv: cannot be read\n"),
        (WIDE, 3, "flashfill: t.csv: more than 32 columns\n"),
        (b"a\n\xff\n", 3, "flashfill: t.csv: record 2 is not UTF-8\n"),
    ];
    for (bytes, failing, line) in table {
        assert!(rt; ends(alloc, bytes, failing, &[], line)?, "{line}");
    }
    assert!(rt; rows_end(alloc, 2_001, "flashfill: t.csv: more than 2000 records\n")?);
    Ok(())
}
