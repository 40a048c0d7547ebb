use fill_tables::*;
use fill_text::{List, NoMemory, Text};
use std::alloc::Global;
use std::test::Fail;

/// Whether a text has these characters.
fn is(text: &Text, expected: &str) -> bool {
    let mut i = 0;
    for c in expected.chars() {
        if i >= text.len() || text.at(i) != c {
            return false;
        }
        i += 1;
    }
    i == text.len()
}

/// Whether the first table has a row of these cells.
fn has_row(tables: &Tables, row: u32, expected: &[&str]) -> bool {
    if tables.count() < 1 || row < 1 || row > tables.rows(1) {
        return false;
    }
    if tables.width(1) as usize != expected.len() || expected.len() > 1000 {
        return false;
    }
    for (i, text) in expected.iter().enumerate() {
        let column = i as u32 + 1;
        if column > tables.width(1) || !is(tables.cell(1, row, column), text) {
            return false;
        }
    }
    true
}

/// The text of these characters.
fn text_of(alloc: Global, characters: &str) -> Result<Text, NoMemory> {
    match Text::from_utf8(alloc, characters.as_bytes()) {
        Ok(text) => Ok(text),
        Err(_) => Err(NoMemory),
    }
}

/// The texts, lent as slices.
fn slices<'a>(alloc: Global, texts: &'a [Text]) -> Result<Vec<&'a [char]>, NoMemory> {
    let mut lent: Vec<&[char]> = Vec::new(alloc);
    for text in texts {
        lent.push(text.as_slice())?;
    }
    Ok(lent)
}

/// Whether a key of the first table finds this row, by cells that it is given and by the same ones lent as slices.
fn finds_by(
    tables: &Tables,
    key: u32,
    cells: &List<Text>,
    lent: &[&[char]],
    row: Option<u32>,
) -> bool {
    if tables.count() < 1 || key < 1 || key > tables.keys(1) {
        return false;
    }
    tables.find(1, key, cells) == row && tables.find_slices(1, key, lent) == row
}

/// Whether a key of the first table finds this row, by cells that are lent here.
fn finds_lent(
    alloc: Global,
    tables: &Tables,
    key: u32,
    cells: &List<Text>,
    row: Option<u32>,
) -> Result<bool, NoMemory> {
    let lent = slices(alloc, cells.as_slice())?;
    Ok(finds_by(tables, key, cells, &lent, row))
}

/// Puts these texts behind those of the list, and tells whether a key finds this row by all of them.
fn finds_among(
    alloc: Global,
    tables: &Tables,
    key: u32,
    list: &mut List<Text>,
    cells: &[&str],
    row: Option<u32>,
) -> Result<bool, NoMemory> {
    for cell in cells {
        list.push(text_of(alloc, cell)?)?;
    }
    finds_lent(alloc, tables, key, list, row)
}

/// Whether a key of the first table finds this row by these cells.
fn finds(
    alloc: Global,
    tables: &Tables,
    key: u32,
    cells: &[&str],
    row: Option<u32>,
) -> Result<bool, NoMemory> {
    let mut list = List::new(alloc);
    finds_among(alloc, tables, key, &mut list, cells, row)
}

/// Whether a key of the first table has these columns.
fn has_key(tables: &Tables, key: u32, expected: &[u32]) -> bool {
    if tables.count() < 1 || key < 1 || key > tables.keys(1) {
        return false;
    }
    tables.key(1, key) == expected
}

/// Prices by item and month.
const PRICES: &[u8] =
    b"\xef\xbb\xbfItem,Date,\"Price, in $\"\r\nStroller,10/2010,145.67\r\nStroller,11/2010\r\n\"Bib\n\"\"x\"\"\",10/2010,3.56";

/// Rows with three kinds of line ends.
const LINES: &[u8] = b"a,b,c\rd,b,c\na,b,e\r\na,f,c";

/// What is to be done with tables, from none on.
#[derive(Clone, Copy)]
enum Task<'a> {
    /// To have this many rows and columns of a file.
    Size(&'a [u8], u32, u32),
    /// To have this row of these cells of a file.
    Row(&'a [u8], u32, &'a [&'a str]),
    /// To find this row of the prices, or none, by the key of this number for the cells.
    Find(u32, &'a [&'a str], Option<u32>),
    /// To find this row of the prices, or none, by a key of all columns.
    FindWhole(&'a [&'a str], Option<u32>),
    /// To refuse keys that are none.
    RefuseKeys,
    /// To tell the first rows that agree in a key.
    FirstRows,
    /// To have no more tables than they can, each under a name of its own.
    Names,
    /// To have no more keys than they can.
    FiveKeys,
    /// To have no more records than they can.
    Records,
    /// To read a thousand fields of a record.
    Fields,
    /// To tell the first field that is no UTF-8.
    BadField,
}

/// Whether it is done with the tables.
fn are_done(alloc: Global, tables: &mut Tables, task: Task) -> Result<bool, NoMemory> {
    match task {
        Task::Size(bytes, rows, width) => Ok(adds_size(tables, bytes, rows, width)),
        Task::Row(bytes, row, cells) => Ok(adds_row(tables, bytes, row, cells)),
        Task::Find(key, cells, row) => finds_price(alloc, tables, key, cells, row),
        Task::FindWhole(cells, row) => finds_whole(alloc, tables, cells, row),
        Task::RefuseKeys => Ok(refuses_keys(tables)),
        Task::FirstRows => Ok(tells_first_rows(tables)),
        Task::Names => Ok(has_names(tables)),
        Task::FiveKeys => Ok(has_four_keys(tables)),
        Task::Records => has_few_records(alloc, tables),
        Task::Fields => has_few_fields(alloc, tables),
        Task::BadField => Ok(tells_bad_field(tables)),
    }
}

/// Whether it is done from no table on.
fn done(alloc: Global, task: Task) -> Result<bool, NoMemory> {
    let mut tables = Tables::new(alloc);
    are_done(alloc, &mut tables, task)
}

/// Whether adding a table comes to this.
fn table_comes_to(
    tables: &mut Tables,
    name: &str,
    bytes: &[u8],
    reason: Option<TableError>,
) -> bool {
    tables.add_table(name, bytes).err() == reason
}

/// Whether a key of one column comes to this.
fn key_comes_to(tables: &mut Tables, name: &str, column: u32, reason: Option<TableError>) -> bool {
    if column == 0 {
        return false;
    }
    tables.add_key(name, &[column]).err() == reason
}

/// Whether there is one table, of this many rows and columns.
fn has_size(tables: &Tables, rows: u32, width: u32) -> bool {
    tables.count() == 1 && tables.rows(1) == rows && tables.width(1) == width
}

/// Whether a file is one table of this many rows and columns.
fn adds_size(tables: &mut Tables, bytes: &[u8], rows: u32, width: u32) -> bool {
    table_comes_to(tables, "t", bytes, None) && has_size(tables, rows, width)
}

/// Whether a file is a table with this row of these cells.
fn adds_row(tables: &mut Tables, bytes: &[u8], row: u32, cells: &[&str]) -> bool {
    table_comes_to(tables, "t", bytes, None) && has_row(tables, row, cells)
}

#[test]
fn rows_of_a_table(rt: HostRuntime) -> Result<(), Fail> {
    assert!(rt; done(rt.alloc(), Task::Size(PRICES, 4, 3))?);
    for (row, cells) in [
        (1, ["Item", "Date", "Price, in $"]),
        (2, ["Stroller", "10/2010", "145.67"]),
        (3, ["Stroller", "11/2010", ""]),
        (4, ["Bib\n\"x\"", "10/2010", "3.56"]),
    ] {
        assert!(rt; done(rt.alloc(), Task::Row(PRICES, row, &cells))?, "{row}");
    }
    Ok(())
}

/// Whether the first table has no key, though its first two columns are one.
fn has_no_key(tables: &Tables) -> bool {
    tables.count() == 1
        && tables.keys(1) == 0
        && !tables.is_key(1, &[1])
        && tables.is_key(1, &[1, 2])
}

/// Whether keys of the prices that are none are refused.
fn refuses_keys(tables: &mut Tables) -> bool {
    if !table_comes_to(tables, "prices", PRICES, None) {
        return false;
    }
    for (name, column, reason) in [
        ("prices", 4, TableError::NoSuchColumn { columns: 3 }),
        ("costs", 1, TableError::NoSuchTable),
        ("prices", 1, TableError::NotAKey { row1: 2, row2: 3 }),
        ("prices", 2, TableError::NotAKey { row1: 2, row2: 4 }),
    ] {
        if !key_comes_to(tables, name, column, Some(reason)) {
            return false;
        }
    }
    has_no_key(tables)
}

#[test]
fn keys_that_are_refused(rt: HostRuntime) -> Result<(), Fail> {
    assert!(rt; done(rt.alloc(), Task::RefuseKeys)?);
    Ok(())
}

/// Whether of several rows that agree in a key the first ones are told.
fn tells_first_rows(tables: &mut Tables) -> bool {
    let reason = TableError::NotAKey { row1: 2, row2: 4 };
    table_comes_to(tables, "letters", b"b\na\nc\na\nb\na\n", None)
        && key_comes_to(tables, "letters", 1, Some(reason))
}

#[test]
fn the_first_rows_that_agree(rt: HostRuntime) -> Result<(), Fail> {
    assert!(rt; done(rt.alloc(), Task::FirstRows)?);
    Ok(())
}

/// Whether the prices are added with a key of two columns and one of one.
fn adds_keyed_prices(tables: &mut Tables) -> bool {
    table_comes_to(tables, "prices", PRICES, None)
        && tables.add_key("prices", &[2, 1]).is_ok()
        && tables.add_key("prices", &[3]).is_ok()
        && has_key(tables, 1, &[2, 1])
        && has_key(tables, 2, &[3])
}

/// Whether a key of the prices finds this row.
fn finds_price(
    alloc: Global,
    tables: &mut Tables,
    key: u32,
    cells: &[&str],
    row: Option<u32>,
) -> Result<bool, NoMemory> {
    if !adds_keyed_prices(tables) {
        return Ok(false);
    }
    finds(alloc, tables, key, cells, row)
}

#[test]
fn rows_by_their_keys(rt: HostRuntime) -> Result<(), Fail> {
    for (key, cells, row) in [
        (1, ["11/2010", "Stroller"].as_slice(), Some(3)),
        (1, ["10/2010", "Stroller"].as_slice(), Some(2)),
        (1, ["11/2010", "Bib"].as_slice(), None),
        (1, ["11/2010"].as_slice(), None),
        (1, ["11/2010", "Stroller", "", ""].as_slice(), None),
        (2, ["3.56"].as_slice(), Some(4)),
    ] {
        assert!(rt; done(rt.alloc(), Task::Find(key, cells, row))?);
    }
    Ok(())
}

#[test]
fn each_line_end_ends_a_row(rt: HostRuntime) -> Result<(), Fail> {
    assert!(rt; done(rt.alloc(), Task::Size(LINES, 4, 3))?);
    for (row, cells) in [
        (1, ["a", "b", "c"]),
        (2, ["d", "b", "c"]),
        (3, ["a", "b", "e"]),
        (4, ["a", "f", "c"]),
    ] {
        assert!(rt; done(rt.alloc(), Task::Row(LINES, row, &cells))?, "{row}");
    }
    Ok(())
}

/// Whether a key of all columns finds this row.
fn finds_whole(
    alloc: Global,
    tables: &mut Tables,
    cells: &[&str],
    row: Option<u32>,
) -> Result<bool, NoMemory> {
    if !table_comes_to(tables, "t", LINES, None) || tables.add_key("t", &[3, 1, 2]).is_err() {
        return Ok(false);
    }
    finds(alloc, tables, 1, cells, row)
}

#[test]
fn rows_by_all_their_columns(rt: HostRuntime) -> Result<(), Fail> {
    for (cells, row) in [(["e", "a", "b"], Some(3)), (["e", "d", "b"], None)] {
        assert!(rt; done(rt.alloc(), Task::FindWhole(&cells, row))?);
    }
    Ok(())
}

/// Whether eight tables are added, each under a name of its own.
fn has_names(tables: &mut Tables) -> bool {
    let again = TableError::SameName { first: 2 };
    let ninth = TableError::TooManyTables { limit: 8 };
    for (name, lines, reason) in [
        ("rates", b"1\n".as_slice(), None),
        ("prices", b"", None),
        ("prices", b"\xff", Some(again)),
        ("a", b"1\n1\n", None),
        ("b", b"1\n1\n", None),
        ("c", b"1\n1\n", None),
        ("d", b"1\n1\n", None),
        ("e", b"1\n1\n", None),
        ("f", b"1\n1\n", None),
        ("prices", b"", Some(ninth)),
    ] {
        if !table_comes_to(tables, name, lines, reason) {
            return false;
        }
    }
    tables.count() == 8 && tables.rows(2) == 0 && tables.width(2) == 0
}

#[test]
fn names_of_tables(rt: HostRuntime) -> Result<(), Fail> {
    assert!(rt; done(rt.alloc(), Task::Names)?);
    Ok(())
}

/// Whether a table has four keys, and no fifth one.
fn has_four_keys(tables: &mut Tables) -> bool {
    if !table_comes_to(tables, "rates", b"1\n", None) {
        return false;
    }
    let fifth = TableError::TooManyKeys { limit: 4 };
    for reason in [None, None, None, None, Some(fifth)] {
        if !key_comes_to(tables, "rates", 1, reason) {
            return false;
        }
    }
    true
}

#[test]
fn numbers_of_keys(rt: HostRuntime) -> Result<(), Fail> {
    assert!(rt; done(rt.alloc(), Task::FiveKeys)?);
    Ok(())
}

/// Whether a file of 2000 records is taken, and one more of no UTF-8 is too many.
fn takes_2000_records(tables: &mut Tables, bytes: &mut List<u8>) -> Result<bool, NoMemory> {
    for _ in 0..2000 {
        bytes.append(b"a\n")?;
    }
    if !table_comes_to(tables, "a", bytes.as_slice(), None) {
        return Ok(false);
    }
    bytes.append(b"\xff")?;
    let reason = TableError::TooManyRows { limit: 2000 };
    Ok(table_comes_to(tables, "b", bytes.as_slice(), Some(reason)) && has_size(tables, 2000, 1))
}

/// Whether 2000 records are a table and one more is too many, from an empty list on.
fn has_few_records(alloc: Global, tables: &mut Tables) -> Result<bool, NoMemory> {
    let mut bytes = List::new(alloc);
    takes_2000_records(tables, &mut bytes)
}

#[test]
fn a_table_has_at_most_2000_records(rt: HostRuntime) -> Result<(), Fail> {
    assert!(rt; done(rt.alloc(), Task::Records)?);
    Ok(())
}

/// Whether a record of this many fields and two more, `b` and one that is no UTF-8, comes to this.
fn fields_come_to(
    tables: &mut Tables,
    bytes: &mut List<u8>,
    fields: usize,
    reason: Option<TableError>,
) -> Result<bool, NoMemory> {
    for _ in 0..fields {
        bytes.append(b"a,")?;
    }
    bytes.append(b"b,\xff\n")?;
    Ok(table_comes_to(tables, "t", bytes.as_slice(), reason))
}

/// What a record of this many fields and two more comes to, from an empty list on.
fn record_comes_to(
    alloc: Global,
    tables: &mut Tables,
    fields: usize,
    reason: Option<TableError>,
) -> Result<bool, NoMemory> {
    let mut bytes = List::new(alloc);
    fields_come_to(tables, &mut bytes, fields, reason)
}

/// Whether the first table is one row of a thousand cells, the last of them `b`.
fn has_1000_columns(tables: &Tables) -> bool {
    tables.count() == 1
        && tables.rows(1) == 1
        && tables.width(1) == 1000
        && is(tables.cell(1, 1, 1000), "b")
}

/// Whether the thousandth field of a record is read, and none past it.
fn has_few_fields(alloc: Global, tables: &mut Tables) -> Result<bool, NoMemory> {
    let last = TableError::NotUtf8 {
        number: 1,
        column: 1000,
    };
    for (fields, reason) in [(998, Some(last)), (999, None)] {
        if !record_comes_to(alloc, tables, fields, reason)? {
            return Ok(false);
        }
    }
    Ok(has_1000_columns(tables))
}

#[test]
fn fields_past_the_thousandth(rt: HostRuntime) -> Result<(), Fail> {
    assert!(rt; done(rt.alloc(), Task::Fields)?);
    Ok(())
}

/// Whether of several fields that are no UTF-8 the first one is told.
fn tells_bad_field(tables: &mut Tables) -> bool {
    let reason = TableError::NotUtf8 {
        number: 2,
        column: 3,
    };
    table_comes_to(tables, "c", b"a\nb,c,\xff,\xff\n\xff", Some(reason))
}

#[test]
fn the_first_field_that_is_no_utf8(rt: HostRuntime) -> Result<(), Fail> {
    assert!(rt; done(rt.alloc(), Task::BadField)?);
    Ok(())
}
