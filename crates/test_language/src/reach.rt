//! Rows that are reached from small sheets, worked by hand.
use fill_reach::*;
use fill_sheet::Sheet;
use fill_tables::Tables;
use fill_tree::{Constants, Profile, Settings};
use std::alloc::Global;
use std::test::Fail;

const MONTHS: &[u8] = b"01,January\n02,February\n03,March\n04,April\n05,May\n06,June\n\
07,July\n08,August\n09,September\n10,October\n11,November\n12,December\n";

/// Some tables.
#[derive(Clone, Copy)]
enum Over {
    Months,
    /// And the numbers of months that items have.
    Items,
    /// Two tables with keys of two columns, the second of which has no other.
    Pairs,
    /// Three tables, each of which has a key of the next one.
    Chain,
}

/// Adds a table with its first column as its key.
fn add_by_first(tables: &mut Tables, name: &str, lines: &[u8]) -> Result<(), Fail> {
    tables.add_table(name, lines)?;
    tables.add_key(name, &[1])?;
    Ok(())
}

/// Adds a table with its first two columns as its key.
fn add_by_two(tables: &mut Tables, name: &str, lines: &[u8]) -> Result<(), Fail> {
    tables.add_table(name, lines)?;
    tables.add_key(name, &[1, 2])?;
    Ok(())
}

fn add(tables: &mut Tables, over: Over) -> Result<(), Fail> {
    match over {
        Over::Months => add_by_first(tables, "months", MONTHS),
        Over::Items => {
            add_by_first(tables, "months", MONTHS)?;
            add_by_first(tables, "items", b"pen,03\ncup,12\n")
        }
        Over::Pairs => {
            add_by_two(tables, "pairs", b"a,b,\n,b,c\n,,d\n")?;
            add_by_two(tables, "whole", b"a,b\n")
        }
        Over::Chain => {
            add_by_first(tables, "a", b"p,q\n")?;
            add_by_first(tables, "b", b"q,r\n")?;
            add_by_first(tables, "c", b"r,s\n")
        }
    }
}

/// A row's table, its number and the depth at which it is reached.
type Row = (u32, u32, u8);

/// Whether these rows are reached, each by the first key.
fn are(reached: &[ReachedRow], expected: &[Row]) -> bool {
    if reached.len() != expected.len() {
        return false;
    }
    for i in 0..expected.len() {
        let (table, row, depth) = expected[i];
        let wanted = ReachedRow {
            table,
            key: 1,
            row,
            depth,
        };
        if reached[i] != wanted {
            return false;
        }
    }
    true
}

/// Whether exactly these rows are reached from the sheet's first row.
fn reaches_from(
    alloc: Global,
    sheet: &Sheet,
    depth: u8,
    tables: &Tables,
    expected: &[Row],
) -> Result<bool, Fail> {
    if sheet.rows() == 0 {
        return Ok(false);
    }
    if depth > 3 {
        return Ok(false);
    }
    let settings = Settings {
        depth,
        constants: Constants::Any,
        profile: if depth > 2 {
            Profile::SECOND
        } else {
            Profile::FIRST
        },
    };
    let reached = reach(alloc, 1, sheet, tables, &settings)?;
    Ok(are(reached.rows.as_slice(), expected))
}

/// Adds the tables, and makes the sheet of one cell.
fn reaches_in(
    alloc: Global,
    tables: &mut Tables,
    over: Over,
    (cell, depth): (&str, u8),
    expected: &[Row],
) -> Result<bool, Fail> {
    add(tables, over)?;
    let sheet = Sheet::read(alloc, cell.as_bytes(), false, &[1], None)?;
    reaches_from(alloc, &sheet, depth, tables, expected)
}

/// Whether exactly these rows are reached from a cell, with lookups of this depth.
fn reaches(alloc: Global, over: Over, asked: (&str, u8), expected: &[Row]) -> Result<bool, Fail> {
    let mut tables = Tables::new(alloc);
    reaches_in(alloc, &mut tables, over, asked, expected)
}

#[test]
fn rows_by_what_a_cell_has(rt: HostRuntime) -> Result<(), Fail> {
    let rows: [(Over, (&str, u8), &[Row]); 9] = [
        (
            Over::Months,
            ("2012-03-11", 1),
            &[(1, 1, 1), (1, 3, 1), (1, 11, 1), (1, 12, 1)],
        ),
        (Over::Months, ("2012-03-11", 0), &[]),
        (Over::Months, ("2-3-4", 1), &[]),
        // A month by the number that an item has.
        (Over::Items, ("a pen", 1), &[(2, 1, 1)]),
        (Over::Items, ("a pen", 2), &[(1, 3, 2), (2, 1, 1)]),
        (
            Over::Items,
            ("pen 12", 3),
            &[(1, 3, 2), (1, 12, 1), (2, 1, 1)],
        ),
        // Rows without a free column or a filled key cell are not reached.
        (Over::Pairs, ("xb", 2), &[(1, 1, 1), (1, 2, 1)]),
        (Over::Chain, ("p", 2), &[(1, 1, 1), (2, 1, 2)]),
        (Over::Chain, ("p", 3), &[(1, 1, 1), (2, 1, 2), (3, 1, 3)]),
    ];
    for (over, asked, expected) in rows {
        assert!(rt; reaches(rt.alloc(), over, asked, expected)?, "{asked:?}");
    }
    Ok(())
}
