//! Values of programs on the rows of small sheets, worked by hand. Programs are written in the notation.
use crate::notation::only;
use Asked::{Atoms, Column, Lookup, Row};
use Token::{Digits, Upper};
use fill_eval::*;
use fill_print::{Notation, read_switch};
use fill_sheet::Sheet;
use fill_tables::Tables;
use fill_text::{List, NoMemory, Text};
use fill_tree::{Atom, Guard, Literal, Program, Select, Seq, Source, Switch, Token};
use std::alloc::Global;
use std::test::Fail;

/// Adds a table with its first column as its key.
fn add_by_first(tables: &mut Tables, name: &str, lines: &str) -> Result<(), Fail> {
    tables.add_table(name, lines.as_bytes())?;
    tables.add_key(name, &[1])?;
    Ok(())
}

fn add_prices(tables: &mut Tables) -> Result<(), Fail> {
    let lines = "pen,2011,$1\npen,2012,$2\ncup,2011,$5\ncup,2012,$7\n,2012,$9\n";
    tables.add_table("prices", lines.as_bytes())?;
    tables.add_key("prices", &[1, 2])?;
    Ok(())
}

/// Adds three tables: months by number, prices by item and year, and which month an item is of.
fn add_tables(tables: &mut Tables) -> Result<(), Fail> {
    add_by_first(tables, "months", "01,January\n02,February\n03,March\n")?;
    add_prices(tables)?;
    add_by_first(tables, "items", "pen,03\ncup,02\nmug,13\njar,\n")
}

/// Whether a value is there and has these characters, or there is none where `None!` is expected.
fn is(alloc: Global, value: &Option<Text>, expected: &str) -> Result<bool, Fail> {
    match value {
        Some(value) => Ok(value.same(&Text::from_utf8(alloc, expected.as_bytes())?)),
        None => Ok(expected == "None!"),
    }
}

/// A sheet and tables.
#[derive(Clone, Copy)]
struct On<'a> {
    alloc: Global,
    sheet: &'a Sheet,
    tables: &'a Tables,
}

/// Whether the switch gives this text on a row of the sheet.
fn switch_gives(on: On, switch: &Switch, row: u32, expected: &str) -> Result<bool, Fail> {
    if row == 0 || row > on.sheet.rows() || !switch_reads_inputs(switch, on.sheet) {
        return Ok(false);
    }
    let value = switch_value(on.alloc, switch, row, on.sheet, on.tables)?;
    is(on.alloc, &value, expected)
}

/// Whether its last program gives this text on the first row.
fn last_gives(on: On, switch: &Switch, expected: &str) -> Result<bool, Fail> {
    if on.sheet.rows() == 0 {
        return Ok(false);
    }
    let value = program_value(on.alloc, &switch.last, 1, on.sheet, on.tables)?;
    is(on.alloc, &value, expected)
}

/// Whether it does, and its copy as a whole switch.
fn both_give(on: On, switch: &Switch, expected: &str) -> Result<bool, Fail> {
    if !last_gives(on, switch, expected)? {
        return Ok(false);
    }
    let copied = switch.copy(on.alloc)?;
    switch_gives(on, &copied, 1, expected)
}

/// Whether the program of these atoms gives this text on the first row, alone and as a copy of a switch without cases.
fn atoms_give(on: On, atoms: &str, expected: &str) -> Result<bool, Fail> {
    let switch = only(on.alloc, atoms)?;
    both_give(on, &switch, expected)
}

/// The switch of the rows that are asked for.
const SWITCH: &[u8] =
    b"Switch(!Match(1,[Upper],1)=>Concat(Whole(Col(1)));else=>Concat(Const('k')))";

/// Whether it gives this text on this row.
fn row_gives(on: On, row: u32, expected: &str) -> Result<bool, Fail> {
    let switch = read_switch(on.alloc, SWITCH, Notation::All)?;
    switch_gives(on, &switch, row, expected)
}

/// The list of one atom.
fn one(alloc: Global, atom: Atom) -> Result<List<Atom>, NoMemory> {
    let mut atoms = List::new(alloc);
    atoms.push(atom)?;
    Ok(atoms)
}

/// The lookup of what has these numbers of a column, a table and a key, by the first column.
fn looked_up(alloc: Global, (column, table, key): (u32, u32, u32)) -> Result<Program, Fail> {
    let select = Select {
        column,
        table,
        key,
        conditions: one(alloc, Atom::Whole(Source::Col(1)))?,
    };
    let select = Box::new(alloc, select)?;
    Ok(Program {
        atoms: one(alloc, Atom::Whole(Source::Select(select)))?,
    })
}

/// Whether that gives this text on the first row.
fn lookup_gives(on: On, numbers: (u32, u32, u32), expected: &str) -> Result<bool, Fail> {
    if on.sheet.rows() == 0 {
        return Ok(false);
    }
    let program = looked_up(on.alloc, numbers)?;
    let value = program_value(on.alloc, &program, 1, on.sheet, on.tables)?;
    is(on.alloc, &value, expected)
}

/// Whether an atom gives this text on the first row.
fn atom_gives(on: On, atom: &Atom, expected: &str) -> Result<bool, Fail> {
    if on.sheet.rows() == 0 {
        return Ok(false);
    }
    let value = atom_value(on.alloc, atom, 1, on.sheet, on.tables)?;
    is(on.alloc, &value, expected)
}

/// Whether a column has this value as a source and as an atom.
fn column_is(on: On, column: u32, expected: &str) -> Result<bool, Fail> {
    if on.sheet.rows() == 0 {
        return Ok(false);
    }
    let value = source_value(on.alloc, &Source::Col(column), 1, on.sheet, on.tables)?;
    if !is(on.alloc, &value, expected)? {
        return Ok(false);
    }
    atom_gives(on, &Atom::Whole(Source::Col(column)), expected)
}

/// What is asked for its value.
#[derive(Clone, Copy)]
enum Asked<'a> {
    /// The program of these atoms, on the first row.
    Atoms(&'a str),
    /// The lookup of these numbers, on the first row.
    Lookup(u32, u32, u32),
    /// This column, on the first row.
    Column(u32),
    /// The switch, on this row.
    Row(u32),
}

fn gives_on(on: On, asked: Asked, expected: &str) -> Result<bool, Fail> {
    match asked {
        Asked::Atoms(atoms) => atoms_give(on, atoms, expected),
        Asked::Lookup(column, table, key) => lookup_gives(on, (column, table, key), expected),
        Asked::Column(column) => column_is(on, column, expected),
        Asked::Row(row) => row_gives(on, row, expected),
    }
}

/// Adds the tables.
fn gives_with(
    alloc: Global,
    sheet: &Sheet,
    tables: &mut Tables,
    asked: Asked,
    expected: &str,
) -> Result<bool, Fail> {
    add_tables(tables)?;
    let on = On {
        alloc,
        sheet,
        tables,
    };
    gives_on(on, asked, expected)
}

fn gives_in(alloc: Global, sheet: &Sheet, asked: Asked, expected: &str) -> Result<bool, Fail> {
    let mut tables = Tables::new(alloc);
    gives_with(alloc, sheet, &mut tables, asked, expected)
}

/// Whether this text is given on a sheet of these cells in one column.
fn gives(alloc: Global, cells: &str, asked: Asked, expected: &str) -> Result<bool, Fail> {
    let sheet = Sheet::read(alloc, cells.as_bytes(), false, &[1], None)?;
    gives_in(alloc, &sheet, asked, expected)
}

#[test]
fn values_without_tables(rt: HostRuntime) -> Result<(), Fail> {
    for (cell, atoms, expected) in [
        ("abc", "Whole(Col(1))", "abc"),
        ("abc", "Sub(Col(1),CPos(1),CPos(1))", "None!"),
        ("abc", "Sub(Col(1),CPos(2),CPos(1))", "None!"),
        ("abc", "Sub(Col(1),CPos(1),CPos(4))", "None!"),
        ("abc", "Sub(Col(1),CPos(1),CPos(-1))", "bc"),
        ("abc", "Whole(Col(2))", "None!"),
        ("\"\"", "Whole(Col(1))", "None!"),
        ("abc", "", ""),
        ("abc", "Sub(Col(1),CPos(0),CPos(2)),Const('-é')", "ab-é"),
        (
            "abc",
            "Sub(Col(1),CPos(0),CPos(2)),Sub(Col(1),CPos(3),CPos(3))",
            "None!",
        ),
    ] {
        assert!(rt; gives(rt.alloc(), cell, Atoms(atoms), expected)?, "{atoms}");
    }
    Ok(())
}

#[test]
fn values_by_tables(rt: HostRuntime) -> Result<(), Fail> {
    let month = "Whole(Select(2,1,1,Sub(Col(1),Pos([Hyphen],[],1),Pos([],[Hyphen],-1))))";
    let month_of_item = "Whole(Select(2,1,1,Whole(Select(2,3,1,Whole(Col(1))))))";
    let price = "Whole(Select(3,2,1,Whole(Col(1)),Const('2012')))";
    for (cell, atoms, expected) in [
        ("2012-03-11", month, "March"),
        ("1999-07-30", month, "None!"),
        ("pen", price, "$2"),
        ("cup", price, "$7"),
        (
            "cup",
            "Whole(Select(3,2,1,Whole(Col(1)),Const('2013')))",
            "None!",
        ),
        ("pen", month_of_item, "March"),
        ("mug", month_of_item, "None!"),
        ("jar", month_of_item, "None!"),
    ] {
        assert!(rt; gives(rt.alloc(), cell, Atoms(atoms), expected)?, "{atoms}");
    }
    Ok(())
}

#[test]
fn numbers_that_do_not_belong_to_the_tables(rt: HostRuntime) -> Result<(), Fail> {
    for (column, table, key, expected) in [
        (2, 1, 1, "January"),
        (1, 1, 1, "01"),
        (0, 1, 1, "None!"),
        (3, 1, 1, "None!"),
        (2, 0, 1, "None!"),
        (2, 4, 1, "None!"),
        (2, 1, 0, "None!"),
        (2, 1, 2, "None!"),
        (3, 2, 1, "None!"),
    ] {
        let asked = Lookup(column, table, key);
        assert!(rt; gives(rt.alloc(), "01\n", asked, expected)?, "{expected}");
    }
    Ok(())
}

#[test]
fn values_of_parts(rt: HostRuntime) -> Result<(), Fail> {
    for (column, expected) in [(1, "abc"), (2, "None!")] {
        assert!(rt;
            gives(rt.alloc(), "abc\n", Column(column), expected)?,
            "{expected}"
        );
    }
    Ok(())
}

#[test]
fn values_of_a_switch(rt: HostRuntime) -> Result<(), Fail> {
    for (row, expected) in [(1, "k"), (2, "12"), (3, "k")] {
        assert!(rt;
            gives(rt.alloc(), "k\n12\nA-\n", Row(row), expected)?,
            "{row}"
        );
    }
    Ok(())
}

/// Whether the switch reads inputs alone.
fn reads_inputs(alloc: Global, sheet: &Sheet) -> Result<bool, Fail> {
    let switch = read_switch(alloc, SWITCH, Notation::All)?;
    Ok(switch_reads_inputs(&switch, sheet))
}

#[test]
fn columns_that_a_switch_reads(rt: HostRuntime) -> Result<(), Fail> {
    let sheet = Sheet::read(rt.alloc(), b"k,k\n", false, &[1], None)?;
    assert_eq!(rt; reads_inputs(rt.alloc(), &sheet)?, true);
    Ok(())
}

#[test]
fn other_columns_that_a_switch_reads(rt: HostRuntime) -> Result<(), Fail> {
    let sheet = Sheet::read(rt.alloc(), b"k,k\n", false, &[2], None)?;
    assert_eq!(rt; reads_inputs(rt.alloc(), &sheet)?, false);
    Ok(())
}

fn literal(negated: bool, token: Token, least: u8) -> Literal {
    Literal {
        negated,
        column: 1,
        seq: Seq::one(token),
        least,
    }
}

/// Whether the guard of the literal alone, and that of the literal twice, hold on the first row.
fn holds(sheet: &Sheet, negated: bool, token: Token, least: u8) -> (bool, bool) {
    let alone = Guard {
        first: literal(negated, token, least),
        second: None,
    };
    let twice = Guard {
        first: literal(negated, token, least),
        second: Some(literal(negated, token, least)),
    };
    let asked = sheet.rows() == 1
        && guard_reads_inputs(&alone, sheet)
        && guard_reads_inputs(&twice, sheet);
    if asked {
        (guard_holds(&alone, 1, sheet), guard_holds(&twice, 1, sheet))
    } else {
        (negated, !negated)
    }
}

/// Whether this many matches are there, or where not expected are not, and the other way round where negated.
fn counts(sheet: &Sheet, token: Token, least: u8, expected: bool) -> bool {
    holds(sheet, false, token, least) == (expected, expected)
        && holds(sheet, true, token, least) == (!expected, !expected)
}

#[test]
fn literals_count_matches(rt: HostRuntime) -> Result<(), Fail> {
    let sheet = Sheet::read(rt.alloc(), b"a1b22\n", false, &[1], None)?;
    for (token, least, expected) in [
        (Digits, 1, true),
        (Digits, 2, true),
        (Digits, 3, false),
        (Upper, 1, false),
        (Token::Start, 1, true),
        (Token::Start, 2, false),
    ] {
        assert!(rt; counts(&sheet, token, least, expected), "{least}");
    }
    Ok(())
}
