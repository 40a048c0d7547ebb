//! The least objectors of small graphs.
ghost use Rattle.std.specs.Prelude.{◌≡◌, ◌≤◌, length};
ghost use Rattle.fill_tree.specs.Grammar.{AreSettings};

use fill_arena::Arena;
use fill_build::build;
use fill_edge::{Ledger, Steps};
use fill_meet::meet::meet;
use fill_object::{Objection, object};
use fill_print::print_program;
use fill_sheet::Sheet;
use fill_tables::Tables;
use fill_text::{List, NoMemory, Text};
use fill_tree::{Constants, Profile, Settings};
use std::alloc::Global;
use std::marker::Brand;
use std::sync::ledger::Blank;
use std::test::Fail;

/// The program in its notation and its answer, or that there is none.
fn printed(alloc: Global, found: &Option<Objection>) -> Result<List<u8>, NoMemory> {
    let mut line = List::new(alloc);
    let Some(objection) = found else {
        line.append(b"agreed")?;
        return Ok(line);
    };
    let program = print_program(alloc, &objection.program)?;
    line.append(program.as_slice())?;
    match &objection.text {
        Some(text) => {
            line.push(b' ')?;
            text.push_utf8(&mut line)?;
        }
        None => line.append(b" none")?,
    }
    Ok(line)
}

/// What objects on a row to a text, of the programs that explain the texts of the first two rows.
fn objects_in<L: Ledger>(
    alloc: Global,
    arena: &mut Arena,
    steps: &mut Steps<L>,
    tables: &Tables,
    sheet: &Sheet,
    settings: &Settings,
    first: &Text,
    second: &Text,
    row: u32,
    said: Option<&Text>,
) -> Result<List<u8>, NoMemory>
    requires rows { 2 ≤ length sheet.now.rows }
    requires above { 1 ≤ row }
    requires below { row ≤ length sheet.now.rows }
    requires first { length first.now ≤ 100 }
    requires second { length second.now ≤ 100 }
    requires settings { AreSettings settings.now }
{
    let one = build(alloc, arena, 1, first, sheet, tables, settings, steps)?;
    let other = build(alloc, arena, 2, second, sheet, tables, settings, steps)?;
    let (Some(one), Some(other)) = (one, other) else {
        return Ok(List::new(alloc));
    };
    let Some(graph) = meet(alloc, arena, one, other, steps)? else {
        return Ok(List::new(alloc));
    };
    let found = object(
        alloc,
        &settings.profile.prices,
        arena,
        graph,
        row,
        said,
        sheet,
        tables,
    )?;
    printed(alloc, &found)
}

/// What objects on a row to a text, over a fresh sheet and arena.
fn objects<L: Ledger>(
    alloc: Global,
    blank: Blank,
    sheet: &Sheet,
    settings: &Settings,
    first: &Text,
    second: &Text,
    row: u32,
    said: Option<&Text>,
) -> Result<List<u8>, NoMemory>
    requires name { blank.name ≡ L.name }
    requires parts { blank.parts ≡ L.parts }
    requires one { blank.parts ≡ 1 }
    requires rows { 2 ≤ length sheet.now.rows }
    requires above { 1 ≤ row }
    requires below { row ≤ length sheet.now.rows }
    requires first { length first.now ≤ 100 }
    requires second { length second.now ≤ 100 }
    requires settings { AreSettings settings.now }
{
    let (book, share) = blank.open::<L>();
    let mut steps: Steps<L> = Steps::new(book, share);
    let mut arena = Arena::new(alloc);
    let tables = Tables::new(alloc);
    objects_in(
        alloc, &mut arena, &mut steps, &tables, sheet, settings, first, second, row, said,
    )
}

/// A row with what is said of it, and what comes of it.
#[derive(Clone, Copy)]
struct Case<'a> {
    row: u32,
    said: &'a str,
    line: &'a str,
}

const CASES: [Case<'static>; 5] = [
    Case {
        row: 3,
        said: "Op",
        line: "agreed",
    },
    Case {
        row: 4,
        said: "Xy",
        line: "Concat(Sub(Col(1),Pos([Space],[],1),CPos(-1))) none",
    },
    Case {
        row: 5,
        said: "Fg",
        line: "Concat(Sub(Col(1),Pos([Space],[],1),CPos(-1))) De Fg",
    },
    Case {
        row: 5,
        said: "De Fg",
        line: "Concat(Sub(Col(1),Pos([],[Upper],-1),CPos(-1))) Fg",
    },
    Case {
        row: 4,
        said: "",
        line: "Concat(Sub(Col(1),Pos([],[Upper],-1),CPos(-1))) Xy",
    },
];

/// The sheet, of which the first two rows are examples.
fn read(alloc: Global) -> Result<Sheet, Fail> {
    let rows = "Ab Cd\nEfgh Ijk\nMn Op\nXy\nBc De Fg\n\"\"\n";
    Ok(Sheet::read(alloc, rows.as_bytes(), false, &[1], None)?)
}

/// Whether the line comes of the row; where the text is empty, no text is said.
fn is_answered(alloc: Global, sheet: &Sheet, case: &Case<'_>) -> Result<bool, Fail> {
    let settings = Settings {
        depth: 2,
        constants: Constants::Any,
        profile: Profile::FIRST,
    };
    let first = Text::from_utf8(alloc, b"Cd")?;
    let second = Text::from_utf8(alloc, b"Ijk")?;
    let text = Text::from_utf8(alloc, case.said.as_bytes())?;
    if sheet.rows() < 2 || case.row == 0 || case.row > sheet.rows() {
        return Ok(false);
    }
    if first.len() > 100 || second.len() > 100 {
        return Ok(false);
    }
    let said = if text.len() == 0 { None } else { Some(&text) };
    let found = objects::<Brand>(
        alloc,
        Blank::new(1),
        sheet,
        &settings,
        &first,
        &second,
        case.row,
        said,
    )?;
    Ok(found.as_slice() == case.line.as_bytes())
}

/// How many of the cases come out otherwise.
fn wrong(alloc: Global, sheet: &Sheet) -> Result<u32, Fail> {
    let mut count: u32 = 0;
    for case in &CASES {
        if !is_answered(alloc, sheet, case)? {
            count = count.saturating_add(1);
        }
    }
    Ok(count)
}

#[test]
fn least_objectors(rt: HostRuntime) -> Result<(), Fail> {
    let sheet = read(rt.alloc())?;
    assert_eq!(rt; wrong(rt.alloc(), &sheet)?, 0);
    Ok(())
}
