//! What is learned from one example, the first row of a small sheet.
ghost use Rattle.std.specs.Prelude.{◌≡◌, ◌≤◌, length};
ghost use Rattle.fill_arena.specs.Contents.{IsGraph};
ghost use Rattle.fill_tree.specs.Grammar.{AreSettings};

use fill_arena::{Arena, GraphId};
use fill_best::best;
use fill_build::{build, build_with};
use fill_edge::{Ledger, Steps};
use fill_print::print_program;
use fill_rank::least;
use fill_sheet::Sheet;
use fill_sources::PlaceMemory;
use fill_tables::Tables;
use fill_text::{List, NoMemory, Text};
use fill_tree::{Constants, Prices, Profile, Program, Settings};
use std::alloc::Global;
use std::marker::Brand;
use std::sync::ledger::Blank;
use std::test::Fail;

/// Some tables.
#[derive(Clone, Copy)]
pub(crate) enum Over {
    Nothing,
    Months,
    /// Prices by item and year.
    Prices,
    /// Three tables, each of which has a key of the next one.
    Chain,
}

/// Some settings: those of the first profile with lookups up to a depth, and of the second one.
#[derive(Clone, Copy)]
pub(crate) enum With {
    NoLookups,
    OneLookup,
    TwoLookups,
    /// And of constants those of separators alone.
    Separators,
    SecondTwoLookups,
    SecondThreeLookups,
}

/// An example: the cells of its row, one of which or two are inputs, and its text.
#[derive(Clone, Copy)]
pub(crate) struct Given<'a> {
    pub(crate) cells: &'a str,
    pub(crate) has_two: bool,
    pub(crate) text: &'a str,
    pub(crate) over: Over,
    pub(crate) with: With,
}

/// What is learned.
#[derive(Clone, Copy)]
pub(crate) enum Learned<'a> {
    Nothing,
    /// The least program.
    Least(&'a str),
    /// So many first programs, a line for each.
    First(u32, &'a str),
}

fn first_profile(depth: u8, constants: Constants) -> Settings
    requires { depth ≤ 2 }
    ensures { AreSettings result }
{
    Settings {
        depth,
        constants,
        profile: Profile::FIRST,
    }
}

fn second_profile(depth: u8) -> Settings
    requires { depth ≤ 3 }
    ensures { AreSettings result }
{
    Settings {
        depth,
        constants: Constants::Any,
        profile: Profile::SECOND,
    }
}

pub(crate) fn settings(with: With) -> Settings
    ensures { AreSettings result }
{
    match with {
        With::NoLookups => first_profile(0, Constants::Any),
        With::OneLookup => first_profile(1, Constants::Any),
        With::TwoLookups => first_profile(2, Constants::Any),
        With::Separators => first_profile(2, Constants::Separators),
        With::SecondTwoLookups => second_profile(2),
        With::SecondThreeLookups => second_profile(3),
    }
}

/// Adds a table with its first column as its key.
fn add_by_first(tables: &mut Tables, name: &str, lines: &[u8]) -> Result<(), Fail> {
    tables.add_table(name, lines)?;
    tables.add_key(name, &[1])?;
    Ok(())
}

const MONTHS: &[u8] =
    b"01,January\n02,February\n03,March\n04,April\n05,May\n06,June\n07,July\n08,August\n09,September\n10,October\n11,November\n12,December\n";

const PRICES: &[u8] = b"pen,2011,$1\npen,2012,$2\ncup,2011,$5\ncup,2012,$7\n";

fn add(tables: &mut Tables, over: Over) -> Result<(), Fail> {
    match over {
        Over::Nothing => Ok(()),
        Over::Months => add_by_first(tables, "months", MONTHS),
        Over::Prices => {
            tables.add_table("prices", PRICES)?;
            tables.add_key("prices", &[1, 2])?;
            Ok(())
        }
        Over::Chain => {
            add_by_first(tables, "a", b"p,q")?;
            add_by_first(tables, "b", b"q,r")?;
            add_by_first(tables, "c", b"r,Monday")
        }
    }
}

/// Puts the programs down in their notation, a line for each.
fn put_lines(alloc: Global, lines: &mut List<u8>, programs: &[Program]) -> Result<(), NoMemory> {
    for program in programs {
        let line = print_program(alloc, program)?;
        lines.append(line.as_slice())?;
        lines.push(b'\n')?;
    }
    Ok(())
}

fn are_lines(alloc: Global, programs: &[Program], expected: &str) -> Result<bool, Fail> {
    let mut lines = List::new(alloc);
    put_lines(alloc, &mut lines, programs)?;
    Ok(lines.as_slice() == expected.as_bytes())
}

fn are_first(
    alloc: Global,
    arena: &Arena,
    graph: GraphId,
    k: u32,
    expected: &str,
) -> Result<bool, Fail>
    requires { IsGraph arena.now graph }
{
    if k == 0 || k > 20 {
        return Ok(false);
    }
    let programs = best(alloc, &Prices::FIRST, arena, graph, k)?;
    are_lines(alloc, programs.as_slice(), expected)
}

/// Whether this is the least program of the graph, by the prices of the first profile.
pub(crate) fn is_least(
    alloc: Global,
    arena: &Arena,
    graph: GraphId,
    expected: &str,
) -> Result<bool, Fail>
    requires { IsGraph arena.now graph }
{
    let program = least(alloc, &Prices::FIRST, arena, graph)?;
    let spelled = print_program(alloc, &program)?;
    Ok(spelled.as_slice() == expected.as_bytes())
}

fn has(alloc: Global, arena: &Arena, graph: GraphId, learned: Learned) -> Result<bool, Fail>
    requires { IsGraph arena.now graph }
{
    match learned {
        Learned::Nothing => Ok(false),
        Learned::Least(expected) => is_least(alloc, arena, graph, expected),
        Learned::First(k, expected) => are_first(alloc, arena, graph, k, expected),
    }
}

/// What examples are learned over.
#[derive(Clone, Copy)]
struct On<'a> {
    sheet: &'a Sheet,
    tables: &'a Tables,
    text: &'a Text,
}

/// Whether this graph, or none, is built again, and once more with the sets of places that were found meanwhile.
fn builds_again<L: Ledger>(
    alloc: Global,
    arena: &mut Arena,
    steps: &mut Steps<L>,
    on: On,
    settings: &Settings,
    made: Option<GraphId>,
) -> Result<bool, NoMemory>
    requires row { 1 ≤ length on.sheet.now.rows }
    requires short { length on.text.now ≤ 100 }
    requires settings { AreSettings settings.now }
{
    let mut memory = PlaceMemory::new(alloc);
    let places = &mut memory;
    let first = build_with(
        alloc, places, arena, 1, on.text, on.sheet, on.tables, settings, steps,
    )?;
    let second = build_with(
        alloc, places, arena, 1, on.text, on.sheet, on.tables, settings, steps,
    )?;
    Ok(first == made && second == made)
}

/// Builds the graph in the arena, also with sets of places that were found before.
fn learns_in<L: Ledger>(
    alloc: Global,
    arena: &mut Arena,
    steps: &mut Steps<L>,
    on: On,
    settings: &Settings,
    learned: Learned,
) -> Result<bool, Fail>
    requires row { 1 ≤ length on.sheet.now.rows }
    requires short { length on.text.now ≤ 100 }
    requires settings { AreSettings settings.now }
{
    let made = build(
        alloc, arena, 1, on.text, on.sheet, on.tables, settings, steps,
    )?;
    if !builds_again(alloc, arena, steps, on, settings, made)? {
        return Ok(false);
    }
    match build(
        alloc, arena, 1, on.text, on.sheet, on.tables, settings, steps,
    )? {
        Some(graph) => has(alloc, arena, graph, learned),
        None => Ok(matches!(learned, Learned::Nothing)),
    }
}

/// Makes the arena.
fn learn<L: Ledger>(
    alloc: Global,
    blank: Blank,
    on: On,
    settings: &Settings,
    learned: Learned,
) -> Result<bool, Fail>
    requires name { blank.name ≡ L.name }
    requires parts { blank.parts ≡ L.parts }
    requires one { blank.parts ≡ 1 }
    requires row { 1 ≤ length on.sheet.now.rows }
    requires short { length on.text.now ≤ 100 }
    requires settings { AreSettings settings.now }
{
    let (book, share) = blank.open::<L>();
    let mut steps: Steps<L> = Steps::new(book, share);
    let mut arena = Arena::new(alloc);
    learns_in(alloc, &mut arena, &mut steps, on, settings, learned)
}

/// Makes the text.
fn learns_from(
    alloc: Global,
    sheet: &Sheet,
    tables: &Tables,
    given: Given,
    learned: Learned,
) -> Result<bool, Fail> {
    let text = Text::from_utf8(alloc, given.text.as_bytes())?;
    if sheet.rows() == 0 || text.len() > 100 {
        return Ok(false);
    }
    let on = On {
        sheet,
        tables,
        text: &text,
    };
    learn::<Brand>(alloc, Blank::new(1), on, &settings(given.with), learned)
}

/// Makes the tables.
fn learns_over(alloc: Global, sheet: &Sheet, given: Given, learned: Learned) -> Result<bool, Fail> {
    let mut tables = Tables::new(alloc);
    add(&mut tables, given.over)?;
    learns_from(alloc, sheet, &tables, given, learned)
}

fn sheet(alloc: Global, given: Given) -> Result<Sheet, Fail> {
    let cells = given.cells.as_bytes();
    Ok(if given.has_two {
        Sheet::read(alloc, cells, false, &[1, 2], None)?
    } else {
        Sheet::read(alloc, cells, false, &[1], None)?
    })
}

/// Whether this is learned.
pub(crate) fn learns(alloc: Global, given: Given, learned: Learned) -> Result<bool, Fail> {
    let sheet = sheet(alloc, given)?;
    learns_over(alloc, &sheet, given, learned)
}
