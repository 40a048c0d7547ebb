//! What the graphs of two examples have in common.
ghost use Rattle.std.specs.Prelude.{◌≡◌, ◌≤◌, length, IfOk, IfSome};
ghost use Rattle.fill_arena.specs.Contents.{IsGraph};

use crate::learn::{With, is_least, settings};
use crate::notation::stands;
use fill_arena::{Arena, GraphId};
use fill_build::build;
use fill_doubt::doubt;
use fill_edge::{Ledger, Steps};
use fill_meet::meet::meet;
use fill_sheet::Sheet;
use fill_tables::Tables;
use fill_text::{NoMemory, Text};
use std::alloc::Global;
use std::marker::Brand;
use std::sync::ledger::Blank;
use std::test::Fail;

/// The cells of two rows.
const CELLS: &[u8] =
    b"\"Ada Lovelace, born 1815 in London\"\n\"Alan Turing, born 1912 in England\"\n";

/// The texts of both rows: their cells from the second capital letter on.
const TEXTS: (&str, &str) = (
    "Lovelace, born 1815 in London",
    "Turing, born 1912 in England",
);

/// Two texts, one for each row.
#[derive(Clone, Copy)]
struct Texts<'a> {
    one: &'a Text,
    other: &'a Text,
}

/// The graph of the programs that explain both texts, or none where there are none.
fn join<L: Ledger>(
    alloc: Global,
    arena: &mut Arena,
    sheet: &Sheet,
    texts: Texts<'_>,
    steps: &mut Steps<L>,
) -> Result<Option<GraphId>, NoMemory>
    requires rows { 2 ≤ length sheet.now.rows }
    requires one { length texts.one.now ≤ 100 }
    requires other { length texts.other.now ≤ 100 }
    ensures { IfOk result (λ made. IfSome made (IsGraph arena.new)) }
{
    let tables = Tables::new(alloc);
    let settings = settings(With::NoLookups);
    let Some(first) = build(alloc, arena, 1, texts.one, sheet, &tables, &settings, steps)? else {
        return Ok(None);
    };
    let Some(second) = build(
        alloc,
        arena,
        2,
        texts.other,
        sheet,
        &tables,
        &settings,
        steps,
    )?
    else {
        return Ok(None);
    };
    meet(alloc, arena, first, second, steps)
}

/// Whether of some programs those stand in the graph that explain both texts, and the others do not.
fn explain_both(alloc: Global, arena: &Arena, g: GraphId) -> Result<bool, Fail>
    requires { IsGraph arena.now g }
{
    for (atoms, expected) in [
        ("Sub(Col(1),Pos([],[Upper],2),CPos(-1))", true),
        ("Sub(Col(1),Pos([],[Upper],-2),CPos(-1))", true),
        (
            "Sub(Col(1),Pos([],[Upper],2),Pos([],[Upper],3)),Sub(Col(1),Pos([],[Upper],3),CPos(-1))",
            true,
        ),
        (
            "Sub(Col(1),Pos([],[Upper],2),Pos([Alpha],[],2)),Const(', born '),Sub(Col(1),Pos([],[Digits],1),CPos(-1))",
            true,
        ),
        // These explain one text alone.
        ("Sub(Col(1),CPos(4),CPos(-1))", false),
        ("Sub(Col(1),CPos(5),CPos(-1))", false),
        ("Const('Lovelace, born 1815 in London')", false),
        // These explain none.
        ("Sub(Col(1),Pos([],[Upper],1),CPos(-1))", false),
        ("Whole(Col(1))", false),
    ] {
        if stands(alloc, arena, g, atoms)? != expected {
            return Ok(false);
        }
    }
    Ok(true)
}

/// What two examples are to have in common.
#[derive(Clone, Copy)]
enum Common {
    /// No program.
    Nothing,
    /// Some programs of two long texts, and others not.
    LongTexts,
    /// This least program.
    Least(&'static str),
    /// Programs with this flag on a row.
    Flag(u32, bool),
}

/// Whether the graph, or none, is what two examples are to have in common.
fn is_common(
    alloc: Global,
    arena: &Arena,
    sheet: &Sheet,
    g: Option<GraphId>,
    common: Common,
) -> Result<bool, Fail>
    requires { IfSome g (IsGraph arena.now) }
{
    let Some(g) = g else {
        return Ok(matches!(common, Common::Nothing));
    };
    match common {
        Common::Nothing => Ok(false),
        Common::LongTexts => explain_both(alloc, arena, g),
        Common::Least(expected) => is_least(alloc, arena, g, expected),
        Common::Flag(row, flag) => is_flagged(alloc, arena, sheet, g, row, flag),
    }
}

/// Whether the programs of the graph have this flag on a row.
fn is_flagged(
    alloc: Global,
    arena: &Arena,
    sheet: &Sheet,
    g: GraphId,
    row: u32,
    flag: bool,
) -> Result<bool, Fail>
    requires { IsGraph arena.now g }
{
    if row == 0 || sheet.rows() < row {
        return Ok(false);
    }
    let tables = Tables::new(alloc);
    Ok(doubt(alloc, arena, g, row, sheet, &tables)? == flag)
}

/// Joins the graphs in an arena of their own.
fn joins<L: Ledger>(
    alloc: Global,
    blank: Blank,
    sheet: &Sheet,
    texts: Texts<'_>,
    common: Common,
) -> Result<bool, Fail>
    requires name { blank.name ≡ L.name }
    requires parts { blank.parts ≡ L.parts }
    requires count { blank.parts ≡ 1 }
    requires rows { 2 ≤ length sheet.now.rows }
    requires one { length texts.one.now ≤ 100 }
    requires other { length texts.other.now ≤ 100 }
{
    let (book, share) = blank.open::<L>();
    let mut steps: Steps<L> = Steps::new(book, share);
    let mut arena = Arena::new(alloc);
    let made = join(alloc, &mut arena, sheet, texts, &mut steps)?;
    is_common(alloc, &arena, sheet, made, common)
}

/// Makes the texts.
fn joins_over(
    alloc: Global,
    sheet: &Sheet,
    texts: (&str, &str),
    common: Common,
) -> Result<bool, Fail> {
    let one = Text::from_utf8(alloc, texts.0.as_bytes())?;
    let other = Text::from_utf8(alloc, texts.1.as_bytes())?;
    if sheet.rows() < 2 || one.len() > 100 || other.len() > 100 {
        return Ok(false);
    }
    let texts = Texts {
        one: &one,
        other: &other,
    };
    joins::<Brand>(alloc, Blank::new(1), sheet, texts, common)
}

#[test]
fn programs_of_two_long_texts(rt: HostRuntime) -> Result<(), Fail> {
    let sheet = Sheet::read(rt.alloc(), CELLS, false, &[1], None)?;
    assert!(rt; joins_over(rt.alloc(), &sheet, TEXTS, Common::LongTexts)?);
    Ok(())
}

#[test]
fn equal_cells_with_two_texts_have_nothing_in_common(rt: HostRuntime) -> Result<(), Fail> {
    let sheet = Sheet::read(rt.alloc(), b"ab\nab\n", false, &[1], None)?;
    assert!(rt; joins_over(rt.alloc(), &sheet, ("a", "b"), Common::Nothing)?);
    Ok(())
}

#[test]
fn the_last_word_of_two_rows(rt: HostRuntime) -> Result<(), Fail> {
    let cells = b"Ab Cd\nEfgh Ijk\nMn Op\nXy\nBc De Fg\n\"\"\n";
    let sheet = Sheet::read(rt.alloc(), cells, false, &[1], None)?;
    for common in [
        Common::Least("Concat(Sub(Col(1),Pos([],[Upper],-1),CPos(-1)))"),
        Common::Flag(3, false),
        Common::Flag(5, true),
    ] {
        assert!(rt; joins_over(rt.alloc(), &sheet, ("Cd", "Ijk"), common)?);
    }
    Ok(())
}
