//! What small sets and graphs, made by hand, answer on the first row of small sheets.
ghost use Rattle.std.specs.Prelude.{◌≡◌, ◌≤◌, List as Items, [], ◌∷◌, length, slice_get, None, Some, IfOk};
ghost use Rattle.fill_arena.specs.Contents.{Extends, IsAtomSet, IsGraph, IsPlaceSet, IsSourceSet};
ghost use Rattle.fill_arena.specs.WellMade.{IsAtomItem};
ghost use Rattle.fill_arena.specs.declared.entry.Entry.{Entry as Kept};

use fill_arena::{
    Arena, AtomItem, AtomSet, ConditionItem, Edge, GraphId, PlaceSet, SelectItem, SourceItem,
    SourceSet,
};
use fill_doubt::*;
use fill_edge::{Ledger, Steps};
use fill_sheet::Sheet;
use fill_tables::Tables;
use fill_text::{List, NoMemory, Text};
use fill_tokens::Place;
use std::alloc::Global;
use std::marker::Brand;
use std::sync::ledger::Blank;
use std::test::Fail;

/// Atoms of a set.
#[derive(Clone, Copy)]
enum Listed {
    Constant(&'static str),
    Whole,
    /// The piece of column 1 from the start to place 2.
    Piece,
    /// The month whose number is column 1.
    Month,
}

/// The sets that atoms name: column 1, the months by the whole of it, the start, and place 2.
#[derive(Clone, Copy)]
struct Sets {
    column: SourceSet,
    months: SourceSet,
    start: PlaceSet,
    stop: PlaceSet,
}

fn sources(alloc: Global) -> Result<List<SourceItem>, NoMemory>
    ensures { IfOk result (λ made. made ≡ SourceItem.Col 1 ∷ []) }
{
    let mut items = List::new(alloc);
    items.push(SourceItem::Col(1))?;
    Ok(items)
}

/// The whole of the column.
fn wholes(alloc: Global, column: SourceSet) -> Result<List<AtomItem>, NoMemory>
    ensures { IfOk result (λ made. made ≡ AtomItem.Whole column ∷ []) }
{
    let mut items = List::new(alloc);
    items.push(AtomItem::Whole(column))?;
    Ok(items)
}

/// The condition that is one of the atoms.
fn condition(alloc: Global, atoms: AtomSet) -> Result<List<ConditionItem>, NoMemory>
    ensures { IfOk result (λ made. made ≡ (record { constant = None; atoms = Some atoms }) ∷ []) }
{
    let mut conditions = List::new(alloc);
    conditions.push(ConditionItem {
        constant: None,
        atoms: Some(atoms),
    })?;
    Ok(conditions)
}

/// The months by this condition.
fn lookups(alloc: Global, conditions: List<ConditionItem>) -> Result<List<SourceItem>, NoMemory>
    ensures { IfOk result (λ made. made ≡ SourceItem.Select (record { column = 2; table = 1; key = 1; conditions = conditions }) ∷ []) }
{
    let mut items = List::new(alloc);
    items.push(SourceItem::Select(SelectItem {
        column: 2,
        table: 1,
        key: 1,
        conditions,
    }))?;
    Ok(items)
}

/// The months by the whole of column 1.
fn months(alloc: Global, arena: &mut Arena, column: SourceSet) -> Result<SourceSet, NoMemory>
    requires { slice_get arena.old column ≡ Some (Kept.Sources (SourceItem.Col 1 ∷ [])) }
    ensures months { IfOk result (IsSourceSet arena.new) }
    ensures extends { Extends arena.old arena.new }
{
    let whole = arena.intern_atoms(wholes(alloc, column)?)?;
    let conditions = condition(alloc, whole)?;
    arena.intern_sources(lookups(alloc, conditions)?)
}

fn named(alloc: Global, arena: &mut Arena) -> Result<Sets, NoMemory>
    ensures { IfOk result (λ sets. IsSourceSet arena.new sets.column × IsSourceSet arena.new sets.months × IsPlaceSet arena.new sets.start × IsPlaceSet arena.new sets.stop) }
{
    let start = arena.intern_places(&[Place::CPos(0)])?;
    let stop = arena.intern_places(&[Place::CPos(2)])?;
    let column = arena.intern_sources(sources(alloc)?)?;
    let months = months(alloc, arena, column)?;
    Ok(Sets {
        column,
        months,
        start,
        stop,
    })
}

/// The text, or an empty one where it is too long for a constant.
fn constant(alloc: Global, characters: &str) -> Result<Text, NoMemory>
    ensures { IfOk result (λ made. length made ≤ 100) }
{
    let Ok(made) = Text::from_utf8(alloc, characters.as_bytes()) else {
        return Err(NoMemory);
    };
    if made.len() > 100 {
        return Ok(Text::new(alloc));
    }
    Ok(made)
}

fn item(alloc: Global, sets: Sets, listed: Listed) -> Result<AtomItem, NoMemory>
    ensures { IfOk result (λ made. (c : Items Kept) → IsSourceSet c sets.column → IsSourceSet c sets.months → IsPlaceSet c sets.start → IsPlaceSet c sets.stop → IsAtomItem c (length c) made) }
{
    match listed {
        Listed::Constant(characters) => Ok(AtomItem::Const(constant(alloc, characters)?)),
        Listed::Whole => Ok(AtomItem::Whole(sets.column)),
        Listed::Month => Ok(AtomItem::Whole(sets.months)),
        Listed::Piece => Ok(AtomItem::Sub(sets.column, sets.start, sets.stop)),
    }
}

fn pair(alloc: Global, one: AtomItem, other: AtomItem) -> Result<List<AtomItem>, NoMemory>
    ensures { IfOk result (λ made. made ≡ one ∷ other ∷ []) }
{
    let mut items = List::new(alloc);
    items.push(one)?;
    items.push(other)?;
    Ok(items)
}

/// The number of a set of two atoms.
fn atoms(
    alloc: Global,
    arena: &mut Arena,
    sets: Sets,
    one: Listed,
    other: Listed,
) -> Result<AtomSet, NoMemory>
    requires column { IsSourceSet arena.old sets.column }
    requires months { IsSourceSet arena.old sets.months }
    requires start { IsPlaceSet arena.old sets.start }
    requires stop { IsPlaceSet arena.old sets.stop }
    ensures set { IfOk result (IsAtomSet arena.new) }
    ensures extends { Extends arena.old arena.new }
{
    let first = item(alloc, sets, one)?;
    let second = item(alloc, sets, other)?;
    let items = pair(alloc, first, second)?;
    Ok(arena.intern_atoms(items)?)
}

/// The edges of two steps, the second one first: an arena takes them in any order.
fn edges(alloc: Global, first: AtomSet, second: AtomSet) -> Result<List<Edge>, NoMemory>
    ensures { IfOk result (λ made. made ≡ (record { from = 1; to = 2; atoms = second }) ∷ (record { from = 0; to = 1; atoms = first }) ∷ []) }
{
    let mut edges = List::new(alloc);
    edges.push(Edge {
        from: 1,
        to: 2,
        atoms: second,
    })?;
    edges.push(Edge {
        from: 0,
        to: 1,
        atoms: first,
    })?;
    Ok(edges)
}

/// Adds the table of the months with its key.
fn add_months(tables: &mut Tables) -> Result<(), NoMemory> {
    let months = b"01,Jan\n02,Feb\n";
    if tables.add_table("months", months).is_err() || tables.add_key("months", &[1]).is_err() {
        return Err(NoMemory);
    }
    Ok(())
}

/// The graph of two edges, where nothing is counted yet.
fn graph_of<L: Ledger>(
    alloc: Global,
    blank: Blank,
    arena: &mut Arena,
    first: AtomSet,
    second: AtomSet,
) -> Result<GraphId, NoMemory>
    requires name { blank.name ≡ L.name }
    requires parts { blank.parts ≡ L.parts }
    requires one { blank.parts ≡ 1 }
    requires first { IsAtomSet arena.old first }
    requires second { IsAtomSet arena.old second }
    ensures { IfOk result (IsGraph arena.new) }
{
    let (book, share) = blank.open::<L>();
    let mut steps: Steps<L> = Steps::new(book, share);
    arena.intern_graph(3, edges(alloc, first, second)?, &mut steps)
}

/// Whether a graph of two edges, of two atoms each, has this flag on the first row.
fn is_flagged(
    alloc: Global,
    arena: &mut Arena,
    tables: &Tables,
    sheet: &Sheet,
    edges: [(Listed, Listed); 2],
    flag: bool,
) -> Result<bool, NoMemory>
    requires { 1 ≤ length sheet.now.rows }
{
    let sets = named(alloc, arena)?;
    let first = atoms(alloc, arena, sets, edges[0].0, edges[0].1)?;
    let second = atoms(alloc, arena, sets, edges[1].0, edges[1].1)?;
    let graph = graph_of::<Brand>(alloc, Blank::new(1), arena, first, second)?;
    Ok(doubt(alloc, arena, graph, 1, sheet, tables)? == flag)
}

/// Whether the values are these, and whether some atom has none.
fn are(alloc: Global, found: &ValueSet, texts: &[&str], none: bool) -> Result<bool, NoMemory> {
    if found.texts.len() != texts.len() || found.none != none {
        return Ok(false);
    }
    for (text, characters) in found.texts.as_slice().iter().zip(texts) {
        if !text.same(&constant(alloc, characters)?) {
            return Ok(false);
        }
    }
    Ok(true)
}

/// Whether a set of two atoms has these values on the first row, one after the other, and whether one of them has none.
fn has_values(
    alloc: Global,
    arena: &mut Arena,
    tables: &Tables,
    sheet: &Sheet,
    pair: (Listed, Listed),
    texts: &[&str],
    none: bool,
) -> Result<bool, NoMemory>
    requires { 1 ≤ length sheet.now.rows }
{
    let sets = named(alloc, arena)?;
    let set = atoms(alloc, arena, sets, pair.0, pair.1)?;
    let found = values(alloc, arena, set, 1, sheet, tables)?;
    are(alloc, &found, texts, none)
}

/// What is to be so.
#[derive(Clone, Copy)]
enum Task<'a> {
    /// The flag of a graph of two edges, of two atoms each.
    Flag((Listed, Listed), (Listed, Listed), bool),
    /// The values of a set of two atoms, and whether one of them has none.
    Values((Listed, Listed), &'a [&'a str], bool),
}

/// Whether it is so on the first row, with the table of the months.
fn holds(
    alloc: Global,
    arena: &mut Arena,
    tables: &mut Tables,
    sheet: &Sheet,
    task: Task,
) -> Result<bool, NoMemory> {
    if sheet.rows() == 0 {
        return Ok(false);
    }
    add_months(tables)?;
    match task {
        Task::Flag(first, second, flag) => {
            is_flagged(alloc, arena, tables, sheet, [first, second], flag)
        }
        Task::Values(pair, texts, none) => {
            has_values(alloc, arena, tables, sheet, pair, texts, none)
        }
    }
}

/// Whether it is so on a row of one cell.
fn holds_on(alloc: Global, cell: &str, task: Task) -> Result<bool, NoMemory> {
    let Ok(sheet) = Sheet::read(alloc, cell.as_bytes(), false, &[1], None) else {
        return Err(NoMemory);
    };
    let mut arena = Arena::new(alloc);
    let mut tables = Tables::new(alloc);
    holds(alloc, &mut arena, &mut tables, &sheet, task)
}

#[test]
fn equal_answers_are_no_doubt(rt: HostRuntime) -> Result<(), Fail> {
    use Listed::{Constant, Month, Piece, Whole};
    let z = (Constant("z"), Constant("z"));
    for (cell, first, second) in [
        ("a", (Constant("a"), Whole), z),
        ("ab", (Piece, Whole), z),
        ("01", (Month, Constant("Jan")), z),
        ("07", (Month, Month), z),
        ("a", (Piece, Piece), z),
        ("a", (Piece, Piece), (Constant("a"), Constant("b"))),
    ] {
        assert!(rt; holds_on(rt.alloc(), cell, Task::Flag(first, second, false))?);
    }
    Ok(())
}

#[test]
fn different_answers_are_doubt(rt: HostRuntime) -> Result<(), Fail> {
    use Listed::{Constant, Month, Piece, Whole};
    let z = (Constant("z"), Constant("z"));
    let lengths = (Constant("bc"), Constant("c"));
    for (cell, first, second) in [
        ("b", (Constant("a"), Whole), z),
        ("abc", (Piece, Whole), z),
        ("a", (Constant("a"), Piece), z),
        ("07", (Month, Constant("Jan")), z),
        ("a", z, (Piece, Constant("a"))),
        ("x", (Constant("a"), Constant("ab")), lengths),
    ] {
        assert!(rt; holds_on(rt.alloc(), cell, Task::Flag(first, second, true))?);
    }
    Ok(())
}

#[test]
fn values_of_sets(rt: HostRuntime) -> Result<(), Fail> {
    use Listed::{Constant, Piece, Whole};
    let two = Task::Values((Constant("a"), Constant("b")), ["a", "b"].as_slice(), false);
    let both = Task::Values((Constant("b"), Whole), ["a", "b"].as_slice(), false);
    let one = Task::Values((Constant("a"), Piece), ["a"].as_slice(), true);
    assert!(rt; holds_on(rt.alloc(), "a", two)?);
    assert!(rt; holds_on(rt.alloc(), "a", both)?);
    assert!(rt; holds_on(rt.alloc(), "a", one)?);
    Ok(())
}
