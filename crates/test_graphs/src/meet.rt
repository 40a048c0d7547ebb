//! Small graphs, and what stands in two of them.
ghost use Rattle.std.specs.Prelude.{◌≡◌, ◌≤◌, [], ◌∷◌, length, IfOk};
ghost use Rattle.fill_arena.specs.Contents.{Extends, IsGraph};

use crate::notation::stands;
use fill_arena::{Arena, AtomItem, AtomSet, Edge, GraphId, SourceItem, SourceSet};
use fill_edge::{Ledger, Steps};
use fill_meet::meet::meet;
use fill_text::{List, NoMemory, Text};
use std::alloc::Global;
use std::marker::Brand;
use std::sync::ledger::Blank;
use std::test::Fail;

/// The text, and the whole of the sources.
fn atoms(alloc: Global, text: Text, whole: SourceSet) -> Result<List<AtomItem>, NoMemory>
    ensures { IfOk result (λ made. made ≡ AtomItem.Const text ∷ AtomItem.Whole whole ∷ []) }
{
    let mut items = List::new(alloc);
    items.push(AtomItem::Const(text))?;
    items.push(AtomItem::Whole(whole))?;
    Ok(items)
}

fn sources(alloc: Global, column: u32) -> Result<List<SourceItem>, NoMemory>
    ensures { IfOk result (λ made. made ≡ SourceItem.Col column ∷ []) }
{
    let mut items = List::new(alloc);
    items.push(SourceItem::Col(column))?;
    Ok(items)
}

/// The edge from the first node to the second.
fn edges(alloc: Global, atoms: AtomSet) -> Result<List<Edge>, NoMemory>
    ensures { IfOk result (λ made. made ≡ (record { from = 0; to = 1; atoms = atoms }) ∷ []) }
{
    let mut edges = List::new(alloc);
    edges.push(Edge {
        from: 0,
        to: 1,
        atoms,
    })?;
    Ok(edges)
}

/// The graph of one edge, for the text and for the whole of the column.
fn graph<L: Ledger>(
    alloc: Global,
    arena: &mut Arena,
    text: Text,
    column: u32,
    steps: &mut Steps<L>,
) -> Result<GraphId, NoMemory>
    requires { length text ≤ 100 }
    ensures graph { IfOk result (IsGraph arena.new) }
    ensures extends { Extends arena.old arena.new }
{
    let whole = arena.intern_sources(sources(alloc, column)?)?;
    let all = arena.intern_atoms(atoms(alloc, text, whole)?)?;
    arena.intern_graph(2, edges(alloc, all)?, steps)
}

/// The text, or an empty one where it is too long for a constant.
fn constant(alloc: Global, characters: &str) -> Result<Text, Fail>
    ensures { IfOk result (λ made. length made ≤ 100) }
{
    let made = Text::from_utf8(alloc, characters.as_bytes())?;
    if made.len() > 100 {
        return Ok(Text::new(alloc));
    }
    Ok(made)
}

/// Whether the text `a`, and whether the whole of column 1, stands in the graph.
fn both_stand(alloc: Global, arena: &Arena, g: GraphId) -> Result<(bool, bool), Fail>
    requires { IsGraph arena.now g }
{
    Ok((
        stands(alloc, arena, g, "Const('a')")?,
        stands(alloc, arena, g, "Whole(Col(1))")?,
    ))
}

/// Whether they stand in the graph of `a` and column 1 and in that of the text and the column. None where no program does,
/// and the arena is as it was.
fn met_in<L: Ledger>(
    alloc: Global,
    arena: &mut Arena,
    text: Text,
    column: u32,
    steps: &mut Steps<L>,
) -> Result<Option<(bool, bool)>, Fail>
    requires { length text ≤ 100 }
{
    let first = graph(alloc, arena, constant(alloc, "a")?, 1, steps)?;
    let second = graph(alloc, arena, text, column, steps)?;
    let before = arena.mark();
    match meet(alloc, arena, first, second, steps)? {
        Some(made) => Ok(Some(both_stand(alloc, arena, made)?)),
        None if arena.mark() == before => Ok(None),
        None => Ok(Some((true, true))),
    }
}

/// Whether the two programs stand in the intersection, in a fresh arena.
fn met<L: Ledger>(
    alloc: Global,
    blank: Blank,
    text: Text,
    column: u32,
) -> Result<Option<(bool, bool)>, Fail>
    requires short { length text ≤ 100 }
    requires name { blank.name ≡ L.name }
    requires parts { blank.parts ≡ L.parts }
    requires one { blank.parts ≡ 1 }
{
    let (book, share) = blank.open::<L>();
    let mut steps: Steps<L> = Steps::new(book, share);
    let mut arena = Arena::new(alloc);
    met_in(alloc, &mut arena, text, column, &mut steps)
}

/// Whether the two programs stand in the intersection, with a ledger of its own.
fn both(alloc: Global, characters: &str, column: u32) -> Result<Option<(bool, bool)>, Fail> {
    let text = constant(alloc, characters)?;
    met::<Brand>(alloc, Blank::new(1), text, column)
}

#[test]
fn what_stands_in_both_stays(rt: HostRuntime) -> Result<(), Fail> {
    for (characters, column, expected) in [
        ("a", 1, Some((true, true))),
        ("b", 1, Some((false, true))),
        ("a", 2, Some((true, false))),
        // Nothing is made where nothing stands in both.
        ("b", 2, None),
    ] {
        assert_eq!(rt;
            both(rt.alloc(), characters, column)?,
            expected,
            "{characters} {column}"
        );
    }
    Ok(())
}
