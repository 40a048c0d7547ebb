//! The least program of a small graph: two edges lead from the first node to the second.
ghost use Rattle.std.specs.Prelude.{◌≡◌, ◌≤◌, [], ◌∷◌, length, IfOk};
ghost use Rattle.fill_arena.specs.Contents.{IsGraph};

use fill_arena::{Arena, AtomItem, AtomSet, Edge, GraphId, PlaceSet, SourceItem, SourceSet};
use fill_edge::{Ledger, Steps};
use fill_print::print_program;
use fill_rank::least;
use fill_text::{List, NoMemory, Text};
use fill_tokens::{Place, Prices};
use std::alloc::Global;
use std::marker::Brand;
use std::sync::ledger::Blank;
use std::test::Fail;

/// The atom of the first edge: a text.
fn constant(alloc: Global, text: Text) -> Result<List<AtomItem>, NoMemory>
    ensures { IfOk result (λ made. made ≡ AtomItem.Const text ∷ []) }
{
    let mut items = List::new(alloc);
    items.push(AtomItem::Const(text))?;
    Ok(items)
}

/// The atoms of the second edge: a piece of column 1 from the start to the end, and the whole of it.
fn parts(
    alloc: Global,
    whole: SourceSet,
    left: PlaceSet,
    right: PlaceSet,
) -> Result<List<AtomItem>, NoMemory>
    ensures { IfOk result (λ made. made ≡ AtomItem.Sub whole left right ∷ AtomItem.Whole whole ∷ []) }
{
    let mut items = List::new(alloc);
    items.push(AtomItem::Sub(whole, left, right))?;
    items.push(AtomItem::Whole(whole))?;
    Ok(items)
}

/// The sources of the arena: column 1.
fn sources(alloc: Global) -> Result<List<SourceItem>, NoMemory>
    ensures { IfOk result (λ made. made ≡ SourceItem.Col 1 ∷ []) }
{
    let mut items = List::new(alloc);
    items.push(SourceItem::Col(1))?;
    Ok(items)
}

/// The two edges.
fn edges(alloc: Global, first: AtomSet, second: AtomSet) -> Result<List<Edge>, NoMemory>
    ensures { IfOk result (λ made. made ≡ (record { from = 0; to = 1; atoms = first }) ∷ (record { from = 0; to = 1; atoms = second }) ∷ []) }
{
    let mut edges = List::new(alloc);
    edges.push(Edge {
        from: 0,
        to: 1,
        atoms: first,
    })?;
    edges.push(Edge {
        from: 0,
        to: 1,
        atoms: second,
    })?;
    Ok(edges)
}

fn fill<L: Ledger>(
    alloc: Global,
    arena: &mut Arena,
    text: Text,
    steps: &mut Steps<L>,
) -> Result<GraphId, NoMemory>
    requires { length text ≤ 100 }
    ensures { IfOk result (λ graph. IsGraph arena.new graph) }
{
    let first = arena.intern_atoms(constant(alloc, text)?)?;
    let starts = arena.intern_places(&[Place::CPos(0)])?;
    let ends = arena.intern_places(&[Place::CPos(-1)])?;
    let whole = arena.intern_sources(sources(alloc)?)?;
    let second = arena.intern_atoms(parts(alloc, whole, starts, ends)?)?;
    arena.intern_graph(2, edges(alloc, first, second)?, steps)
}

/// Whether the least program of the graph, whose first edge has the text `ab`, is the whole of column 1.
fn finds_whole_in<L: Ledger>(
    alloc: Global,
    arena: &mut Arena,
    steps: &mut Steps<L>,
) -> Result<bool, Fail> {
    let text = Text::from_utf8(alloc, b"ab")?;
    if text.len() > 100 {
        return Ok(false);
    }
    let graph = fill(alloc, arena, text, steps)?;
    let program = least(alloc, &Prices::FIRST, arena, graph)?;
    let spelled = print_program(alloc, &program)?;
    Ok(spelled.as_slice() == b"Concat(Whole(Col(1)))".as_slice())
}

/// Whether the least program of such a graph in a fresh arena is the whole of column 1.
fn finds_whole<L: Ledger>(alloc: Global, blank: Blank) -> Result<bool, Fail>
    requires name { blank.name ≡ L.name }
    requires parts { blank.parts ≡ L.parts }
    requires one { blank.parts ≡ 1 }
{
    let (book, share) = blank.open::<L>();
    let mut steps: Steps<L> = Steps::new(book, share);
    let mut arena = Arena::new(alloc);
    finds_whole_in(alloc, &mut arena, &mut steps)
}

/// A text of two letters costs 34, a piece 13 and a whole 2.
#[test]
fn a_whole_is_the_least(rt: HostRuntime) -> Result<(), Fail> {
    let found = finds_whole::<Brand>(rt.alloc(), Blank::new(1))?;
    assert!(rt; found);
    Ok(())
}
