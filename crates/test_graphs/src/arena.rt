//! A small arena: one graph of two nodes, and what stands in it.
ghost use Rattle.std.specs.Prelude.{◌≡◌, ◌≤◌, [], ◌∷◌, length, IfOk};
ghost use Rattle.fill_arena.specs.Contents.{IsAtomSet, IsGraph, IsPlaceSet, IsSourceSet};

use crate::notation::stands;
use fill_arena::*;
use fill_edge::{Ledger, Steps};
use fill_text::{List, NoMemory, Text};
use fill_tokens::Place;
use std::alloc::Global;
use std::marker::Brand;
use std::sync::ledger::Blank;
use std::test::Fail;

/// The atoms of the graph's one edge: the text, the whole of column 1, and its piece from the start to the end.
fn atoms(
    alloc: Global,
    text: &Text,
    whole: SourceSet,
    left: PlaceSet,
    right: PlaceSet,
) -> Result<List<AtomItem>, NoMemory>
    ensures { IfOk result (λ made. made ≡ AtomItem.Const text.now ∷ AtomItem.Whole whole ∷ AtomItem.Sub whole left right ∷ []) }
{
    let mut items = List::new(alloc);
    items.push(AtomItem::Const(text.copy()?))?;
    items.push(AtomItem::Whole(whole))?;
    items.push(AtomItem::Sub(whole, left, right))?;
    Ok(items)
}

/// The sources of the arena: column 1.
fn sources(alloc: Global) -> Result<List<SourceItem>, NoMemory>
    ensures { IfOk result (λ made. made ≡ SourceItem.Col 1 ∷ []) }
{
    let mut items = List::new(alloc);
    items.push(SourceItem::Col(1))?;
    Ok(items)
}

/// The edge from the first node to the second.
fn edges(alloc: Global, atoms: AtomSet) -> Result<List<Edge>, NoMemory>
    ensures { IfOk result (λ made. made ≡ (record { from = 0; to = 1; atoms = atoms }) ∷ []) }
{
    let mut edges = List::new(alloc);
    edges.push(Edge {
        from: 0,
        to: 1,
        atoms,
    })?;
    Ok(edges)
}

/// The numbers of the small arena.
#[derive(Clone, Copy)]
struct Numbers {
    places: PlaceSet,
    sources: SourceSet,
    atoms: AtomSet,
    graph: GraphId,
}

fn fill<L: Ledger>(
    alloc: Global,
    arena: &mut Arena,
    text: &Text,
    steps: &mut Steps<L>,
) -> Result<Numbers, NoMemory>
    requires { length text.now ≤ 100 }
    ensures { IfOk result (λ made. IsPlaceSet arena.new made.places × IsSourceSet arena.new made.sources
        × IsAtomSet arena.new made.atoms × IsGraph arena.new made.graph) }
{
    let places = arena.intern_places(&[Place::CPos(0)])?;
    let ends = arena.intern_places(&[Place::CPos(-1)])?;
    let whole = arena.intern_sources(sources(alloc)?)?;
    let all = arena.intern_atoms(atoms(alloc, text, whole, places, ends)?)?;
    let graph = arena.intern_graph(2, edges(alloc, all)?, steps)?;
    Ok(Numbers {
        places,
        sources: whole,
        atoms: all,
        graph,
    })
}

/// Whether those programs stand in the graph that stand in the graph of the text `ab`, and no others.
fn stand(alloc: Global, arena: &Arena, g: GraphId) -> Result<bool, Fail>
    requires { IsGraph arena.now g }
{
    for (atoms, expected) in [
        ("Const('ab')", true),
        ("Whole(Col(1))", true),
        ("Sub(Col(1),CPos(0),CPos(-1))", true),
        ("Const('a')", false),
        ("Whole(Col(2))", false),
        ("Sub(Col(1),CPos(-1),CPos(0))", false),
        ("Sub(Col(1),CPos(0),CPos(1))", false),
        ("", false),
        ("Const('ab'),Const('ab')", false),
    ] {
        if stands(alloc, arena, g, atoms)? != expected {
            return Ok(false);
        }
    }
    Ok(true)
}

/// Whether both times the same numbers were given.
fn are_same(first: Numbers, again: Numbers) -> bool {
    first.places == again.places
        && first.sources == again.sources
        && first.atoms == again.atoms
        && first.graph == again.graph
}

/// The number of the places, where equal contents get one number.
fn shared<L: Ledger>(
    alloc: Global,
    arena: &mut Arena,
    text: &Text,
    steps: &mut Steps<L>,
) -> Result<Option<PlaceSet>, Fail>
    requires { length text.now ≤ 100 }
{
    let first = fill(alloc, arena, text, steps)?;
    let size = arena.size();
    let again = fill(alloc, arena, text, steps)?;
    Ok(if size == 5 && arena.size() == size && are_same(first, again) {
        Some(first.places)
    } else {
        None
    })
}

/// Whether after a cut the first number is given anew.
fn starts_anew(arena: &mut Arena, start: Mark, first: PlaceSet) -> Result<bool, Fail>
    requires { start ≡ 0 }
{
    arena.cut(start);
    let ends = arena.intern_places(&[Place::CPos(-1)])?;
    let is_new = ends == first && arena.size() == 1;
    Ok(is_new && arena.places(ends) == [Place::CPos(-1)].as_slice())
}

/// Whether equal contents get one number, and after a cut a new one.
fn shares<L: Ledger>(
    alloc: Global,
    arena: &mut Arena,
    start: Mark,
    text: &Text,
    steps: &mut Steps<L>,
) -> Result<bool, Fail>
    requires text { length text.now ≤ 100 }
    requires start { start ≡ 0 }
{
    match shared(alloc, arena, text, steps)? {
        Some(first) => starts_anew(arena, start, first),
        None => Ok(false),
    }
}

/// How many places, sources, atoms, nodes and edges the numbers have.
fn counts(arena: &Arena, made: Numbers) -> [usize; 5]
    requires { IsPlaceSet arena.now made.places × IsSourceSet arena.now made.sources × IsAtomSet arena.now made.atoms
        × IsGraph arena.now made.graph }
{
    [
        arena.places(made.places).len(),
        arena.sources(made.sources).len(),
        arena.atoms(made.atoms).len(),
        arena.nodes(made.graph),
        arena.edges(made.graph).len(),
    ]
}

/// The counts of the small arena, which is cut back to nothing. None where a program stands that should not, or does
/// not that should.
fn counted<L: Ledger>(
    alloc: Global,
    arena: &mut Arena,
    start: Mark,
    text: &Text,
    steps: &mut Steps<L>,
) -> Result<Option<[usize; 5]>, Fail>
    requires text { length text.now ≤ 100 }
    requires start { start ≡ 0 }
{
    let made = fill(alloc, arena, text, steps)?;
    if !stand(alloc, arena, made.graph)? {
        return Ok(None);
    }
    let counts = counts(arena, made);
    arena.cut(start);
    Ok(if arena.mark() == start {
        Some(counts)
    } else {
        None
    })
}

/// The counts, where equal contents get one number.
fn shared_counts<L: Ledger>(
    alloc: Global,
    arena: &mut Arena,
    start: Mark,
    steps: &mut Steps<L>,
) -> Result<Option<[usize; 5]>, Fail>
    requires { start ≡ 0 }
{
    let text = Text::from_utf8(alloc, b"ab")?;
    if text.len() > 100 || !shares(alloc, arena, start, &text, steps)? {
        return Ok(None);
    }
    arena.cut(start);
    counted(alloc, arena, start, &text, steps)
}

/// What is read of the small arena.
fn read<L: Ledger>(alloc: Global, blank: Blank) -> Result<Option<[usize; 5]>, Fail>
    requires name { blank.name ≡ L.name }
    requires parts { blank.parts ≡ L.parts }
    requires one { blank.parts ≡ 1 }
{
    let (book, share) = blank.open::<L>();
    let mut steps: Steps<L> = Steps::new(book, share);
    let mut arena = Arena::new(alloc);
    let start = arena.mark();
    shared_counts(alloc, &mut arena, start, &mut steps)
}

#[test]
fn programs_stand_in_a_graph(rt: HostRuntime) -> Result<(), Fail> {
    let read = read::<Brand>(rt.alloc(), Blank::new(1))?;
    assert_eq!(rt; read, Some([1, 1, 3, 2, 1]));
    Ok(())
}

/// The sizes of both arenas. None where another program stands in the copy than in the graph of the text `ab`.
fn sizes_of(
    alloc: Global,
    arena: &Arena,
    made: &Arena,
    g: GraphId,
) -> Result<Option<[u128; 2]>, Fail>
    requires { IsGraph made.now g }
{
    Ok(if stand(alloc, made, g)? {
        Some([arena.size(), made.size()])
    } else {
        None
    })
}

/// The sizes of an arena of two graphs and of a copy of the second.
fn copy_second<L: Ledger>(
    alloc: Global,
    arena: &mut Arena,
    first: &Text,
    second: &Text,
    steps: &mut Steps<L>,
) -> Result<Option<[u128; 2]>, Fail>
    requires first { length first.now ≤ 100 }
    requires second { length second.now ≤ 100 }
{
    let _older = fill(alloc, arena, first, steps)?;
    let mut live = [fill(alloc, arena, second, steps)?.graph];
    let made = arena.copy(&mut live)?;
    sizes_of(alloc, arena, &made, live[0])
}

/// The sizes where the second graph is that of the text `ab`.
fn copied<L: Ledger>(
    alloc: Global,
    arena: &mut Arena,
    steps: &mut Steps<L>,
) -> Result<Option<[u128; 2]>, Fail> {
    let first = Text::from_utf8(alloc, b"cd")?;
    let second = Text::from_utf8(alloc, b"ab")?;
    if first.len() > 100 || second.len() > 100 {
        return Ok(None);
    }
    copy_second(alloc, arena, &first, &second, steps)
}

/// Those sizes, in a fresh arena.
fn sizes<L: Ledger>(alloc: Global, blank: Blank) -> Result<Option<[u128; 2]>, Fail>
    requires name { blank.name ≡ L.name }
    requires parts { blank.parts ≡ L.parts }
    requires one { blank.parts ≡ 1 }
{
    let (book, share) = blank.open::<L>();
    let mut steps: Steps<L> = Steps::new(book, share);
    let mut arena = Arena::new(alloc);
    copied(alloc, &mut arena, &mut steps)
}

#[test]
fn a_copy_has_what_its_graph_names(rt: HostRuntime) -> Result<(), Fail> {
    let sizes = sizes::<Brand>(rt.alloc(), Blank::new(1))?;
    assert_eq!(rt; sizes, Some([7, 5]));
    Ok(())
}
