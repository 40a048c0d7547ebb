//! Small graphs, and what is left of them.
ghost use Rattle.std.specs.Prelude.{◌≤◌, length, IfOk, IsTrue};
ghost use Rattle.fill_trim.specs.Trim.{AreEdges};

use fill_arena::{Arena, AtomItem, AtomSet, Edge};
use fill_text::{List, NoMemory, Text};
use fill_trim::trim::trim;
use std::alloc::Global;
use std::test::Fail;

/// The number of a set whose only atom is the constant.
fn set_of(alloc: Global, arena: &mut Arena, constant: Text) -> Result<AtomSet, NoMemory>
    requires { length constant ≤ 100 }
{
    let mut items = List::new(alloc);
    items.push(AtomItem::Const(constant))?;
    arena.intern_atoms(items)
}

/// The text, or an empty one where it is too long for a constant.
fn constant(alloc: Global, characters: &str) -> Result<Text, Fail>
    ensures { IfOk result (λ made. length made ≤ 100) }
{
    let made = Text::from_utf8(alloc, characters.as_bytes())?;
    if made.len() > 100 {
        return Ok(Text::new(alloc));
    }
    Ok(made)
}

/// Two sets of the arena.
fn two_sets_in(alloc: Global, arena: &mut Arena) -> Result<(AtomSet, AtomSet), Fail> {
    let first = set_of(alloc, arena, constant(alloc, "a")?)?;
    let second = set_of(alloc, arena, constant(alloc, "b")?)?;
    Ok((first, second))
}

/// Two sets of one arena.
fn two_sets(alloc: Global) -> Result<(AtomSet, AtomSet), Fail> {
    let mut arena = Arena::new(alloc);
    two_sets_in(alloc, &mut arena)
}

fn edge(from: usize, to: usize, atoms: AtomSet) -> Edge {
    Edge { from, to, atoms }
}

/// Whether edges lead on within the nodes, and stand in the order of the nodes that they come from.
fn are_edges(nodes: usize, edges: &[Edge]) -> bool
    ensures { IsTrue result → AreEdges nodes edges.now }
{
    let mut least = 0;
    for i in 0..edges.len() {
        let edge = edges[i];
        if edge.from < least || edge.to <= edge.from || nodes <= edge.to {
            return false;
        }
        least = edge.from;
    }
    true
}

fn same(left: &[Edge], right: &[Edge]) -> bool {
    if left.len() != right.len() {
        return false;
    }
    for i in 0..left.len() {
        let (one, other) = (left[i], right[i]);
        if one.from != other.from || one.to != other.to || one.atoms != other.atoms {
            return false;
        }
    }
    true
}

/// Whether this many nodes and these edges are left.
fn leaves(
    alloc: Global,
    nodes: usize,
    edges: &[Edge],
    nodes_left: usize,
    left: &[Edge],
) -> Result<bool, NoMemory> {
    if nodes == 0 || !are_edges(nodes, edges) {
        return Ok(false);
    }
    match trim(alloc, nodes, edges)? {
        Some(made) => Ok(made.nodes == nodes_left && same(made.edges.as_slice(), left)),
        None => Ok(false),
    }
}

/// Whether nothing is left.
fn leaves_nothing(alloc: Global, nodes: usize, edges: &[Edge]) -> Result<bool, NoMemory> {
    if nodes == 0 || !are_edges(nodes, edges) {
        return Ok(false);
    }
    Ok(trim(alloc, nodes, edges)?.is_none())
}

#[test]
fn a_graph_without_dead_nodes_stays(rt: HostRuntime) -> Result<(), Fail> {
    let (a, b) = two_sets(rt.alloc())?;
    let edges = [edge(0, 1, a), edge(0, 2, b), edge(1, 2, b)];
    assert!(rt; leaves(rt.alloc(), 3, &edges, 3, &edges)?);
    assert!(rt; leaves(rt.alloc(), 1, &[], 1, &[])?);
    Ok(())
}

/// Nothing leads to node 1, and nothing on from node 3.
#[test]
fn dead_nodes_go(rt: HostRuntime) -> Result<(), Fail> {
    let (a, b) = two_sets(rt.alloc())?;
    let edges = [
        edge(0, 2, a),
        edge(0, 3, b),
        edge(1, 2, b),
        edge(2, 3, a),
        edge(2, 4, b),
    ];
    assert!(rt; leaves(rt.alloc(), 5, &edges, 3, &[edge(0, 1, a), edge(1, 2, b)])?);
    Ok(())
}

#[test]
fn nothing_is_left_where_no_walk_is(rt: HostRuntime) -> Result<(), Fail> {
    let (a, b) = two_sets(rt.alloc())?;
    assert!(rt; leaves_nothing(rt.alloc(), 4, &[edge(0, 1, a), edge(2, 3, b)])?);
    assert!(rt; leaves_nothing(rt.alloc(), 2, &[])?);
    Ok(())
}
