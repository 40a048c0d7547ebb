//! Taking out the nodes that lie on no walk.
ghost use Rattle.std.specs.Prelude.{◌≡◌, ◌<◌, ◌≤◌, ◌++◌, [], ◌∷◌, length, Some, IfOk, OnOk, MatchOption};
ghost use Rattle.fill_arena.specs.Contents.{EachIn};
ghost use Rattle.fill_arena.specs.declared.entry.Edge.{Edge};
ghost use Rattle.fill_trim.specs.Marks.{AreRanks, HasNoWalk, edges_left, rank};
ghost use Rattle.fill_trim.specs.Trim.{AreEdges, IsTrimmed};

use crate::marks::{keep_common, leading_to_last, reached_from_first};
use fill_arena::Edge;
use fill_text::{List, NoMemory};
use std::alloc::Global;

/// A graph's nodes, from 0 on, and its edges.
#[derive(Debug, Drop)]
pub struct Trimmed {
    pub nodes: usize,
    pub edges: List<Edge>,
}

/// The graph without the nodes that lie on no walk from node 0 to the last node; none where there is no such walk.
///
/// The nodes that are left are numbered anew in their order, and the edges keep theirs. The work is linear in nodes plus
/// edges.
pub fn trim(alloc: Global, nodes: usize, edges: &[Edge]) -> Result<Option<Trimmed>, NoMemory>
    requires some { 0 < nodes }
    requires edges { AreEdges nodes edges.now }
    ensures { IfOk result (λ made. MatchOption made (HasNoWalk nodes edges.now) (IsTrimmed nodes edges.now)) }
{
    let mut node_marks = reached_from_first(alloc, nodes, edges)?;
    if !node_marks[nodes - 1] {
        return Ok(None);
    }
    let leading = leading_to_last(alloc, nodes, edges)?;
    keep_common(node_marks.as_mut_slice(), leading.as_slice());
    // Its room is for what comes now.
    drop(leading);
    Ok(Some(renumber(alloc, node_marks.as_slice(), edges)?))
}

/// The graph of the kept nodes and of the edges between them.
fn renumber(alloc: Global, node_marks: &[bool], edges: &[Edge]) -> Result<Trimmed, NoMemory>
    requires { EachIn (λ e. (e.from < length node_marks.now) × (e.to < length node_marks.now)) edges.now }
    ensures { IfOk result (λ made. (made.nodes ≡ rank node_marks.now (length node_marks.now)) × (made.edges ≡ edges_left node_marks.now edges.now)) }
{
    let ranks = ranks(alloc, node_marks)?;
    let edges = kept_edges(alloc, node_marks, ranks.as_slice(), edges)?;
    Ok(Trimmed {
        nodes: rank(node_marks, ranks.as_slice(), node_marks.len()),
        edges,
    })
}

/// How many nodes before each 32nd one are kept. A product has many nodes, so those between are counted where they are asked.
fn ranks(alloc: Global, node_marks: &[bool]) -> Result<Vec<usize>, NoMemory>
    ensures { IfOk result (λ ranks. AreRanks node_marks.now ranks.items) }
{
    let stretches = node_marks.len() / 32;
    let mut ranks = Vec::with_capacity(alloc, stretches + 1)?;
    let mut count = 0;
    for k in 0..stretches {
        ranks.push(count)?;
        count = count_on(node_marks, k * 32, k * 32 + 32, count);
    }
    ranks.push(count)?;
    Ok(ranks)
}

/// How many nodes before a node are kept.
fn rank(node_marks: &[bool], ranks: &[usize], node: usize) -> usize
    requires ranks { AreRanks node_marks.now ranks.now }
    requires within { node ≤ length node_marks.now }
    ensures { result ≡ rank node_marks.now node }
{
    let k = node / 32;
    let before = ranks[k];
    count_on(node_marks, k * 32, node, before)
}

/// How many nodes before the second node are kept, told how many before the first one are.
fn count_on(node_marks: &[bool], from: usize, to: usize, before: usize) -> usize
    requires order { from ≤ to }
    requires within { to ≤ length node_marks.now }
    requires before { before ≡ rank node_marks.now from }
    ensures { result ≡ rank node_marks.now to }
{
    let mut count = before;
    for node in from..to {
        let stays = node_marks[node];
        if stays {
            count += 1;
        }
    }
    count
}

/// The edges between kept nodes, in order, with the new numbers of their nodes.
fn kept_edges(
    alloc: Global,
    node_marks: &[bool],
    ranks: &[usize],
    edges: &[Edge],
) -> Result<List<Edge>, NoMemory>
    requires ranks { AreRanks node_marks.now ranks.now }
    requires within { EachIn (λ e. (e.from < length node_marks.now) × (e.to < length node_marks.now)) edges.now }
    ensures { IfOk result (λ made. made ≡ edges_left node_marks.now edges.now) }
{
    let mut made = List::with_capacity(alloc, edges.len())?;
    for i in 0..edges.len() {
        push_kept(&mut made, node_marks, ranks, edges[i])?;
    }
    Ok(made)
}

/// Puts the edge with its new numbers at the end, if both its nodes are kept.
fn push_kept(
    made: &mut List<Edge>,
    node_marks: &[bool],
    ranks: &[usize],
    edge: Edge,
) -> Result<(), NoMemory>
    requires ranks { AreRanks node_marks.now ranks.now }
    requires from { edge.from < length node_marks.now }
    requires to { edge.to < length node_marks.now }
    ensures { OnOk result (made.new ≡ made.old ++ edges_left node_marks.now (edge ∷ [])) }
{
    if !node_marks[edge.from] {
        return Ok(());
    }
    if !node_marks[edge.to] {
        return Ok(());
    }
    made.push(Edge {
        from: rank(node_marks, ranks, edge.from),
        to: rank(node_marks, ranks, edge.to),
        atoms: edge.atoms,
    })
}
