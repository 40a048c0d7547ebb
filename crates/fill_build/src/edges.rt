//! The edges of the pieces of the example's text.
//!
//! The set of a piece hangs on the piece's text alone, so the set of each text is made once.
ghost use Rattle.std.specs.Prelude.{◌≡◌, ◌+◌, ◌≤◌, length, IfOk, OnOk};
ghost use Rattle.fill_arena.specs.Contents.{Extends};
ghost use Rattle.fill_sources.specs.Gives.{IsOnRow};
ghost use Rattle.fill_sources.specs.Sets.{AreRowTexts, texts_of};
ghost use Rattle.fill_build.specs.Edges.{EdgesSoFar, IsPut, IsSetBetween, IsSetOf, TakesEdges};
ghost use Rattle.fill_build.specs.Hits.{AreHits};
ghost use Rattle.fill_build.specs.Nodes.{IsNode};
ghost use Rattle.fill_build.specs.Pieces.{IsPiece, piece_rest, piece_text};

use crate::atoms::piece_atoms;
use crate::constants::constant_width;
use crate::hits::{Hit, find_hits, narrow};
use crate::node::{Node, find_twin};
use crate::piece::Piece;
use fill_arena::{Arena, AtomSet, Edge};
use fill_sources::{OnRow, RowTexts};
use fill_text::{List, NoMemory, Text};
use fill_tree::MOST_CHARACTERS;
use std::alloc::Global;

/// An edge for each piece of the text that some atom gives on the row, in the order of their first nodes and then of
/// their last ones.
pub(crate) fn piece_edges<'a>(
    alloc: Global,
    on: &OnRow<'a>,
    row_texts: &mut RowTexts<'a>,
    arena: &mut Arena,
    text: &Text,
) -> Result<List<Edge>, NoMemory>
    requires on { IsOnRow on.now }
    requires row_texts { AreRowTexts on.now arena.old row_texts.old }
    requires short { length text.now ≤ MOST_CHARACTERS }
    ensures edges { IfOk result (EdgesSoFar on.now text.now (length text.now) 0 arena.new) }
    ensures row_texts { OnOk result (AreRowTexts on.now arena.new row_texts.new) }
    ensures extends { Extends arena.old arena.new }
{
    let mut edges = List::new(alloc);
    for from in 0..text.len() {
        let twin = find_twin(text.as_slice(), from);
        let node = Node { text, from, twin };
        put_edges_from(alloc, on, row_texts, arena, &node, &mut edges)?;
    }
    Ok(edges)
}

/// Puts the edges of the pieces that begin at the node.
fn put_edges_from<'a>(
    alloc: Global,
    on: &OnRow<'a>,
    row_texts: &mut RowTexts<'a>,
    arena: &mut Arena,
    node: &Node<'_>,
    edges: &mut List<Edge>,
) -> Result<(), NoMemory>
    requires on { IsOnRow on.now }
    requires row_texts { AreRowTexts on.now arena.old row_texts.old }
    requires node { IsNode node.now }
    requires state { EdgesSoFar on.now node.now.text.now node.now.from 0 arena.old edges.old }
    ensures state { OnOk result (EdgesSoFar on.now node.now.text.now (node.now.from + 1) 0 arena.new edges.new) }
    ensures row_texts { OnOk result (AreRowTexts on.now arena.new row_texts.new) }
    ensures extends { Extends arena.old arena.new }
{
    take_edges(node, edges)?;
    make_edges(alloc, on, row_texts, arena, node, edges)
}

/// Puts the edges of the pieces that begin at the node's twin too: each with the set that the twin's piece has.
fn take_edges(node: &Node<'_>, edges: &mut List<Edge>) -> Result<(), NoMemory>
    requires { IsNode node.now }
    ensures { OnOk result (TakesEdges node.now node.now.twin.run edges.old edges.new) }
{
    let twin = node.twin;
    for done in 0..twin.run {
        let width = done + 1;
        let atoms = set_between(edges.as_slice(), twin.from, twin.from + width);
        put_edge(edges, node.from, node.from + width, atoms)?;
    }
    Ok(())
}

/// Puts the edges of the pieces that are longer than the run of the node's twin.
fn make_edges<'a>(
    alloc: Global,
    on: &OnRow<'a>,
    row_texts: &mut RowTexts<'a>,
    arena: &mut Arena,
    node: &Node<'_>,
    edges: &mut List<Edge>,
) -> Result<(), NoMemory>
    requires on { IsOnRow on.now }
    requires row_texts { AreRowTexts on.now arena.old row_texts.old }
    requires node { IsNode node.now }
    requires state { EdgesSoFar on.now node.now.text.now node.now.from node.now.twin.run arena.old edges.old }
    ensures state { OnOk result (EdgesSoFar on.now node.now.text.now (node.now.from + 1) 0 arena.new edges.new) }
    ensures row_texts { OnOk result (AreRowTexts on.now arena.new row_texts.new) }
    ensures extends { Extends arena.old arena.new }
{
    let run = node.twin.run;
    let rest = &node.text.as_slice()[node.from..];
    if rest.len() <= run {
        return Ok(());
    }
    let constants = constant_width(on.settings.constants, rest);
    let mut hits = find_hits(alloc, row_texts, rest)?;
    for done in run..rest.len() {
        let width = done + 1;
        narrow(&mut hits, width);
        let piece = Piece {
            text: node.text,
            from: node.from,
            width,
            constant: width <= constants,
        };
        let atoms = piece_set(alloc, on, row_texts, arena, &piece, hits.as_slice())?;
        put_edge(edges, node.from, node.from + width, atoms)?;
    }
    Ok(())
}

/// The set on the edge between the nodes, if there is one.
fn set_between(edges: &[Edge], from: usize, to: usize) -> Option<AtomSet>
    ensures { IsSetBetween from to edges.now result }
{
    for i in 0..edges.len() {
        let edge = edges[i];
        if edge.from == from && edge.to == to {
            return Some(edge.atoms);
        }
    }
    None
}

/// Makes the set of the atoms that give the piece on the row, where some do.
fn piece_set<'a>(
    alloc: Global,
    on: &OnRow<'a>,
    row_texts: &mut RowTexts<'a>,
    arena: &mut Arena,
    piece: &Piece<'_>,
    hits: &[Hit],
) -> Result<Option<AtomSet>, NoMemory>
    requires on { IsOnRow on.now }
    requires row_texts { AreRowTexts on.now arena.old row_texts.old }
    requires piece { IsPiece on.now.settings.constants piece.now }
    requires hits { AreHits (texts_of row_texts.old) (piece_rest piece.now) piece.now.width hits.now }
    ensures set { IfOk result (IsSetOf on.now arena.new (piece_text piece.now)) }
    ensures row_texts { OnOk result (AreRowTexts on.now arena.new row_texts.new) }
    ensures texts { texts_of row_texts.new ≡ texts_of row_texts.old }
    ensures extends { Extends arena.old arena.new }
{
    let items = piece_atoms(alloc, on, row_texts, arena, piece, hits)?;
    if items.len() == 0 {
        return Ok(None);
    }
    let atoms = arena.intern_atoms(items)?;
    Ok(Some(atoms))
}

/// Puts an edge with the set between the nodes, where there is a set.
fn put_edge(
    edges: &mut List<Edge>,
    from: usize,
    to: usize,
    atoms: Option<AtomSet>,
) -> Result<(), NoMemory>
    ensures { OnOk result (IsPut from to atoms edges.old edges.new) }
{
    match atoms {
        Some(atoms) => edges.push(Edge { from, to, atoms }),
        None => Ok(()),
    }
}
