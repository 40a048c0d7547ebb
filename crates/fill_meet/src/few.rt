//! The ties of two small graphs, found without an index.
ghost use Rattle.std.specs.Prelude.{◌≡◌, ◌⊎◌, ◌<◌, ◌+◌, ◌*◌, ◌^◌, length, slice_get, IfOk, OnOk, Some};
ghost use Rattle.fill_arena.specs.Contents.{EachIn, IsAtomSet};
ghost use Rattle.fill_arena.specs.Stands.{AtomStands};
ghost use Rattle.fill_arena.specs.declared.entry.Entry.TheVariants.{Atoms};
ghost use Rattle.fill_meet.specs.Bits.{IsPlace};
ghost use Rattle.fill_meet.specs.Groups.{AreGroupsOf, AreKeys};
ghost use Rattle.fill_meet.specs.Meet.{AreApart};
ghost use Rattle.fill_meet.specs.Product.{ArePairable};
ghost use Rattle.fill_meet.specs.Ties.{AreOrdered, AreTies, IsBelow, IsPutTie, NameSets, SweepState};
ghost use Rattle.fill_meet.specs.Verdicts.{AreVerdicts};

use crate::apart::atoms_may_meet;
use crate::bits::Bits;
use crate::groups::Groups;
use crate::ties::{Graphs, Sweep, Tie, tie_reached};
use crate::verdicts::Verdicts;
use fill_arena::{Arena, AtomItem, Edge};
use fill_text::{List, NoMemory};
use std::alloc::Global;

/// The most pairs that the edges of the first one of two small graphs make with the items of the second one.
///
/// An index goes through all items of the second graph, and pays only where the pairs are many.
const SMALL_PAIRS: usize = 32_768;

/// How many answers on pairs of sets of places are kept for each edge of the second graph.
const ANSWERS_AN_EDGE: usize = 2;

/// The ties so far, and answers about pairs of sets.
#[derive(Drop)]
pub(crate) struct Few {
    pub(crate) sweep: Sweep,
    pub(crate) verdicts: Verdicts,
}

/// Whether the graphs are so small that an index takes longer than their edges in pairs. Each set has an item, so the items of
/// many edges are not counted.
pub(crate) fn are_few(arena: &Arena, graphs: Graphs<'_>) -> bool
    requires { EachIn (λ e. IsAtomSet arena.now e.atoms) graphs.ys.now }
{
    let edges = graphs.xs.len();
    if edges.saturating_mul(graphs.ys.len()) > SMALL_PAIRS {
        return false;
    }
    edges.saturating_mul(count_items(arena, graphs.ys)) <= SMALL_PAIRS
}

/// How many items the sets of the edges have.
fn count_items(arena: &Arena, edges: &[Edge]) -> usize
    requires { EachIn (λ e. IsAtomSet arena.now e.atoms) edges.now }
{
    let mut count: usize = 0;
    for i in 0..edges.len() {
        count = count.saturating_add(arena.atoms(edges[i].atoms).len());
    }
    count
}

/// The ties between pairs of nodes to which something leads from the first pair, as `find_ties` finds them.
pub(crate) fn find_few(
    alloc: Global,
    arena: &Arena,
    graphs: Graphs<'_>,
) -> Result<List<Tie>, NoMemory>
    requires some { 0 < graphs.height * graphs.width }
    requires nodes { graphs.height * graphs.width < 2 ^ 64 }
    requires edges { ArePairable arena.now graphs.height graphs.width graphs.xs.now graphs.ys.now }
    ensures ties { IfOk result (AreTies arena.now graphs.entry.width graphs.entry.xs.now graphs.entry.ys.now) }
    ensures ordered { IfOk result (AreOrdered (graphs.entry.height * graphs.entry.width)) }
    ensures sets { IfOk result (NameSets arena.now) }
{
    let mut reached = Bits::new(alloc, graphs.height, graphs.width)?;
    reached.put(0, 0);
    let sweep = Sweep {
        reached,
        ties: List::new(alloc),
    };
    let froms = first_nodes(alloc, graphs.ys)?;
    let by_from = Groups::new(alloc, graphs.width, froms.as_slice())?;
    let verdicts = Verdicts::new(alloc, graphs.ys.len().saturating_mul(ANSWERS_AN_EDGE))?;
    let mut few = Few { sweep, verdicts };
    for k in 0..graphs.xs.len() {
        try_edge(arena, graphs, &by_from, k, &mut few)?;
    }
    Ok(few.sweep.ties)
}

/// The nodes that the edges come from.
fn first_nodes(alloc: Global, edges: &[Edge]) -> Result<Vec<usize>, NoMemory>
    ensures { IfOk result (λ froms. AreKeys (λ e. e.from) edges.now froms.items) }
{
    let mut froms = vec![in alloc; 0; edges.len()]?;
    for i in 0..edges.len() {
        froms[i] = edges[i].from;
    }
    Ok(froms)
}

/// Ties the edge at place `k` of the first graph with those that may have an atom in common with it, where something leads to
/// their first pair of nodes.
fn try_edge(
    arena: &Arena,
    graphs: Graphs<'_>,
    by_from: &Groups,
    k: usize,
    few: &mut Few,
) -> Result<(), NoMemory>
    requires nodes { graphs.height * graphs.width < 2 ^ 64 }
    requires edges { ArePairable arena.now graphs.height graphs.width graphs.xs.now graphs.ys.now }
    requires groups { AreGroupsOf (λ e. e.from) graphs.ys.now by_from.now }
    requires within { k < length graphs.xs.now }
    requires verdicts { AreVerdicts arena.now few.old.verdicts }
    requires state { SweepState arena.now graphs k (λ b. ⊥) few.old.sweep }
    ensures verdicts { OnOk result (AreVerdicts arena.now few.new.verdicts) }
    ensures state { OnOk result (SweepState arena.now graphs.entry (k + 1) (λ b. ⊥) few.new.sweep) }
{
    let from = graphs.xs[k].from;
    let mut v = few.sweep.reached.next(from, 0, graphs.width);
    while v < graphs.width {
        try_node(arena, graphs, by_from, k, v, few)?;
        v = few.sweep.reached.next(from, v + 1, graphs.width);
    }
    Ok(())
}

/// Ties the edge at place `k` of the first graph with those out of a node of the second that may have an atom in common with
/// it.
fn try_node(
    arena: &Arena,
    graphs: Graphs<'_>,
    by_from: &Groups,
    k: usize,
    v: usize,
    few: &mut Few,
) -> Result<(), NoMemory>
    requires nodes { graphs.height * graphs.width < 2 ^ 64 }
    requires edges { ArePairable arena.now graphs.height graphs.width graphs.xs.now graphs.ys.now }
    requires groups { AreGroupsOf (λ e. e.from) graphs.ys.now by_from.now }
    requires within { k < length graphs.xs.now }
    requires verdicts { AreVerdicts arena.now few.old.verdicts }
    requires state { SweepState arena.now graphs k (IsBelow graphs.ys.now v) few.old.sweep }
    ensures verdicts { OnOk result (AreVerdicts arena.now few.new.verdicts) }
    ensures state { OnOk result (SweepState arena.now graphs.entry k (IsBelow graphs.entry.ys.now (v + 1)) few.new.sweep) }
{
    let items = arena.atoms(graphs.xs[k].atoms);
    let xs = graphs.xs;
    let ys = graphs.ys;
    let mut l = by_from.first(v);
    while l < ys.len() {
        try_edges(arena, graphs.width, &xs[k], items, &ys[l], few)?;
        l = by_from.next(l);
    }
    Ok(())
}

/// Ties two edges, to whose first pair of nodes something leads, if they may have an atom in common. The items are those of the
/// first edge's set.
fn try_edges(
    arena: &Arena,
    width: usize,
    x: &Edge,
    items: &[AtomItem],
    y: &Edge,
    few: &mut Few,
) -> Result<(), NoMemory>
    requires left { slice_get arena.now x.now.atoms ≡ Some (Atoms items.now) }
    requires right { IsAtomSet arena.now y.now.atoms }
    requires place { IsPlace x.now.to y.now.to few.old.sweep.reached }
    requires from { x.now.from * width + y.now.from < 2 ^ 64 }
    requires to { x.now.to * width + y.now.to < 2 ^ 64 }
    requires verdicts { AreVerdicts arena.now few.old.verdicts }
    ensures verdicts { OnOk result (AreVerdicts arena.now few.new.verdicts) }
    ensures tie { OnOk result (IsPutTie width x.now y.now few.old.sweep few.new.sweep ⊎ (AreApart AtomStands arena.now x.now.atoms y.now.atoms × (few.new.sweep ≡ few.old.sweep))) }
{
    arena.keeps_made();
    if !atoms_may_meet(arena, &mut few.verdicts, items, arena.atoms(y.atoms)) {
        return Ok(());
    }
    tie_reached(width, x, y, &mut few.sweep)
}
