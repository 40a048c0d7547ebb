//! The pairs of edges that may have an atom in common.
ghost use Rattle.std.specs.Prelude.{◌≡◌, ◌<◌, ◌≤◌, ◌+◌, ◌*◌, ◌^◌, ℕ, List, length, IfOk, OnOk};
ghost use Rattle.fill_arena.specs.declared.entry.Entry.{Entry};
ghost use Rattle.fill_trim.specs.Trim.{AreEdges};
ghost use Rattle.fill_meet.specs.Bits.{HasRoom, IsPlace};
ghost use Rattle.fill_meet.specs.Groups.{AreGroups};
ghost use Rattle.fill_meet.specs.Index.{IsIndex};
ghost use Rattle.fill_meet.specs.Product.{ArePairable};
ghost use Rattle.fill_meet.specs.Rows.{AreRows};
ghost use Rattle.fill_meet.specs.Ties.{AreMatesKept, AreOrdered, AreTies, IsInRow, IsInRowTo, IsPutTie, IsTried, NameSets, SweepState};

use crate::bits::Bits;
use crate::index::Index;
use crate::rows::Rows;
use crate::runs::Run;
use fill_arena::{Arena, AtomSet, Edge};
use fill_text::{List, NoMemory};
use std::alloc::Global;

/// Two edges that may have an atom in common, by the pairs of their nodes and their sets.
///
/// The pair of the nodes `i` and `j` has the number `i * width + j`. It has 32 bits, since there are many ties.
#[derive(Clone, Copy)]
pub(crate) struct Tie {
    pub(crate) from: u32,
    pub(crate) to: u32,
    pub(crate) left: AtomSet,
    pub(crate) right: AtomSet,
}

/// Two graphs: how many nodes each has, and its edges.
#[derive(Clone, Copy)]
pub(crate) struct Graphs<'a> {
    pub(crate) height: usize,
    pub(crate) width: usize,
    pub(crate) xs: &'a [Edge],
    pub(crate) ys: &'a [Edge],
}

/// The ties so far, and for each pair of nodes whether something leads to it.
#[derive(Drop)]
pub(crate) struct Sweep {
    pub(crate) reached: Bits,
    pub(crate) ties: List<Tie>,
}

/// The ties of two graphs, and the rows by which they were found.
#[derive(Drop)]
pub(crate) struct Net {
    pub(crate) sweep: Sweep,
    pub(crate) rows: Rows,
}

/// The ties between pairs of nodes to which something leads from the first pair.
///
/// The edges into a node stand before those out of it, so what leads to a pair of nodes is known once an edge of the first
/// graph comes from there.
pub(crate) fn find_ties(
    alloc: Global,
    arena: &Arena,
    index: &Index,
    graphs: Graphs<'_>,
) -> Result<Net, NoMemory>
    requires some { 0 < graphs.height * graphs.width }
    requires nodes { graphs.height * graphs.width < 2 ^ 64 }
    requires edges { ArePairable arena.now graphs.height graphs.width graphs.xs.now graphs.ys.now }
    requires index { IsIndex arena.now graphs.ys.now index.now }
    ensures ties { IfOk result (λ net. AreTies arena.now graphs.entry.width graphs.entry.xs.now graphs.entry.ys.now net.sweep.ties) }
    ensures ordered { IfOk result (λ net. AreOrdered (graphs.entry.height * graphs.entry.width) net.sweep.ties) }
    ensures sets { IfOk result (λ net. NameSets arena.now net.sweep.ties) }
    ensures rows { IfOk result (λ net. AreMatesKept arena.now index.now net.rows) }
{
    let mut reached = Bits::new(alloc, graphs.height, graphs.width)?;
    reached.put(0, 0);
    let sweep = Sweep {
        reached,
        ties: List::new(alloc),
    };
    let rows = Rows::new(alloc, index, graphs.xs.len())?;
    let mut net = Net { sweep, rows };
    for k in 0..graphs.xs.len() {
        tie_edge(arena, index, graphs, k, &mut net)?;
    }
    Ok(net)
}

/// Ties the edge at place `k` of the first graph with those whose sets are in the row of its set, if something leads to its
/// first node.
fn tie_edge(
    arena: &Arena,
    index: &Index,
    graphs: Graphs<'_>,
    k: usize,
    net: &mut Net,
) -> Result<(), NoMemory>
    requires nodes { graphs.height * graphs.width < 2 ^ 64 }
    requires edges { ArePairable arena.now graphs.height graphs.width graphs.xs.now graphs.ys.now }
    requires index { IsIndex arena.now graphs.ys.now index.now }
    requires within { k < length graphs.xs.now }
    requires rows { AreRows arena.now index.now net.old.rows }
    requires state { SweepState arena.now graphs k (λ b. ⊥) net.old.sweep }
    ensures rows { OnOk result (AreRows arena.now index.now net.new.rows) }
    ensures state { OnOk result (SweepState arena.now graphs.entry (k + 1) (λ b. ⊥) net.new.sweep) }
{
    let edge = graphs.xs[k];
    if !net.sweep.reached.has_some(edge.from) {
        return Ok(());
    }
    let row = net.rows.row_of(arena, index, edge.atoms)?;
    let numbers = net.rows.search.findings.rows.numbers.as_slice();
    tie_row(index, graphs, k, numbers, row, &mut net.sweep)
}

/// Ties the edge at place `k` of the first graph with those whose sets are in the run.
fn tie_row(
    index: &Index,
    graphs: Graphs<'_>,
    k: usize,
    numbers: &[usize],
    row: Run,
    sweep: &mut Sweep,
) -> Result<(), NoMemory>
    requires nodes { graphs.height * graphs.width < 2 ^ 64 }
    requires first { AreEdges graphs.height graphs.xs.now }
    requires second { AreEdges graphs.width graphs.ys.now }
    requires by_label { AreGroups index.now.labels.of.items index.now.by_label }
    requires long { length index.now.labels.of.items ≡ length graphs.ys.now }
    requires order { row.start ≤ row.end }
    requires row { row.end ≤ length numbers.now }
    requires within { k < length graphs.xs.now }
    requires room { HasRoom graphs.height graphs.width sweep.old.reached }
    ensures state { OnOk result ((c : List Entry) → SweepState c graphs.entry k (λ b. ⊥) sweep.old → SweepState c graphs.entry k (IsInRow index.now.labels.of.items numbers.now row.start row.end) sweep.new) }
{
    for p in row.start..row.end {
        tie_set(index, graphs, k, numbers[p], sweep)?;
    }
    Ok(())
}

/// Ties the edge at place `k` of the first graph with those of the set of the number.
fn tie_set(
    index: &Index,
    graphs: Graphs<'_>,
    k: usize,
    number: usize,
    sweep: &mut Sweep,
) -> Result<(), NoMemory>
    requires nodes { graphs.height * graphs.width < 2 ^ 64 }
    requires first { AreEdges graphs.height graphs.xs.now }
    requires second { AreEdges graphs.width graphs.ys.now }
    requires by_label { AreGroups index.now.labels.of.items index.now.by_label }
    requires long { length index.now.labels.of.items ≡ length graphs.ys.now }
    requires within { k < length graphs.xs.now }
    requires room { HasRoom graphs.height graphs.width sweep.old.reached }
    ensures state { OnOk result ((c : List Entry) (numbers : List ℕ) (start p : ℕ) → SweepState c graphs.entry k (IsInRowTo index.now.labels.of.items numbers start p number 0) sweep.old →
        SweepState c graphs.entry k (IsInRowTo index.now.labels.of.items numbers start p number (length graphs.entry.ys.now)) sweep.new) }
    ensures room { OnOk result (HasRoom graphs.entry.height graphs.entry.width sweep.new.reached) }
{
    let xs = graphs.xs;
    let ys = graphs.ys;
    let mut l = index.by_label.first(number);
    while l < ys.len() {
        tie_edges(graphs.width, &xs[k], &ys[l], sweep)?;
        l = index.by_label.next(l);
    }
    Ok(())
}

/// Ties two edges, if something leads to their first pair of nodes.
fn tie_edges(width: usize, x: &Edge, y: &Edge, sweep: &mut Sweep) -> Result<(), NoMemory>
    requires first { IsPlace x.now.from y.now.from sweep.old.reached }
    requires second { IsPlace x.now.to y.now.to sweep.old.reached }
    requires from { x.now.from * width + y.now.from < 2 ^ 64 }
    requires to { x.now.to * width + y.now.to < 2 ^ 64 }
    ensures { OnOk result (IsTried width x.now y.now sweep.old sweep.new) }
{
    if !sweep.reached.has(x.from, y.from) {
        return Ok(());
    }
    tie_reached(width, x, y, sweep)
}

/// Ties two edges, to whose first pair of nodes something leads.
pub(crate) fn tie_reached(
    width: usize,
    x: &Edge,
    y: &Edge,
    sweep: &mut Sweep,
) -> Result<(), NoMemory>
    requires second { IsPlace x.now.to y.now.to sweep.old.reached }
    requires from { x.now.from * width + y.now.from < 2 ^ 64 }
    requires to { x.now.to * width + y.now.to < 2 ^ 64 }
    ensures { OnOk result (IsPutTie width x.now y.now sweep.old sweep.new) }
{
    let tie = Tie {
        from: pair_number(x.from * width + y.from)?,
        to: pair_number(x.to * width + y.to)?,
        left: x.atoms,
        right: y.atoms,
    };
    sweep.ties.push(tie)?;
    sweep.reached.put(x.to, y.to);
    Ok(())
}

/// The number of a pair of nodes in 32 bits. A graph that needs more is out of memory.
fn pair_number(pair: usize) -> Result<u32, NoMemory>
    ensures { IfOk result (λ number. number ≡ pair) }
{
    match u32::try_from(pair) {
        Ok(number) => Ok(number),
        Err(_) => Err(NoMemory),
    }
}
