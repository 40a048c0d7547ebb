//! What is known of graphs that were met, built or weighed, after their arena was copied or cut.
ghost use Rattle.std.specs.Prelude.{◌≡◌, ◌<◌, List, length, nat_eq, slice_get, Some, IfOk, IfSome, OnOk};
ghost use Rattle.std.specs.HashMap.{get, Updates};
ghost use Rattle.fill_tokens.specs.declared.prices.Prices.{Prices};
ghost use Rattle.fill_arena.specs.declared.entry.Entry.{Entry};
ghost use Rattle.fill_space.specs.Built.{AreBuilt, IsBuilt};
ghost use Rattle.fill_space.specs.Met.{AreRenamed, AreReplaced, AreTold, IsRenamed, IsTold};
ghost use Rattle.fill_space.specs.Weighed.{AreWeighed, IsWeighed};
ghost use Rattle.fill_space.specs.declared.ground.Ground.{Ground};

use crate::built::{Built, BuiltFor};
use crate::met::Met;
use crate::weights::Weights;
use fill_arena::{GraphId, Mark};
use fill_text::NoMemory;
use std::alloc::Global;
use std::collections::HashMap;

/// The numbers of graphs in an arena that was changed.
#[derive(Drop)]
pub(crate) enum Renaming {
    /// The arena was copied: for each listed graph the one that replaces it.
    Copied(HashMap<GraphId, GraphId>),
    /// The arena was cut: what came before the mark has its number still.
    Cut(Mark),
}

/// For each listed graph the one that replaces it; nothing where there is no room for it.
pub(crate) fn known_copies(
    alloc: Global,
    listed: &[GraphId],
    new: &[GraphId],
) -> HashMap<GraphId, GraphId>
    requires { length new.now ≡ length listed.now }
    ensures { AreReplaced listed.now new.now result }
{
    match copies_of(alloc, listed, new) {
        Ok(copies) => copies,
        Err(NoMemory) => HashMap::new(alloc),
    }
}

/// For each listed graph the one that replaces it.
fn copies_of(
    alloc: Global,
    listed: &[GraphId],
    new: &[GraphId],
) -> Result<HashMap<GraphId, GraphId>, NoMemory>
    requires { length new.now ≡ length listed.now }
    ensures { IfOk result (AreReplaced listed.now new.now) }
{
    let mut copies = HashMap::new(alloc);
    for i in 0..listed.len() {
        put_copy(&mut copies, graph_at(listed, i), graph_at(new, i))?;
    }
    Ok(copies)
}

fn graph_at(graphs: &[GraphId], i: usize) -> GraphId
    requires { i < length graphs.now }
    ensures { slice_get graphs.now i ≡ Some result }
{
    graphs[i]
}

fn put_copy(
    copies: &mut HashMap<GraphId, GraphId>,
    graph: GraphId,
    copy: GraphId,
) -> Result<(), NoMemory>
    ensures { OnOk result (Updates nat_eq copies.old copies.new graph (Some copy)) }
{
    match copies.insert(graph, copy) {
        Ok(_) => Ok(()),
        Err(_) => Err(NoMemory),
    }
}

/// The number that the graph has now, if that is known.
fn renamed(renaming: &Renaming, graph: GraphId) -> Option<GraphId>
    ensures { IfSome result (IsRenamed renaming.now graph) }
{
    match renaming {
        Renaming::Copied(copies) => copy_of(copies, graph),
        Renaming::Cut(mark) => kept_before(*mark, graph),
    }
}

/// The graph that replaces this one, if it is listed.
fn copy_of(copies: &HashMap<GraphId, GraphId>, graph: GraphId) -> Option<GraphId>
    ensures { IfSome result (λ copy. get nat_eq copies.now graph ≡ Some copy) }
{
    match copies.get(&graph) {
        Some(copy) => Some(*copy),
        None => None,
    }
}

/// The graph itself, if it came before the mark.
fn kept_before(mark: Mark, graph: GraphId) -> Option<GraphId>
    ensures { IfSome result (λ kept. (kept ≡ graph) × (graph < mark)) }
{
    if graph.is_before(mark) {
        Some(graph)
    } else {
        None
    }
}

/// What is known of pairs of graphs, told of their new numbers. Where there is no room for it, less is known.
pub(crate) fn carry_met(alloc: Global, met: &Met, renaming: &Renaming) -> Met
    ensures { (c d : List Entry) → AreTold c met.now → AreRenamed c d renaming.now → AreTold d result }
{
    let mut carried = Met::new(alloc);
    for (pair, made) in met.table.iter() {
        carry_pair(alloc, renaming, pair, made, &mut carried);
    }
    carried
}

/// What is known of one pair, if it and what it came to have new numbers.
fn carry_pair(
    alloc: Global,
    renaming: &Renaming,
    pair: &(GraphId, GraphId),
    made: &Option<GraphId>,
    carried: &mut Met,
)
    ensures { (c d : List Entry) → IsTold c pair.now.0 pair.now.1 made.now → AreRenamed c d renaming.now → AreTold d carried.old → AreTold d carried.new }
{
    let Some(x) = renamed(renaming, pair.0) else {
        return;
    };
    let Some(y) = renamed(renaming, pair.1) else {
        return;
    };
    match made {
        None => carried.keep(alloc, x, y, &None),
        Some(graph) => {
            let Some(now) = renamed(renaming, *graph) else {
                return;
            };
            carried.keep(alloc, x, y, &Some(now));
        }
    }
}

/// What is known of graphs of single examples, told of their new numbers. Where there is no room for it, less is known.
/// Sets of places that were found for them are not carried over.
pub(crate) fn carry_built(alloc: Global, built: &Built, renaming: &Renaming) -> Built
    ensures { (g : Ground) (c d : List Entry) → AreBuilt g c built.now → AreRenamed c d renaming.now → AreBuilt g d result }
{
    let mut carried = Built::new(alloc);
    for (row, found) in built.table.iter() {
        carry_row(alloc, renaming, *row, found, &mut carried);
    }
    carried
}

/// What is known of one row's example, if its graph has a new number.
fn carry_row(alloc: Global, renaming: &Renaming, row: u32, found: &BuiltFor, carried: &mut Built)
    ensures { (g : Ground) (c d : List Entry) → IsBuilt g c row found.now.text found.now.graph → AreRenamed c d renaming.now → AreBuilt g d carried.old → AreBuilt g d carried.new }
{
    let Some(now) = renamed(renaming, found.graph) else {
        return;
    };
    carried.keep(alloc, row, &found.text, now);
}

/// What the least programs of graphs cost, told of their new numbers. Where there is no room for it, less is known.
pub(crate) fn carry_weights(alloc: Global, weights: &Weights, renaming: &Renaming) -> Weights
    ensures { (prices : Prices) (c d : List Entry) → AreWeighed prices c weights.now → AreRenamed c d renaming.now → AreWeighed prices d result }
{
    let mut carried = Weights::new(alloc);
    for (graph, cost) in weights.table.iter() {
        carry_weight(alloc, renaming, *graph, *cost, &mut carried);
    }
    carried
}

/// What one graph's least program costs, if the graph has a new number.
fn carry_weight(
    alloc: Global,
    renaming: &Renaming,
    graph: GraphId,
    cost: u64,
    carried: &mut Weights,
)
    ensures { (prices : Prices) (c d : List Entry) → IsWeighed prices c graph cost → AreRenamed c d renaming.now → AreWeighed prices d carried.old → AreWeighed prices d carried.new }
{
    if let Some(now) = renamed(renaming, graph) {
        carried.keep(alloc, now, cost);
    }
}
