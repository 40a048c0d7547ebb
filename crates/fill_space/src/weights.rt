//! What the least programs of graphs cost, so that none is looked for twice.
ghost use Rattle.std.specs.Prelude.{◌≡◌, List, Some, nat_eq, IfOk, IfSome, OnOk};
ghost use Rattle.std.specs.HashMap.{get, Updates};
ghost use Rattle.fill_tokens.specs.declared.prices.Prices.{Prices as Table};
ghost use Rattle.fill_arena.specs.Contents.{IsGraph};
ghost use Rattle.fill_arena.specs.declared.entry.Entry.{Entry};
ghost use Rattle.fill_space.specs.Weighed.{AreWeighed, IsWeighed};

use fill_arena::{Arena, GraphId};
use fill_rank::least;
use fill_text::NoMemory;
use fill_tree::Prices;
use std::alloc::Global;
use std::collections::HashMap;

/// For graphs what the least of their programs costs.
#[derive(Drop)]
pub(crate) struct Weights {
    pub(crate) table: HashMap<GraphId, u64>,
}

impl Weights {
    /// No graph was weighed yet. Takes no memory.
    pub(crate) fn new(alloc: Global) -> Weights
        ensures { (prices : Table) (c : List Entry) → AreWeighed prices c result }
    {
        Weights {
            table: HashMap::new(alloc),
        }
    }

    /// Keeps what the least program of the graph costs. Where there is no room for it, all is forgotten.
    pub(crate) fn keep(&mut self, alloc: Global, graph: GraphId, cost: u64)
        ensures { (prices : Table) (c : List Entry) → AreWeighed prices c self.old → IsWeighed prices c graph cost → AreWeighed prices c self.new }
    {
        match put_weight(&mut self.table, graph, cost) {
            Ok(()) => {}
            Err(NoMemory) => self.table = HashMap::new(alloc),
        }
    }
}

/// What the least program of the graph costs, if that was found before.
fn find_weight(table: &HashMap<GraphId, u64>, graph: GraphId) -> Option<u64>
    ensures { IfSome result (λ cost. get nat_eq table.now graph ≡ Some cost) }
{
    match table.get(&graph) {
        Some(cost) => Some(*cost),
        None => None,
    }
}

fn put_weight(table: &mut HashMap<GraphId, u64>, graph: GraphId, cost: u64) -> Result<(), NoMemory>
    ensures { OnOk result (Updates nat_eq table.old table.new graph (Some cost)) }
{
    match table.insert(graph, cost) {
        Ok(_) => Ok(()),
        Err(_) => Err(NoMemory),
    }
}

/// What the least program of the graph costs, by the prices: as it was found before, where it was.
pub(crate) fn weigh_once(
    alloc: Global,
    prices: &Prices,
    arena: &Arena,
    weights: &mut Weights,
    graph: GraphId,
) -> Result<u64, NoMemory>
    requires graph { IsGraph arena.now graph }
    requires weighed { AreWeighed prices.now arena.now weights.old }
    ensures weighed { AreWeighed prices.now arena.now weights.new }
    ensures weight { IfOk result (IsWeighed prices.now arena.now graph) }
{
    if let Some(cost) = find_weight(&weights.table, graph) {
        return Ok(cost);
    }
    arena.keeps_made();
    prices.keep_small();
    let program = least(alloc, prices, arena, graph)?;
    let Some(cost) = program.cost(prices) else {
        unreachable!()
    };
    weights.keep(alloc, graph, cost);
    Ok(cost)
}
