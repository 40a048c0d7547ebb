//! Graphs of single examples that were built already, so that none is built twice.
ghost use Rattle.std.specs.Prelude.{◌≡◌, ◌+◌, List, [], ◌∷◌, Some, nat_eq, IfOk, IfSome, MatchOption, OnErr, OnOk};
ghost use Rattle.std.specs.HashMap.{get, Updates};
ghost use Rattle.fill_tree.specs.Grammar.{AreSettings};
ghost use Rattle.fill_arena.specs.Contents.{Extends};
ghost use Rattle.fill_arena.specs.declared.entry.Entry.{Entry};
ghost use Rattle.fill_space.specs.Built.{AreBuilt, IsBuilt};
ghost use Rattle.fill_space.specs.Ground.{FitsOn, MayStand};
ghost use Rattle.fill_space.specs.Spaces.{SpaceStands, spaces_over};
ghost use Rattle.fill_space.specs.declared.ground.Ground.{Ground as Over};

use crate::ground::Ground;
use fill_arena::{Arena, GraphId};
use fill_build::build_with;
use fill_edge::{Ledger, Steps};
use fill_sources::PlaceMemory;
use fill_text::{NoMemory, Text};
use fill_tree::Example;
use std::alloc::Global;
use std::collections::HashMap;

/// The graph of a row's example, and that example's text.
#[derive(Drop)]
pub(crate) struct BuiltFor {
    pub(crate) text: Text,
    pub(crate) graph: GraphId,
}

/// For rows the last graph that was built for an example of the row, and the sets of places that were found for these graphs.
#[derive(Drop)]
pub(crate) struct Built {
    pub(crate) table: HashMap<u32, BuiltFor>,
    pub(crate) places: PlaceMemory,
}

impl Built {
    /// Nothing was built yet. Takes no memory.
    pub(crate) fn new(alloc: Global) -> Built
        ensures { (g : Over) (c : List Entry) → AreBuilt g c result }
    {
        Built {
            table: HashMap::new(alloc),
            places: PlaceMemory::new(alloc),
        }
    }

    /// Keeps the graph of the row's example. Where there is no room for it, all graphs are forgotten.
    pub(crate) fn keep(&mut self, alloc: Global, row: u32, text: &Text, graph: GraphId)
        ensures { (g : Over) (c : List Entry) → AreBuilt g c self.old → IsBuilt g c row text.now graph → AreBuilt g c self.new }
    {
        match put_built(&mut self.table, row, text, graph) {
            Ok(()) => {}
            Err(NoMemory) => self.table = HashMap::new(alloc),
        }
    }
}

/// The graph of the row's example, if the last one that was built for the row is that of this text.
fn find_built(table: &HashMap<u32, BuiltFor>, row: u32, text: &Text) -> Option<GraphId>
    ensures { IfSome result (λ graph. get nat_eq table.now row ≡ Some (record { text = text.now; graph = graph })) }
{
    let Some(built) = table.get(&row) else {
        return None;
    };
    if built.text.same(text) {
        Some(built.graph)
    } else {
        None
    }
}

fn put_built(
    table: &mut HashMap<u32, BuiltFor>,
    row: u32,
    text: &Text,
    graph: GraphId,
) -> Result<(), NoMemory>
    ensures { OnOk result (Updates nat_eq table.old table.new row (Some (record { text = text.now; graph = graph }))) }
{
    let text = text.copy()?;
    match table.insert(row, BuiltFor { text, graph }) {
        Ok(_) => Ok(()),
        Err(_) => Err(NoMemory),
    }
}

/// The graph of the programs that explain the example, or none where there are none: as [`build_with`] finds it, in one step, and
/// where it was the last one that was built for the row, as it was found then.
pub(crate) fn build_once<L: Ledger>(
    alloc: Global,
    arena: &mut Arena,
    built: &mut Built,
    ground: &Ground,
    example: &Example,
    steps: &mut Steps<L>,
) -> Result<Option<GraphId>, NoMemory>
    requires allowed { MayStand ground.now example.now }
    requires settings { AreSettings ground.now.settings }
    requires built { AreBuilt ground.now arena.old built.old }
    ensures built { AreBuilt ground.now arena.new built.new }
    ensures one { IfOk result (λ made. MatchOption made (FitsOn ground.now (example.now ∷ []) → ⊥) (λ graph. SpaceStands (spaces_over ground.now arena.new) graph (example.now ∷ []))) }
    ensures extends { Extends arena.old arena.new }
    ensures err { OnErr result (arena.new ≡ arena.old) }
    ensures step { steps.new ≡ steps.old + 1 }
{
    arena.keeps_made();
    let row = example.row;
    let text = &example.text;
    if let Some(graph) = find_built(&built.table, row, text) {
        steps.tick();
        return Ok(Some(graph));
    }
    match build_with(
        alloc,
        &mut built.places,
        arena,
        row,
        text,
        &ground.sheet,
        &ground.tables,
        &ground.settings,
        steps,
    ) {
        Ok(Some(graph)) => {
            built.keep(alloc, row, text, graph);
            Ok(Some(graph))
        }
        Ok(None) => Ok(None),
        Err(want) => Err(want),
    }
}
