//! Graphs that were met already, so that none are met twice.
ghost use Rattle.std.specs.Prelude.{◌≡◌, ◌+◌, List, Some, IfOk, IfSome, MatchOption, OnErr, OnOk, OnSome};
ghost use Rattle.std.specs.HashMap.{get, Updates};
ghost use Rattle.fill_tree.specs.Tree.{Atoms};
ghost use Rattle.fill_arena.specs.Contents.{Extends, IsGraph};
ghost use Rattle.fill_arena.specs.Stands.{ProgramStands};
ghost use Rattle.fill_arena.specs.declared.entry.Entry.{Entry};
ghost use Rattle.fill_meet.specs.Meet.{IsMeet, NoneInBoth};
ghost use Rattle.fill_meet.specs.Memory.{pair_eq};
ghost use Rattle.fill_space.specs.Met.{AreTold, IsTold};

use fill_arena::{Arena, GraphId};
use fill_edge::{Ledger, Steps};
use fill_meet::meet::meet;
use fill_text::NoMemory;
use std::alloc::Global;
use std::collections::HashMap;

/// For pairs of graphs that were met, what that came to.
#[derive(Drop)]
pub(crate) struct Met {
    pub(crate) table: HashMap<(GraphId, GraphId), Option<GraphId>>,
}

impl Met {
    /// Nothing was met yet. Takes no memory.
    pub(crate) fn new(alloc: Global) -> Met
        ensures { (c : List Entry) → AreTold c result }
    {
        Met {
            table: HashMap::new(alloc),
        }
    }

    /// Keeps what meeting the two graphs came to. Where there is no room for it, all is forgotten.
    pub(crate) fn keep(&mut self, alloc: Global, a: GraphId, b: GraphId, made: &Option<GraphId>)
        ensures { (c : List Entry) → AreTold c self.old → IsTold c a b made.now → AreTold c self.new }
    {
        match put_met(&mut self.table, a, b, made) {
            Ok(()) => {}
            Err(NoMemory) => self.table = HashMap::new(alloc),
        }
    }
}

/// What meeting the two graphs came to, if they were met.
pub(crate) fn find_met(
    table: &HashMap<(GraphId, GraphId), Option<GraphId>>,
    a: GraphId,
    b: GraphId,
) -> Option<Option<GraphId>>
    ensures { IfSome result (λ made. get pair_eq table.now (a, b) ≡ Some made) }
{
    match table.get(&(a, b)) {
        Some(made) => Some(*made),
        None => None,
    }
}

fn put_met(
    table: &mut HashMap<(GraphId, GraphId), Option<GraphId>>,
    a: GraphId,
    b: GraphId,
    made: &Option<GraphId>,
) -> Result<(), NoMemory>
    ensures { OnOk result (Updates pair_eq table.old table.new (a, b) (Some made.now)) }
{
    match table.insert((a, b), *made) {
        Ok(_) => Ok(()),
        Err(_) => Err(NoMemory),
    }
}

/// The graph of the programs that stand in both graphs, or none where there are none: as [`meet`] finds it, in one step,
/// and where the two were met before, as it was found then.
pub(crate) fn meet_once<L: Ledger>(
    alloc: Global,
    arena: &mut Arena,
    met: &mut Met,
    a: GraphId,
    b: GraphId,
    steps: &mut Steps<L>,
) -> Result<Option<GraphId>, NoMemory>
    requires first { IsGraph arena.old a }
    requires second { IsGraph arena.old b }
    requires told { AreTold arena.old met.old }
    ensures told { AreTold arena.new met.new }
    ensures met { IfOk result (λ made. MatchOption made (NoneInBoth arena.old a b) (IsMeet arena.old a b arena.new)) }
    ensures some { IfOk result (λ made. OnSome made ((p : Atoms) × ProgramStands arena.old a p × ProgramStands arena.old b p)) }
    ensures extends { Extends arena.old arena.new }
    ensures err { OnErr result (arena.new ≡ arena.old) }
    ensures step { steps.new ≡ steps.old + 1 }
{
    arena.keeps_made();
    if let Some(made) = find_met(&met.table, a, b) {
        steps.tick();
        return Ok(made);
    }
    match meet(alloc, arena, a, b, steps) {
        Ok(made) => {
            met.keep(alloc, a, b, &made);
            Ok(made)
        }
        Err(want) => Err(want),
    }
}
