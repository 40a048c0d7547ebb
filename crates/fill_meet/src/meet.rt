//! The intersection of graphs.
ghost use Rattle.std.specs.Prelude.{◌≡◌, ◌+◌, Ok, Some, IfOk, OnErr, OnSome, IfNone, MatchOption};
ghost use Rattle.fill_tree.specs.Tree.{Atoms};
ghost use Rattle.fill_arena.specs.Contents.{Extends, IsGraph};
ghost use Rattle.fill_arena.specs.Stands.{ProgramStands};
ghost use Rattle.fill_meet.specs.Meet.{IsMeet, NoneInBoth};
ghost use Rattle.fill_meet.specs.Walked.{IsWalked};

use crate::product::{pair_edges, tie_graphs};
use crate::ties::Graphs;
use fill_arena::{Arena, GraphId};
use fill_edge::{Ledger, Steps};
use fill_text::NoMemory;
use fill_trim::trim::{Trimmed, trim};
use std::alloc::Global;

/// The graph of the programs that stand in both graphs, or none where there are none.
///
/// Of a graph and itself that is the graph. Where it makes no graph, it leaves the arena as it was. It takes one step,
/// whatever it answers.
pub fn meet<L: Ledger>(
    alloc: Global,
    arena: &mut Arena,
    a: GraphId,
    b: GraphId,
    steps: &mut Steps<L>,
) -> Result<Option<GraphId>, NoMemory>
    requires first { IsGraph arena.old a }
    requires second { IsGraph arena.old b }
    ensures met { IfOk result (λ made. MatchOption made (NoneInBoth arena.old a b) (IsMeet arena.old a b arena.new)) }
    ensures some { IfOk result (λ made. OnSome made ((p : Atoms) × ProgramStands arena.old a p × ProgramStands arena.old b p)) }
    ensures none { IfOk result (λ made. IfNone made (arena.new ≡ arena.old)) }
    ensures same { a ≡ b → (result ≡ Ok (Some a)) × (arena.new ≡ arena.old) }
    ensures extends { Extends arena.old arena.new }
    ensures err { OnErr result (arena.new ≡ arena.old) }
    ensures step { steps.new ≡ steps.old + 1 }
{
    if a == b {
        arena.keeps_made();
        steps.tick();
        return Ok(Some(a));
    }
    let mark = arena.mark();
    match meet_uncut(alloc, arena, a, b, steps) {
        Ok(Some(made)) => {
            arena.keeps_made();
            Ok(Some(made))
        }
        Ok(None) => {
            arena.cut(mark);
            Ok(None)
        }
        Err(e) => {
            arena.cut(mark);
            Err(e)
        }
    }
}

/// The graph that is met, with the sets of the product left in the arena.
fn meet_uncut<L: Ledger>(
    alloc: Global,
    arena: &mut Arena,
    a: GraphId,
    b: GraphId,
    steps: &mut Steps<L>,
) -> Result<Option<GraphId>, NoMemory>
    requires first { IsGraph arena.old a }
    requires second { IsGraph arena.old b }
    ensures met { IfOk result (λ made. MatchOption made (NoneInBoth arena.old a b) (IsMeet arena.old a b arena.new)) }
    ensures extends { Extends arena.old arena.new }
    ensures step { steps.new ≡ steps.old + 1 }
{
    match meet_walks(alloc, arena, a, b) {
        Ok(Some(walked)) => match arena.intern_graph(walked.nodes, walked.edges, steps) {
            Ok(made) => Ok(Some(made)),
            Err(e) => Err(e),
        },
        Ok(None) => {
            steps.tick();
            Ok(None)
        }
        Err(e) => {
            steps.tick();
            Err(e)
        }
    }
}

/// The product of the two graphs, without the nodes that lie on no walk.
fn meet_walks(
    alloc: Global,
    arena: &mut Arena,
    a: GraphId,
    b: GraphId,
) -> Result<Option<Trimmed>, NoMemory>
    requires first { IsGraph arena.old a }
    requires second { IsGraph arena.old b }
    ensures met { IfOk result (λ made. MatchOption made (NoneInBoth arena.old a b) (IsWalked arena.old a b arena.new)) }
    ensures extends { Extends arena.old arena.new }
{
    arena.keeps_made();
    let height = arena.nodes(a);
    let width = arena.nodes(b);
    let Some(nodes) = height.checked_mul(width) else {
        return Err(NoMemory);
    };
    let graphs = Graphs {
        height,
        width,
        xs: arena.sorted_edges(a),
        ys: arena.sorted_edges(b),
    };
    let tied = tie_graphs(alloc, arena, graphs)?;
    let edges = pair_edges(alloc, arena, &tied, nodes)?;
    // Their room is for what comes now.
    drop(tied);
    trim(alloc, nodes, edges.as_slice())
}
