//! The least program of a graph.
ghost use Rattle.std.specs.Prelude.{◌≡◌, ℕ, ◌-◌, ◌<◌, ◌∷◌, [], List as Items, IfOk, OnOk, length};
ghost use Rattle.fill_tokens.specs.declared.prices.Prices.{Prices as Table};
ghost use Rattle.fill_tree.specs.Chosen.{IsLeast};
ghost use Rattle.fill_tree.specs.Meaning.{program_tree};
ghost use Rattle.fill_arena.specs.Contents.{IsAtomSet, IsGraph};
ghost use Rattle.fill_arena.specs.Stands.{ProgramStands, WalksAreCheap};
ghost use Rattle.fill_arena.specs.declared.entry.Edge.{Edge as Listed};
ghost use Rattle.fill_arena.specs.declared.entry.Entry.{Entry};
ghost use Rattle.fill_rank.specs.Memo.{IsMemoOf};
ghost use Rattle.fill_rank.specs.Sets.{AreBestRests};
ghost use Rattle.fill_arena.specs.WellMade.{IsFirstEdge};

use crate::chain::{is_beaten, is_dearer, lesser, put_atom};
use crate::memo::Memo;
use crate::sets::{atom_of, bound_of};
use fill_arena::{Arena, Edge, GraphId};
use fill_text::NoMemory;
use fill_tree::{Chain, Prices, Program};
use std::alloc::Global;

/// The least program that stands in a graph, by the prices.
///
/// It goes over the edges in a topological order, from the back. So all that lead on from where an edge ends are done, and a table of each node's least rest of a program is enough.
pub fn least(alloc: Global, prices: &Prices, arena: &Arena, g: GraphId) -> Result<Program, NoMemory>
    requires { IsGraph arena.now g }
    ensures { IfOk result (λ p. IsLeast prices.now (ProgramStands arena.now g) (program_tree p)) }
{
    arena.keeps_made();
    prices.keep_small();
    let edges = arena.sorted_edges(g);
    let mut rests = no_edges(alloc, arena.nodes(g))?;
    let mut memo = Memo::new(alloc, edges.len())?;
    let mut left = edges.len();
    while left > 0 {
        left -= 1;
        take_edge(alloc, prices, arena, &mut memo, &mut rests, edges[left])?;
    }
    let Some(first) = rests[0].take() else {
        unreachable!()
    };
    Ok(first.atoms)
}

/// The rests of programs where no edge is: the last node has the program without atoms.
fn no_edges(alloc: Global, nodes: usize) -> Result<Vec<Option<Chain>>, NoMemory>
    requires { 0 < nodes }
    ensures length { IfOk result (λ rests. length rests.items ≡ nodes) }
    ensures best { (prices : Table) (c : Items Entry) → IfOk result (λ rests. AreBestRests prices c [] (nodes - 1) rests.items) }
{
    let mut rests = Vec::new(alloc);
    for _node in 1..nodes {
        rests.push(None)?;
    }
    rests.push(Some(Chain::empty(alloc)))?;
    Ok(rests)
}

/// Takes one more edge, at the front of the others.
fn take_edge(
    alloc: Global,
    prices: &Prices,
    arena: &Arena,
    memo: &mut Memo,
    rests: &mut Vec<Option<Chain>>,
    edge: Edge,
) -> Result<(), NoMemory>
    requires set { IsAtomSet arena.now edge.atoms }
    requires from { edge.from < length rests.old.items }
    requires to { edge.to < length rests.old.items }
    requires memo { IsMemoOf prices.now arena.now memo.old }
    requires cheap { (others : Items Listed) × (last : ℕ) × AreBestRests prices.now arena.now others last rests.old.items × WalksAreCheap prices.now arena.now (edge ∷ others) last }
    ensures memo { OnOk result (IsMemoOf prices.now arena.now memo.new) }
    ensures length { length rests.new.items ≡ length rests.old.items }
    ensures best { OnOk result ((last : ℕ) (others : Items Listed) → IsFirstEdge edge others →
        AreBestRests prices.now arena.now others last rests.old.items → AreBestRests prices.now arena.now (edge ∷ others) last rests.new.items) }
{
    let bound = bound_of(prices, arena, memo, edge.atoms);
    if is_beaten(prices, &rests[edge.from], bound, &rests[edge.to]) {
        return Ok(());
    }
    let atom = atom_of(alloc, prices, arena, memo, edge.atoms)?;
    if is_dearer(prices, &rests[edge.from], &atom, &rests[edge.to]) {
        return Ok(());
    }
    let along = put_atom(alloc, prices, &atom, &rests[edge.to])?;
    let before = rests[edge.from].take();
    rests[edge.from] = lesser(before, along);
    Ok(())
}
