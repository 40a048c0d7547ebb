//! The first programs of a graph.
ghost use Rattle.std.specs.Prelude.{◌≡◌, ℕ, ◌-◌, ◌<◌, ◌≤◌, ◌∷◌, [], map, List as Items, IfOk, OnOk, length};
ghost use Rattle.fill_tokens.specs.declared.prices.Prices.{Prices as Table};
ghost use Rattle.fill_tree.specs.Meaning.{program_tree};
ghost use Rattle.fill_tree.specs.Order.{program_cmp};
ghost use Rattle.fill_arena.specs.Contents.{IsAtomSet, IsGraph};
ghost use Rattle.fill_arena.specs.Stands.{ProgramStands, WalksAreCheap};
ghost use Rattle.fill_arena.specs.declared.entry.Edge.{Edge as Listed};
ghost use Rattle.fill_arena.specs.declared.entry.Entry.{Entry};
ghost use Rattle.fill_arena.specs.WellMade.{IsFirstEdge};
ghost use Rattle.fill_best.specs.First.{AreFirst};
ghost use Rattle.fill_best.specs.Memo.{IsMemoOf};
ghost use Rattle.fill_best.specs.Rests.{AreFirstRests};

use crate::atoms::atoms_of;
use crate::costed::Costed;
use crate::first::put_products;
use crate::memo::Memo;
use crate::plain::PlainAtoms;
use fill_arena::{Arena, Edge, GraphId};
use fill_text::{List, NoMemory};
use fill_tree::{MOST_PROGRAMS, Prices, Program};
use std::alloc::Global;
use std::mem;

/// The first `k` programs that stand in a graph, by the prices and the order of programs; all of them where they are fewer.
///
/// It goes over the edges in a topological order, from the back. So all that lead on from where an edge ends are done, and a table of each node's first rests of programs is enough.
pub fn best(
    alloc: Global,
    prices: &Prices,
    arena: &Arena,
    g: GraphId,
    k: u32,
) -> Result<List<Program>, NoMemory>
    requires live { IsGraph arena.now g }
    requires some { 1 ≤ k }
    requires few { k ≤ MOST_PROGRAMS }
    ensures { IfOk result (λ made. AreFirst (program_cmp prices.now) (ProgramStands arena.now g) k (map program_tree made)) }
{
    arena.keeps_made();
    prices.keep_small();
    let limit = k as usize;
    let edges = arena.sorted_edges(g);
    let mut rests = no_edges(alloc, arena.nodes(g))?;
    let mut memo = Memo::new(alloc);
    let mut to_go = edges.len();
    while to_go > 0 {
        to_go -= 1;
        take_edge(
            alloc,
            prices,
            arena,
            limit,
            &mut memo,
            &mut rests,
            edges[to_go],
        )?;
    }
    programs_of(alloc, mem::replace(&mut rests[0], Vec::new(alloc)))
}

/// The rests of programs where no edge is: the last node has the program without atoms.
fn no_edges(alloc: Global, nodes: usize) -> Result<Vec<Vec<Costed<PlainAtoms>>>, NoMemory>
    requires { 0 < nodes }
    ensures length { IfOk result (λ rests. length rests.items ≡ nodes) }
    ensures first { IfOk result (λ rests. (prices : Table) (c : Items Entry) (k : ℕ) → 1 ≤ k → AreFirstRests prices c [] (nodes - 1) k rests.items) }
{
    let mut rests = Vec::new(alloc);
    for _node in 1..nodes {
        rests.push(Vec::new(alloc))?;
    }
    let mut last = Vec::new(alloc);
    last.push(Costed {
        cost: 0,
        item: PlainAtoms::none(alloc),
    })?;
    rests.push(last)?;
    Ok(rests)
}

/// Takes one more edge, at the front of the others.
fn take_edge(
    alloc: Global,
    prices: &Prices,
    arena: &Arena,
    limit: usize,
    memo: &mut Memo,
    rests: &mut Vec<Vec<Costed<PlainAtoms>>>,
    edge: Edge,
) -> Result<(), NoMemory>
    requires set { IsAtomSet arena.now edge.atoms }
    requires some { 1 ≤ limit }
    requires onward { edge.from < edge.to }
    requires within { edge.to < length rests.old.items }
    requires memo { IsMemoOf prices.now arena.now limit memo.old }
    requires cheap { (others : Items Listed) × (last : ℕ) × AreFirstRests prices.now arena.now others last limit rests.old.items × WalksAreCheap prices.now arena.now (edge ∷ others) last }
    ensures memo { OnOk result (IsMemoOf prices.now arena.now limit memo.new) }
    ensures length { length rests.new.items ≡ length rests.old.items }
    ensures first { OnOk result ((others : Items Listed) (last : ℕ) → IsFirstEdge edge others →
        AreFirstRests prices.now arena.now others last limit rests.old.items → AreFirstRests prices.now arena.now (edge ∷ others) last limit rests.new.items) }
{
    let atoms = atoms_of(alloc, prices, arena, limit, memo, edge.atoms)?;
    let mut ranking = mem::replace(&mut rests[edge.from], Vec::new(alloc));
    put_products(
        alloc,
        &mut ranking,
        limit,
        prices.atom as u64,
        atoms.as_slice(),
        rests[edge.to].as_slice(),
    )?;
    rests[edge.from] = ranking;
    Ok(())
}

/// The programs without their costs.
fn programs_of(alloc: Global, rests: Vec<Costed<PlainAtoms>>) -> Result<List<Program>, NoMemory>
    ensures { IfOk result (λ made. map program_tree made ≡ map (λ rest. rest.item) rests.items) }
{
    let mut programs = List::new(alloc);
    for rest in rests {
        programs.push(rest.item.into_program())?;
    }
    Ok(programs)
}
