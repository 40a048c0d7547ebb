//! The edges of two graphs in pairs.
ghost use Rattle.std.specs.Prelude.{◌≡◌, ◌<◌, ◌*◌, ◌^◌, ℕ, List as Listed, length, IfOk, IfSome, OnOk};
ghost use Rattle.fill_arena.specs.Contents.{Extends, IsAtomSet};
ghost use Rattle.fill_arena.specs.declared.entry.Edge.{Edge};
ghost use Rattle.fill_trim.specs.Marks.{spread};
ghost use Rattle.fill_trim.specs.Trim.{AreEdges};
ghost use Rattle.fill_meet.specs.Guides.{IsGuide};
ghost use Rattle.fill_meet.specs.Joins.{AreClosed, AreJoined, AreLive, IsJoinedTo};
ghost use Rattle.fill_meet.specs.Memory.{IsRight};
ghost use Rattle.fill_meet.specs.Product.{ArePairable, IsProduct};
ghost use Rattle.fill_meet.specs.Sets.{AtomSetsMeet};
ghost use Rattle.fill_meet.specs.Ties.{AreOrdered, AreTies, NameSets};
ghost use Rattle.fill_meet.specs.Tied.{AreTied};

use crate::apart::are_many;
use crate::few::{are_few, find_few};
use crate::index::Index;
use crate::makes::{Guide, make_guided};
use crate::memo::{Memo, find_atoms};
use crate::sets::make_atoms;
use crate::ties::{Graphs, Net, Tie, find_ties};
use fill_arena::{Arena, AtomSet, Edge};
use fill_text::{List, NoMemory};
use std::alloc::Global;

/// The ties of two graphs; of large ones also what finds the items of the second one's sets.
#[derive(Drop)]
pub(crate) struct Tied {
    pub(crate) ties: List<Tie>,
    pub(crate) guide: Option<Guide>,
}

/// The pairs of edges that may have an atom in common, which makes no set.
pub(crate) fn tie_graphs(alloc: Global, arena: &Arena, graphs: Graphs<'_>) -> Result<Tied, NoMemory>
    requires some { 0 < graphs.height * graphs.width }
    requires nodes { graphs.height * graphs.width < 2 ^ 64 }
    requires edges { ArePairable arena.now graphs.height graphs.width graphs.xs.now graphs.ys.now }
    ensures { IfOk result (AreTied arena.now graphs.entry) }
{
    if are_few(arena, graphs) {
        let ties = find_few(alloc, arena, graphs)?;
        return Ok(Tied { ties, guide: None });
    }
    let index = Index::new(alloc, arena, graphs.ys)?;
    let Net { sweep, rows } = find_ties(alloc, arena, &index, graphs)?;
    let search = rows.search;
    let guide = Guide {
        index,
        mates: search.mates,
    };
    Ok(Tied {
        ties: sweep.ties,
        guide: Some(guide),
    })
}

/// The edges that pair an edge of each graph and have the atoms of both, those that some walk from the first pair of nodes
/// to the last one may take.
///
/// Of the ties those that lead to the last pair get their sets.
pub(crate) fn pair_edges(
    alloc: Global,
    arena: &mut Arena,
    tied: &Tied,
    nodes: usize,
) -> Result<List<Edge>, NoMemory>
    requires some { 0 < nodes }
    requires ordered { AreOrdered nodes tied.now.ties }
    requires sets { NameSets arena.old tied.now.ties }
    requires guide { IfSome tied.now.guide (IsGuide arena.old) }
    ensures extends { Extends arena.old arena.new }
    ensures product { (h w : ℕ) (xs ys : Listed Edge) → nodes ≡ h * w → AreTies arena.old w xs ys tied.now.ties → IfOk result (IsProduct arena.new h w xs ys) }
    ensures edges { IfOk result (AreEdges nodes) }
{
    let ties = tied.ties.as_slice();
    let live = leading_to_last(alloc, nodes, ties)?;
    join_ties(alloc, arena, &tied.guide, live.as_slice(), ties)
}

/// The nodes that lead to the last one, found by a pass from the back.
fn leading_to_last(alloc: Global, nodes: usize, ties: &[Tie]) -> Result<Vec<bool>, NoMemory>
    requires some { 0 < nodes }
    requires ties { AreOrdered nodes ties.now }
    ensures { IfOk result (λ marks. AreLive nodes ties.now marks.items) }
{
    let mut marks = vec![in alloc; false; nodes]?;
    marks[nodes - 1] = true;
    spread_back(marks.as_mut_slice(), ties);
    Ok(marks)
}

/// Marks what leads to a marked node.
fn spread_back(marks: &mut [bool], ties: &[Tie])
    requires { AreOrdered (length marks.old) ties.now }
    ensures { AreClosed ties.now marks.old marks.new }
{
    let mut i = ties.len();
    while i > 0 {
        i -= 1;
        let tie = ties[i];
        spread(marks, tie.to as usize, tie.from as usize);
    }
}

/// Marks the second node where the first one is marked.
fn spread(marks: &mut [bool], from: usize, to: usize)
    requires from { from < length marks.old }
    requires to { to < length marks.old }
    ensures { marks.new ≡ spread marks.old from to }
{
    if marks[from] {
        marks[to] = true;
    }
}

/// The edges of the ties that lead to a live node and have an atom in common.
fn join_ties(
    alloc: Global,
    arena: &mut Arena,
    guide: &Option<Guide>,
    live: &[bool],
    ties: &[Tie],
) -> Result<List<Edge>, NoMemory>
    requires guide { IfSome guide.now (IsGuide arena.old) }
    requires ties { AreOrdered (length live.now) ties.now }
    requires sets { NameSets arena.old ties.now }
    ensures extends { Extends arena.old arena.new }
    ensures joined { IfOk result (AreJoined arena.new live.now ties.now) }
{
    let mut memo = Memo::new(alloc, ties.len())?;
    let mut edges = List::with_capacity(alloc, count_live(live, ties))?;
    for i in 0..ties.len() {
        let tie = ties[i];
        if !live[tie.to as usize] {
            continue;
        }
        join(arena, &mut memo, guide, tie, &mut edges)?;
    }
    Ok(edges)
}

/// How many ties lead to a live node.
fn count_live(live: &[bool], ties: &[Tie]) -> usize {
    let mut count: usize = 0;
    for i in 0..ties.len() {
        let to = ties[i].to as usize;
        if to < live.len() && live[to] {
            count = count.saturating_add(1);
        }
    }
    count
}

/// Puts the tie's edge at the end, if some atom stands in both its sets.
fn join(
    arena: &mut Arena,
    memo: &mut Memo,
    guide: &Option<Guide>,
    tie: Tie,
    edges: &mut List<Edge>,
) -> Result<(), NoMemory>
    requires memo { IsRight arena.old memo.old }
    requires guide { IfSome guide.now (IsGuide arena.old) }
    requires first { IsAtomSet arena.old tie.left }
    requires second { IsAtomSet arena.old tie.right }
    ensures extends { Extends arena.old arena.new }
    ensures memo { OnOk result (IsRight arena.new memo.new) }
    ensures joined { OnOk result (IsJoinedTo arena.new tie edges.old edges.new) }
{
    let Some(atoms) = edge_atoms(arena, memo, guide, tie.left, tie.right)? else {
        return Ok(());
    };
    edges.push(Edge {
        from: tie.from as usize,
        to: tie.to as usize,
        atoms,
    })
}

/// The set of the atoms that stand in both sets of edges, or none.
///
/// A table keeps it only where the sets have many items: few pairs of other sets come again.
fn edge_atoms(
    arena: &mut Arena,
    memo: &mut Memo,
    guide: &Option<Guide>,
    s: AtomSet,
    t: AtomSet,
) -> Result<Option<AtomSet>, NoMemory>
    requires memo { IsRight arena.old memo.old }
    requires guide { IfSome guide.now (IsGuide arena.old) }
    requires first { IsAtomSet arena.old s }
    requires second { IsAtomSet arena.old t }
    ensures extends { Extends arena.old arena.new }
    ensures memo { OnOk result (IsRight arena.new memo.new) }
    ensures met { IfOk result (AtomSetsMeet arena.new s t) }
{
    if s == t {
        arena.keeps_made();
        return Ok(Some(s));
    }
    let Some(guide) = guide else {
        return make_atoms(arena, memo, s, t);
    };
    if !are_many(arena.atoms(s).len(), arena.atoms(t).len()) {
        return make_atoms(arena, memo, s, t);
    }
    if let Some(made) = find_atoms(&memo.atoms, s, t) {
        return Ok(made);
    }
    let made = make_guided(arena, memo, guide, s, t)?;
    memo.keep_atoms(s, t, &made);
    Ok(made)
}
