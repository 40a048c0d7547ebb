//! Marks of the nodes that lie on walks.
ghost use Rattle.std.specs.Prelude.{◌≡◌, ◌<◌, ◌-◌, ◌↔◌, ℕ, length, IfOk};
ghost use Rattle.fill_arena.specs.declared.entry.Edge.{Edge};
ghost use Rattle.fill_trim.specs.Marks.{AreMarks, IsMarked, Leads, spread};
ghost use Rattle.fill_trim.specs.Trim.{AreEdges};

use fill_arena::Edge;
use fill_text::NoMemory;
use std::alloc::Global;

/// The nodes that node 0 leads to.
///
/// The edges into a node stand before those out of it, so one pass from the front finds them all.
pub(crate) fn reached_from_first(
    alloc: Global,
    nodes: usize,
    edges: &[Edge],
) -> Result<Vec<bool>, NoMemory>
    requires some { 0 < nodes }
    requires edges { AreEdges nodes edges.now }
    ensures { IfOk result (λ marks. AreMarks nodes (Leads edges.now 0) marks.items) }
{
    let mut marks = vec![in alloc; false; nodes]?;
    marks[0] = true;
    spread_forth(marks.as_mut_slice(), edges);
    Ok(marks)
}

/// The nodes that lead to the last one, found by a pass from the back.
pub(crate) fn leading_to_last(
    alloc: Global,
    nodes: usize,
    edges: &[Edge],
) -> Result<Vec<bool>, NoMemory>
    requires some { 0 < nodes }
    requires edges { AreEdges nodes edges.now }
    ensures { IfOk result (λ marks. AreMarks nodes (λ m. Leads edges.now m (nodes - 1)) marks.items) }
{
    let mut marks = vec![in alloc; false; nodes]?;
    marks[nodes - 1] = true;
    spread_back(marks.as_mut_slice(), edges);
    Ok(marks)
}

/// Marks what the only marked node, node 0, leads to.
fn spread_forth(marks: &mut [bool], edges: &[Edge])
    requires edges { AreEdges (length marks.old) edges.now }
    requires first { (m : ℕ) → m < length marks.old → IsMarked marks.old m ↔ (m ≡ 0) }
    ensures { AreMarks (length marks.old) (Leads edges.now 0) marks.new }
{
    for i in 0..edges.len() {
        let edge = edges[i];
        spread(marks, edge.from, edge.to);
    }
}

/// Marks what leads to the only marked node, the last one.
fn spread_back(marks: &mut [bool], edges: &[Edge])
    requires edges { AreEdges (length marks.old) edges.now }
    requires last { (m : ℕ) → m < length marks.old → IsMarked marks.old m ↔ (m ≡ length marks.old - 1) }
    ensures { AreMarks (length marks.old) (λ m. Leads edges.now m (length marks.old - 1)) marks.new }
{
    let mut i = edges.len();
    while i > 0 {
        i -= 1;
        let edge = edges[i];
        spread(marks, edge.to, edge.from);
    }
}

/// Marks the second node where the first one is marked.
fn spread(marks: &mut [bool], from: usize, to: usize)
    requires from { from < length marks.old }
    requires to { to < length marks.old }
    ensures { marks.new ≡ spread marks.old from to }
{
    if marks[from] {
        marks[to] = true;
    }
}

/// Leaves only those marks that the others have too.
pub(crate) fn keep_common(marks: &mut [bool], others: &[bool])
    requires { length others.now ≡ length marks.old }
    ensures long { length marks.new ≡ length marks.old }
    ensures both { (m : ℕ) → IsMarked marks.new m ↔ (IsMarked marks.old m × IsMarked others.now m) }
{
    for m in 0..marks.len() {
        if !others[m] {
            marks[m] = false;
        }
    }
}
