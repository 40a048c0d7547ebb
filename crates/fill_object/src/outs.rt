//! Edges by the node that they lead from.
ghost use Rattle.std.specs.Prelude.{◌≡◌, ◌<◌, ◌≤◌, ℕ, List as Items, Some, slice_get, IfOk};
ghost use Rattle.fill_arena.specs.Contents.{EachIn};
ghost use Rattle.fill_arena.specs.declared.entry.Edge.{Edge as Listed};
ghost use Rattle.fill_object.specs.Outs.{AreOuts, NoneOutFrom};

use fill_arena::Edge;
use fill_text::NoMemory;
use std::alloc::Global;

/// For each node the place after the last edge from it, and for each edge the place after the one before it from the same
/// node; 0 where there is none.
#[derive(Drop)]
pub(crate) struct Outs {
    latest: Vec<usize>,
    before: Vec<usize>,
}

impl Outs {
    pub fn of(alloc: Global, nodes: usize, edges: &[Edge]) -> Result<Outs, NoMemory>
        requires { EachIn (λ e. e.from < nodes) edges.now }
        ensures { IfOk result (AreOuts edges.now) }
    {
        let mut latest = vec![in alloc; 0; nodes]?;
        let mut before = Vec::new(alloc);
        for i in 0..edges.len() {
            let from = edges[i].from;
            before.push(latest[from])?;
            latest[from] = i + 1;
        }
        Ok(Outs { latest, before })
    }

    /// The place after the last edge from the node.
    pub fn latest(&self, node: usize) -> usize
        ensures { (edges : Items Listed) → AreOuts edges self.now → NoneOutFrom edges node result }
    {
        if node < self.latest.len() {
            self.latest[node]
        } else {
            0
        }
    }

    /// The place after the edge that leads from the same node as this one, and stands before it.
    pub fn before(&self, i: usize) -> usize
        ensures less { result ≤ i }
        ensures none { (edges : Items Listed) → AreOuts edges self.now → (e : Listed) → slice_get edges i ≡ Some e →
            (k : ℕ) (f : Listed) → slice_get edges k ≡ Some f → f.from ≡ e.from → k < i → k < result }
    {
        if i >= self.before.len() {
            return i;
        }
        let place = self.before[i];
        if place < i { place } else { i }
    }
}
