//! The edges of a graph, and a topological order of them.
ghost use Rattle.std.specs.Prelude.{◌≡◌, ◌↔◌, ℕ, true, IfOk};
ghost use Rattle.fill_arena.specs.Contents.{EachIn};
ghost use Rattle.fill_arena.specs.Order.{IsOrderOf, IsTopological, LeadsOn};

use crate::entry::Edge;
use fill_text::{List, NoMemory};
use std::alloc::Global;
use std::marker::Model;

/// The edges of a graph as they were given. Where that is no topological order, they stand by their first nodes as well.
#[derive(Debug, Drop)]
pub(crate) struct Edges {
    given: List<Edge>,
    by_first: Option<List<Edge>>,
}

impl Model for Edges {
    ghost use Rattle.std.specs.Prelude.{List};
    ghost use Rattle.fill_arena.specs.declared.entry.Edge.{Edge};
    ghost use Rattle.fill_arena.specs.Order.{HasOrder};

    ghost Value = { List Edge };

    ghost view = { λ edges. edges.given };

    ghost invariant = { λ edges. HasOrder edges.given edges.by_first };
}

impl Edges {
    /// Keeps the edges of a graph with this number of nodes, in whatever order they are given.
    pub(crate) fn new(alloc: Global, nodes: usize, given: List<Edge>) -> Result<Edges, NoMemory>
        requires { EachIn (LeadsOn nodes) given }
        ensures { IfOk result (λ edges. edges ≡ given) }
    {
        if is_topological(alloc, nodes, given.as_slice())? {
            return Ok(Edges {
                given,
                by_first: None,
            });
        }
        let sorted = sorted_by_first(alloc, given.as_slice())?;
        Ok(Edges {
            given,
            by_first: Some(sorted),
        })
    }

    /// The edges as they were given.
    pub(crate) fn as_slice(&self) -> &[Edge]
        ensures { result.now ≡ self.now }
    {
        self.given.as_slice()
    }

    /// The edges in a topological order.
    pub(crate) fn sorted(&self) -> &[Edge]
        ensures { IsOrderOf self.now result.now }
    {
        match &self.by_first {
            None => self.given.as_slice(),
            Some(sorted) => sorted.as_slice(),
        }
    }
}

/// Whether the edges into each node stand before those out of it.
#[tactic(auto, using(crate::proofs::Sorting::left_start))]
fn is_topological(alloc: Global, nodes: usize, edges: &[Edge]) -> Result<bool, NoMemory>
    requires { EachIn (LeadsOn nodes) edges.now }
    ensures { IfOk result (λ is. (is ≡ true) ↔ IsTopological edges.now) }
{
    let mut left = vec![in alloc; false; nodes]?;
    for i in 0..edges.len() {
        let edge = edges[i];
        if left[edge.to] {
            return Ok(false);
        }
        left[edge.from] = true;
    }
    Ok(true)
}

/// The edges sorted by their first nodes, which is a topological order of edges that lead to later nodes.
fn sorted_by_first(alloc: Global, edges: &[Edge]) -> Result<List<Edge>, NoMemory>
    requires { (nodes : ℕ) × EachIn (LeadsOn nodes) edges.now }
    ensures { IfOk result (λ sorted. IsOrderOf edges.now sorted) }
{
    let mut sorted = Vec::from_slice(alloc, edges)?;
    sorted.sort_unstable_by_key(|edge| edge.from);
    Ok(List::from_vec(sorted))
}
