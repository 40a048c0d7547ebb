//! What edges of a graph, and the rests of programs from its nodes on, cost at least.
ghost use Rattle.std.specs.Prelude.{◌≡◌, ◌+◌, ◌-◌, ◌<◌, ◌≤◌, IfOk, IsTrue};
ghost use Rattle.fill_arena.specs.Contents.{EachIn, IsAtomSet};
ghost use Rattle.fill_object.specs.Bounds.{AreBounds, AreRestCosts, number_at};

use crate::costs::{edge_costs, sum_of};
use fill_arena::{Arena, Edge};
use fill_text::NoMemory;
use fill_tokens::Prices;
use std::alloc::Global;

/// For each edge what one more atom along it costs at least, and for each node what a rest from it on costs at least.
#[derive(Drop)]
pub(crate) struct Bounds {
    edges: Vec<u64>,
    rests: Vec<u64>,
}

/// The number at a place; 0 past the end.
fn cost_at(costs: &[u64], i: usize) -> u64
    ensures { result ≡ number_at costs.now i }
{
    if i < costs.len() { costs[i] } else { 0 }
}

/// Lowers what a rest from the edge's first node costs to what it costs along the edge.
fn lower(rests: &mut [u64], edge: Edge, cost: u64) {
    let along = sum_of(cost, cost_at(rests, edge.to));
    if edge.from >= rests.len() {
        return;
    }
    if along < rests[edge.from] {
        rests[edge.from] = along;
    }
}

/// What rests cost, from the last edge back. The edges out of a node stand after those into it, so this is exact where the
/// costs of edges are; nothing rests on it, since it is tested.
fn sums(alloc: Global, edges: &[Edge], costs: &[u64], nodes: usize) -> Result<Vec<u64>, NoMemory>
    requires { 0 < nodes }
{
    let mut rests = vec![in alloc; u64::MAX; nodes]?;
    if nodes <= rests.len() {
        rests[nodes - 1] = 0;
    }
    let mut left = edges.len();
    while left > 0 {
        left -= 1;
        lower(rests.as_mut_slice(), edges[left], cost_at(costs, left));
    }
    Ok(rests)
}

/// Whether a rest along the edge costs at least what one from its first node on does.
fn is_rest_cost(edge: Edge, cost: u64, rests: &[u64]) -> bool
    ensures { IsTrue result → number_at rests.now edge.from ≤ cost + number_at rests.now edge.to }
{
    cost_at(rests, edge.from) <= sum_of(cost, cost_at(rests, edge.to))
}

/// Whether no rest costs less than these numbers say.
fn are_rest_costs(edges: &[Edge], costs: &[u64], rests: &[u64], last: usize) -> bool
    ensures { IsTrue result → AreRestCosts edges.now costs.now rests.now last }
{
    if cost_at(rests, last) > 0 {
        return false;
    }
    for i in 0..edges.len() {
        if !is_rest_cost(edges[i], cost_at(costs, i), rests) {
            return false;
        }
    }
    true
}

impl Bounds {
    pub fn of(
        alloc: Global,
        prices: &Prices,
        arena: &Arena,
        edges: &[Edge],
        nodes: usize,
    ) -> Result<Bounds, NoMemory>
        requires some { 0 < nodes }
        requires edges { EachIn (λ e. IsAtomSet arena.now e.atoms) edges.now }
        ensures { IfOk result (AreBounds prices.now arena.now edges.now (nodes - 1)) }
    {
        let costs = edge_costs(alloc, prices, arena, edges)?;
        let mut rests = sums(alloc, edges, costs.as_slice(), nodes)?;
        if !are_rest_costs(edges, costs.as_slice(), rests.as_slice(), nodes - 1) {
            rests = Vec::new(alloc);
        }
        Ok(Bounds {
            edges: costs,
            rests,
        })
    }

    /// What a rest from the node on costs at least.
    pub fn rest(&self, node: usize) -> u64
        ensures { result ≡ number_at self.now.rests.items node }
    {
        cost_at(self.rests.as_slice(), node)
    }

    /// What a rest along the edge of this place, which leads to this node, costs at least.
    pub fn along(&self, i: usize, to: usize) -> u64
        ensures { result ≤ number_at self.now.edges.items i + number_at self.now.rests.items to }
    {
        sum_of(cost_at(self.edges.as_slice(), i), self.rest(to))
    }
}
