//! What leads the search through a graph. It depends on no row.
ghost use Rattle.std.specs.Prelude.{◌-◌, ◌<◌, IfOk};
ghost use Rattle.fill_arena.specs.Contents.{EachIn, IsAtomSet};
ghost use Rattle.fill_object.specs.Guide.{IsGuide};

use crate::bounds::Bounds;
use crate::outs::Outs;
use fill_arena::{Arena, Edge};
use fill_text::NoMemory;
use fill_tokens::Prices;
use std::alloc::Global;

/// The edges of a graph by the node that they lead from, and what they and the rests from each node cost at least.
#[derive(Drop)]
pub struct Guide {
    pub(crate) outs: Outs,
    pub(crate) bounds: Bounds,
}

impl Guide {
    pub(crate) fn of(
        alloc: Global,
        prices: &Prices,
        arena: &Arena,
        edges: &[Edge],
        nodes: usize,
    ) -> Result<Guide, NoMemory>
        requires some { 0 < nodes }
        requires within { EachIn (λ e. e.from < nodes) edges.now }
        requires edges { EachIn (λ e. IsAtomSet arena.now e.atoms) edges.now }
        ensures { IfOk result (IsGuide prices.now arena.now edges.now (nodes - 1)) }
    {
        Ok(Guide {
            outs: Outs::of(alloc, nodes, edges)?,
            bounds: Bounds::of(alloc, prices, arena, edges, nodes)?,
        })
    }
}
