//! Spaces under numbers.
ghost use Rattle.std.specs.Prelude.{◌≡◌, length, IfOk};

use fill_arena::GraphId;
use fill_text::NoMemory;
use std::alloc::Global;
use std::marker::Model;

/// All programs that explain some examples, under the number of their graph.
#[derive(Clone, Copy, Debug, PartialEq, Eq)]
pub struct Space {
    graph: GraphId,
}

impl Model for Space {
    ghost use Rattle.std.specs.Prelude.{ℕ};

    ghost Value = { ℕ };

    ghost view = { λ s. s.graph };

    ghost inverse = { λ n. record { graph = n } };
}

/// The graphs of the spaces, in order.
pub(crate) fn graphs_of(alloc: Global, spaces: &[Space]) -> Result<Vec<GraphId>, NoMemory>
    ensures { IfOk result (λ graphs. graphs.items ≡ spaces.now) }
{
    let mut graphs = Vec::with_capacity(alloc, spaces.len())?;
    for i in 0..spaces.len() {
        graphs.push(spaces[i].graph())?;
    }
    Ok(graphs)
}

/// Gives each space its graph, in order.
pub(crate) fn put_graphs(spaces: &mut [Space], graphs: &[GraphId])
    requires { length spaces.old ≡ length graphs.now }
    ensures { spaces.new ≡ graphs.now }
{
    for i in 0..graphs.len() {
        spaces[i] = Space { graph: graphs[i] };
    }
}

impl Space {
    /// The space of a graph, where one was made.
    pub(crate) fn of_made(
        made: Result<Option<GraphId>, NoMemory>,
    ) -> Result<Option<Space>, NoMemory>
        ensures { result ≡ made }
    {
        match made {
            Ok(Some(graph)) => Ok(Some(Space { graph })),
            Ok(None) => Ok(None),
            Err(e) => Err(e),
        }
    }

    pub(crate) fn graph(self) -> GraphId
        ensures { result ≡ self }
    {
        self.graph
    }
}
