//! The nodes of an example's graph: the positions of its text.
ghost use Rattle.std.specs.Prelude.{◌≤◌, length};
ghost use Rattle.fill_build.specs.Nodes.{IsTwin};

use crate::hits::common;
use fill_text::Text;

/// An earlier node, from which on the text has the same `run` characters as from a node on.
///
/// Where the run is 0, it is any node.
#[derive(Clone, Copy)]
pub(crate) struct Twin {
    pub(crate) from: usize,
    pub(crate) run: usize,
}

/// A node, from which the text goes on, and its twin.
///
/// Contracts speak of it where `IsNode` holds.
#[derive(Clone, Copy)]
pub(crate) struct Node<'a> {
    pub(crate) text: &'a Text,
    pub(crate) from: usize,
    pub(crate) twin: Twin,
}

/// The twin of the longest run; of several the first.
pub(crate) fn find_twin(text: &[char], from: usize) -> Twin
    requires { from ≤ length text.now }
    ensures { IsTwin text.now from result }
{
    let rest = &text[from..];
    let mut twin = Twin { from: 0, run: 0 };
    for k in 0..from {
        let run = common(&text[k..], rest);
        if run <= twin.run {
            continue;
        }
        twin = Twin { from: k, run };
    }
    twin
}
