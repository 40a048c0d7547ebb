//! Branches.
use fill_text::List;
use fill_tree::{Guard, Program};

/// A branch.
#[derive(Debug, Drop)]
pub struct Branch {
    pub rows: List<u32>,
    pub guard: Option<Guard>,
    pub program: Program,
}
