//! Atoms in order with their cost: the ends of programs, and the conditions of lookups.
ghost use Rattle.std.specs.Prelude.{◌≡◌, ◌↔◌, IsTrue};
ghost use Rattle.std.specs.declared.cmp.Ordering.TheVariants.{Less};
ghost use Rattle.fill_tree.specs.Meaning.{program_tree};
ghost use Rattle.fill_tree.specs.Order.{chain_rank};
ghost use Rattle.fill_tree.specs.Tree.{end};

use crate::tree::Program;
use fill_text::List;
use std::alloc::Global;
use std::cmp::Ordering;

/// Atoms in order, and what they cost together.
#[derive(Debug, Drop)]
pub struct Chain {
    pub cost: u64,
    pub atoms: Program,
}

impl Program {
    /// The program without atoms.
    pub fn empty(alloc: Global) -> Program
        ensures { program_tree result ≡ end }
    {
        Program {
            atoms: List::new(alloc),
        }
    }
}

impl Chain {
    /// The chain without atoms, which costs nothing.
    pub fn empty(alloc: Global) -> Chain
        ensures cost { result.cost ≡ 0 }
        ensures atoms { program_tree result.atoms ≡ end }
    {
        Chain {
            cost: 0,
            atoms: Program::empty(alloc),
        }
    }

    /// Whether the chain costs less than the other one, or as much and comes earlier in the order of the atoms.
    pub fn before(&self, other: &Chain) -> bool
        ensures { IsTrue result ↔ (chain_rank self.now other.now ≡ Less) }
    {
        let by_cost = self.cost.cmp(&other.cost);
        by_cost.then(self.atoms.compare(&other.atoms)) == Ordering::Less
    }
}
