//! The total order of trees, and which of two programs is before the other.
ghost use Rattle.std.specs.Prelude.{◌≡◌, ◌⊎◌, ◌<◌, ◌≤◌, ◌^◌, ◌↔◌, IsTrue, IfSome, IfNone, map};
ghost use Rattle.fill_tree.specs.Tree.{atoms_of};
ghost use Rattle.fill_tree.specs.Cost.{source_cost, atom_cost, program_cost};
ghost use Rattle.fill_tree.specs.Meaning.{source_tree, select_tree, atom_tree, program_tree};
ghost use Rattle.fill_tree.specs.Order.{Before, source_cmp, atom_cmp, atoms_cmp, source_rank, atom_rank};

use crate::tree::{Atom, Program, Select, Source};
use fill_tokens::Prices;
use std::cmp::Ordering;

impl Source {
    /// The total order of sources: cells of the row before lookups, each by its parts from the left.
    #[cycle(compare)]
    pub fn compare(&self, other: &Source) -> Ordering
        ensures { result ≡ source_cmp (source_tree self.now) (source_tree other.now) }
    {
        match (self, other) {
            (Source::Col(a), Source::Col(b)) => a.cmp(b),
            (Source::Col(_), Source::Select(_)) => Ordering::Less,
            (Source::Select(_), Source::Col(_)) => Ordering::Greater,
            (Source::Select(a), Source::Select(b)) => a.compare(b),
        }
    }

    /// The order by the cost, and then as in [`Source::compare`]. None where a cost is above the greatest `u64`.
    pub fn rank(&self, other: &Source, prices: &Prices) -> Option<Ordering>
        ensures some { IfSome result (λ order. order ≡ source_rank prices.now (source_tree self.now) (source_tree other.now)) }
        ensures none { IfNone result ((2 ^ 64 ≤ source_cost prices.now (source_tree self.now)) ⊎ (2 ^ 64 ≤ source_cost prices.now (source_tree other.now))) }
    {
        let by_cost = self.cost(prices)?.cmp(&other.cost(prices)?);
        Some(by_cost.then(self.compare(other)))
    }
}

impl Select {
    #[cycle(compare)]
    fn compare(&self, other: &Select) -> Ordering
        ensures { result ≡ source_cmp (select_tree self.now) (select_tree other.now) }
    {
        let by_numbers = self
            .column
            .cmp(&other.column)
            .then(self.table.cmp(&other.table))
            .then(self.key.cmp(&other.key));
        by_numbers.then(compare_atoms(self.conditions.as_slice(), other.conditions.as_slice()))
    }
}

impl Atom {
    /// The total order of atoms, and of conditions: constants, then whole sources, then pieces, each by its parts from
    /// the left.
    #[cycle(compare)]
    pub fn compare(&self, other: &Atom) -> Ordering
        ensures { result ≡ atom_cmp (atom_tree self.now) (atom_tree other.now) }
    {
        match (self, other) {
            (Atom::Const(a), Atom::Const(b)) => a.compare(b),
            (Atom::Const(_), _) => Ordering::Less,
            (_, Atom::Const(_)) => Ordering::Greater,
            (Atom::Whole(a), Atom::Whole(b)) => a.compare(b),
            (Atom::Whole(_), Atom::Sub(_, _, _)) => Ordering::Less,
            (Atom::Sub(_, _, _), Atom::Whole(_)) => Ordering::Greater,
            (Atom::Sub(a, b, c), Atom::Sub(d, e, f)) => {
                a.compare(d).then(b.compare(e)).then(c.compare(f))
            }
        }
    }

    /// The order of atoms of a program by the cost, and then as in [`Atom::compare`]. None where a cost is above the
    /// greatest `u64`.
    pub fn rank(&self, other: &Atom, prices: &Prices) -> Option<Ordering>
        ensures some { IfSome result (λ order. order ≡ atom_rank prices.now (atom_tree self.now) (atom_tree other.now)) }
        ensures none { IfNone result ((2 ^ 64 ≤ atom_cost prices.now (atom_tree self.now)) ⊎ (2 ^ 64 ≤ atom_cost prices.now (atom_tree other.now))) }
    {
        let by_cost = self.cost(prices)?.cmp(&other.cost(prices)?);
        Some(by_cost.then(self.compare(other)))
    }
}

/// In order from the left, a proper prefix first.
#[cycle(compare)]
fn compare_atoms(a: &[Atom], b: &[Atom]) -> Ordering
    ensures { result ≡ atoms_cmp (atoms_of (map atom_tree a.now)) (atoms_of (map atom_tree b.now)) }
{
    for i in 0..a.len().min(b.len()) {
        let order = a[i].compare(&b[i]);
        if order != Ordering::Equal {
            return order;
        }
    }
    a.len().cmp(&b.len())
}

impl Program {
    /// The total order of programs by their atoms from the left, a proper prefix first. [`Program::before`] asks for
    /// the cost first.
    pub fn compare(&self, other: &Program) -> Ordering
        ensures { result ≡ atoms_cmp (program_tree self.now) (program_tree other.now) }
    {
        compare_atoms(self.atoms.as_slice(), other.atoms.as_slice())
    }

    /// Whether the program costs less than the other by the prices, or as much and comes earlier in the order of their atoms.
    pub fn before(&self, other: &Program, prices: &Prices) -> bool
        requires own { program_cost prices.now (program_tree self.now) < 2 ^ 64 }
        requires others { program_cost prices.now (program_tree other.now) < 2 ^ 64 }
        ensures { IsTrue result ↔ Before prices.now (program_tree self.now) (program_tree other.now) }
    {
        let by_cost = self.cost(prices).cmp(&other.cost(prices));
        by_cost.then(self.compare(other)) == Ordering::Less
    }
}
