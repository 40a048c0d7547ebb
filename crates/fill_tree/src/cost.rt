//! Costs: how unlikely the user is to mean a tree, by a table of prices.
//!
//! A cost is a whole number without bound; a call answers none where it is above the greatest `u64`.
ghost use Rattle.std.specs.Prelude.{◌≡◌, ◌≤◌, ◌^◌, IfSome, IfNone, map};
ghost use Rattle.fill_tree.specs.Tree.{atoms_of};
ghost use Rattle.fill_tree.specs.Cost.{source_cost, atom_cost, condition_cost, conditions_cost, program_cost, text_cost, char_cost};
ghost use Rattle.fill_tree.specs.Meaning.{source_tree, atom_tree, program_tree};

use crate::tree::{Atom, Program, Source};
use fill_text::{Text, is_separator};
use fill_tokens::Prices;

impl Source {
    /// The cost: nothing for a cell of the row, and for a lookup what its conditions cost.
    #[cycle(cost)]
    pub fn cost(&self, prices: &Prices) -> Option<u64>
        ensures some { IfSome result (λ n. n ≡ source_cost prices.now (source_tree self.now)) }
        ensures none { IfNone result (2 ^ 64 ≤ source_cost prices.now (source_tree self.now)) }
    {
        match self {
            Source::Col(_) => Some(u64::from(prices.column)),
            Source::Select(select) => {
                let conditions = conditions_cost(select.conditions.as_slice(), prices)?;
                conditions.checked_add(u64::from(prices.lookup))
            }
        }
    }
}

impl Atom {
    /// The cost as an atom of a program.
    #[cycle(cost)]
    pub fn cost(&self, prices: &Prices) -> Option<u64>
        ensures some { IfSome result (λ n. n ≡ atom_cost prices.now (atom_tree self.now)) }
        ensures none { IfNone result (2 ^ 64 ≤ atom_cost prices.now (atom_tree self.now)) }
    {
        match self {
            Atom::Const(text) => text_cost(text, prices),
            Atom::Whole(source) => source.cost(prices)?.checked_add(u64::from(prices.whole)),
            Atom::Sub(source, left, right) => source
                .cost(prices)?
                .checked_add(u64::from(prices.piece))?
                .checked_add(left.cost(prices))?
                .checked_add(right.cost(prices)),
        }
    }

    /// The cost as a condition of a lookup: a constant costs the same whatever its text.
    #[cycle(cost)]
    pub fn condition_cost(&self, prices: &Prices) -> Option<u64>
        ensures some { IfSome result (λ n. n ≡ condition_cost prices.now (atom_tree self.now)) }
        ensures none { IfNone result (2 ^ 64 ≤ condition_cost prices.now (atom_tree self.now)) }
    {
        match self {
            Atom::Const(_) => Some(u64::from(prices.constant_condition)),
            _ => self.cost(prices)?.checked_add(u64::from(prices.condition)),
        }
    }
}

#[cycle(cost)]
fn conditions_cost(atoms: &[Atom], prices: &Prices) -> Option<u64>
    ensures some { IfSome result (λ n. n ≡ conditions_cost prices.now (atoms_of (map atom_tree atoms.now))) }
    ensures none { IfNone result (2 ^ 64 ≤ conditions_cost prices.now (atoms_of (map atom_tree atoms.now))) }
{
    let mut total: u64 = 0;
    for atom in atoms {
        total = total.checked_add(atom.condition_cost(prices)?)?;
    }
    Some(total)
}

impl Program {
    /// The cost: that of the atoms, and something for each of them.
    pub fn cost(&self, prices: &Prices) -> Option<u64>
        ensures some { IfSome result (λ n. n ≡ program_cost prices.now (program_tree self.now)) }
        ensures none { IfNone result (2 ^ 64 ≤ program_cost prices.now (program_tree self.now)) }
    {
        let mut total: u64 = 0;
        for atom in self.atoms.as_slice() {
            let own = atom.cost(prices)?.checked_add(u64::from(prices.atom))?;
            total = total.checked_add(own)?;
        }
        Some(total)
    }
}

/// The cost of a constant as an atom of a program.
fn text_cost(text: &Text, prices: &Prices) -> Option<u64>
    ensures some { IfSome result (λ n. n ≡ text_cost prices.now text.now) }
    ensures none { IfNone result (2 ^ 64 ≤ text_cost prices.now text.now) }
{
    let mut total = u64::from(prices.constant);
    for c in text.as_slice() {
        total = total.checked_add(char_cost(*c, prices))?;
    }
    Some(total)
}

fn char_cost(c: char, prices: &Prices) -> u64
    ensures { result ≡ char_cost prices.now c }
{
    u64::from(if is_separator(c) {
        prices.separator
    } else {
        prices.character
    })
}
