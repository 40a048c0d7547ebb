//! The first rows of conditions of a lookup.
ghost use Rattle.std.specs.Prelude.{◌⊎◌, ◌+◌, ◌^◌, ◌<◌, ◌≤◌, [], Contains, List as Items, IfOk};
ghost use Rattle.fill_tokens.specs.declared.prices.Prices.{Prices as Table};
ghost use Rattle.fill_tree.specs.Order.{atoms_cmp};
ghost use Rattle.fill_tree.specs.Tree.{AtomTree, Atoms, more};
ghost use Rattle.fill_arena.specs.declared.entry.Entry.{Entry};
ghost use Rattle.fill_best.specs.Costs.{by_cost, linked};
ghost use Rattle.fill_best.specs.First.{AreFirst, IsMade, Rises};
ghost use Rattle.fill_best.specs.Rows.{AreConstantsOf, AreFirstRows};
ghost use Rattle.fill_best.specs.declared.costed.Costed.{Costed as Cost};

use crate::costed::Costed;
use crate::first::put_products;
use crate::plain::{PlainAtom, PlainAtoms};
use fill_arena::ConditionItem;
use fill_text::NoMemory;
use fill_tokens::Prices;
use std::alloc::Global;

/// The first rows of conditions, and the first of those that are not constants alone.
#[derive(Drop)]
pub(crate) struct Rows {
    pub any: Vec<Costed<PlainAtoms>>,
    pub mixed: Vec<Costed<PlainAtoms>>,
}

/// The row without conditions, which has no part.
pub(crate) fn no_conditions(alloc: Global, limit: usize) -> Result<Rows, NoMemory>
    requires { 1 ≤ limit }
    ensures { IfOk result (λ rows. (prices : Table) (c : Items Entry) → AreFirstRows prices c [] limit rows) }
{
    let mut any = Vec::new(alloc);
    any.push(Costed {
        cost: 0,
        item: PlainAtoms::none(alloc),
    })?;
    Ok(Rows {
        any,
        mixed: Vec::new(alloc),
    })
}

/// The item's constant, at what it costs as a condition; none where there is no constant.
pub(crate) fn constants_of(
    alloc: Global,
    prices: &Prices,
    item: &ConditionItem,
) -> Result<Vec<Costed<PlainAtom>>, NoMemory>
    ensures { IfOk result (λ made. (k : _) → 1 ≤ k → AreConstantsOf prices.now item.now k made.items) }
{
    let mut constants = Vec::new(alloc);
    if let Some(text) = &item.constant {
        constants.push(Costed {
            cost: prices.constant_condition as u64,
            item: PlainAtom::constant(text)?,
        })?;
    }
    Ok(constants)
}

/// The rows that begin with one of the constants, and those that begin with one of the other conditions, which cost a
/// price more than as atoms.
pub(crate) fn put_in_front(
    alloc: Global,
    limit: usize,
    price: u64,
    constants: &[Costed<PlainAtom>],
    after_constants: &[Costed<PlainAtoms>],
    parts: &[Costed<PlainAtom>],
    after_parts: &[Costed<PlainAtoms>],
) -> Result<Vec<Costed<PlainAtoms>>, NoMemory>
    requires after_constants { Rises (by_cost atoms_cmp) after_constants.now }
    requires after_parts { Rises (by_cost atoms_cmp) after_parts.now }
    requires constants { (x : Cost AtomTree) (y : Cost Atoms) → Contains constants.now x → Contains after_constants.now y → 0 + x.cost + y.cost < 2 ^ 64 }
    requires parts { (x : Cost AtomTree) (y : Cost Atoms) → Contains parts.now x → Contains after_parts.now y → price + x.cost + y.cost < 2 ^ 64 }
    ensures { IfOk result (λ made. AreFirst (by_cost atoms_cmp) (λ z.
        IsMade (linked more 0) (Contains constants.now) (Contains after_constants.now) z ⊎
        IsMade (linked more price) (Contains parts.now) (Contains after_parts.now) z) limit made.items) }
{
    let mut rows = Vec::new(alloc);
    put_products(alloc, &mut rows, limit, 0, constants, after_constants)?;
    put_products(alloc, &mut rows, limit, price, parts, after_parts)?;
    Ok(rows)
}
