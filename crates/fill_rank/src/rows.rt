//! The best rows of conditions of a lookup.
ghost use Rattle.std.specs.Prelude.{◌∷◌, [], List as Items, IfOk};
ghost use Rattle.fill_tokens.specs.declared.prices.Prices.{Prices as Table};
ghost use Rattle.fill_tree.specs.Cost.{condition_cost};
ghost use Rattle.fill_arena.specs.declared.entry.ConditionItem.{ConditionItem};
ghost use Rattle.fill_arena.specs.declared.entry.Entry.{Entry};
ghost use Rattle.fill_rank.specs.Sets.{AreBestRows, IsBestPart, IsCheap, IsConstantOf};

use crate::chain::{lesser, put_condition};
use fill_text::NoMemory;
use fill_tree::{Atom, Chain, Prices};
use std::alloc::Global;

/// The best row of conditions, and the best of those that are not constants alone. Some items have no such row.
#[derive(Debug, Drop)]
pub(crate) struct Rows {
    pub any: Option<Chain>,
    pub mixed: Option<Chain>,
}

/// The row without conditions, which has no part.
pub(crate) fn no_conditions(alloc: Global) -> Rows
    ensures { (prices : Table) (c : Items Entry) → AreBestRows prices c [] result }
{
    Rows {
        any: Some(Chain::empty(alloc)),
        mixed: None,
    }
}

/// The rows with one condition more at the front: a constant or the best of the others.
///
/// A row that is not of constants alone begins with such a condition, or has one after a constant.
pub(crate) fn put_in_front(
    alloc: Global,
    prices: &Prices,
    constant: Option<Atom>,
    part: Option<Atom>,
    rows: Rows,
) -> Result<Rows, NoMemory>
    requires fixed { IsCheap (condition_cost prices.now) constant rows.any }
    requires part { IsCheap (condition_cost prices.now) part rows.any }
    requires later { IsCheap (condition_cost prices.now) constant rows.mixed }
    ensures { IfOk result (λ made. (c : Items Entry) (i : ConditionItem) (is : Items ConditionItem) →
        IsConstantOf i constant → IsBestPart prices.now c i part → AreBestRows prices.now c is rows → AreBestRows prices.now c (i ∷ is) made) }
{
    let from_constant = put_condition(alloc, prices, &constant, &rows.any)?;
    let from_part = put_condition(alloc, prices, &part, &rows.any)?;
    let part_later = put_condition(alloc, prices, &constant, &rows.mixed)?;
    let part_now = put_condition(alloc, prices, &part, &rows.any)?;
    Ok(Rows {
        any: lesser(from_constant, from_part),
        mixed: lesser(part_later, part_now),
    })
}
