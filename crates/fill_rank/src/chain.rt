//! The lesser of two chains, and chains with one atom more: rows of conditions, and the ends of programs.
ghost use Rattle.std.specs.Prelude.{IsTrue, IfOk, Some};
ghost use Rattle.fill_tree.specs.Cost.{atom_cost, condition_cost};
ghost use Rattle.fill_tree.specs.Meaning.{atom_tree};
ghost use Rattle.fill_arena.specs.Best.{IsLesser};
ghost use Rattle.fill_tree.specs.Order.{chain_rank};
ghost use Rattle.fill_rank.specs.LowerBounds.{IsBeaten};
ghost use Rattle.fill_rank.specs.Sets.{IsCheap, IsPut, link_cost};

use fill_text::NoMemory;
use fill_tree::{Atom, Chain, Prices};
use std::alloc::Global;

/// The lesser of two chains that may be absent.
pub(crate) fn lesser(best: Option<Chain>, next: Option<Chain>) -> Option<Chain>
    ensures { IsLesser chain_rank best next result }
{
    let Some(memo) = best else {
        return next;
    };
    let Some(other) = next else {
        return Some(memo);
    };
    Some(if other.before(&memo) { other } else { memo })
}

/// A condition before a row of conditions; none where either is absent.
pub(crate) fn put_condition(
    alloc: Global,
    prices: &Prices,
    atom: &Option<Atom>,
    row: &Option<Chain>,
) -> Result<Option<Chain>, NoMemory>
    requires { IsCheap (condition_cost prices.now) atom.now row.now }
    ensures { IfOk result (λ made. IsPut (condition_cost prices.now) atom.now row.now made) }
{
    let (Some(atom), Some(row)) = (atom, row) else {
        return Ok(None);
    };
    let Some(own) = atom.condition_cost(prices) else {
        unreachable!()
    };
    let cost = own + row.cost;
    let atoms = row.atoms.with_first(alloc, atom)?;
    Ok(Some(Chain { cost, atoms }))
}

/// An atom before the rest of a program; none where that is absent.
pub(crate) fn put_atom(
    alloc: Global,
    prices: &Prices,
    atom: &Atom,
    rest: &Option<Chain>,
) -> Result<Option<Chain>, NoMemory>
    requires { IsCheap (link_cost prices.now) (Some atom.now) rest.now }
    ensures { IfOk result (λ made. IsPut (link_cost prices.now) (Some atom.now) rest.now made) }
{
    let Some(rest) = rest else {
        return Ok(None);
    };
    let Some(own) = atom.cost(prices) else {
        unreachable!()
    };
    let cost = own + prices.atom as u64 + rest.cost;
    let atoms = rest.atoms.with_first(alloc, atom)?;
    Ok(Some(Chain { cost, atoms }))
}

/// Whether an atom before the rest of a program costs more than the best so far, so that it need not be put together.
pub(crate) fn is_dearer(
    prices: &Prices,
    best: &Option<Chain>,
    atom: &Atom,
    rest: &Option<Chain>,
) -> bool
    ensures { IsTrue result → IsBeaten prices.now best.now (atom_cost prices.now (atom_tree atom.now)) rest.now }
{
    match atom.cost(prices) {
        Some(own) => is_beaten(prices, best, own, rest),
        None => false,
    }
}

/// Whether each atom that costs at least the bound, before the rest of a program, costs more than the best so far.
pub(crate) fn is_beaten(
    prices: &Prices,
    best: &Option<Chain>,
    bound: u64,
    rest: &Option<Chain>,
) -> bool
    ensures { IsTrue result → IsBeaten prices.now best.now bound rest.now }
{
    let (Some(best), Some(rest)) = (best, rest) else {
        return false;
    };
    let link = bound.saturating_add(u64::from(prices.atom));
    best.cost < link.saturating_add(rest.cost)
}
