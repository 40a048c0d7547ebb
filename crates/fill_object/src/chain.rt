//! Ends of programs with what they cost.
ghost use Rattle.std.specs.Prelude.{◌≡◌, ◌+◌, ◌<◌, ◌≤◌, ◌^◌, IsTrue, IfOk, MatchOption};
ghost use Rattle.fill_tree.specs.Cost.{atom_cost};
ghost use Rattle.fill_tree.specs.Meaning.{atom_tree, program_tree};
ghost use Rattle.fill_tree.specs.Tree.{more};
ghost use Rattle.fill_object.specs.Chains.{IsCopy, IsFound, IsLed, IsLesser, IsNoDearer, limit_of};

use fill_text::NoMemory;
use fill_tokens::Prices;
use fill_tree::{Atom, Chain};
use std::alloc::Global;
use std::rc::Rc;

/// What an atom costs in a program, if that is a number of 64 bits.
fn link_cost(prices: &Prices, atom: &Atom) -> Option<u64>
    ensures { MatchOption result (2 ^ 64 ≤ prices.now.atom + atom_cost prices.now (atom_tree atom.now)) (λ n. n ≡ prices.now.atom + atom_cost prices.now (atom_tree atom.now)) }
{
    atom.cost(prices)?.checked_add(u64::from(prices.atom))
}

/// What a rest may cost after the atom, so that both cost no more than the limit. None where the atom costs more.
pub(crate) fn left_after(prices: &Prices, atom: &Atom, limit: u64) -> Option<u64>
    ensures { MatchOption result (limit < prices.now.atom + atom_cost prices.now (atom_tree atom.now)) (λ left. left + (prices.now.atom + atom_cost prices.now (atom_tree atom.now)) ≡ limit) }
{
    let own = link_cost(prices, atom)?;
    if own > limit {
        return None;
    }
    Some(limit - own)
}

/// The sum, where it is a number of 64 bits.
fn added(a: u64, b: u64) -> u64
    ensures { a + b < 2 ^ 64 → result ≡ a + b }
{
    if a > u64::MAX - b { u64::MAX } else { a + b }
}

/// The atom, which costs this in a program, and then the rest.
fn chain_of(alloc: Global, atom: &Atom, own: u64, rest: &Chain) -> Result<Chain, NoMemory>
    ensures cost { IfOk result (λ made. own + rest.now.cost < 2 ^ 64 → made.cost ≡ own + rest.now.cost) }
    ensures atoms { IfOk result (λ made. program_tree made.atoms ≡ more (atom_tree atom.now) (program_tree rest.now.atoms)) }
{
    let atoms = rest.atoms.with_first(alloc, atom)?;
    Ok(Chain {
        cost: added(own, rest.cost),
        atoms,
    })
}

/// The atom, which costs this in a program, before what was found of rests.
pub(crate) fn led_by(alloc: Global, atom: &Atom, own: u64, rest: Least) -> Result<Least, NoMemory>
    ensures { IfOk result (IsLed (atom_tree atom.now) own rest) }
{
    match rest {
        Least::Absent => Ok(Least::Absent),
        Least::Dearer => Ok(Least::Dearer),
        Least::Found(chain) => {
            let made = chain_of(alloc, atom, own, &chain)?;
            Ok(Least::Found(Rc::new(alloc, made)?))
        }
    }
}

/// What was found of the rests of a kind within a limit of their cost.
#[derive(Drop)]
pub(crate) enum Least {
    /// None of them costs no more than the limit.
    Absent,
    /// There are some, and all of them cost more than the limit.
    Dearer,
    /// The least of them, which costs no more than the limit.
    Found(Rc<Chain>),
}

impl Least {
    pub fn copy(&self) -> Result<Least, NoMemory>
        ensures { IfOk result (λ copied. IsCopy copied self.now) }
    {
        match self {
            Least::Absent => Ok(Least::Absent),
            Least::Dearer => Ok(Least::Dearer),
            Least::Found(chain) => Ok(Least::Found(chain.clone()?)),
        }
    }

    pub fn is_found(&self) -> bool
        ensures { IsTrue result → IsFound self.now }
    {
        match self {
            Least::Found(_) => true,
            _ => false,
        }
    }

    /// What one more may cost so that it is not after the least so far.
    pub fn limit(&self, limit: u64) -> u64
        ensures { result ≡ limit_of self.now limit }
    {
        match self {
            Least::Found(chain) => chain.cost,
            _ => limit,
        }
    }

    /// What is left within the limit: what costs more is `Dearer`.
    pub fn within(self, limit: u64) -> Least
        ensures { IsNoDearer self limit result }
    {
        match self {
            Least::Found(chain) => {
                if chain.cost > limit {
                    return Least::Dearer;
                }
                Least::Found(chain)
            }
            Least::Dearer => Least::Dearer,
            Least::Absent => Least::Absent,
        }
    }

    /// The least of both.
    pub fn or(self, next: Least) -> Least
        ensures { IsLesser self next result }
    {
        match self {
            Least::Found(first) => chain_or(first, next),
            Least::Dearer => match next {
                Least::Absent => Least::Dearer,
                Least::Dearer => Least::Dearer,
                Least::Found(other) => Least::Found(other),
            },
            Least::Absent => next,
        }
    }
}

/// The chain, or the other one if that is before it.
fn chain_or(first: Rc<Chain>, next: Least) -> Least
    ensures { IsLesser (Least.Found first) next result }
{
    match next {
        Least::Found(other) => {
            if other.before(&first) {
                return Least::Found(other);
            }
            Least::Found(first)
        }
        Least::Dearer => Least::Found(first),
        Least::Absent => Least::Found(first),
    }
}
