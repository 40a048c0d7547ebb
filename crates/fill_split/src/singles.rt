//! What stands for each of the changed items alone.
ghost use Rattle.std.specs.Prelude.{◌≡◌, ◌+◌, ◌*◌, ◌≤◌, [], ◌∷◌, ◌++◌, length, take, drop, IfOk, IfErr};
ghost use Rattle.fill_split.specs.Keeping.{Keeps, KeepsMarks};
ghost use Rattle.fill_split.specs.Standing.{SinglesStand, ones};
ghost use Rattle.fill_split.specs.Changes.{put_in, of_option, IsAllowed};
ghost use Rattle.fill_split.specs.Refusals.{IsAlone};

use crate::change::{Change, FoldError};
use crate::maker::Maker;
use fill_edge::{Ledger, Steps};
use fill_text::{List, NoMemory};
use std::alloc::Global;

/// What stands for an item alone.
fn single<M: Maker, L: Ledger>(
    maker: &mut M,
    item: &M::Item,
    at: usize,
    steps: &mut Steps<L>,
) -> Result<M::Kept, FoldError>
    requires { M.allowed (M.base maker.old) item.now }
    ensures base { M.base maker.new ≡ M.base maker.old }
    ensures older { Keeps (M.stands maker.old) (M.stands maker.new) }
    ensures marks { KeepsMarks (M.valid maker.old) (M.valid maker.new) (M.marked maker.old) (M.marked maker.new) }
    ensures cost { steps.new ≤ steps.old + 1 }
    ensures one { IfOk result (λ one. M.stands maker.new one (item.now ∷ [])) }
    ensures refused { IfErr result (λ error. IsAlone (M.fits (M.base maker.old)) (item.now ∷ []) at error) }
{
    match maker.first(item, steps) {
        Ok(Some(one)) => Ok(one),
        Ok(None) => Err(FoldError::Alone { item: at }),
        Err(_want) => Err(FoldError::NoMemory),
    }
}

/// What stands alone for the item that a change puts in.
pub fn single_put<M: Maker, L: Ledger>(
    maker: &mut M,
    change: &Change<M::Item>,
    at: usize,
    steps: &mut Steps<L>,
) -> Result<Option<M::Kept>, FoldError>
    requires { IsAllowed (M.allowed (M.base maker.old)) change.now }
    ensures base { M.base maker.new ≡ M.base maker.old }
    ensures older { Keeps (M.stands maker.old) (M.stands maker.new) }
    ensures marks { KeepsMarks (M.valid maker.old) (M.valid maker.new) (M.marked maker.old) (M.marked maker.new) }
    ensures cost { steps.new ≤ steps.old + 1 }
    ensures one { IfOk result (λ one. SinglesStand (M.stands maker.new) (of_option one) (put_in change.now)) }
    ensures refused { IfErr result (λ error. IsAlone (M.fits (M.base maker.old)) (put_in change.now) at error) }
{
    match change {
        Change::Insert(item) => match single(maker, item, at, steps) {
            Ok(one) => Ok(Some(one)),
            Err(refusal) => Err(refusal),
        },
        Change::Replace(item) => match single(maker, item, at, steps) {
            Ok(one) => Ok(Some(one)),
            Err(refusal) => Err(refusal),
        },
        Change::Remove => Ok(None),
    }
}

/// The values that stand for each of `count` items alone, from all kept values.
pub fn singles<K: Copy>(alloc: Global, kept: &[K], count: usize) -> Result<List<K>, NoMemory>
    requires { length kept.now ≡ 2 * count }
    ensures { IfOk result (λ singles. singles ≡ ones kept.now) }
{
    let mut singles = List::new(alloc);
    for i in 0..count {
        match singles.push(kept[2 * i]) {
            Ok(()) => {}
            Err(want) => return Err(want),
        }
    }
    Ok(singles)
}

/// What stands for each of the changed items alone, where `skip` items are taken out.
pub fn changed_singles<K: Copy>(
    alloc: Global,
    singles: &[K],
    at: usize,
    put: Option<K>,
    skip: usize,
) -> Result<List<K>, NoMemory>
    requires { at + skip ≤ length singles.now }
    ensures { IfOk result (λ changed. changed ≡ take at singles.now ++ of_option put ++ drop (at + skip) singles.now) }
{
    let (front, from) = singles.split_at(at);
    let (_, rest) = from.split_at(skip);
    let mut changed = List::new(alloc);
    changed.append(front)?;
    if let Some(one) = put {
        changed.push(one)?;
    }
    changed.append(rest)?;
    Ok(changed)
}
