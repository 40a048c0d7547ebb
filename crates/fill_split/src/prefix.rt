//! What is kept for the first items.
ghost use Rattle.std.specs.Prelude.{◌≡◌, ◌*◌, List as Listed, [], length, IfOk};
ghost use Rattle.fill_split.specs.Standing.{spots, Came, AllStand, StandsBy, Traced};
ghost use Rattle.fill_split.specs.declared.rule.Placing.{Placing};

use crate::folds::{Fold, Folds};
use crate::maker::Maker;
use crate::place::{join_branch, open_branch};
use fill_text::{List, NoMemory};
use std::alloc::Global;

/// The branches that the items with these kept values and places make. The maker takes no step.
pub fn rebuild<M: Maker>(
    alloc: Global,
    maker: &M,
    kept: &[M::Kept],
    places: &[usize],
) -> Result<Vec<Fold<M::Kept>>, NoMemory>
    requires came { (rule : Placing) × (items : Listed M.Item) × (bs : Listed (Listed M.Item)) × Came (M.stands maker.now) rule (M.fits (M.base maker.now)) (M.weight (M.base maker.now)) [] items (spots kept.now places.now) bs }
    requires paired { length kept.now ≡ 2 * length places.now }
    ensures { IfOk result (λ folds. (rule : Placing) (items : Listed M.Item) (bs : Listed (Listed M.Item)) →
        Came (M.stands maker.now) rule (M.fits (M.base maker.now)) (M.weight (M.base maker.now)) [] items (spots kept.now places.now) bs → AllStand (M.stands maker.now) items kept.now folds.items bs) }
{
    let mut branches = Vec::new(alloc);
    for i in 0..places.len() {
        let branch = places[i];
        let place = 2 * i + 1;
        let value = kept[place];
        if branch == branches.len() {
            open_branch(alloc, &mut branches, i, value, place)?;
        } else {
            join_branch(&mut branches, branch, i, value, place)?;
        }
    }
    Ok(branches)
}

/// A copy of the values.
fn copied<K: Copy>(alloc: Global, kept: &[K]) -> Result<Vec<K>, NoMemory>
    ensures { IfOk result (λ copied. copied.items ≡ kept.now) }
{
    let mut copied = Vec::new(alloc);
    match copied.extend_from_slice(kept) {
        Ok(()) => Ok(copied),
        Err(_refused) => Err(NoMemory),
    }
}

/// A copy of the places.
fn copied_places(alloc: Global, places: &[usize]) -> Result<List<usize>, NoMemory>
    ensures { IfOk result (λ copied. copied ≡ places.now) }
{
    let mut copied = List::new(alloc);
    copied.append(places)?;
    Ok(copied)
}

/// What is kept for the first items, as many as there are places.
pub fn front<M: Maker>(
    maker: &M,
    before: &Folds<M>,
    kept: &[M::Kept],
    places: &[usize],
) -> Result<Folds<M>, NoMemory>
    requires { (items : Listed M.Item) × Traced (M.stands maker.now) before.now.rule (M.fits (M.base maker.now)) (M.weight (M.base maker.now)) items kept.now places.now }
    ensures rule { IfOk result (λ folds. folds.rule ≡ before.now.rule) }
    ensures stands { IfOk result (λ folds. (items : Listed M.Item) →
        Traced (M.stands maker.now) before.now.rule (M.fits (M.base maker.now)) (M.weight (M.base maker.now)) items kept.now places.now →
        StandsBy (M.stands maker.now) (M.fits (M.base maker.now)) (M.weight (M.base maker.now)) items folds) }
{
    let alloc = *before.branches.allocator();
    Ok(Folds {
        rule: before.rule,
        kept: copied(alloc, kept)?,
        places: copied_places(alloc, places)?,
        branches: rebuild(alloc, maker, kept, places)?,
    })
}
