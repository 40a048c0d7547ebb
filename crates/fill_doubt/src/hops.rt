//! Rising lists of positions, and where hops lead from them.
//!
//! The pieces that a token spans are hops from their starts to their ends, and back. So the positions up to which a
//! sequence spans a piece, or from which on, are found for all of them at once, in one walk along two lists for each token.
ghost use Rattle.std.specs.Prelude.{◌≡◌, ◌+◌, ◌<◌, ◌≤◌, ◌++◌, ◌∷◌, [], ◌↔◌, ℕ, Some, length, slice_get, IsTrue, IfOk, OnOk};
ghost use Rattle.std.specs.List.Sorted.{IsStrictlyIncreasing};
ghost use Rattle.fill_spans.specs.Pieces.{Rises};
ghost use Rattle.fill_tokens.specs.Cuts.{IsRisingListOf};
ghost use Rattle.fill_doubt.specs.Hops.{AreLess, AreLessThanRest, AreReached, AreReachedBelow};

use fill_text::NoMemory;
use std::alloc::Global;

pub(crate) fn push_number(numbers: &mut Vec<usize>, k: usize) -> Result<(), NoMemory>
    ensures { OnOk result (numbers.new.items ≡ numbers.old.items ++ k ∷ []) }
{
    numbers.push(k)?;
    Ok(())
}

/// The positions of a text of that length.
pub(crate) fn positions(alloc: Global, n: usize) -> Result<Vec<usize>, NoMemory>
    ensures { IfOk result (λ ks. IsRisingListOf (λ k. k ≤ n) ks.items) }
{
    let mut ks = Vec::new(alloc);
    for k in 0..n {
        push_number(&mut ks, k)?;
    }
    push_number(&mut ks, n)?;
    Ok(ks)
}

/// The first place from one on whose number is not less.
fn skip(set: &[usize], from: usize, k: usize) -> usize
    requires { AreLess set.now from k }
    ensures less { AreLess set.now result k }
    ensures here { (x : ℕ) → slice_get set.now result ≡ Some x → k ≤ x }
{
    for i in from..set.len() {
        if set[i] >= k {
            return i;
        }
    }
    set.len()
}

fn is_at(set: &[usize], place: usize, k: usize) -> bool
    ensures { IsTrue result ↔ (slice_get set.now place ≡ Some k) }
{
    if place >= set.len() {
        return false;
    }
    set[place] == k
}

/// Puts the number to the list that the hop of this place leads to, if it starts in the set. It tells up to which place
/// the set is passed.
fn put_reached(
    set: &[usize],
    passed: usize,
    from: &[usize],
    to: &[usize],
    i: usize,
    out: &mut Vec<usize>,
) -> Result<usize, NoMemory>
    requires place { i < length from.now }
    requires paired { length from.now ≡ length to.now }
    requires set { IsStrictlyIncreasing set.now }
    requires from { Rises from.now }
    requires to { Rises to.now }
    requires passed { AreLessThanRest set.now passed from.now i }
    ensures passed { IfOk result (λ place. AreLessThanRest set.now place from.now (i + 1)) }
    ensures out { OnOk result (AreReachedBelow set.now from.now to.now i out.old.items → AreReachedBelow set.now from.now to.now (i + 1) out.new.items) }
{
    let k = from[i];
    let place = skip(set, passed, k);
    if !is_at(set, place, k) {
        return Ok(place);
    }
    push_number(out, to[i])?;
    Ok(place)
}

/// Lists the numbers that the hops lead to which start in the set.
pub(crate) fn reach(
    set: &[usize],
    from: &[usize],
    to: &[usize],
    out: &mut Vec<usize>,
) -> Result<(), NoMemory>
    requires paired { length from.now ≡ length to.now }
    requires set { IsStrictlyIncreasing set.now }
    requires from { Rises from.now }
    requires to { Rises to.now }
    ensures { OnOk result (AreReached set.now from.now to.now out.new.items) }
{
    out.clear();
    let mut passed = 0;
    for i in 0..from.len() {
        passed = put_reached(set, passed, from, to, i, out)?;
    }
    Ok(())
}
