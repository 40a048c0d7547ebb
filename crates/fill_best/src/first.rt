//! The first few of what is put together, by the cost and then in order.
ghost use Rattle.std.specs.Prelude.{◌≡◌, ◌⊎◌, ◌+◌, ◌^◌, ◌<◌, ◌≤◌, length, Contains, IfOk, OnOk, IsTrue, MatchOption};
ghost use Rattle.fill_best.specs.Costs.{by_cost, linked};
ghost use Rattle.fill_best.specs.First.{AreFirst, IsMade, IsPast, IsPlaceOf, Rises};
ghost use Rattle.fill_best.specs.declared.costed.Costed.{Costed as Cost};

use crate::costed::{Composite, Costed, Ordered};
use fill_text::NoMemory;
use std::alloc::Global;
use std::cmp::Ordering;

/// The order of two items by their cost, and then by their own order.
fn compare<T: Ordered>(a: &Costed<T>, b: &Costed<T>) -> Ordering
    ensures { result ≡ by_cost T.order a.now b.now }
{
    a.cost.cmp(&b.cost).then(a.item.compare(&b.item))
}

/// The place of an item among those that are kept; none where it is one of them.
///
/// It is looked for from the back, since the parts of a product come in rising order.
fn place_of<T: Ordered>(ranking: &[Costed<T>], next: &Costed<T>) -> Option<usize>
    requires { Rises (by_cost T.order) ranking.now }
    ensures { MatchOption result (Contains ranking.now next.now) (IsPlaceOf (by_cost T.order) ranking.now next.now) }
{
    let mut at = ranking.len();
    while at > 0 {
        match compare(next, &ranking[at - 1]) {
            Ordering::Greater => return Some(at),
            Ordering::Equal => return None,
            Ordering::Less => at -= 1,
        }
    }
    Some(0)
}

/// Puts an item among the first ones, if it is one of them, and says whether it is past them.
pub(crate) fn put<T: Ordered>(
    ranking: &mut Vec<Costed<T>>,
    limit: usize,
    next: Costed<T>,
) -> Result<bool, NoMemory>
    requires rising { Rises (by_cost T.order) ranking.old.items }
    requires few { length ranking.old.items ≤ limit }
    ensures first { IfOk result (λ _past. AreFirst (by_cost T.order) (λ z. Contains ranking.old.items z ⊎ (z ≡ next)) limit ranking.new.items) }
    ensures past { IfOk result (λ past. IsTrue past → IsPast (by_cost T.order) limit ranking.new.items next) }
{
    let Some(at) = place_of(ranking.as_slice(), &next) else {
        return Ok(false);
    };
    if at >= limit {
        return Ok(true);
    }
    match ranking.insert(at, next) {
        Ok(()) => {}
        Err(_) => return Err(NoMemory),
    }
    ranking.truncate(limit);
    Ok(false)
}

/// Whether all that is kept costs less, and no more may be kept.
fn is_past<T: Ordered>(ranking: &[Costed<T>], limit: usize, cost: u64) -> bool
    requires { Rises (by_cost T.order) ranking.now }
    ensures { IsTrue result → (x : Cost T) → x.cost ≡ cost → IsPast (by_cost T.order) limit ranking.now x }
{
    if ranking.len() < limit || ranking.len() == 0 {
        return false;
    }
    ranking[ranking.len() - 1].cost < cost
}

/// Puts what the first part makes with each of the second parts.
fn put_row<A: Ordered, B: Ordered, T: Composite<A, B>>(
    alloc: Global,
    ranking: &mut Vec<Costed<T>>,
    limit: usize,
    link: u64,
    first: &Costed<A>,
    seconds: &[Costed<B>],
) -> Result<(), NoMemory>
    requires rising { Rises (by_cost T.order) ranking.old.items }
    requires few { length ranking.old.items ≤ limit }
    requires seconds { Rises (by_cost B.order) seconds.now }
    requires cheap { (y : Cost B) → Contains seconds.now y → link + first.now.cost + y.cost < 2 ^ 64 }
    ensures { OnOk result (AreFirst (by_cost T.order)
        (λ z. Contains ranking.old.items z ⊎ IsMade (linked T.composite link) (λ x. x ≡ first.now) (Contains seconds.now) z) limit ranking.new.items) }
{
    for second in seconds {
        let cost = link + first.cost + second.cost;
        if is_past(ranking.as_slice(), limit, cost) {
            return Ok(());
        }
        let item = match T::make(alloc, &first.item, &second.item) {
            Ok(item) => item,
            Err(e) => return Err(e),
        };
        match put(ranking, limit, Costed { cost, item }) {
            Ok(false) => {}
            Ok(true) => return Ok(()),
            Err(e) => return Err(e),
        }
    }
    Ok(())
}

/// Puts what each of the first parts makes with each of the second parts.
pub(crate) fn put_products<A: Ordered, B: Ordered, T: Composite<A, B>>(
    alloc: Global,
    ranking: &mut Vec<Costed<T>>,
    limit: usize,
    link: u64,
    firsts: &[Costed<A>],
    seconds: &[Costed<B>],
) -> Result<(), NoMemory>
    requires rising { Rises (by_cost T.order) ranking.old.items }
    requires few { length ranking.old.items ≤ limit }
    requires seconds { Rises (by_cost B.order) seconds.now }
    requires cheap { (x : Cost A) (y : Cost B) → Contains firsts.now x → Contains seconds.now y → link + x.cost + y.cost < 2 ^ 64 }
    ensures { OnOk result (AreFirst (by_cost T.order)
        (λ z. Contains ranking.old.items z ⊎ IsMade (linked T.composite link) (Contains firsts.now) (Contains seconds.now) z) limit ranking.new.items) }
{
    for first in firsts {
        match put_row(alloc, ranking, limit, link, first, seconds) {
            Ok(()) => {}
            Err(e) => return Err(e),
        }
    }
    Ok(())
}
