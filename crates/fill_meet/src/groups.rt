//! The places of a list by their keys.
ghost use Rattle.std.specs.Prelude.{◌≡◌, ◌<◌, ◌+◌, ◌%◌, ℕ, List, length, get_or, slice_get, Some, IfOk};
ghost use Rattle.fill_arena.specs.Contents.{EachIn};
ghost use Rattle.fill_meet.specs.Groups.{AreChainedFrom, AreGroups, IsFirstFrom};

use fill_text::NoMemory;
use std::alloc::Global;

/// For each key its first place; for each place the next one of its key.
///
/// Where there is no such place, it is one past the last one.
#[derive(Drop)]
pub(crate) struct Groups {
    pub(crate) firsts: Vec<usize>,
    pub(crate) nexts: Vec<usize>,
}

impl Groups {
    /// The groups of the places of the keys, which are below the count. One pass from the back makes them.
    pub(crate) fn new(alloc: Global, count: usize, keys: &[usize]) -> Result<Groups, NoMemory>
        requires { EachIn (λ k. k < count) keys.now }
        ensures groups { IfOk result (AreGroups keys.now) }
        ensures count { IfOk result (λ g. length g.firsts.items ≡ count) }
    {
        let mut firsts = vec![in alloc; keys.len(); count]?;
        let mut nexts = vec![in alloc; keys.len(); keys.len()]?;
        chain(firsts.as_mut_slice(), nexts.as_mut_slice(), keys);
        Ok(Groups { firsts, nexts })
    }

    /// The first place of the key, if it is known at all.
    #[tactic(auto, using(crate::proofs::Chains::first_beyond))]
    pub(crate) fn first(&self, key: usize) -> usize
        ensures { (keys : List ℕ) → AreGroups keys self.now → IsFirstFrom keys key 0 result }
    {
        if key >= self.firsts.len() {
            return self.nexts.len();
        }
        self.firsts[key]
    }

    /// The first place of the group that the hash is in.
    pub(crate) fn first_of(&self, hash: u64) -> usize
        requires { 0 < length self.now.firsts.items }
        ensures { (keys : List ℕ) → AreGroups keys self.now → IsFirstFrom keys (hash % length self.now.firsts.items) 0 result }
    {
        self.first(group_of(hash, self.firsts.len()))
    }

    /// The next place of the key of this place.
    pub(crate) fn next(&self, place: usize) -> usize
        requires { place < length self.now.nexts.items }
        ensures { (keys : List ℕ) (key : ℕ) → AreGroups keys self.now → slice_get keys place ≡ Some key → IsFirstFrom keys key (place + 1) result }
    {
        self.nexts[place]
    }
}

/// Puts each place before the later ones of its key, where no key has a place yet.
fn chain(firsts: &mut [usize], nexts: &mut [usize], keys: &[usize])
    requires within { EachIn (λ k. k < length firsts.old) keys.now }
    requires long { length nexts.old ≡ length keys.now }
    requires none { (n : ℕ) → n < length firsts.old → get_or firsts.old n 0 ≡ length keys.now }
    ensures { AreChainedFrom 0 keys.now firsts.new nexts.new }
{
    let mut i = keys.len();
    while i > 0 {
        i -= 1;
        let key = keys[i];
        nexts[i] = firsts[key];
        firsts[key] = i;
    }
}

/// The group of what has the hash, where the count tells how many groups there are.
pub(crate) fn group_of(hash: u64, count: usize) -> usize
    requires { 0 < count }
    ensures { result ≡ hash % count }
{
    (hash % count as u64) as usize
}
