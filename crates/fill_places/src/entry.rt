//! Sequences of tokens and the positions that they reach.
ghost use Rattle.std.specs.Prelude.{◌≡◌, ℕ, ◌≤◌, ◌<◌, ◌+◌, ◌++◌, ◌∷◌, [], ◌^◌, ◌↔◌, length, slice_get, IfOk, OnOk, IsTrue, true, ◌⊎◌};
ghost use Rattle.fill_places.specs.Marks.{AreMarks, AreMarked, AreAll, AreWithin, AnyMarked, Reached};

use crate::marks::Marks;
use fill_text::NoMemory;
use fill_tokens::Seq;
use std::alloc::Global;

/// A sequence, and for each position of a text whether it ends, or begins, there.
#[derive(Drop)]
pub struct Entry {
    pub seq: Seq,
    pub at: Marks,
}

/// Whether the position of this place in the list is marked.
fn marked_at(at: &Marks, ks: &[usize], i: usize, n: usize) -> bool
    requires place { i < length ks.now }
    requires long { length at.now ≡ n + 1 }
    requires within { AreWithin n ks.now }
    ensures { (k : ℕ) → slice_get ks.now i ≡ Some k → IsTrue result ↔ (slice_get at.now k ≡ Some true) }
{
    let _length = n;
    at.has(ks[i])
}

fn any_marked(at: &Marks, ks: &[usize], n: usize) -> bool
    requires long { length at.now ≡ n + 1 }
    requires within { AreWithin n ks.now }
    ensures { IsTrue result ↔ AnyMarked at.now ks.now }
{
    for i in 0..ks.len() {
        if marked_at(at, ks, i, n) {
            return true;
        }
    }
    false
}

/// Whether one of the positions is marked.
pub fn reaches(e: &Entry, ks: &[usize], n: usize) -> bool
    requires long { length e.now.at ≡ n + 1 }
    requires within { AreWithin n ks.now }
    ensures { IsTrue result ↔ AnyMarked e.now.at ks.now }
{
    any_marked(&e.at, ks, n)
}

/// Marks where the hop leads to, if it starts at a marked position.
fn mark_hop(marks: &mut Marks, at: &Marks, a: usize, b: usize, n: usize)
    requires room { length marks.old ≡ n + 1 }
    requires long { length at.now ≡ n + 1 }
    requires from { a ≤ n }
    requires to { b ≤ n }
    ensures long { length marks.new ≡ n + 1 }
    ensures sound { (k : ℕ) → slice_get marks.new k ≡ Some true →
        (slice_get marks.old k ≡ Some true) ⊎ ((slice_get at.now a ≡ Some true) × (b ≡ k)) }
    ensures keeps { (k : ℕ) → slice_get marks.old k ≡ Some true → slice_get marks.new k ≡ Some true }
    ensures full { slice_get at.now a ≡ Some true → slice_get marks.new b ≡ Some true }
{
    let _length = n;
    if !at.has(a) {
        return;
    }
    marks.set(b);
}

/// Marks where the hop of this place leads to, if it starts at a marked position.
fn mark_place(marks: &mut Marks, at: &Marks, from: &[usize], to: &[usize], i: usize, n: usize)
    requires room { length marks.old ≡ n + 1 }
    requires long { length at.now ≡ n + 1 }
    requires paired { length from.now ≡ length to.now }
    requires place { i < length from.now }
    requires from { AreWithin n from.now }
    requires to { AreWithin n to.now }
    ensures { AreMarked at.now from.now to.now i n marks.old →
        AreMarked at.now from.now to.now (i + 1) n marks.new }
{
    mark_hop(marks, at, from[i], to[i], n)
}

/// Marks of the positions that the hops lead to from marked ones.
pub fn reached(
    alloc: Global,
    e: &Entry,
    from: &[usize],
    to: &[usize],
    n: usize,
) -> Result<Marks, NoMemory>
    requires small { n < 2 ^ 62 }
    requires long { length e.now.at ≡ n + 1 }
    requires paired { length from.now ≡ length to.now }
    requires from { AreWithin n from.now }
    requires to { AreWithin n to.now }
    ensures { IfOk result (λ v. AreMarks (Reached e.now.at from.now to.now) n v) }
{
    marks_reached(alloc, &e.at, from, to, n)
}

fn marks_reached(
    alloc: Global,
    at: &Marks,
    from: &[usize],
    to: &[usize],
    n: usize,
) -> Result<Marks, NoMemory>
    requires small { n < 2 ^ 62 }
    requires long { length at.now ≡ n + 1 }
    requires paired { length from.now ≡ length to.now }
    requires from { AreWithin n from.now }
    requires to { AreWithin n to.now }
    ensures { IfOk result (λ v. AreMarks (Reached at.now from.now to.now) n v) }
{
    let mut marks = Marks::none(alloc, n + 1)?;
    for i in 0..from.len() {
        mark_place(&mut marks, at, from, to, i, n);
    }
    Ok(marks)
}

/// The entry of the sequence of no token, which ends and begins everywhere.
pub fn empty_entry(alloc: Global, n: usize) -> Result<Entry, NoMemory>
    requires { n < 2 ^ 62 }
    ensures { IfOk result (λ e. (e.seq ≡ []) × AreAll true (n + 1) e.at) }
{
    let at = Marks::all(alloc, n + 1)?;
    Ok(Entry {
        seq: Seq::empty(),
        at,
    })
}

/// How many entries the list of one token more has room for from its start. For short texts it is about twice as long.
pub fn room_after(layer: &[Entry]) -> usize {
    2 * layer.len() + 8
}

/// Puts the entry at the end.
pub fn push_entry(out: &mut Vec<Entry>, e: Entry) -> Result<(), NoMemory>
    ensures { OnOk result (out.new.items ≡ out.old.items ++ e ∷ []) }
{
    out.push(e)?;
    Ok(())
}

/// Puts the other entries at the end.
pub fn join(all: &mut Vec<Entry>, more: Vec<Entry>) -> Result<(), NoMemory>
    ensures { OnOk result (all.new.items ≡ all.old.items ++ more.items) }
{
    let mut more = more;
    all.append(&mut more)?;
    Ok(())
}
