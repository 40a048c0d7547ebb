//! The list of all places of one position.
ghost use Rattle.std.specs.Prelude.{◌≡◌, ℕ, List, ◌≤◌, ◌<◌, ◌+◌, length, slice_get, Some, true, OnOk, IfOk};
ghost use Rattle.std.specs.Ordering.{nat_cmp};
ghost use Rattle.fill_tokens.specs.Place.{place_cmp};
ghost use Rattle.fill_text.specs.Lists.{Lists, Adds};
ghost use Rattle.fill_places.specs.Marks.{AreMarks};
ghost use Rattle.fill_places.specs.Sides.{LeftAt};
ghost use Rattle.fill_places.specs.Entries.{AreLefts, AreRights, IsMarkedAt};
ghost use Rattle.fill_places.specs.Wanted.{IsWanted, PairOf, FromLeft, FromLefts};
ghost use Rattle.fill_places.specs.declared.entry.Entry.{Entry};

use crate::entry::Entry;
use crate::pair::{push_fixed, push_pair};
use fill_text::{List, NoMemory, Text};
use fill_tokens::{Place, TokenSet};
use std::alloc::Global;

/// How many places a list has room for from its start. Most positions of short texts have some sixty.
const ROOM: usize = 128;

/// How many numbers a list has room for from its start. At most positions of short texts fewer sequences begin.
const ROW_ROOM: usize = 16;

/// Puts the number of the entry to the list, where it is marked at the position.
fn push_number(
    numbers: &mut List<usize>,
    entries: &[Entry],
    i: usize,
    t: &Text,
    k: usize,
    token_set: TokenSet,
) -> Result<(), NoMemory>
    requires within { k ≤ length t.now }
    requires entries { AreRights token_set t.now entries.now }
    requires number { i < length entries.now }
    ensures { OnOk result ((old : List ℕ) → Adds nat_cmp old numbers.old (λ j. (j < i) × IsMarkedAt entries.now k j) →
        Adds nat_cmp old numbers.new (λ j. (j < i + 1) × IsMarkedAt entries.now k j)) }
{
    let _text = t;
    let _set = token_set;
    let e = &entries[i];
    if !e.at.has(k) {
        return Ok(());
    }
    numbers.push(i)
}

/// The numbers of the entries that are marked at the position.
fn marked_at(
    alloc: Global,
    entries: &[Entry],
    t: &Text,
    k: usize,
    token_set: TokenSet,
) -> Result<List<usize>, NoMemory>
    requires within { k ≤ length t.now }
    requires entries { AreRights token_set t.now entries.now }
    ensures { IfOk result (Lists nat_cmp (IsMarkedAt entries.now k)) }
{
    let _text = t;
    let mut numbers = List::with_capacity(alloc, ROW_ROOM)?;
    for i in 0..entries.len() {
        push_number(&mut numbers, entries, i, t, k, token_set)?;
    }
    Ok(numbers)
}

/// Puts the places between the left sequence and the right one of the number at this place to the list.
fn push_numbered(
    out: &mut List<Place>,
    l: &Entry,
    rights: &[Entry],
    number: usize,
    t: &Text,
    k: usize,
    token_set: TokenSet,
) -> Result<(), NoMemory>
    requires within { k ≤ length t.now }
    requires left { AreMarks (LeftAt token_set t.now l.now.seq) (length t.now) l.now.at }
    requires few { length l.now.seq ≤ 3 }
    requires ends { slice_get l.now.at k ≡ Some true }
    requires rights { AreRights token_set t.now rights.now }
    requires number { IsMarkedAt rights.now k number }
    ensures { (r : Entry) → slice_get rights.now number ≡ Some r →
        OnOk result (Adds place_cmp out.old out.new (PairOf token_set t.now k l.now.seq r.seq)) }
{
    push_pair(out, l, &rights[number], t, k, token_set)
}

/// Puts the places between the left sequence and all right ones to the list.
fn push_row(
    out: &mut List<Place>,
    l: &Entry,
    rights: &[Entry],
    numbers: &[usize],
    t: &Text,
    k: usize,
    token_set: TokenSet,
) -> Result<(), NoMemory>
    requires within { k ≤ length t.now }
    requires left { AreMarks (LeftAt token_set t.now l.now.seq) (length t.now) l.now.at }
    requires few { length l.now.seq ≤ 3 }
    requires ends { slice_get l.now.at k ≡ Some true }
    requires rights { AreRights token_set t.now rights.now }
    requires numbers { Lists nat_cmp (IsMarkedAt rights.now k) numbers.now }
    ensures { OnOk result (Adds place_cmp out.old out.new (FromLeft token_set t.now k l.now.seq)) }
{
    for j in 0..numbers.len() {
        let number = numbers[j];
        push_numbered(out, l, rights, number, t, k, token_set)?;
    }
    Ok(())
}

/// Puts the places with this left sequence to the list, where it ends at the position.
fn push_left(
    out: &mut List<Place>,
    l: &Entry,
    rights: &[Entry],
    numbers: &[usize],
    t: &Text,
    k: usize,
    token_set: TokenSet,
) -> Result<(), NoMemory>
    requires within { k ≤ length t.now }
    requires left { AreMarks (LeftAt token_set t.now l.now.seq) (length t.now) l.now.at }
    requires few { length l.now.seq ≤ 3 }
    requires rights { AreRights token_set t.now rights.now }
    requires numbers { Lists nat_cmp (IsMarkedAt rights.now k) numbers.now }
    ensures { OnOk result (Adds place_cmp out.old out.new (FromLeft token_set t.now k l.now.seq)) }
{
    if !l.at.has(k) {
        return Ok(());
    }
    push_row(out, l, rights, numbers, t, k, token_set)
}

/// Puts the places between sequences to the list.
fn push_between(
    out: &mut List<Place>,
    lefts: &[Entry],
    rights: &[Entry],
    numbers: &[usize],
    t: &Text,
    k: usize,
    token_set: TokenSet,
) -> Result<(), NoMemory>
    requires within { k ≤ length t.now }
    requires lefts { AreLefts token_set t.now lefts.now }
    requires rights { AreRights token_set t.now rights.now }
    requires numbers { Lists nat_cmp (IsMarkedAt rights.now k) numbers.now }
    ensures { OnOk result (Adds place_cmp out.old out.new (FromLefts token_set t.now k lefts.now (length lefts.now))) }
{
    for l in lefts {
        push_left(out, l, rights, numbers, t, k, token_set)?;
    }
    Ok(())
}

/// All places of the grammar by tokens of the set whose value in the text is `k`.
pub fn list_places(
    alloc: Global,
    lefts: &[Entry],
    rights: &[Entry],
    t: &Text,
    k: usize,
    token_set: TokenSet,
) -> Result<List<Place>, NoMemory>
    requires within { k ≤ length t.now }
    requires lefts { AreLefts token_set t.now lefts.now }
    requires rights { AreRights token_set t.now rights.now }
    ensures { IfOk result (Lists place_cmp (IsWanted token_set t.now k)) }
{
    let numbers = marked_at(alloc, rights, t, k, token_set)?;
    let mut out = List::with_capacity(alloc, ROOM)?;
    push_fixed(&mut out, t, k, token_set)?;
    push_between(&mut out, lefts, rights, numbers.as_slice(), t, k, token_set)?;
    Ok(out)
}
