//! The places of one position between two sequences, and its fixed places.
ghost use Rattle.std.specs.Prelude.{◌≡◌, ◌≤◌, ◌<◌, ◌+◌, ◌-◌, ◌^◌, pos, negsuc, length, slice_get, Some, true, OnOk};
ghost use Rattle.fill_tokens.specs.Value.{IsCount};
ghost use Rattle.fill_tokens.specs.Place.{place_cmp};
ghost use Rattle.fill_tokens.specs.declared.place.Place.{Place};
ghost use Rattle.fill_tokens.specs.declared.place.Place.TheVariants.{CPos, Pos};
ghost use Rattle.fill_text.specs.Lists.{Adds};
ghost use Rattle.fill_places.specs.Marks.{AreMarks, Common};
ghost use Rattle.fill_places.specs.Sides.{LeftAt, RightAt};
ghost use Rattle.fill_places.specs.Wanted.{PairOf, FixedOf, FittingFixed, FittingPair, Counts};
ghost use Rattle.fill_tokens.specs.PlaceGrammar.{AreAround};
ghost use Rattle.fill_tokens.specs.TokenSet.{AreTokensOf};

use crate::entry::Entry;
use fill_text::{List, NoMemory, Text};
use fill_tokens::{Place, Seq, TokenSet};

/// How many positions up to `k` are marked in both.
fn count_to(l: &Entry, r: &Entry, k: usize) -> usize
    requires left { k < length l.now.at }
    requires right { k < length r.now.at }
    requires small { k < 2 ^ 61 }
    ensures { IsCount (Common l.now.at r.now.at) (k + 1) result }
{
    l.at.common_below(&r.at, k + 1)
}

/// How many positions from `k` to `n` are marked in both, where `k` is one of them and `upto` is their number up to it.
fn count_from(l: &Entry, r: &Entry, k: usize, n: usize, upto: usize) -> usize
    requires order { k ≤ n }
    requires left { n < length l.now.at }
    requires right { n < length r.now.at }
    requires small { n < 2 ^ 61 }
    requires here { Common l.now.at r.now.at k }
    requires upto { IsCount (Common l.now.at r.now.at) (k + 1) upto }
    ensures { IsCount (λ i. Common l.now.at r.now.at (n - i)) (n - k + 1) result }
{
    let _position = k;
    let all = l.at.common_below(&r.at, n + 1);
    all - (upto - 1)
}

/// Puts the fixed place of this number to the list, where the number is one of 32 bits.
fn push_fixed_left(out: &mut List<Place>, number: usize) -> Result<(), NoMemory>
    ensures { OnOk result (Adds place_cmp out.old out.new (FittingFixed (pos number))) }
{
    if number > 0x7fff_ffff {
        return Ok(());
    }
    out.push(Place::CPos(number as i32))
}

/// Puts the fixed place of this number from the right, the end being 1, to the list, where its number is one of 32 bits.
fn push_fixed_right(out: &mut List<Place>, number: usize) -> Result<(), NoMemory>
    requires { 0 < number }
    ensures { OnOk result (Adds place_cmp out.old out.new (FittingFixed (negsuc (number - 1)))) }
{
    if number > 0x8000_0000 {
        return Ok(());
    }
    out.push(Place::CPos(-(number as i64) as i32))
}

/// Puts the two fixed places of the position to the list.
pub fn push_fixed(
    out: &mut List<Place>,
    t: &Text,
    k: usize,
    token_set: TokenSet,
) -> Result<(), NoMemory>
    requires { k ≤ length t.now }
    ensures { OnOk result (Adds place_cmp out.old out.new (FixedOf token_set t.now k)) }
{
    let _set = token_set;
    let back = t.len() - k + 1;
    if k <= back {
        push_fixed_left(out, k)?;
        push_fixed_right(out, back)
    } else {
        push_fixed_right(out, back)?;
        push_fixed_left(out, k)
    }
}

/// Puts the place with this count from the left to the list, where the count is one of 32 bits.
fn push_from_left(out: &mut List<Place>, l: &Seq, r: &Seq, count: usize) -> Result<(), NoMemory>
    ensures { OnOk result (Adds place_cmp out.old out.new (FittingPair l.now r.now (pos count))) }
{
    if count > 0x7fff_ffff {
        return Ok(());
    }
    out.push(Place::Pos(*l, *r, count as i32))
}

/// Puts the place with this count from the right to the list, where the count is one of 32 bits.
fn push_from_right(out: &mut List<Place>, l: &Seq, r: &Seq, count: usize) -> Result<(), NoMemory>
    requires { 0 < count }
    ensures { OnOk result (Adds place_cmp out.old out.new (FittingPair l.now r.now (negsuc (count - 1)))) }
{
    if count > 0x8000_0000 {
        return Ok(());
    }
    out.push(Place::Pos(*l, *r, -(count as i64) as i32))
}

/// Puts the places of the position between the two sequences to the list, by the numbers of the cut.
fn push_counted(
    out: &mut List<Place>,
    l: &Seq,
    r: &Seq,
    a: usize,
    b: usize,
    t: &Text,
    k: usize,
    token_set: TokenSet,
) -> Result<(), NoMemory>
    requires around { AreAround l.now r.now }
    requires tokens { AreTokensOf token_set l.now × AreTokensOf token_set r.now }
    requires counts { Counts t.now k l.now r.now a b }
    ensures { OnOk result (Adds place_cmp out.old out.new (PairOf token_set t.now k l.now r.now)) }
{
    let _text = t;
    let _position = k;
    let _set = token_set;
    if a <= b {
        push_from_left(out, l, r, a)?;
        push_from_right(out, l, r, b)
    } else {
        push_from_right(out, l, r, b)?;
        push_from_left(out, l, r, a)
    }
}

/// Puts the places of the position between the two sequences to the list.
pub fn push_pair(
    out: &mut List<Place>,
    l: &Entry,
    r: &Entry,
    t: &Text,
    k: usize,
    token_set: TokenSet,
) -> Result<(), NoMemory>
    requires within { k ≤ length t.now }
    requires left { AreMarks (LeftAt token_set t.now l.now.seq) (length t.now) l.now.at }
    requires right { AreMarks (RightAt token_set t.now r.now.seq) (length t.now) r.now.at }
    requires few { (length l.now.seq ≤ 3) × (length r.now.seq ≤ 3) }
    requires ends { slice_get l.now.at k ≡ Some true }
    requires begins { slice_get r.now.at k ≡ Some true }
    ensures { OnOk result (Adds place_cmp out.old out.new (PairOf token_set t.now k l.now.seq r.now.seq)) }
{
    if l.seq.len() + r.seq.len() == 0 {
        return Ok(());
    }
    let n = t.len();
    let a = count_to(l, r, k);
    let b = count_from(l, r, k, n, a);
    push_counted(out, &l.seq, &r.seq, a, b, t, k, token_set)
}
