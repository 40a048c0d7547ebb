//! The values of places, and the counts of matches.
//!
//! Each call looks at every position of the text once, and the tests there scan each run a fixed number of times in all,
//! as [`crate::span`] says: so each is linear in the text's length for a fixed place or sequence.
ghost use Rattle.std.specs.Prelude.{◌↔◌, ◌≤◌, ◌<◌, ◌+◌, ℕ, MatchOption, IsTrue, length};
ghost use Rattle.fill_tokens.specs.Span.{Begins, IsCut};
ghost use Rattle.fill_tokens.specs.Value.{HasValue, IsCount, IsCutFromLeft, IsCutFromRight};

use crate::place::Place;
use crate::seq::Seq;
use crate::spans::{left_match, right_match};
use fill_text::Text;

/// The number of positions of the text at which a piece that the sequence spans begins, in time linear in the text.
pub fn match_count(r: &Seq, t: &Text) -> usize
    ensures { IsCount (Begins r.now t.now) (length t.now + 1) result }
{
    let mut count = 0;
    for k in 0..t.len() + 1 {
        if right_match(r, t, k) {
            count += 1;
        }
    }
    count
}

fn is_cut(left: &Seq, right: &Seq, t: &Text, k: usize) -> bool
    requires { k ≤ length t.now }
    ensures { IsTrue result ↔ IsCut left.now right.now t.now k }
{
    left_match(left, t, k) && right_match(right, t, k)
}

/// The cut of this number from the left.
fn cut_from_left(left: &Seq, right: &Seq, t: &Text, number: u32) -> Option<usize>
    requires { 0 < number }
    ensures { MatchOption result
        ((k : ℕ) → IsCutFromLeft left.now right.now t.now number k → ⊥)
        (λ k. IsCutFromLeft left.now right.now t.now number k) }
{
    let mut passed = 0;
    for k in 0..t.len() + 1 {
        if is_cut(left, right, t, k) {
            passed += 1;
            if passed == number {
                return Some(k);
            }
        }
    }
    None
}

/// The cut of this number from the right.
fn cut_from_right(left: &Seq, right: &Seq, t: &Text, number: u32) -> Option<usize>
    requires { 0 < number }
    ensures { MatchOption result
        ((k : ℕ) → IsCutFromRight left.now right.now t.now number k → ⊥)
        (λ k. IsCutFromRight left.now right.now t.now number k) }
{
    let mut passed = 0;
    for k in (0..t.len() + 1).rev() {
        if is_cut(left, right, t, k) {
            passed += 1;
            if passed == number {
                return Some(k);
            }
        }
    }
    None
}

/// The position of this number, or below 0 from the right.
fn fixed_value(k: i32, t: &Text) -> Option<usize>
    ensures { MatchOption result
        ((v : ℕ) → HasValue (Place.CPos k) t.now v → ⊥)
        (λ v. HasValue (Place.CPos k) t.now v) }
{
    let size = k.unsigned_abs() as usize;
    if k >= 0 {
        if size <= t.len() { Some(size) } else { None }
    } else {
        (t.len() + 1).checked_sub(size)
    }
}

/// The value of the place in the text, in time linear in the text.
///
/// A place outside of the grammar has one too where it names a position; one with the count 0 never has.
pub fn place_value(p: &Place, t: &Text) -> Option<usize>
    ensures { MatchOption result
        ((k : ℕ) → HasValue p.now t.now k → ⊥)
        (λ k. HasValue p.now t.now k) }
{
    match p {
        Place::CPos(k) => fixed_value(*k, t),
        Place::Pos(_, _, 0) => None,
        Place::Pos(left, right, count) => {
            if *count > 0 {
                cut_from_left(left, right, t, count.unsigned_abs())
            } else {
                cut_from_right(left, right, t, count.unsigned_abs())
            }
        }
    }
}
