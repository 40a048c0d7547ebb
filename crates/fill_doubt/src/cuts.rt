//! The values of places in a text, for which each sequence is looked for in the text once.
ghost use Rattle.std.specs.Prelude.{◌≡◌, ◌<◌, ℕ, List as Items, IsTrue, IfOk, OnOk, MatchOption, Some};
ghost use Rattle.fill_tokens.specs.Cuts.{AreCuts};
ghost use Rattle.fill_tokens.specs.Value.{HasValue, IsCutFromLeft, IsCutFromRight};
ghost use Rattle.fill_tokens.specs.declared.token.Token.{Token as Listed};
ghost use Rattle.fill_doubt.specs.Cuts.{AreCutsOf, HasAt, IsLastPair};

use crate::hops::reach;
use crate::sides::{Sides, are_same};
use crate::tokens::Tokens;
use fill_text::{NoMemory, Text};
use fill_tokens::{Place, Seq, place_value};
use std::alloc::Global;

/// Two sequences, the one before positions, and the other after them.
#[derive(Clone, Copy)]
pub(crate) struct Pair {
    pub(crate) left: Seq,
    pub(crate) right: Seq,
}

/// What was found of a text: the pieces of tokens, the sequences before and after positions that were looked for, and the
/// cuts between the last two sequences. Places of a set are in order, so the next one is often between the same two.
#[derive(Drop)]
pub(crate) struct Cuts {
    pub(crate) tokens: Tokens,
    pub(crate) lefts: Sides,
    pub(crate) rights: Sides,
    pub(crate) pair: Option<Pair>,
    pub(crate) cuts: Vec<usize>,
}

/// The cut of this number from the left.
fn pick_left(cuts: &[usize], number: u32) -> Option<usize>
    requires { 0 < number }
    ensures { (l : Items Listed) (r : Items Listed) (t : Items ℕ) → AreCuts l r t cuts.now → MatchOption result
        ((k : ℕ) → IsCutFromLeft l r t number k → ⊥)
        (λ k. IsCutFromLeft l r t number k) }
{
    let place = number as usize - 1;
    if place < cuts.len() {
        Some(cuts[place])
    } else {
        None
    }
}

/// The cut of this number from the right.
fn pick_right(cuts: &[usize], number: u32) -> Option<usize>
    requires { 0 < number }
    ensures { (l : Items Listed) (r : Items Listed) (t : Items ℕ) → AreCuts l r t cuts.now → MatchOption result
        ((k : ℕ) → IsCutFromRight l r t number k → ⊥)
        (λ k. IsCutFromRight l r t number k) }
{
    let count = number as usize;
    if count <= cuts.len() {
        Some(cuts[cuts.len() - count])
    } else {
        None
    }
}

/// The cut of this number from the left, or below 0 from the right.
fn pick(cuts: &[usize], count: i32) -> Option<usize>
    ensures { (l : Items Listed) (r : Items Listed) (t : Items ℕ) → AreCuts l r t cuts.now → MatchOption result
        ((k : ℕ) → HasValue (Place.Pos l r count) t k → ⊥)
        (λ k. HasValue (Place.Pos l r count) t k) }
{
    match count {
        0 => None,
        _ => {
            if count > 0 {
                pick_left(cuts, count.unsigned_abs())
            } else {
                pick_right(cuts, count.unsigned_abs())
            }
        }
    }
}

impl Cuts {
    /// Where nothing was looked for yet.
    pub(crate) fn new(alloc: Global, t: &Text) -> Result<Cuts, NoMemory>
        ensures { IfOk result (AreCutsOf t.now) }
    {
        Ok(Cuts {
            tokens: Tokens::new(alloc, t)?,
            lefts: Sides::new(alloc),
            rights: Sides::new(alloc),
            pair: None,
            cuts: Vec::new(alloc),
        })
    }

    /// Which one of the left ones is the sequence.
    fn left_of(&mut self, alloc: Global, seq: &Seq, t: &Text) -> Result<usize, NoMemory>
        requires { AreCutsOf t.now self.old }
        ensures kept { OnOk result (AreCutsOf t.now self.new) }
        ensures there { IfOk result (HasAt self.new.lefts seq.now) }
    {
        if let Some(i) = self.lefts.ask(seq) {
            return Ok(i);
        }
        let stops = self.tokens.stops(alloc, seq, t)?;
        self.lefts.put(alloc, seq, stops)
    }

    /// Which one of the right ones is the sequence.
    fn right_of(&mut self, alloc: Global, seq: &Seq, t: &Text) -> Result<usize, NoMemory>
        requires { AreCutsOf t.now self.old }
        ensures kept { OnOk result (AreCutsOf t.now self.new) }
        ensures lefts { self.new.lefts ≡ self.old.lefts }
        ensures there { IfOk result (HasAt self.new.rights seq.now) }
    {
        if let Some(i) = self.rights.ask(seq) {
            return Ok(i);
        }
        let starts = self.tokens.starts(alloc, seq, t)?;
        self.rights.put(alloc, seq, starts)
    }

    /// Whether the cuts that are kept are those between the two sequences.
    fn is_last(&self, left: &Seq, right: &Seq) -> bool
        ensures { IsTrue result → IsLastPair self.now left.now right.now }
    {
        match self.pair {
            Some(last) => {
                if !are_same(&last.right, right) {
                    return false;
                }
                are_same(&last.left, left)
            }
            None => false,
        }
    }

    /// Sees to it that the cuts between the two sequences are kept.
    fn look_between(
        &mut self,
        alloc: Global,
        left: &Seq,
        right: &Seq,
        t: &Text,
    ) -> Result<(), NoMemory>
        requires { AreCutsOf t.now self.old }
        ensures kept { OnOk result (AreCutsOf t.now self.new) }
        ensures cuts { OnOk result (AreCuts left.now right.now t.now self.new.cuts.items) }
    {
        if self.is_last(left, right) {
            return Ok(());
        }
        let l = self.left_of(alloc, left, t)?;
        let r = self.right_of(alloc, right, t)?;
        let stops = self.lefts.sides[l].positions.as_slice();
        let starts = self.rights.sides[r].positions.as_slice();
        reach(starts, stops, stops, &mut self.cuts)?;
        self.pair = Some(Pair {
            left: *left,
            right: *right,
        });
        Ok(())
    }

    /// The value of the place in the text.
    pub(crate) fn value_of(
        &mut self,
        alloc: Global,
        place: &Place,
        t: &Text,
    ) -> Result<Option<usize>, NoMemory>
        requires { AreCutsOf t.now self.old }
        ensures kept { OnOk result (AreCutsOf t.now self.new) }
        ensures value { IfOk result (λ o. MatchOption o ((k : ℕ) → HasValue place.now t.now k → ⊥) (λ k. HasValue place.now t.now k)) }
    {
        match place {
            Place::Pos(left, right, count) => self.cut(alloc, left, right, *count, t),
            Place::CPos(_) => Ok(place_value(place, t)),
        }
    }

    fn cut(
        &mut self,
        alloc: Global,
        left: &Seq,
        right: &Seq,
        count: i32,
        t: &Text,
    ) -> Result<Option<usize>, NoMemory>
        requires { AreCutsOf t.now self.old }
        ensures kept { OnOk result (AreCutsOf t.now self.new) }
        ensures value { IfOk result (λ o. MatchOption o ((k : ℕ) → HasValue (Place.Pos left.now right.now count) t.now k → ⊥) (λ k. HasValue (Place.Pos left.now right.now count) t.now k)) }
    {
        self.look_between(alloc, left, right, t)?;
        Ok(pick(self.cuts.as_slice(), count))
    }
}
