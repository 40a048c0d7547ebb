//! Texts that were read once, and the counts of matches of short sequences in them.
ghost use Rattle.std.specs.Prelude.{◌≡◌, ◌↔◌, ℕ, ◌<◌, ◌≤◌, length, slice_get, Some, IfOk, IsTrue, Contains, min};
ghost use Rattle.fill_spans.specs.Pieces.{Rises};
ghost use Rattle.fill_guard.specs.Matches.{AreBelow, IsFew, IsJoined, IsMatchCount};

use fill_spans::Spans;
use fill_text::{NoMemory, Text};
use fill_tokens::{Seq, TokenSet};
use std::alloc::Global;
use std::marker::Model;

/// How many matches a literal asks for at most.
const MOST: usize = 3;

/// A text that was read once for each token. Contracts see it as the text.
#[derive(Drop)]
pub struct Pieces {
    spans: Spans,
}

impl Model for Pieces {
    ghost use Rattle.std.specs.Prelude.{◌≡◌, ℕ, List};
    ghost use Rattle.fill_tokens.specs.declared.token_set.TheConstants.TokenSet.{ALL};

    ghost Value = { List ℕ };

    ghost view = { λ pieces. pieces.spans.text };

    ghost invariant = { λ pieces. pieces.spans.token_set ≡ ALL };
}

impl Pieces {
    /// Reads the text.
    pub fn new(alloc: Global, t: &Text) -> Result<Pieces, NoMemory>
        ensures { IfOk result (λ pieces. pieces ≡ t.now) }
    {
        let spans = Spans::new(alloc, t, TokenSet::ALL)?;
        Ok(Pieces { spans })
    }

    /// The number of positions at which a piece that the sequence spans begins, or three where there are more.
    pub fn count(&self, seq: &Seq) -> usize
        requires some { 0 < length seq.now }
        requires few { length seq.now ≤ 2 }
        ensures { IsMatchCount seq.now self.now result }
    {
        let first = self.spans.pieces(seq.token(0));
        if seq.len() == 1 {
            return at_most(first.starts.as_slice().len());
        }
        let second = self.spans.pieces(seq.token(1));
        count_joined(&first.starts, &first.ends, &second.starts)
    }
}

/// The number, or three where it is more.
fn at_most(count: usize) -> usize
    ensures { result ≡ min count 3 }
{
    count.min(MOST)
}

/// Whether the number is one of the rising list.
fn stands_in(ks: &[usize], k: usize) -> bool
    requires { Rises ks.now }
    ensures { IsTrue result ↔ Contains ks.now k }
{
    match ks.binary_search(&k) {
        Ok(_) => true,
        Err(_) => false,
    }
}

/// Whether a second piece begins where the piece of this place ends.
fn goes_on(ends: &[usize], seconds: &[usize], i: usize) -> bool
    requires place { i < length ends.now }
    requires seconds { Rises seconds.now }
    ensures { (b : ℕ) → slice_get ends.now i ≡ Some b → IsTrue result ↔ Contains seconds.now b }
{
    stands_in(seconds, ends[i])
}

/// How many pieces end where a second one begins, or three where there are more.
fn count_joined(starts: &[usize], ends: &[usize], seconds: &[usize]) -> usize
    requires paired { length starts.now ≡ length ends.now }
    requires starts { Rises starts.now }
    requires seconds { Rises seconds.now }
    ensures { (n : ℕ) → AreBelow starts.now n → IsFew (IsJoined starts.now ends.now seconds.now) n result }
{
    let mut count = 0;
    for i in 0..starts.len() {
        if !goes_on(ends, seconds, i) {
            continue;
        }
        count += 1;
        if count == MOST {
            return MOST;
        }
    }
    count
}
