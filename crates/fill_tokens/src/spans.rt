//! The pieces of a text that tokens and sequences of tokens span.
//!
//! A run token looks at the character beside its position first, since a run neither begins nor ends in the middle of a
//! longer one, and scans only from the edge of a run. The next token of a sequence goes on where the piece before it
//! ended, and no two pieces of one token end at the same position. So over all positions of a text each run is scanned
//! once for each token of a sequence, and not again from each of its characters.
ghost use Rattle.std.specs.Prelude.{◌≡◌, ℕ, ◌≤◌, ◌<◌, ◌+◌, ◌↔◌, true, false, length, slice_index, IsTrue, MatchOption};
ghost use Rattle.fill_tokens.specs.Kind.{run_has};
ghost use Rattle.fill_tokens.specs.Span.{IsRun, Spans, Begins, Ends};

use crate::kind::{Kind, RunClass};
use crate::seq::Seq;
use crate::token::Token;
use fill_text::Text;

/// The first position from `a` on whose character is not in the class, or the length.
fn run_end(class: RunClass, t: &Text, a: usize) -> usize
    requires { a ≤ length t.now }
    ensures order { a ≤ result }
    ensures within { result ≤ length t.now }
    ensures inside { (i : ℕ) → a ≤ i → i < result → run_has class (slice_index t.now i) ≡ true }
    ensures after { result < length t.now → run_has class (slice_index t.now result) ≡ false }
{
    for i in a..t.len() {
        if !class.has(t.at(i)) {
            return i;
        }
    }
    t.len()
}

/// The least position from which on every character before `b` is in the class.
fn run_start(class: RunClass, t: &Text, b: usize) -> usize
    requires { b ≤ length t.now }
    ensures order { result ≤ b }
    ensures inside { (i : ℕ) → result ≤ i → i < b → run_has class (slice_index t.now i) ≡ true }
    ensures before { (i : ℕ) → i + 1 ≡ result → run_has class (slice_index t.now i) ≡ false }
{
    let mut a = b;
    while a > 0 && class.has(t.at(a - 1)) {
        a -= 1;
    }
    a
}

/// The end of the run that begins at `a`.
fn span_run(class: RunClass, t: &Text, a: usize) -> Option<usize>
    requires { a ≤ length t.now }
    ensures { MatchOption result
        ((b : ℕ) → IsRun (run_has class) t.now a b → ⊥)
        (λ b. IsRun (run_has class) t.now a b) }
{
    if a > 0 && class.has(t.at(a - 1)) {
        return None;
    }
    let b = run_end(class, t, a);
    if b == a { None } else { Some(b) }
}

/// The start of the run that ends at `b`.
fn span_run_back(class: RunClass, t: &Text, b: usize) -> Option<usize>
    requires { b ≤ length t.now }
    ensures { MatchOption result
        ((a : ℕ) → IsRun (run_has class) t.now a b → ⊥)
        (λ a. IsRun (run_has class) t.now a b) }
{
    if b < t.len() && class.has(t.at(b)) {
        return None;
    }
    let a = run_start(class, t, b);
    if a == b { None } else { Some(a) }
}

/// The end of the piece from `a` on that the token spans.
pub fn span(token: Token, t: &Text, a: usize) -> Option<usize>
    requires { a ≤ length t.now }
    ensures { MatchOption result
        ((b : ℕ) → Spans token t.now a b → ⊥)
        (λ b. Spans token t.now a b) }
{
    match token.kind() {
        Kind::AtStart => { if a == 0 { Some(a) } else { None } }
        Kind::AtEnd => { if a == t.len() { Some(a) } else { None } }
        Kind::Run(class) => span_run(class, t, a),
        Kind::Single(c) => {
            if a < t.len() && t.at(a) == c {
                Some(a + 1)
            } else {
                None
            }
        }
    }
}

/// The start of the piece up to `b` that the token spans.
pub fn span_back(token: Token, t: &Text, b: usize) -> Option<usize>
    requires { b ≤ length t.now }
    ensures { MatchOption result
        ((a : ℕ) → Spans token t.now a b → ⊥)
        (λ a. Spans token t.now a b) }
{
    match token.kind() {
        Kind::AtStart => { if b == 0 { Some(b) } else { None } }
        Kind::AtEnd => { if b == t.len() { Some(b) } else { None } }
        Kind::Run(class) => span_run_back(class, t, b),
        Kind::Single(c) => {
            if b > 0 && t.at(b - 1) == c {
                Some(b - 1)
            } else {
                None
            }
        }
    }
}

/// Whether the sequence spans a piece that begins at `k`.
pub fn right_match(r: &Seq, t: &Text, k: usize) -> bool
    requires { k ≤ length t.now }
    ensures { IsTrue result ↔ Begins r.now t.now k }
{
    let mut at = k;
    for i in 0..r.len() {
        match span(r.token(i), t, at) {
            Some(b) => at = b,
            None => return false,
        }
    }
    true
}

/// Whether the sequence spans a piece that ends at `k`.
pub fn left_match(r: &Seq, t: &Text, k: usize) -> bool
    requires { k ≤ length t.now }
    ensures { IsTrue result ↔ Ends r.now t.now k }
{
    let mut at = k;
    for i in (0..r.len()).rev() {
        match span_back(r.token(i), t, at) {
            Some(a) => at = a,
            None => return false,
        }
    }
    true
}
