//! The sequences that end somewhere in a text.
ghost use Rattle.std.specs.Prelude.{◌≡◌, ◌<◌, ◌+◌, ◌++◌, ◌∷◌, [], ◌↔◌, length, IfOk, OnOk, IsTrue};
ghost use Rattle.fill_tokens.specs.declared.token.TheConstants.{TOKEN_COUNT};
ghost use Rattle.fill_tokens.specs.declared.token.Token.TheVariants.{Start, End};
ghost use Rattle.fill_places.specs.Marks.{AreMarks};
ghost use Rattle.fill_places.specs.Sides.{LeftAt, MayEnd};
ghost use Rattle.fill_places.specs.Entries.{Entries, AddsEntries, HasLength, IsOnly, EndsWithOne, AreLefts};

use crate::entry::{Entry, empty_entry, join, push_entry, reached, reaches, room_after};
use fill_spans::Spans;
use fill_text::{NoMemory, Text};
use fill_tokens::{Seq, TOKEN_COUNT, Token, TokenSet, token_at};
use std::alloc::Global;

/// The sequence with one token more at the end.
fn followed(seq: &Seq, token: Token) -> Seq
    requires { length seq.now < 3 }
    ensures { result ≡ seq.now ++ token ∷ [] }
{
    match seq.len() {
        0 => Seq::one(token),
        1 => Seq::two(seq.token(0), token),
        _ => Seq::three(seq.token(0), seq.token(1), token),
    }
}

/// Whether a sequence before a position may go on with the token.
fn may_end(seq: &Seq, token: Token) -> bool
    ensures { IsTrue result ↔ MayEnd seq.now token }
{
    match token {
        Token::End => false,
        Token::Start => seq.is_empty(),
        _ => true,
    }
}

/// Puts the entry of the sequence with the token after it to the list, where the set has the token and it ends
/// somewhere.
fn push_left(
    alloc: Global,
    out: &mut Vec<Entry>,
    e: &Entry,
    token: Token,
    spans: &Spans,
    t: &Text,
    token_set: TokenSet,
) -> Result<(), NoMemory>
    requires entry { AreMarks (LeftAt token_set t.now e.now.seq) (length t.now) e.now.at }
    requires spans { spans.now ≡ record { text = t.now; token_set = token_set } }
    requires short { length e.now.seq < 3 }
    ensures { OnOk result (AddsEntries (LeftAt token_set t.now) (length t.now) out.old.items out.new.items
        (IsOnly (e.now.seq ++ token ∷ []))) }
{
    let n = t.len();
    if !token.is_of(token_set) {
        return Ok(());
    }
    if !may_end(&e.seq, token) {
        return Ok(());
    }
    let pieces = spans.pieces(token);
    let starts = pieces.starts.as_slice();
    let ends = pieces.ends.as_slice();
    if !reaches(e, starts, n) {
        return Ok(());
    }
    let at = reached(alloc, e, starts, ends, n)?;
    let seq = followed(&e.seq, token);
    push_entry(out, Entry { seq, at })
}

/// Puts the entries of the sequence with each token of the set after it to the list.
fn push_lefts_after(
    alloc: Global,
    out: &mut Vec<Entry>,
    e: &Entry,
    spans: &Spans,
    t: &Text,
    token_set: TokenSet,
) -> Result<(), NoMemory>
    requires entry { AreMarks (LeftAt token_set t.now e.now.seq) (length t.now) e.now.at }
    requires spans { spans.now ≡ record { text = t.now; token_set = token_set } }
    requires short { length e.now.seq < 3 }
    ensures { OnOk result (AddsEntries (LeftAt token_set t.now) (length t.now) out.old.items out.new.items
        (EndsWithOne e.now.seq (TOKEN_COUNT + 1))) }
{
    for i in 0..TOKEN_COUNT {
        push_left(alloc, out, e, token_at(i), spans, t, token_set)?;
    }
    Ok(())
}

/// The sequence of no token.
fn first_lefts(alloc: Global, t: &Text, token_set: TokenSet) -> Result<Vec<Entry>, NoMemory>
    ensures { IfOk result (λ v. Entries (LeftAt token_set t.now) (length t.now) (HasLength 0) v.items) }
{
    let _set = token_set;
    let e = empty_entry(alloc, t.len())?;
    let mut out = Vec::new(alloc);
    push_entry(&mut out, e)?;
    Ok(out)
}

/// The sequences of one token more, in order.
fn longer_lefts(
    alloc: Global,
    layer: &[Entry],
    j: usize,
    spans: &Spans,
    t: &Text,
    token_set: TokenSet,
) -> Result<Vec<Entry>, NoMemory>
    requires short { j < 3 }
    requires layer { Entries (LeftAt token_set t.now) (length t.now) (HasLength j) layer.now }
    requires spans { spans.now ≡ record { text = t.now; token_set = token_set } }
    ensures { IfOk result (λ v. Entries (LeftAt token_set t.now) (length t.now) (HasLength (j + 1)) v.items) }
{
    let _tokens = j;
    let mut out = Vec::with_capacity(alloc, room_after(layer))?;
    for e in layer {
        push_lefts_after(alloc, &mut out, e, spans, t, token_set)?;
    }
    Ok(out)
}

/// The sequences of tokens of the set that end somewhere in the text, in order.
pub fn lefts(
    alloc: Global,
    spans: &Spans,
    t: &Text,
    token_set: TokenSet,
) -> Result<Vec<Entry>, NoMemory>
    requires spans { spans.now ≡ record { text = t.now; token_set = token_set } }
    ensures { IfOk result (λ v. AreLefts token_set t.now v.items) }
{
    let mut all = first_lefts(alloc, t, token_set)?;
    let one = longer_lefts(alloc, &all, 0, spans, t, token_set)?;
    let two = longer_lefts(alloc, &one, 1, spans, t, token_set)?;
    let three = longer_lefts(alloc, &two, 2, spans, t, token_set)?;
    join(&mut all, one)?;
    join(&mut all, two)?;
    join(&mut all, three)?;
    Ok(all)
}
