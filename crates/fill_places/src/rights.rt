//! The sequences that begin somewhere in a text.
ghost use Rattle.std.specs.Prelude.{◌≡◌, ◌<◌, ◌+◌, ◌∷◌, ◌↔◌, length, IfOk, OnOk, IsTrue};
ghost use Rattle.fill_tokens.specs.TokenSet.{IsTokenOf};
ghost use Rattle.fill_tokens.specs.declared.token.Token.TheVariants.{Start, End};
ghost use Rattle.fill_places.specs.Marks.{AreMarks};
ghost use Rattle.fill_places.specs.Sides.{RightAt, MayBegin};
ghost use Rattle.fill_places.specs.Entries.{Entries, AddsEntries, HasLength, IsOnly, BeginsWithIt, AreRights};

use crate::entry::{Entry, empty_entry, join, push_entry, reached, reaches, room_after};
use fill_spans::Spans;
use fill_text::{NoMemory, Text};
use fill_tokens::{Seq, TOKEN_COUNT, Token, TokenSet, token_at};
use std::alloc::Global;

/// The sequence with one token more at the front.
fn preceded(token: Token, seq: &Seq) -> Seq
    requires { length seq.now < 3 }
    ensures { result ≡ token ∷ seq.now }
{
    match seq.len() {
        0 => Seq::one(token),
        1 => Seq::two(token, seq.token(0)),
        _ => Seq::three(token, seq.token(0), seq.token(1)),
    }
}

/// Whether a sequence after a position may stand behind the token.
fn may_begin(token: Token, seq: &Seq) -> bool
    ensures { IsTrue result ↔ MayBegin token seq.now }
{
    match token {
        Token::Start => false,
        Token::End => seq.is_empty(),
        _ => true,
    }
}

/// Puts the entry of the sequence with the token before it to the list, where it begins somewhere.
fn push_right(
    alloc: Global,
    out: &mut Vec<Entry>,
    token: Token,
    e: &Entry,
    spans: &Spans,
    t: &Text,
    token_set: TokenSet,
) -> Result<(), NoMemory>
    requires entry { AreMarks (RightAt token_set t.now e.now.seq) (length t.now) e.now.at }
    requires spans { spans.now ≡ record { text = t.now; token_set = token_set } }
    requires short { length e.now.seq < 3 }
    requires token { IsTokenOf token_set token }
    ensures { OnOk result (AddsEntries (RightAt token_set t.now) (length t.now) out.old.items out.new.items
        (IsOnly (token ∷ e.now.seq))) }
{
    let _set = token_set;
    let n = t.len();
    if !may_begin(token, &e.seq) {
        return Ok(());
    }
    let pieces = spans.pieces(token);
    let starts = pieces.starts.as_slice();
    let ends = pieces.ends.as_slice();
    if !reaches(e, ends, n) {
        return Ok(());
    }
    let at = reached(alloc, e, ends, starts, n)?;
    let seq = preceded(token, &e.seq);
    push_entry(out, Entry { seq, at })
}

/// Puts the entries of the sequences with the token before them to the list, where the set has the token.
fn push_rights_behind(
    alloc: Global,
    out: &mut Vec<Entry>,
    token: Token,
    layer: &[Entry],
    j: usize,
    spans: &Spans,
    t: &Text,
    token_set: TokenSet,
) -> Result<(), NoMemory>
    requires spans { spans.now ≡ record { text = t.now; token_set = token_set } }
    requires short { j < 3 }
    requires layer { Entries (RightAt token_set t.now) (length t.now) (HasLength j) layer.now }
    ensures { OnOk result (AddsEntries (RightAt token_set t.now) (length t.now) out.old.items out.new.items
        (BeginsWithIt token layer.now (length layer.now))) }
{
    let _tokens = j;
    if !token.is_of(token_set) {
        return Ok(());
    }
    for e in layer {
        push_right(alloc, out, token, e, spans, t, token_set)?;
    }
    Ok(())
}

/// The sequence of no token.
fn first_rights(alloc: Global, t: &Text, token_set: TokenSet) -> Result<Vec<Entry>, NoMemory>
    ensures { IfOk result (λ v. Entries (RightAt token_set t.now) (length t.now) (HasLength 0) v.items) }
{
    let _set = token_set;
    let e = empty_entry(alloc, t.len())?;
    let mut out = Vec::new(alloc);
    push_entry(&mut out, e)?;
    Ok(out)
}

/// The sequences of one token more, in order.
fn longer_rights(
    alloc: Global,
    layer: &[Entry],
    j: usize,
    spans: &Spans,
    t: &Text,
    token_set: TokenSet,
) -> Result<Vec<Entry>, NoMemory>
    requires short { j < 3 }
    requires layer { Entries (RightAt token_set t.now) (length t.now) (HasLength j) layer.now }
    requires spans { spans.now ≡ record { text = t.now; token_set = token_set } }
    ensures { IfOk result (λ v. Entries (RightAt token_set t.now) (length t.now) (HasLength (j + 1)) v.items) }
{
    let mut out = Vec::with_capacity(alloc, room_after(layer))?;
    for i in 0..TOKEN_COUNT {
        push_rights_behind(alloc, &mut out, token_at(i), layer, j, spans, t, token_set)?;
    }
    Ok(out)
}

/// The sequences of tokens of the set that begin somewhere in the text, in order.
pub fn rights(
    alloc: Global,
    spans: &Spans,
    t: &Text,
    token_set: TokenSet,
) -> Result<Vec<Entry>, NoMemory>
    requires spans { spans.now ≡ record { text = t.now; token_set = token_set } }
    ensures { IfOk result (λ v. AreRights token_set t.now v.items) }
{
    let mut all = first_rights(alloc, t, token_set)?;
    let one = longer_rights(alloc, &all, 0, spans, t, token_set)?;
    let two = longer_rights(alloc, &one, 1, spans, t, token_set)?;
    let three = longer_rights(alloc, &two, 2, spans, t, token_set)?;
    join(&mut all, one)?;
    join(&mut all, two)?;
    join(&mut all, three)?;
    Ok(all)
}
