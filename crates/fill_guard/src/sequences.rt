//! The sequences that literals test for.
ghost use Rattle.std.specs.Prelude.{◌≡◌, ◌≢◌, ◌↔◌, ◌+◌, ◌++◌, ◌∷◌, [], IfOk, OnOk, IsTrue};
ghost use Rattle.fill_tokens.specs.Place.{seq_cmp};
ghost use Rattle.fill_tokens.specs.TokenSet.{IsTokenOf};
ghost use Rattle.fill_tokens.specs.declared.token.TheConstants.{TOKEN_COUNT};
ghost use Rattle.fill_text.specs.Lists.{Lists, Adds};
ghost use Rattle.fill_tree.specs.Separate.{IsTested};
ghost use Rattle.fill_guard.specs.Listed.{IsOne, OfOne, OfPair, OfSecond, OfTwo};

use fill_text::NoMemory;
use fill_tokens::{Seq, TOKEN_COUNT, Token, TokenSet, token_at};
use std::alloc::Global;

fn put(out: &mut Vec<Seq>, seq: Seq) -> Result<(), NoMemory>
    ensures { OnOk result (out.new.items ≡ out.old.items ++ seq ∷ []) }
{
    out.push(seq)?;
    Ok(())
}

/// Puts the sequence of the token to the list, where the set has it.
fn push_one(out: &mut Vec<Seq>, token: Token, token_set: TokenSet) -> Result<(), NoMemory>
    ensures { OnOk result (Adds seq_cmp out.old.items out.new.items (IsOne token_set token)) }
{
    if !token.is_of(token_set) {
        return Ok(());
    }
    put(out, Seq::one(token))
}

/// Puts the sequences of one token to the list.
fn push_ones(out: &mut Vec<Seq>, token_set: TokenSet) -> Result<(), NoMemory>
    ensures { OnOk result (Adds seq_cmp out.old.items out.new.items (OfOne token_set (TOKEN_COUNT + 1))) }
{
    for i in 0..TOKEN_COUNT {
        push_one(out, token_at(i), token_set)?;
    }
    Ok(())
}

/// Whether a literal may have the two tokens: the start of the text stands only first, and its end only last.
fn may_stand(first: Token, second: Token) -> bool
    ensures { IsTrue result ↔ ((first ≢ Token.End) × (second ≢ Token.Start)) }
{
    match (first, second) {
        (Token::End, _) => false,
        (_, Token::Start) => false,
        _ => true,
    }
}

/// Puts the sequence of two tokens to the list, where a literal may have it.
fn push_pair(
    out: &mut Vec<Seq>,
    first: Token,
    second: Token,
    token_set: TokenSet,
) -> Result<(), NoMemory>
    requires { IsTokenOf token_set first }
    ensures { OnOk result (Adds seq_cmp out.old.items out.new.items (OfPair token_set first second)) }
{
    if !second.is_of(token_set) {
        return Ok(());
    }
    if !may_stand(first, second) {
        return Ok(());
    }
    put(out, Seq::two(first, second))
}

/// Puts the sequences of two tokens that begin with this one to the list.
fn push_seconds(out: &mut Vec<Seq>, first: Token, token_set: TokenSet) -> Result<(), NoMemory>
    ensures { OnOk result (Adds seq_cmp out.old.items out.new.items (OfSecond token_set first (TOKEN_COUNT + 1))) }
{
    if !first.is_of(token_set) {
        return Ok(());
    }
    for i in 0..TOKEN_COUNT {
        push_pair(out, first, token_at(i), token_set)?;
    }
    Ok(())
}

/// Puts the sequences of two tokens to the list.
fn push_twos(out: &mut Vec<Seq>, token_set: TokenSet) -> Result<(), NoMemory>
    ensures { OnOk result (Adds seq_cmp out.old.items out.new.items (OfTwo token_set (TOKEN_COUNT + 1))) }
{
    for i in 0..TOKEN_COUNT {
        push_seconds(out, token_at(i), token_set)?;
    }
    Ok(())
}

/// All sequences that a literal may test for by tokens of the set, in order.
pub fn sequences(alloc: Global, token_set: TokenSet) -> Result<Vec<Seq>, NoMemory>
    ensures { IfOk result (λ seqs. Lists seq_cmp (IsTested token_set) seqs.items) }
{
    let mut out = Vec::new(alloc);
    push_ones(&mut out, token_set)?;
    push_twos(&mut out, token_set)?;
    Ok(out)
}
