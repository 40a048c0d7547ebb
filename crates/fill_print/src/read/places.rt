//! Places.
ghost use Rattle.std.specs.Prelude.{◌≡◌, true, false};
ghost use Rattle.fill_print.specs.Conditions.{PlaceFront};
ghost use Rattle.fill_print.specs.Grammar.{AtCount, Between, not_empty};
ghost use Rattle.fill_print.specs.Reading.{Reads};
ghost use Rattle.fill_print.specs.Seqs.{AtStart, TokenSeq};
ghost use Rattle.fill_print.specs.Tokens.{tokens_of};

use crate::notation::Notation;
use crate::read::bytes::{after, word};
use crate::read::error::ReadError;
use crate::read::ints::int;
use crate::read::seqs::seq;
use fill_tokens::{Place, Seq};

fn at_count(bytes: &[u8]) -> Result<(Place, &[u8]), ReadError>
    ensures { Reads (λ x. x.0) (λ x. x.1.now) AtCount bytes.now result }
{
    let rest = word(bytes, b"CPos(")?;
    let (count, rest) = int(rest, b')', true)?;
    Ok((Place::CPos(count), rest))
}

fn is_filled(tokens: &Seq) -> bool
    ensures { result ≡ not_empty tokens.now }
{
    tokens.len() > 0
}

/// The right sequence, which may be empty if the left one is not.
fn right_seq<'a>(
    bytes: &'a [u8],
    notation: Notation,
    left: &Seq,
) -> Result<(Seq, &'a [u8]), ReadError>
    ensures { Reads (λ x. x.0) (λ x. x.1.now) (TokenSeq (tokens_of notation) false true (AtStart 3 (not_empty left.now))) bytes.now result }
{
    seq(bytes, notation, 3, false, true, is_filled(left))
}

fn between(bytes: &[u8], notation: Notation) -> Result<(Place, &[u8]), ReadError>
    ensures { Reads (λ x. x.0) (λ x. x.1.now) (Between (tokens_of notation)) bytes.now result }
{
    let rest = word(bytes, b"Pos([")?;
    let (left, rest) = match seq(rest, notation, 3, true, false, true) {
        Ok(read) => read,
        Err(e) => return Err(e),
    };
    let rest = word(rest, b",[")?;
    let (right, rest) = match right_seq(rest, notation, &left) {
        Ok(read) => read,
        Err(e) => return Err(e),
    };
    let rest = word(rest, b",")?;
    let (count, rest) = int(rest, b')', false)?;
    Ok((Place::Pos(left, right, count), rest))
}

/// A place, and the bytes after it.
pub(crate) fn place(bytes: &[u8], notation: Notation) -> Result<(Place, &[u8]), ReadError>
    ensures { Reads (λ x. x.0) (λ x. x.1.now) (PlaceFront (tokens_of notation)) bytes.now result }
{
    match after(bytes, b'C') {
        Some(_rest) => at_count(bytes),
        None => between(bytes, notation),
    }
}
