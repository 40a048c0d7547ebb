//! Literals, and the second one of a guard.
ghost use Rattle.std.specs.Prelude.{true, false};
ghost use Rattle.fill_print.specs.Grammar.{Matched, NoSecond, SecondLiteral};
ghost use Rattle.fill_print.specs.Reading.{Reads};
ghost use Rattle.fill_print.specs.Switches.{LiteralFront, SecondFront};
ghost use Rattle.fill_print.specs.Tokens.{tokens_of};

use crate::notation::Notation;
use crate::read::bytes::{after, word};
use crate::read::error::ReadError;
use crate::read::numbers::number;
use crate::read::seqs::seq;
use fill_tree::Literal;

fn matched(bytes: &[u8], notation: Notation, negated: bool) -> Result<(Literal, &[u8]), ReadError>
    ensures { Reads (λ x. x.0) (λ x. x.1.now) (Matched (tokens_of notation) negated) bytes.now result }
{
    let rest = word(bytes, b"Match(")?;
    let (column, rest) = number(rest, u32::MAX, b',')?;
    let rest = word(rest, b"[")?;
    let (seq, rest) = match seq(rest, notation, 2, true, true, false) {
        Ok(read) => read,
        Err(e) => return Err(e),
    };
    let rest = word(rest, b",")?;
    let (least, rest) = number(rest, 3, b')')?;
    let literal = Literal {
        negated,
        column,
        seq,
        least: least as u8,
    };
    Ok((literal, rest))
}

/// A literal, and the bytes after it.
pub(crate) fn literal(bytes: &[u8], notation: Notation) -> Result<(Literal, &[u8]), ReadError>
    ensures { Reads (λ x. x.0) (λ x. x.1.now) (LiteralFront (tokens_of notation)) bytes.now result }
{
    match after(bytes, b'!') {
        Some(rest) => matched(rest, notation, true),
        None => matched(bytes, notation, false),
    }
}

fn second_literal(bytes: &[u8], notation: Notation) -> Result<(Option<Literal>, &[u8]), ReadError>
    ensures { Reads (λ x. x.0) (λ x. x.1.now) (SecondLiteral (tokens_of notation)) bytes.now result }
{
    let (literal, rest) = match literal(bytes, notation) {
        Ok(read) => read,
        Err(e) => return Err(e),
    };
    let rest = word(rest, b"=>")?;
    Ok((Some(literal), rest))
}

fn no_second(bytes: &[u8]) -> Result<(Option<Literal>, &[u8]), ReadError>
    ensures { Reads (λ x. x.0) (λ x. x.1.now) NoSecond bytes.now result }
{
    let rest = word(bytes, b"=>")?;
    Ok((None, rest))
}

/// The second literal of a guard, if there is one, and the bytes after the arrow.
pub(crate) fn second(
    bytes: &[u8],
    notation: Notation,
) -> Result<(Option<Literal>, &[u8]), ReadError>
    ensures { Reads (λ x. x.0) (λ x. x.1.now) (SecondFront (tokens_of notation)) bytes.now result }
{
    match after(bytes, b'&') {
        Some(rest) => second_literal(rest, notation),
        None => no_second(bytes),
    }
}
