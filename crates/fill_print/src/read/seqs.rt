//! Sequences of tokens.
ghost use Rattle.std.specs.Prelude.{◌≡◌, ◌<◌, ◌≤◌, [], ◌∷◌, ◌++◌, length};
ghost use Rattle.fill_print.specs.Reading.{Reads};
ghost use Rattle.fill_print.specs.Seqs.{AtStart, Later, TokenSeq, TokenStep, room_after};
ghost use Rattle.fill_print.specs.Tokens.{tokens_of};

use crate::notation::Notation;
use crate::read::bytes::first;
use crate::read::error::ReadError;
use crate::read::tokens::read_token;
use fill_tokens::{Seq, Token};

/// How many tokens may come after this one.
fn room_with(room: u32, token: Token) -> u32
    requires { 0 < room }
    ensures { result ≡ room_after room token }
{
    match token {
        Token::End => 0,
        _ => room - 1,
    }
}

/// The sequence with one token more.
fn with_token(tokens: &Seq, token: Token) -> Seq
    requires { length tokens.now < 3 }
    ensures { result ≡ tokens.now ++ token ∷ [] }
{
    let size = tokens.len();
    if size == 0 {
        return Seq::one(token);
    }
    let first = tokens.token(0);
    if size == 1 {
        return Seq::two(first, token);
    }
    let second = tokens.token(1);
    Seq::three(first, second, token)
}

fn first_token(
    bytes: &[u8],
    notation: Notation,
    starts: bool,
    ends: bool,
    room: u32,
    may_end: bool,
) -> Result<(Option<Token>, &[u8]), ReadError>
    requires { 0 < room }
    ensures { Reads (λ x. x.0) (λ x. x.1.now) (TokenStep (tokens_of notation) starts ends (AtStart room may_end)) bytes.now result }
{
    match first(bytes) {
        None => Err(ReadError::Bad(0)),
        Some((byte, after)) => {
            if byte == b']' {
                if may_end {
                    return Ok((None, after));
                }
                return Err(ReadError::Bad(bytes.len()));
            }
            let (token, rest) = read_token(bytes, notation, starts, ends)?;
            Ok((Some(token), rest))
        }
    }
}

fn later_token(
    bytes: &[u8],
    notation: Notation,
    starts: bool,
    ends: bool,
    room: u32,
) -> Result<(Option<Token>, &[u8]), ReadError>
    ensures { Reads (λ x. x.0) (λ x. x.1.now) (TokenStep (tokens_of notation) starts ends (Later room)) bytes.now result }
{
    match first(bytes) {
        None => Err(ReadError::Bad(0)),
        Some((byte, after)) => {
            if byte == b']' {
                return Ok((None, after));
            }
            if byte == b' ' {
                if room == 0 {
                    return Err(ReadError::Bad(bytes.len()));
                }
                let (token, rest) = read_token(after, notation, false, ends)?;
                return Ok((Some(token), rest));
            }
            Err(ReadError::Bad(bytes.len()))
        }
    }
}

/// The tokens up to the bracket, at most `room` of them, and the bytes after it. Start may stand first if `starts`, End
/// last if `ends`.
pub(crate) fn seq(
    bytes: &[u8],
    notation: Notation,
    room: u32,
    starts: bool,
    ends: bool,
    may_be_empty: bool,
) -> Result<(Seq, &[u8]), ReadError>
    requires some { 0 < room }
    requires few { room ≤ 3 }
    ensures { Reads (λ x. x.0) (λ x. x.1.now) (TokenSeq (tokens_of notation) starts ends (AtStart room may_be_empty)) bytes.now result }
{
    let (next, after) = first_token(bytes, notation, starts, ends, room, may_be_empty)?;
    let Some(token) = next else {
        return Ok((Seq::empty(), after));
    };
    let mut tokens = Seq::one(token);
    let mut rest = after;
    let mut left = room_with(room, token);
    loop {
        let (next, after) = later_token(rest, notation, starts, ends, left)?;
        let Some(token) = next else {
            return Ok((tokens, after));
        };
        tokens = with_token(&tokens, token);
        rest = after;
        left = room_with(left, token);
    }
}
