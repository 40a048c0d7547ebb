//! Tokens by their names.
ghost use Rattle.std.specs.Prelude.{◌≡◌, min};
ghost use Rattle.fill_print.specs.Reading.{Reads};
ghost use Rattle.fill_print.specs.Tokens.{TokenFront, may_come, may_stand, tokens_of};

use crate::notation::Notation;
use crate::read::bytes::word;
use crate::read::error::ReadError;
use fill_tokens::Token;

fn can_stand(start: bool, finish: bool, token: Token) -> bool
    ensures { result ≡ may_stand start finish token }
{
    match token {
        Token::Start => start,
        Token::End => finish,
        _ => true,
    }
}

fn can_come(notation: Notation, start: bool, finish: bool, token: Token) -> bool
    ensures { result ≡ may_come (tokens_of notation) start finish token }
{
    notation.tokens().has(token) && can_stand(start, finish, token)
}

fn nearer(a: usize, b: usize) -> usize
    ensures { result ≡ min a b }
{
    if a < b { a } else { b }
}

/// The token of the notation whose name stands first. Start may stand here, and End, only where that is said.
pub(crate) fn read_token(
    bytes: &[u8],
    notation: Notation,
    start: bool,
    finish: bool,
) -> Result<(Token, &[u8]), ReadError>
    ensures { Reads (λ x. x.0) (λ x. x.1.now) (TokenFront (tokens_of notation) start finish) bytes.now result }
{
    let mut left = match word(bytes, b"Digits") {
        Ok(rest) => return Ok((Token::Digits, rest)),
        Err(ReadError::NoMemory) => return Err(ReadError::NoMemory),
        Err(ReadError::Bad(left)) => left,
    };
    for token in Token::ALL {
        if !can_come(notation, start, finish, token) {
            continue;
        }
        match word(bytes, token.name().as_bytes()) {
            Ok(rest) => return Ok((token, rest)),
            Err(ReadError::NoMemory) => return Err(ReadError::NoMemory),
            Err(ReadError::Bad(other)) => left = nearer(left, other),
        }
    }
    Err(ReadError::Bad(left))
}
