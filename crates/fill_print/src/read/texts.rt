//! Texts between quotes.
ghost use Rattle.std.specs.Prelude.{◌≡◌};
ghost use Rattle.std.specs.Char.{IsScalar};
ghost use Rattle.fill_print.specs.Reading.{Reads};
ghost use Rattle.fill_print.specs.Texts.{CharStep, Escaped, Quoted};

use crate::read::bytes::first;
use crate::read::error::ReadError;
use crate::read::scalar::high;
use fill_text::Text;
use std::alloc::Global;

/// The character of a number.
fn scalar(code: u32) -> char
    requires { IsScalar code }
    ensures { result ≡ code }
{
    match char::from_u32(code) {
        Some(c) => c,
        None => unreachable!(),
    }
}

/// The character behind a backslash.
fn escaped(bytes: &[u8]) -> Result<(char, &[u8]), ReadError>
    ensures { Reads (λ x. x.0) (λ x. x.1.now) Escaped bytes.now result }
{
    match first(bytes) {
        None => Err(ReadError::Bad(0)),
        Some((byte, after)) => {
            if byte == b'\'' {
                return Ok((char::from(byte), after));
            }
            if byte == b'\\' {
                return Ok((char::from(byte), after));
            }
            Err(ReadError::Bad(bytes.len()))
        }
    }
}

/// The next character, or none where the text ends.
fn character(bytes: &[u8], may_end: bool) -> Result<(Option<char>, &[u8]), ReadError>
    ensures { Reads (λ x. x.0) (λ x. x.1.now) (CharStep may_end) bytes.now result }
{
    match first(bytes) {
        None => Err(ReadError::Bad(0)),
        Some((byte, after)) => {
            if byte == b'\'' {
                return if may_end {
                    Ok((None, after))
                } else {
                    Err(ReadError::Bad(bytes.len()))
                };
            }
            if byte == b'\\' {
                let (c, rest) = escaped(after)?;
                return Ok((Some(c), rest));
            }
            if byte >= 128 {
                let (code, rest) = high(bytes)?;
                return Ok((Some(scalar(code)), rest));
            }
            Ok((Some(char::from(byte)), after))
        }
    }
}

/// The text up to the quote, and the bytes after it.
pub(crate) fn quoted(
    alloc: Global,
    bytes: &[u8],
    may_be_empty: bool,
) -> Result<(Text, &[u8]), ReadError>
    ensures { Reads (λ x. x.0) (λ x. x.1.now) (Quoted may_be_empty) bytes.now result }
{
    let mut spelled = String::new(alloc);
    let mut rest = bytes;
    let mut may_end = may_be_empty;
    loop {
        let (next, after) = character(rest, may_end)?;
        let Some(c) = next else {
            // A string is UTF-8, so that only out of memory refuses its text.
            let Ok(text) = Text::from_utf8(alloc, spelled.as_bytes()) else {
                return Err(ReadError::NoMemory);
            };
            return Ok((text, after));
        };
        if spelled.push(c).is_err() {
            return Err(ReadError::NoMemory);
        }
        rest = after;
        may_end = true;
    }
}
