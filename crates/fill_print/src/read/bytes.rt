//! What stands first, and fixed words.
ghost use Rattle.std.specs.Prelude.{◌≡◌, [], ◌∷◌, Result, Ok, Err, MatchOption};
ghost use Rattle.fill_print.specs.Reading.{IsNotNext, Plain, Reads};

use crate::read::error::ReadError;

/// The first byte, and those after it.
pub(crate) fn first(bytes: &[u8]) -> Option<(u8, &[u8])>
    ensures { MatchOption result (bytes.now ≡ []) (λ x. bytes.now ≡ x.0 ∷ x.1.now) }
{
    match bytes {
        [] => None,
        [byte, rest @ ..] => Some((*byte, rest)),
    }
}

/// The bytes after this one, if it stands first.
pub(crate) fn after(bytes: &[u8], byte: u8) -> Option<&[u8]>
    ensures { MatchOption result (IsNotNext byte bytes.now) (λ rest. bytes.now ≡ byte ∷ rest.now) }
{
    match bytes {
        [found, rest @ ..] if *found == byte => Some(rest),
        _ => None,
    }
}

/// The bytes after a word.
pub(crate) fn word<'a>(bytes: &'a [u8], word: &[u8]) -> Result<&'a [u8], ReadError>
    ensures { Reads (λ x. tt {0}) (λ x. x.now) (Plain word.now) bytes.now result }
{
    let mut rest = bytes;
    for c in word {
        match first(rest) {
            None => return Err(ReadError::Bad(0)),
            Some((byte, after)) => {
                if byte != *c {
                    return Err(ReadError::Bad(rest.len()));
                }
                rest = after;
            }
        }
    }
    Ok(rest)
}
