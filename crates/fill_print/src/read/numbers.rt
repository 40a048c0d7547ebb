//! Numbers without a sign.
ghost use Rattle.std.specs.Prelude.{ℕ, ◌<◌, ◌≤◌, MatchOption};
ghost use Rattle.fill_print.specs.Reading.{Reads};
ghost use Rattle.fill_print.specs.Numbers.{Number, PutsDigit};

use crate::read::bytes::first;
use crate::read::error::ReadError;

/// The number with one digit more, where it is within the limit.
fn with_digit(value: u32, byte: u8, limit: u32) -> Option<u32>
    ensures { MatchOption result ((n : ℕ) → PutsDigit limit value byte n → ⊥) (λ n. PutsDigit limit value byte n) }
{
    if byte < b'0' || byte > b'9' {
        return None;
    }
    let next = u64::from(value) * 10 + u64::from(byte - b'0');
    if next == 0 || next > u64::from(limit) {
        return None;
    }
    Some(next as u32)
}

/// A number from 1 to the limit that ends before this byte, and the bytes after that.
pub(crate) fn number(bytes: &[u8], limit: u32, last: u8) -> Result<(u32, &[u8]), ReadError>
    requires limit { 1 ≤ limit }
    requires last { last < 48 }
    ensures { Reads (λ x. x.0) (λ x. x.1.now) (Number limit last) bytes.now result }
{
    let mut value = 0;
    let mut rest = bytes;
    while let Some((byte, after)) = first(rest) {
        if byte == last && value != 0 {
            return Ok((value, after));
        }
        let Some(next) = with_digit(value, byte, limit) else {
            return Err(ReadError::Bad(rest.len()));
        };
        value = next;
        rest = after;
    }
    Err(ReadError::Bad(0))
}
