//! Signed numbers.
ghost use Rattle.std.specs.Prelude.{◌≡◌, ◌≤◌, ◌<◌, ◌-◌, negsuc, Result};
ghost use Rattle.fill_print.specs.Reading.{Reads};
ghost use Rattle.fill_print.specs.Ints.{Int, Negative, Zero, Positive};

use crate::read::bytes::{first, word};
use crate::read::error::ReadError;
use crate::read::numbers::number;

fn negated(n: u32) -> i32
    requires low { 1 ≤ n }
    requires high { n ≤ 2147483648 }
    ensures { result ≡ negsuc (n - 1) }
{
    (0 - i64::from(n)) as i32
}

fn negative(bytes: &[u8], last: u8) -> Result<(i32, &[u8]), ReadError>
    requires { last < 48 }
    ensures { Reads (λ x. x.0) (λ x. x.1.now) (Negative last) bytes.now result }
{
    let rest = word(bytes, b"-")?;
    let (size, rest) = number(rest, 2147483648, last)?;
    Ok((negated(size), rest))
}

fn positive(bytes: &[u8], last: u8) -> Result<(i32, &[u8]), ReadError>
    requires { last < 48 }
    ensures { Reads (λ x. x.0) (λ x. x.1.now) (Positive last) bytes.now result }
{
    let (size, rest) = number(bytes, 2147483647, last)?;
    Ok((size as i32, rest))
}

fn zero(bytes: &[u8], last: u8) -> Result<(i32, &[u8]), ReadError>
    ensures { Reads (λ x. x.0) (λ x. x.1.now) (Zero last) bytes.now result }
{
    let rest = word(bytes, &[b'0', last])?;
    Ok((0, rest))
}

/// A signed number that ends before this byte, and the bytes after that.
pub(crate) fn int(bytes: &[u8], last: u8, may_be_zero: bool) -> Result<(i32, &[u8]), ReadError>
    requires { last < 48 }
    ensures { Reads (λ x. x.0) (λ x. x.1.now) (Int may_be_zero last) bytes.now result }
{
    match first(bytes) {
        None => Err(ReadError::Bad(0)),
        Some((byte, _after)) => {
            if byte == b'-' {
                return negative(bytes, last);
            }
            if byte == b'0' {
                if !may_be_zero {
                    return Err(ReadError::Bad(bytes.len()));
                }
                return zero(bytes, last);
            }
            positive(bytes, last)
        }
    }
}
