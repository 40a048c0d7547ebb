//! Characters in UTF-8.
ghost use Rattle.std.specs.Prelude.{◌≡◌, ◌≤◌, ◌<◌, ◌==◌, Result};
ghost use Rattle.fill_print.specs.Reading.{Reads};
ghost use Rattle.fill_print.specs.Utf8.{High, Ranged, Two, Three, Four, low_3, high_3, low_4, high_4};

use crate::read::bytes::first;
use crate::read::error::ReadError;

fn ranged(bytes: &[u8], low: u8, high: u8) -> Result<(u32, &[u8]), ReadError>
    requires { low ≤ high }
    ensures { Reads (λ x. x.0) (λ x. x.1.now) (Ranged low high) bytes.now result }
{
    match first(bytes) {
        None => Err(ReadError::Bad(0)),
        Some((byte, after)) => {
            if byte < low {
                return Err(ReadError::Bad(bytes.len()));
            }
            if byte > high {
                return Err(ReadError::Bad(bytes.len()));
            }
            Ok((u32::from(byte), after))
        }
    }
}

fn two(bytes: &[u8]) -> Result<(u32, &[u8]), ReadError>
    ensures { Reads (λ x. x.0) (λ x. x.1.now) Two bytes.now result }
{
    let (a, rest) = ranged(bytes, 194, 223)?;
    let (b, rest) = ranged(rest, 128, 191)?;
    Ok(((a - 192) * 64 + (b - 128), rest))
}

fn three(bytes: &[u8]) -> Result<(u32, &[u8]), ReadError>
    ensures { Reads (λ x. x.0) (λ x. x.1.now) Three bytes.now result }
{
    let (a, rest) = ranged(bytes, 224, 239)?;
    let (b, rest) = second_of_three(rest, a)?;
    let (c, rest) = ranged(rest, 128, 191)?;
    Ok((((a - 224) * 64 + (b - 128)) * 64 + (c - 128), rest))
}

fn four(bytes: &[u8]) -> Result<(u32, &[u8]), ReadError>
    ensures { Reads (λ x. x.0) (λ x. x.1.now) Four bytes.now result }
{
    let (a, rest) = ranged(bytes, 240, 244)?;
    let (b, rest) = second_of_four(rest, a)?;
    let (c, rest) = ranged(rest, 128, 191)?;
    let (d, rest) = ranged(rest, 128, 191)?;
    Ok((
        (((a - 240) * 64 + (b - 128)) * 64 + (c - 128)) * 64 + (d - 128),
        rest,
    ))
}

fn second_of_three(bytes: &[u8], a: u32) -> Result<(u32, &[u8]), ReadError>
    ensures { Reads (λ x. x.0) (λ x. x.1.now) (Ranged (low_3 a) (high_3 a)) bytes.now result }
{
    ranged(bytes, low_of_three(a), high_of_three(a))
}

fn second_of_four(bytes: &[u8], a: u32) -> Result<(u32, &[u8]), ReadError>
    ensures { Reads (λ x. x.0) (λ x. x.1.now) (Ranged (low_4 a) (high_4 a)) bytes.now result }
{
    ranged(bytes, low_of_four(a), high_of_four(a))
}

fn low_of_three(a: u32) -> u8
    ensures { result ≡ low_3 a }
{
    if a == 224 { 160 } else { 128 }
}

fn high_of_three(a: u32) -> u8
    ensures { result ≡ high_3 a }
{
    if a == 237 { 159 } else { 191 }
}

fn low_of_four(a: u32) -> u8
    ensures { result ≡ low_4 a }
{
    if a == 240 { 144 } else { 128 }
}

fn high_of_four(a: u32) -> u8
    ensures { result ≡ high_4 a }
{
    if a == 244 { 143 } else { 191 }
}

/// A character of two bytes or more, and the bytes after it.
pub(crate) fn high(bytes: &[u8]) -> Result<(u32, &[u8]), ReadError>
    ensures { Reads (λ x. x.0) (λ x. x.1.now) High bytes.now result }
{
    match first(bytes) {
        None => Err(ReadError::Bad(0)),
        Some((lead, _after)) => {
            if lead < 194 {
                return Err(ReadError::Bad(bytes.len()));
            }
            if lead < 224 {
                return two(bytes);
            }
            if lead < 240 {
                return three(bytes);
            }
            if lead < 245 {
                return four(bytes);
            }
            Err(ReadError::Bad(bytes.len()))
        }
    }
}
