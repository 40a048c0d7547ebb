//! The form of a request.
ghost use Rattle.std.specs.Prelude.{◌≡◌, if◌then◌else◌, IfOk, None, Some, map, option_map, string_bytes};
ghost use Rattle.std.specs.Str.{is_utf8};
ghost use Rattle.fill_engine.specs.Request.{call_data, files_from, number_in, piece_in, program_of, request_in, text_in, words_from};

use crate::files::NamedFiles;
use fill_text::NoMemory;
use std::alloc::Global;
use std::str;

/// A program that a request names.
#[derive(Clone, Copy, Drop)]
pub enum Program {
    Flashfill,
    Fillcsv,
}

/// What a request asks.
#[derive(Drop)]
pub struct Call {
    pub program: Program,
    /// The words after the program's name.
    pub words: Vec<String>,
    /// The files that the program finds.
    pub files: NamedFiles,
}

/// What a request asks; none where the bytes have not the form of one.
pub fn read_request(alloc: Global, request: &[u8]) -> Result<Option<Call>, NoMemory>
    ensures { IfOk result (λ call. option_map call_data call ≡ request_in request.now) }
{
    let Some(Part { what: name, rest }) = text(request) else {
        return Ok(None);
    };
    let Some(program) = program_of(name) else {
        return Ok(None);
    };
    let Some(Part { what: count, rest }) = number(rest) else {
        return Ok(None);
    };
    let mut words = Vec::new(alloc);
    let Some(rest) = read_words(alloc, count, rest, &mut words)? else {
        return Ok(None);
    };
    let Some(Part { what: count, rest }) = number(rest) else {
        return Ok(None);
    };
    let mut files = NamedFiles::new(alloc);
    let Some(rest) = read_files(count, rest, &mut files)? else {
        return Ok(None);
    };
    if !rest.is_empty() {
        return Ok(None);
    }
    Ok(Some(Call {
        program,
        words,
        files,
    }))
}

/// The program of a name.
fn program_of(name: &str) -> Option<Program>
    ensures { result ≡ program_of name.now }
{
    if name == "flashfill" {
        Some(Program::Flashfill)
    } else if name == "fillcsv" {
        Some(Program::Fillcsv)
    } else {
        None
    }
}

/// Reads `count` words, and answers the bytes after them.
#[tactic(auto, using(crate::proofs::Requests::words_more, crate::proofs::Requests::words_pushed))]
fn read_words<'a>(
    alloc: Global,
    count: u64,
    bytes: &'a [u8],
    words: &mut Vec<String>,
) -> Result<Option<&'a [u8]>, NoMemory>
    ensures { IfOk result (λ after. option_map (λ rest. (map string_bytes words.new.items, rest.now)) after ≡ words_from count (map string_bytes words.old.items) bytes.now) }
{
    let mut left = count;
    let mut rest = bytes;
    while left > 0 {
        let Some(
            Part {
                what: word,
                rest: after,
            },
        ) = text(rest)
        else {
            return Ok(None);
        };
        let made = String::from_str(alloc, word)?;
        words.push(made)?;
        rest = after;
        left -= 1;
    }
    Ok(Some(rest))
}

/// Reads `count` files, and answers the bytes after them.
#[tactic(auto, using(crate::proofs::Requests::files_more))]
fn read_files<'a>(
    count: u64,
    bytes: &'a [u8],
    files: &mut NamedFiles,
) -> Result<Option<&'a [u8]>, NoMemory>
    ensures { IfOk result (λ after. option_map (λ rest. (files.new.files, rest.now)) after ≡ files_from count files.old.files bytes.now) }
{
    let mut left = count;
    let mut rest = bytes;
    while left > 0 {
        let Some(
            Part {
                what: name,
                rest: after,
            },
        ) = text(rest)
        else {
            return Ok(None);
        };
        let Some(
            Part {
                what: file,
                rest: after,
            },
        ) = piece(after)
        else {
            return Ok(None);
        };
        files.put(name, file)?;
        rest = after;
        left -= 1;
    }
    Ok(Some(rest))
}

/// What stands at the front of bytes, and the bytes after it.
struct Part<'a, T> {
    what: T,
    rest: &'a [u8],
}

/// The number at the front.
fn number(bytes: &[u8]) -> Option<Part<'_, u64>>
    ensures { option_map (λ part. (part.what, part.rest.now)) result ≡ number_in bytes.now }
{
    let (front, rest) = bytes.split_first_chunk::<8>()?;
    Some(Part {
        what: u64::from_le_bytes(*front),
        rest,
    })
}

/// The bytes at the front, with their number before them.
fn piece(bytes: &[u8]) -> Option<Part<'_, &[u8]>>
    ensures { option_map (λ part. (part.what.now, part.rest.now)) result ≡ piece_in bytes.now }
{
    let Part { what: count, rest } = number(bytes)?;
    if count > rest.len() as u64 {
        return None;
    }
    let (what, rest) = rest.split_at(count as usize);
    Some(Part { what, rest })
}

/// The text at the front.
fn text(bytes: &[u8]) -> Option<Part<'_, &str>>
    ensures { option_map (λ part. (part.what.now, part.rest.now)) result ≡ text_in bytes.now }
{
    let Part { what, rest } = piece(bytes)?;
    let what = as_text(what)?;
    Some(Part { what, rest })
}

/// The bytes as a text.
fn as_text(bytes: &[u8]) -> Option<&str>
    ensures { option_map (λ text. text.now) result ≡ (if is_utf8 bytes.now then Some bytes.now else None) }
{
    match str::from_utf8(bytes) {
        Ok(text) => Some(text),
        Err(_) => None,
    }
}
