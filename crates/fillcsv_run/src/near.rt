//! The column whose name is most like a word.
ghost use Rattle.std.specs.Prelude.{◌≡◌, ◌<◌, [], IfOk, get_or, length, option_map};
ghost use Rattle.fillcsv_run.specs.Near.{as_text, better, if_close, is_close, like, near};

use fill_records::Record;
use std::alloc::{AllocError, Global};
use std::str;
use strsim::levenshtein;

/// The most bytes of a word and of a name that are compared.
pub const LONGEST: usize = 100;

/// Of the names in a header that are like a word the nearest one, the first of several.
#[tactic(auto, using(crate::proofs::Nears::near_more, crate::proofs::Nears::near_all))]
pub(crate) fn near<'a>(
    alloc: Global,
    word: &str,
    header: &'a Record,
) -> Result<Option<&'a str>, AllocError>
    ensures { IfOk result (λ found. option_map (λ name. name.now) found ≡ near word.now header.now) }
{
    let mut best = None;
    if word.len() > LONGEST {
        return Ok(best);
    }
    for i in 0..header.len() {
        let name = like(alloc, word, name_at(header, i))?;
        best = better(alloc, word, best, name)?;
    }
    Ok(best)
}

/// The name at a place of a header.
fn name_at(header: &Record, i: usize) -> &[u8]
    requires { i < length header.now }
    ensures { result.now ≡ get_or header.now i [] }
{
    header.get(i).unwrap_or(b"")
}

/// The nearer one of two names, the first where none is.
fn better<'a>(
    alloc: Global,
    word: &str,
    best: Option<&'a str>,
    name: Option<&'a str>,
) -> Result<Option<&'a str>, AllocError>
    ensures { IfOk result (λ found. option_map (λ n. n.now) found ≡ better word.now (option_map (λ n. n.now) best.entry) (option_map (λ n. n.now) name.entry)) }
{
    let Some(other) = name else {
        return Ok(best);
    };
    let Some(found) = best else {
        return Ok(Some(other));
    };
    if levenshtein(alloc, word, other)? < levenshtein(alloc, word, found)? {
        Ok(Some(other))
    } else {
        Ok(Some(found))
    }
}

/// A name that is text and like the word.
fn like<'a>(alloc: Global, word: &str, name: &'a [u8]) -> Result<Option<&'a str>, AllocError>
    ensures { IfOk result (λ found. option_map (λ n. n.now) found ≡ like word.now name.now) }
{
    match as_text(name) {
        Some(name) => if_close(alloc, word, name),
        None => Ok(None),
    }
}

/// A name that is close to the word.
fn if_close<'a>(alloc: Global, word: &str, name: &'a str) -> Result<Option<&'a str>, AllocError>
    ensures { IfOk result (λ found. option_map (λ n. n.now) found ≡ if_close word.now name.now) }
{
    if is_close(alloc, word, name)? {
        Ok(Some(name))
    } else {
        Ok(None)
    }
}

/// Whether a name is not too long to be compared, and has at most half as many edits as the word has bytes.
fn is_close(alloc: Global, word: &str, name: &str) -> Result<bool, AllocError>
    ensures { IfOk result (λ is. is ≡ is_close word.now name.now) }
{
    if name.len() > LONGEST {
        return Ok(false);
    }
    let edits = levenshtein(alloc, word, name)?;
    Ok(edits <= word.len() / 2)
}

/// Bytes that are UTF-8, as text.
fn as_text(bytes: &[u8]) -> Option<&str>
    ensures { option_map (λ text. text.now) result ≡ as_text bytes.now }
{
    match str::from_utf8(bytes) {
        Ok(text) => Some(text),
        Err(_) => None,
    }
}
