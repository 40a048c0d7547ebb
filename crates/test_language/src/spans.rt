//! The pieces of small texts, worked by hand, and those that a look from each position finds.
use Token::{Alpha, Digits, End, Hyphen, Lower, NonAlpha, NonSpace, Space, Start, Upper, Word};
use fill_spans::Spans;
use fill_text::Text;
use fill_tokens::{TOKEN_COUNT, Token, TokenSet, span, token_at};
use std::alloc::Global;
use std::test::Fail;

/// Whether the token's pieces in the text have these starts and these ends.
fn gives(
    alloc: Global,
    text: &Text,
    token: Token,
    starts: &[usize],
    ends: &[usize],
) -> Result<bool, Fail> {
    let spans = Spans::new(alloc, text, TokenSet::ALL)?;
    if !token.is_of(TokenSet::ALL) {
        return Ok(false);
    }
    let pieces = spans.pieces(token);
    Ok(pieces.starts.as_slice() == starts && pieces.ends.as_slice() == ends)
}

/// Whether the token has these pieces in the text `Ab1-c23`.
fn stand_so(alloc: Global, token: Token, starts: &[usize], ends: &[usize]) -> Result<bool, Fail> {
    let text = Text::from_utf8(alloc, b"Ab1-c23")?;
    gives(alloc, &text, token, starts, ends)
}

#[test]
fn pieces_stand_in_order(rt: HostRuntime) -> Result<(), Fail> {
    let rows: [(Token, &[usize], &[usize]); 11] = [
        (Start, &[0], &[0]),
        (End, &[7], &[7]),
        (Digits, &[2, 5], &[3, 7]),
        (Upper, &[0], &[1]),
        (Lower, &[1, 4], &[2, 5]),
        (Alpha, &[0, 4], &[2, 5]),
        (Word, &[0, 4], &[3, 7]),
        (Hyphen, &[3], &[4]),
        (NonAlpha, &[2, 5], &[4, 7]),
        (NonSpace, &[0], &[7]),
        (Space, &[], &[]),
    ];
    for (token, starts, ends) in rows {
        assert!(rt; stand_so(rt.alloc(), token, starts, ends)?, "{token:?}");
    }
    Ok(())
}

/// Puts down the pieces of the token, asked for from each position of the text.
fn put_pieces(
    starts: &mut Vec<usize>,
    ends: &mut Vec<usize>,
    text: &Text,
    token: Token,
) -> Result<(), Fail> {
    for k in 0..text.len() + 1 {
        if let Some(b) = span(token, text, k) {
            starts.push(k)?;
            ends.push(b)?;
        }
    }
    Ok(())
}

/// Whether those are its pieces, which the two empty lists are for.
fn are_put(
    alloc: Global,
    starts: &mut Vec<usize>,
    ends: &mut Vec<usize>,
    text: &Text,
    token: Token,
) -> Result<bool, Fail> {
    put_pieces(starts, ends, text, token)?;
    gives(alloc, text, token, starts, ends)
}

fn begin_somewhere(alloc: Global, text: &Text, token: Token) -> Result<bool, Fail> {
    let mut starts = Vec::new(alloc);
    let mut ends = Vec::new(alloc);
    are_put(alloc, &mut starts, &mut ends, text, token)
}

/// The number of the first token whose pieces in the text are others, or how many tokens there are.
fn first_other(alloc: Global, spelled: &str) -> Result<usize, Fail> {
    let text = Text::from_utf8(alloc, spelled.as_bytes())?;
    first_other_in(alloc, &text)
}

fn first_other_in(alloc: Global, text: &Text) -> Result<usize, Fail> {
    for i in 0..TOKEN_COUNT {
        if !begin_somewhere(alloc, text, token_at(i))? {
            return Ok(i);
        }
    }
    Ok(TOKEN_COUNT)
}

#[test]
fn pieces_are_those_that_begin_somewhere(rt: HostRuntime) -> Result<(), Fail> {
    for spelled in ["", "a", "1-", " aB  1", "--b-", "\u{661}\u{e9}\u{c9}."] {
        assert_eq!(rt; first_other(rt.alloc(), spelled)?, TOKEN_COUNT, "{spelled}");
    }
    Ok(())
}
