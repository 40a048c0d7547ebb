//! Places in a text.
use crate::names::put_number;
use fill_tokens::{Place, Seq, Token};
use std::alloc::AllocError;

/// Puts the place at which a piece begins at the end.
pub(crate) fn put_start(to: &mut String, place: &Place) -> Result<(), AllocError> {
    match place {
        Place::CPos(count) => put_counted(to, *count),
        Place::Pos(left, right, count) => {
            if right.is_empty() {
                to.push_str("after ")?;
                put_nth(to, *count, left)
            } else {
                put_nth(to, *count, right)?;
                put_after(to, left)
            }
        }
    }
}

/// Puts the place at which a piece ends at the end.
pub(crate) fn put_end(to: &mut String, place: &Place) -> Result<(), AllocError> {
    match place {
        Place::CPos(count) => put_counted(to, *count),
        Place::Pos(left, right, count) => {
            if right.is_empty() {
                to.push_str("the end of ")?;
                put_nth(to, *count, left)
            } else {
                to.push_str("before ")?;
                put_nth(to, *count, right)?;
                put_after(to, left)
            }
        }
    }
}

/// Puts what stands right before a place at the end, if something has to.
fn put_after(to: &mut String, left: &Seq) -> Result<(), AllocError> {
    if left.is_empty() {
        return Ok(());
    }
    to.push_str(" right after ")?;
    put_seq(to, left)
}

/// Puts a place that counts characters at the end: from the front where the count is not negative, else from the back.
fn put_counted(to: &mut String, count: i32) -> Result<(), AllocError> {
    match count {
        0 => to.push_str("the start"),
        -1 => to.push_str("the end"),
        _ => {
            if count > 0 {
                to.push_str("after character ")?;
                put_number(to, count.unsigned_abs())
            } else {
                put_number(to, count.unsigned_abs() - 1)?;
                to.push_str(" characters before the end")
            }
        }
    }
}

/// Puts which match of a sequence is meant at the end.
pub(crate) fn put_nth(to: &mut String, count: i32, seq: &Seq) -> Result<(), AllocError> {
    to.push_str("the ")?;
    put_ordinal(to, count)?;
    to.push_str(" ")?;
    put_seq(to, seq)
}

/// Puts an ordinal at the end, from the back where it is negative.
pub(crate) fn put_ordinal(to: &mut String, count: i32) -> Result<(), AllocError> {
    match count {
        1 => to.push_str("first"),
        2 => to.push_str("second"),
        3 => to.push_str("third"),
        -1 => to.push_str("last"),
        -2 => to.push_str("second to last"),
        -3 => to.push_str("third to last"),
        _ => {
            put_number(to, count.unsigned_abs())?;
            to.push_str(if count > 0 { "th" } else { "th to last" })
        }
    }
}

/// Puts a sequence of tokens at the end.
pub(crate) fn put_seq(to: &mut String, seq: &Seq) -> Result<(), AllocError> {
    put_tokens(to, seq, 0, seq.len())
}

/// Puts some tokens of a sequence at the end, those from one place to before another.
pub(crate) fn put_tokens(
    to: &mut String,
    seq: &Seq,
    start: usize,
    end: usize,
) -> Result<(), AllocError> {
    for i in start..end.min(seq.len()) {
        if i > start {
            to.push_str(" then ")?;
        }
        to.push_str(noun(seq.token(i)))?;
    }
    Ok(())
}

/// What a token is called.
fn noun(token: Token) -> &'static str {
    match token {
        Token::Start => "start",
        Token::End => "end",
        Token::Digits => "number",
        Token::Upper => "capital",
        Token::Lower => "run of small letters",
        Token::Alpha => "run of letters",
        Token::Word => "word",
        Token::Space => "space",
        Token::NonSpace => "block without spaces",
        Token::NonDigit => "block without digits",
        Token::NonAlpha => "block without letters",
        Token::Newline => "line end",
        _ => sign(token),
    }
}

/// A sign in quotes.
fn sign(token: Token) -> &'static str {
    match token {
        Token::Hyphen => "\"-\"",
        Token::Dot => "\".\"",
        Token::Comma => "\",\"",
        Token::Semicolon => "\";\"",
        Token::Colon => "\":\"",
        Token::Slash => "\"/\"",
        Token::Backslash => "\"\\\"",
        Token::Underscore => "\"_\"",
        Token::At => "\"@\"",
        Token::Hash => "\"#\"",
        Token::Ampersand => "\"&\"",
        Token::LeftParen => "\"(\"",
        Token::RightParen => "\")\"",
        Token::DoubleQuote => "double quote",
        Token::SingleQuote => "\"'\"",
        Token::Percent => "\"%\"",
        Token::Plus => "\"+\"",
        Token::Dollar => "\"$\"",
        Token::Equals => "\"=\"",
        Token::Less => "\"<\"",
        Token::Greater => "\">\"",
        Token::LeftBracket => "\"[\"",
        Token::RightBracket => "\"]\"",
        Token::LeftBrace => "\"{\"",
        Token::RightBrace => "\"}\"",
        Token::Bar => "\"|\"",
        _ => "",
    }
}
