//! Texts of sheets, on one line and without control characters.
use std::alloc::AllocError;

/// Puts a text at the end, in double quotes. A double quote, a backslash and a control character in it are escaped.
pub fn put_quoted(to: &mut String, text: &[char]) -> Result<(), AllocError> {
    to.push_str("\"")?;
    for c in text {
        put_char(to, *c)?;
    }
    to.push_str("\"")
}

/// Puts a text at the end. A double quote, a backslash and a control character in it are escaped.
pub(crate) fn put_escaped(to: &mut String, text: &str) -> Result<(), AllocError> {
    for c in text.chars() {
        put_char(to, c)?;
    }
    Ok(())
}

fn put_char(to: &mut String, c: char) -> Result<(), AllocError> {
    match c {
        '"' => to.push_str("\\\""),
        '\\' => to.push_str("\\\\"),
        '\n' => to.push_str("\\n"),
        '\r' => to.push_str("\\r"),
        '\t' => to.push_str("\\t"),
        '\0'..='\u{1f}' | '\u{7f}'..='\u{9f}' => to.push_str("\\?"),
        _ => to.push(c),
    }
}
