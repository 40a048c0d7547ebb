use Token::{
    Alpha, Digits, Dollar, End, Equals, Hyphen, Lower, Newline, NonAlpha, NonDigit, NonSpace,
    Space, Start, Upper, Word,
};
use fill_text::{Text, TextError};
use fill_tokens::*;
use std::alloc::Global;
use std::cmp::Ordering;
use std::test::Fail;

/// Whether the number and the name lead to one token, and from it back to both.
fn there_and_back(number: u8, name: &str) -> bool {
    let Some(token) = Token::from_number(number) else {
        return false;
    };
    let named = Token::from_name(name.as_bytes());
    token.number() == number && token.name() == name && named == Some(token)
}

#[test]
fn numbers_and_names_of_tokens(rt: HostRuntime) {
    for (number, name) in [
        (1, "Start"),
        (2, "End"),
        (3, "Digits"),
        (4, "Upper"),
        (5, "Lower"),
        (6, "Alpha"),
        (7, "Word"),
        (8, "Space"),
        (9, "Hyphen"),
        (10, "Dot"),
        (11, "Comma"),
        (12, "Semicolon"),
        (13, "Colon"),
        (14, "Slash"),
        (15, "Backslash"),
        (16, "Underscore"),
        (17, "At"),
        (18, "Hash"),
        (19, "Ampersand"),
        (20, "LeftParen"),
        (21, "RightParen"),
        (22, "DoubleQuote"),
        (23, "SingleQuote"),
        (24, "Percent"),
        (25, "Plus"),
        (26, "Dollar"),
        (27, "NonSpace"),
        (28, "NonDigit"),
        (29, "NonAlpha"),
        (30, "Equals"),
        (31, "Less"),
        (32, "Greater"),
        (33, "LeftBracket"),
        (34, "RightBracket"),
        (35, "LeftBrace"),
        (36, "RightBrace"),
        (37, "Bar"),
        (38, "Newline"),
    ] {
        assert!(rt; there_and_back(number, name), "{name}");
    }
}

#[test]
fn numbers_and_names_of_no_token(rt: HostRuntime) {
    for number in [0, 39] {
        assert_eq!(rt; Token::from_number(number), None);
    }
    for name in [b"digits".as_slice(), b""] {
        assert_eq!(rt; Token::from_name(name), None);
    }
}

/// Whether the place has this value in the text.
fn has_value(
    alloc: Global,
    place: &Place,
    text: &str,
    value: Option<usize>,
) -> Result<bool, TextError> {
    let text = Text::from_utf8(alloc, text.as_bytes())?;
    Ok(place_value(place, &text) == value)
}

#[test]
fn values_of_places(rt: HostRuntime) -> Result<(), Fail> {
    let none = Seq::empty();
    let lower = Seq::one(Lower);
    let digits = Seq::one(Digits);
    for (place, text, value) in [
        (Place::Pos(lower, none, 1), "aaa", Some(3)),
        (Place::Pos(none, lower, -1), "a1a", Some(2)),
        (Place::Pos(digits, lower, 1), "a1a", Some(2)),
        (Place::Pos(digits, lower, 2), "a1a", None),
        (Place::Pos(digits, lower, 0), "a1a", None),
        (Place::Pos(none, none, 4), "abc", Some(3)),
        (Place::Pos(none, none, -4), "abc", Some(0)),
        (Place::CPos(0), "abc", Some(0)),
        (Place::CPos(3), "abc", Some(3)),
        (Place::CPos(4), "abc", None),
        (Place::CPos(-1), "abc", Some(3)),
        (Place::CPos(-4), "abc", Some(0)),
        (Place::CPos(-5), "abc", None),
        (Place::Pos(none, Seq::one(NonSpace), 1), "+a b", Some(0)),
        (Place::Pos(none, Seq::one(NonSpace), 1), " #cc d", Some(1)),
        (Place::Pos(Seq::one(NonDigit), none, 1), "ab1c", Some(2)),
        (Place::Pos(Seq::one(NonAlpha), none, -1), "a1-b", Some(3)),
        (Place::Pos(Seq::one(NonAlpha), none, 1), "aé", None),
    ] {
        assert!(rt; has_value(rt.alloc(), &place, text, value)?, "{text}");
    }
    Ok(())
}

/// Whether the token and a place of it are in the set just if this says so.
fn are_of(token: Token, token_set: TokenSet, said: bool) -> bool {
    let place = Place::Pos(Seq::one(Lower), Seq::two(Space, token), 1);
    token.is_of(token_set) == said && place.is_of(token_set) == said
}

#[test]
fn tokens_of_sets(rt: HostRuntime) {
    for (token, first, second, third) in [
        (Start, true, true, true),
        (Dollar, true, true, true),
        (NonSpace, false, true, true),
        (NonDigit, false, true, false),
        (NonAlpha, false, true, false),
        (Equals, false, false, true),
        (Newline, false, false, true),
    ] {
        assert!(rt; are_of(token, TokenSet::FIRST, first), "{token:?}");
        assert!(rt; are_of(token, TokenSet::SECOND, second), "{token:?}");
        assert!(rt; are_of(token, TokenSet::THIRD, third), "{token:?}");
    }
    assert!(rt; Place::CPos(3).is_of(TokenSet::FIRST));
    assert!(rt; Seq::empty().is_of(TokenSet::FIRST));
}

/// Whether the sequence matches so often in the text.
fn has_matches(alloc: Global, seq: &Seq, text: &str, count: usize) -> Result<bool, TextError> {
    let text = Text::from_utf8(alloc, text.as_bytes())?;
    Ok(match_count(seq, &text) == count)
}

#[test]
fn counts_of_matches(rt: HostRuntime) -> Result<(), Fail> {
    for (seq, text, count) in [
        (Seq::one(Lower), "a1a", 2),
        (Seq::one(Lower), "aaa", 1),
        (Seq::empty(), "abc", 4),
        (Seq::two(Upper, Lower), "Anna Bo", 2),
        (Seq::three(Start, Word, End), "a1", 1),
        (Seq::three(Start, Word, End), "a-1", 0),
        // A title case letter is a letter, and neither upper nor lower.
        (Seq::one(Alpha), "a\u{1c5}b", 1),
        (Seq::one(Upper), "a\u{1c5}b", 0),
        (Seq::one(Lower), "a\u{1c5}b", 2),
        // So is a modifier letter.
        (Seq::one(Alpha), "a\u{2b0}b", 1),
        (Seq::one(Lower), "a\u{2b0}b", 2),
        // A digit of another script joins a run of digits.
        (Seq::one(Digits), "1\u{664}2", 1),
        // A no-break space joins a run of spaces.
        (Seq::one(Space), "a \u{a0} b", 1),
        // A combining mark is no letter, and parts a run.
        (Seq::one(Alpha), "e\u{301}e", 2),
        (Seq::one(Word), "e\u{301}e", 2),
    ] {
        assert!(rt; has_matches(rt.alloc(), &seq, text, count)?, "{text}");
    }
    Ok(())
}

/// Whether the token's piece from a position of the text ends here.
fn spans(text: &Text, token: Token, from: usize, end: Option<usize>) -> bool {
    from <= text.len() && span(token, text, from) == end
}

/// Whether the token's piece up to a position begins here.
fn spans_back(text: &Text, token: Token, to: usize, start: Option<usize>) -> bool {
    to <= text.len() && span_back(token, text, to) == start
}

#[test]
fn pieces_of_tokens(rt: HostRuntime) -> Result<(), Fail> {
    let text = Text::from_utf8(rt.alloc(), b"ab-12")?;
    for (token, from, end) in [
        (Lower, 0, Some(2)),
        (Lower, 1, None),
        (Hyphen, 2, Some(3)),
        (Start, 0, Some(0)),
        (End, 5, Some(5)),
    ] {
        assert!(rt; spans(&text, token, from, end), "{token:?}");
    }
    for (token, to, start) in [(Lower, 2, Some(0)), (Lower, 1, None), (Hyphen, 3, Some(2))] {
        assert!(rt; spans_back(&text, token, to, start), "{token:?}");
    }
    Ok(())
}

/// Whether the text's first characters match one sequence, and its last ones another.
fn has_two_matches(text: &Text) -> bool {
    text.len() == 5
        && right_match(&Seq::two(Lower, Hyphen), text, 0)
        && left_match(&Seq::two(Hyphen, Digits), text, 5)
        && !left_match(&Seq::two(Hyphen, Digits), text, 4)
}

#[test]
fn matches_at_positions(rt: HostRuntime) -> Result<(), Fail> {
    let text = Text::from_utf8(rt.alloc(), b"ab-12")?;
    assert!(rt; has_two_matches(&text));
    Ok(())
}

/// Whether the place has these costs by the first table and by the third, and is in the grammar just if this says so.
fn costs(place: &Place, first: u64, third: u64, in_grammar: bool) -> bool {
    place.cost(&Prices::FIRST) == first
        && place.cost(&Prices::THIRD) == third
        && is_place(place) == in_grammar
}

#[test]
fn costs_of_places(rt: HostRuntime) {
    let none = Seq::empty();
    let start = Seq::one(Start);
    let lower = Seq::one(Lower);
    let hyphen = Seq::one(Hyphen);
    for (place, first, third, in_grammar) in [
        (Place::CPos(0), 1, 1, true),
        (Place::CPos(-1), 1, 1, true),
        (Place::CPos(1), 10, 10, true),
        (Place::Pos(lower, start, 1), 6, 8, false),
        (Place::Pos(start, lower, -3), 10, 14, true),
        (Place::Pos(lower, Seq::two(Digits, End), 1), 8, 12, true),
        (Place::Pos(hyphen, none, 2), 6, 5, true),
        (Place::Pos(none, Seq::two(Space, NonSpace), -1), 6, 6, true),
        (Place::Pos(none, none, 1), 2, 2, false),
        (Place::Pos(lower, none, 0), 4, 6, false),
    ] {
        assert!(rt; costs(&place, first, third, in_grammar), "{place:?}");
    }
}

/// Whether the first place is before the second.
fn is_before(before: &Place, after: &Place) -> bool {
    before.compare(after) == Ordering::Less && after.compare(before) == Ordering::Greater
}

#[test]
fn places_and_their_order(rt: HostRuntime) {
    let none = Seq::empty();
    let start = Seq::one(Start);
    let lower = Seq::one(Lower);
    for (before, after) in [
        (Place::CPos(1), Place::CPos(-1)),
        (Place::CPos(-1), Place::CPos(2)),
        (Place::CPos(-9), Place::Pos(none, lower, 1)),
        (Place::Pos(none, lower, 1), Place::Pos(lower, none, 1)),
        (Place::Pos(start, none, 1), Place::Pos(lower, none, 1)),
    ] {
        assert!(rt; is_before(&before, &after));
    }
    assert_eq!(rt; lower.compare(&lower), Ordering::Equal);
    assert_eq!(rt; Place::Pos(lower, none, 1), Place::Pos(lower, none, 1));
    assert_ne!(rt; Place::Pos(lower, none, 1), Place::Pos(lower, none, -1));
}

/// A text of a run of small letters, doubled so often.
fn doubled(alloc: Global, times: usize) -> Result<Text, TextError> {
    let mut text = Text::from_utf8(alloc, b"a")?;
    for _ in 0..times {
        let again = text.copy()?;
        text.append(&again)?;
    }
    Ok(text)
}

/// Whether the text is a single run of this many small letters.
fn is_run(text: &Text, length: usize) -> bool {
    let lower = Seq::one(Lower);
    text.len() == length
        && place_value(&Place::Pos(lower, Seq::empty(), 1), text) == Some(length)
        && place_value(&Place::Pos(Seq::empty(), lower, -1), text) == Some(0)
        && match_count(&lower, text) == 1
}

/// A scan of the run from each of its characters would take minutes here.
#[test]
fn a_long_run_takes_no_time(rt: HostRuntime) -> Result<(), Fail> {
    let text = doubled(rt.alloc(), 18)?;
    assert!(rt; is_run(&text, 262144));
    Ok(())
}
