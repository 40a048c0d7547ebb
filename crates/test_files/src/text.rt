//! Values from outside of each public call.
use fill_text::*;
use std::alloc::Global;
use std::cmp::Ordering;
use std::test::Fail;

/// The text of these characters.
fn text_of(alloc: Global, characters: &str) -> Result<Text, NoMemory> {
    match Text::from_utf8(alloc, characters.as_bytes()) {
        Ok(text) => Ok(text),
        Err(_) => Err(NoMemory),
    }
}

/// What is asked of a text.
#[derive(Clone, Copy)]
enum Asked<'a> {
    /// Whether it has this length, and is spelled with these bytes.
    Spelled(usize, &'a [u8]),
    /// Whether these are its characters from the first position to the second.
    Piece(usize, usize, &'a str),
    /// Whether this is none of its pieces.
    NoPiece(&'a str),
    /// Whether a copy is the text of these characters.
    Copied(&'a str),
    /// Whether a copy has these characters.
    CopiedAs(&'a [char]),
    /// Whether the character at this position is this one.
    At(usize, char),
}

/// Whether what is asked of the text is so.
fn is_so(alloc: Global, text: &Text, asked: Asked) -> Result<bool, NoMemory> {
    match asked {
        Asked::Spelled(length, bytes) => is_spelled(alloc, text, length, bytes),
        Asked::Piece(a, b, characters) => has_piece(alloc, text, a, b, characters),
        Asked::NoPiece(characters) => has_no_piece(alloc, text, characters),
        Asked::Copied(characters) => is_copied(alloc, text, characters),
        Asked::CopiedAs(characters) => is_copied_as(text, characters),
        Asked::At(i, c) => Ok(i < text.len() && text.at(i) == c),
    }
}

/// Whether what is asked of the text of these characters is so.
fn holds(alloc: Global, characters: &str, asked: Asked) -> Result<bool, NoMemory> {
    let text = text_of(alloc, characters)?;
    is_so(alloc, &text, asked)
}

/// Whether a text and a name of these bytes are refused at this place.
fn are_refused(alloc: Global, bytes: &[u8], at: usize) -> bool {
    let refused = Some(TextError::NotUtf8 { at });
    Text::from_utf8(alloc, bytes).err() == refused && Name::from_utf8(alloc, bytes).err() == refused
}

#[test]
fn bytes_that_are_no_utf8(rt: HostRuntime) {
    for (bytes, at) in [
        (b"\x61\xff".as_slice(), 1),
        (b"\x61\xff\x61".as_slice(), 1),
        // A character that is cut short, one spelled too long, and half of a surrogate pair.
        (b"\x61\x62\xc3".as_slice(), 2),
        (b"\x61\xc0\x80".as_slice(), 1),
        (b"\xed\xa0\x80".as_slice(), 0),
    ] {
        assert!(rt; are_refused(rt.alloc(), bytes, at), "{bytes:?}");
    }
}

/// Whether the text is spelled with these bytes, and these alone, as often as it is put at the end of the list.
fn is_spelled_at(text: &Text, spelled: &mut List<u8>, bytes: &[u8]) -> Result<bool, NoMemory> {
    text.push_utf8(spelled)?;
    let once = spelled.as_slice() == bytes;
    text.push_utf8(spelled)?;
    Ok(once && spelled.len() / 2 == bytes.len() && spelled.len() % 2 == 0)
}

/// Whether the text has this length, and is spelled with these bytes.
fn is_spelled(alloc: Global, text: &Text, length: usize, bytes: &[u8]) -> Result<bool, NoMemory> {
    text.keeps_scalars();
    if text.len() != length {
        return Ok(false);
    }
    let mut spelled = List::new(alloc);
    is_spelled_at(text, &mut spelled, bytes)
}

/// Whether a name of these bytes has these characters.
fn is_named(alloc: Global, bytes: &[u8], characters: &str) -> bool {
    match Name::from_utf8(alloc, bytes) {
        Ok(name) => name.as_str() == characters,
        Err(_) => false,
    }
}

#[test]
fn texts_and_their_utf8(rt: HostRuntime) -> Result<(), Fail> {
    for (characters, length, bytes) in [
        ("", 0, b"".as_slice()),
        ("ab", 2, b"ab".as_slice()),
        ("é", 1, b"\xc3\xa9".as_slice()),
        (
            "e\u{301}€😀",
            4,
            b"e\xcc\x81\xe2\x82\xac\xf0\x9f\x98\x80".as_slice(),
        ),
    ] {
        let spelled = Asked::Spelled(length, bytes);
        assert!(rt; holds(rt.alloc(), characters, spelled)?, "{characters}");
        assert!(rt; is_named(rt.alloc(), bytes, characters), "{characters}");
    }
    Ok(())
}

/// Whether this is the piece of the text from `a` to `b`.
fn is_piece(text: &Text, a: usize, b: usize, piece: &Text) -> Result<bool, NoMemory> {
    if a > b || b > text.len() {
        return Ok(false);
    }
    let found = text.piece(a, b)?;
    Ok(found.same(piece) && text.piece_is(a, b, piece))
}

/// Puts the piece of the text from `a` to `b` at the end of four characters, and tells whether this stands behind them.
fn puts_behind(
    longer: &mut Text,
    text: &Text,
    (a, b): (usize, usize),
    piece: &Text,
) -> Result<bool, NoMemory> {
    if a > b || b > 4 || text.len() != 4 || longer.len() != 4 {
        return Ok(false);
    }
    longer.append_piece(text, a, b)?;
    let end = 4 + b - a;
    Ok(longer.len() == end && longer.piece_is(4, end, piece))
}

/// Whether the piece of the text from `a` to `b` can be put at the end of a copy.
fn is_put_behind(text: &Text, a: usize, b: usize, piece: &Text) -> Result<bool, NoMemory> {
    let mut longer = text.copy()?;
    puts_behind(&mut longer, text, (a, b), piece)
}

/// Whether this is the piece of a text of four characters from `a` to `b`, alone and at the end of a copy.
fn is_piece_twice(text: &Text, a: usize, b: usize, piece: &Text) -> Result<bool, NoMemory> {
    if !is_piece(text, a, b, piece)? {
        return Ok(false);
    }
    is_put_behind(text, a, b, piece)
}

/// Whether these are the characters from `a` to `b` of a text of four.
fn has_piece(
    alloc: Global,
    text: &Text,
    a: usize,
    b: usize,
    characters: &str,
) -> Result<bool, NoMemory> {
    let piece = text_of(alloc, characters)?;
    is_piece_twice(text, a, b, &piece)
}

#[test]
fn pieces_of_a_text(rt: HostRuntime) -> Result<(), Fail> {
    for (a, b, characters) in [
        (1, 3, "bc"),
        (0, 4, "abcd"),
        (3, 4, "d"),
        (2, 2, ""),
        (4, 4, ""),
    ] {
        let piece = Asked::Piece(a, b, characters);
        assert!(rt; holds(rt.alloc(), "abcd", piece)?, "{characters}");
    }
    Ok(())
}

/// Whether a text of at least four characters has none of these pieces.
fn are_no_pieces(text: &Text, piece: &Text) -> bool {
    text.len() >= 4
        && !text.piece_is(1, 3, piece)
        && !text.piece_is(1, 2, piece)
        && !text.piece_is(1, 4, piece)
}

/// Whether these characters are none of the pieces of the text that begin at its second one.
fn has_no_piece(alloc: Global, text: &Text, characters: &str) -> Result<bool, NoMemory> {
    let piece = text_of(alloc, characters)?;
    Ok(are_no_pieces(text, &piece))
}

#[test]
fn pieces_that_are_others(rt: HostRuntime) -> Result<(), Fail> {
    assert!(rt; holds(rt.alloc(), "abcd", Asked::NoPiece("bd"))?);
    Ok(())
}

/// Whether a copy of the text is this one.
fn has_copy(text: &Text, other: &Text) -> Result<bool, NoMemory> {
    let copy = text.copy()?;
    Ok(copy.same(other))
}

/// Whether a copy of the text is that of these characters.
fn is_copied(alloc: Global, text: &Text, characters: &str) -> Result<bool, NoMemory> {
    let other = text_of(alloc, characters)?;
    has_copy(text, &other)
}

/// Whether a copy of the text has these characters.
fn is_copied_as(text: &Text, characters: &[char]) -> Result<bool, NoMemory> {
    let copy = text.copy()?;
    Ok(copy.as_slice() == characters)
}

#[test]
fn copies_of_a_text(rt: HostRuntime) -> Result<(), Fail> {
    for (characters, is) in [("bc", false), ("abcd", true), ("d", false), ("", false)] {
        let copied = Asked::Copied(characters);
        assert!(rt; holds(rt.alloc(), "abcd", copied)? == is, "{characters}");
    }
    assert!(rt; holds(rt.alloc(), "abcd", Asked::CopiedAs(&['a', 'b', 'c', 'd']))?);
    Ok(())
}

#[test]
fn characters_at_places(rt: HostRuntime) -> Result<(), Fail> {
    for (i, c) in [(0, 'a'), (1, 'é'), (2, '😀')] {
        assert!(rt; holds(rt.alloc(), "aé😀", Asked::At(i, c))?, "at {i}");
    }
    Ok(())
}

/// Whether the text and that of these characters have this order.
fn is_ordered(
    alloc: Global,
    text: &Text,
    characters: &str,
    order: Ordering,
) -> Result<bool, NoMemory> {
    let other = text_of(alloc, characters)?;
    Ok(text.compare(&other) == order && text.same(&other) == (order == Ordering::Equal))
}

/// Whether the two texts have this order.
fn are_ordered(alloc: Global, left: &str, right: &str, order: Ordering) -> Result<bool, NoMemory> {
    let first = text_of(alloc, left)?;
    is_ordered(alloc, &first, right, order)
}

#[test]
fn order_of_texts(rt: HostRuntime) -> Result<(), Fail> {
    for (left, right, order) in [
        ("", "", Ordering::Equal),
        ("", "a", Ordering::Less),
        ("ab", "abc", Ordering::Less),
        ("aa", "b", Ordering::Less),
        ("b", "aa", Ordering::Greater),
        ("a", "B", Ordering::Greater),
        ("é", "z", Ordering::Greater),
        ("é", "é", Ordering::Equal),
        // By character numbers, and not by the halves of surrogate pairs.
        ("\u{ffff}", "😀", Ordering::Less),
    ] {
        assert!(rt; are_ordered(rt.alloc(), left, right, order)?);
    }
    Ok(())
}

/// Puts these characters at the end of the text.
fn append(alloc: Global, text: &mut Text, characters: &str) -> Result<(), NoMemory> {
    let piece = text_of(alloc, characters)?;
    text.append(&piece)
}

/// Puts these at the end of the text, one after the other, and tells whether it has these characters then.
fn grows_to(
    alloc: Global,
    text: &mut Text,
    pieces: &[&str],
    characters: &[char],
) -> Result<bool, NoMemory> {
    for piece in pieces {
        append(alloc, text, piece)?;
    }
    Ok(text.len() == characters.len() && text.as_slice() == characters)
}

/// Whether these come to these characters, one after the other.
fn are_joined(alloc: Global, pieces: &[&str], characters: &[char]) -> Result<bool, NoMemory> {
    let mut text = Text::new(alloc);
    grows_to(alloc, &mut text, pieces, characters)
}

#[test]
fn texts_at_the_end_of_a_text(rt: HostRuntime) -> Result<(), Fail> {
    assert!(rt; are_joined(rt.alloc(), &[], &[])?);
    assert!(rt; are_joined(rt.alloc(), &["ab", "cd"], &['a', 'b', 'c', 'd'])?);
    Ok(())
}

/// Puts an item and others at the end of an empty list, and tells whether it has these items then.
fn fills(items: &mut List<u8>, first: u8, others: &[u8], all: &[u8]) -> Result<bool, NoMemory> {
    if items.len() != 0 {
        return Ok(false);
    }
    items.push(first)?;
    items.append(others)?;
    Ok(items.as_slice() == all && items.len() == all.len())
}

/// Whether an item and others come to these items in a list.
fn are_listed(alloc: Global, first: u8, others: &[u8], all: &[u8]) -> Result<bool, NoMemory> {
    let mut items = List::new(alloc);
    fills(&mut items, first, others, all)
}

#[test]
fn items_at_the_end_of_a_list(rt: HostRuntime) -> Result<(), Fail> {
    assert!(rt; are_listed(rt.alloc(), 0x61, &[0x62, 0x63], &[0x61, 0x62, 0x63])?);
    Ok(())
}

/// Whether a list that is made with room has an item, and has it once it was a vector.
fn keeps_item(alloc: Global, item: u8) -> Result<bool, NoMemory> {
    let mut roomy = List::with_capacity(alloc, 2)?;
    let pushed = roomy.push(item).is_ok();
    let items = List::from_vec(roomy.into_vec());
    Ok(pushed && items.as_slice() == [item].as_slice())
}

#[test]
fn a_list_with_room(rt: HostRuntime) -> Result<(), Fail> {
    assert!(rt; keeps_item(rt.alloc(), 7)?);
    Ok(())
}

/// The letters of the classes that a character is in, and `-` for each other: of Digit, Upper, Lower, Alpha and Space,
/// and `E` for a separator.
fn letters(c: char) -> [u8; 6] {
    let class = class_of(c);
    [
        if class.digit { b'D' } else { b'-' },
        if class.upper { b'U' } else { b'-' },
        if class.lower { b'L' } else { b'-' },
        if class.alpha { b'A' } else { b'-' },
        if class.space { b'S' } else { b'-' },
        if is_separator(c) { b'E' } else { b'-' },
    ]
}

#[test]
fn classes_of_characters(rt: HostRuntime) {
    for (c, want) in [
        ('7', *b"D-----"),
        // A digit of another script.
        ('\u{664}', *b"D-----"),
        // Numbers that are no decimal digits: a superscript and a Roman numeral.
        ('\u{b2}', *b"-----E"),
        ('\u{2167}', *b"-----E"),
        ('Z', *b"-U-A--"),
        ('z', *b"--LA--"),
        ('ß', *b"--LA--"),
        // A titlecase letter, a modifier letter and a letter without case.
        ('\u{1c5}', *b"---A--"),
        ('\u{2b0}', *b"---A--"),
        ('表', *b"---A--"),
        (' ', *b"----SE"),
        ('\t', *b"----SE"),
        // A no-break space; a zero width space is none.
        ('\u{a0}', *b"----SE"),
        ('\u{200b}', *b"-----E"),
        // A combining mark.
        ('\u{301}', *b"-----E"),
        ('😀', *b"-----E"),
        ('_', *b"-----E"),
    ] {
        assert_eq!(rt; letters(c), want, "{c:?}");
    }
}
