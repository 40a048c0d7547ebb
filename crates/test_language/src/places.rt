use Token::{Alpha, Digits, End, Hyphen, Lower, NonAlpha, NonDigit, NonSpace, Start, Upper, Word};
use fill_places::*;
use fill_text::Text;
use fill_tokens::{Place, Seq, Token, TokenSet, is_place, place_value};
use std::alloc::Global;
use std::test::Fail;

/// Whether these places are listed for the empty text.
fn empty_text_has(alloc: Global, expected: &[Place]) -> Result<bool, Fail> {
    let places = places_of(alloc, &Text::new(alloc), 0, TokenSet::FIRST)?;
    Ok(places.as_slice() == expected)
}

#[test]
fn places_of_the_empty_text(rt: HostRuntime) -> Result<(), Fail> {
    let none = Seq::empty();
    let start = Seq::one(Start);
    let end = Seq::one(End);
    let expected = [
        Place::CPos(0),
        Place::CPos(-1),
        Place::Pos(none, end, 1),
        Place::Pos(none, end, -1),
        Place::Pos(start, none, 1),
        Place::Pos(start, none, -1),
        Place::Pos(start, end, 1),
        Place::Pos(start, end, -1),
    ];
    assert!(rt; empty_text_has(rt.alloc(), &expected)?);
    Ok(())
}

/// Whether of these places this one stands there.
fn stands_at(places: &[Place], count: usize, at: usize, place: Place) -> bool {
    places.len() == count && at < places.len() && places[at] == place
}

/// Whether of 28 places before the one letter of a text this one stands there.
fn is_before_a_letter(alloc: Global, at: usize, place: Place) -> Result<bool, Fail> {
    let text = Text::from_utf8(alloc, b"a")?;
    let places = places_of(alloc, &text, 0, TokenSet::FIRST)?;
    Ok(stands_at(places.as_slice(), 28, at, place))
}

#[test]
fn places_before_one_letter(rt: HostRuntime) -> Result<(), Fail> {
    let none = Seq::empty();
    let whole = Seq::two(Word, End);
    for (at, place) in [
        (0, Place::CPos(0)),
        (1, Place::CPos(-2)),
        (2, Place::Pos(none, Seq::one(Lower), 1)),
        (27, Place::Pos(Seq::one(Start), whole, -1)),
    ] {
        assert!(rt; is_before_a_letter(rt.alloc(), at, place)?, "{at}");
    }
    Ok(())
}

/// Whether the place is listed for the position of the text.
fn is_listed(
    alloc: Global,
    place: Place,
    text: &str,
    k: usize,
    token_set: TokenSet,
) -> Result<bool, Fail> {
    let text = Text::from_utf8(alloc, text.as_bytes())?;
    if k > text.len() {
        return Ok(false);
    }
    let places = places_of(alloc, &text, k, token_set)?;
    Ok(places.as_slice().contains(&place))
}

#[test]
fn negated_runs_are_listed_by_the_second_set(rt: HostRuntime) -> Result<(), Fail> {
    let none = Seq::empty();
    let digits = Seq::one(Digits);
    for (text, k, place) in [
        ("+a b", 0, Place::Pos(none, Seq::one(NonSpace), 1)),
        (" #cc d", 1, Place::Pos(none, Seq::one(NonSpace), 1)),
        ("ab1c", 2, Place::Pos(Seq::one(NonDigit), digits, 1)),
        ("a1-b", 3, Place::Pos(Seq::one(NonAlpha), none, -1)),
    ] {
        assert!(rt;
            is_listed(rt.alloc(), place, text, k, TokenSet::SECOND)?,
            "{place:?}"
        );
        assert!(rt;
            !is_listed(rt.alloc(), place, text, k, TokenSet::FIRST)?,
            "{place:?}"
        );
    }
    Ok(())
}

/// Puts down the sequences of up to three of the tokens, in order.
fn put_sequences(all: &mut Vec<Seq>, tokens: &[Token]) -> Result<(), Fail> {
    all.push(Seq::empty())?;
    for a in tokens {
        all.push(Seq::one(*a))?;
    }
    for a in tokens {
        for b in tokens {
            all.push(Seq::two(*a, *b))?;
        }
    }
    for a in tokens {
        for b in tokens {
            for c in tokens {
                all.push(Seq::three(*a, *b, *c))?;
            }
        }
    }
    Ok(())
}

/// Puts the place to the list, where it is one of the grammar and its value is `k`.
fn put_if_wanted(all: &mut Vec<Place>, place: Place, t: &Text, k: usize) -> Result<(), Fail> {
    if is_place(&place) && place_value(&place, t) == Some(k) {
        all.push(place)?;
    }
    Ok(())
}

/// The numbers 1, -1, 2, -2 .. as far as a text of four characters has cuts.
const COUNTS: [i32; 10] = [1, -1, 2, -2, 3, -3, 4, -4, 5, -5];

/// Puts down the places between some sequences, each asked for its value.
fn put_places(all: &mut Vec<Place>, seqs: &[Seq], t: &Text, k: usize) -> Result<(), Fail> {
    put_if_wanted(all, Place::CPos(0), t, k)?;
    for count in COUNTS {
        put_if_wanted(all, Place::CPos(count), t, k)?;
    }
    for left in seqs {
        for right in seqs {
            for count in COUNTS {
                put_if_wanted(all, Place::Pos(*left, *right, count), t, k)?;
            }
        }
    }
    Ok(())
}

/// Whether those are these places.
fn are_put(alloc: Global, seqs: &[Seq], t: &Text, k: usize, fast: &[Place]) -> Result<bool, Fail> {
    let mut slow = Vec::new(alloc);
    put_places(&mut slow, seqs, t, k)?;
    Ok(slow.as_slice() == fast)
}

/// Whether those are the places of the text, of at most three characters, at each of its positions.
fn are_all_put(alloc: Global, seqs: &[Seq], t: &Text) -> Result<bool, Fail> {
    let index = PlaceIndex::new(alloc, t, TokenSet::FIRST)?;
    for k in 0..4 {
        if k <= t.len() {
            let fast = index.places_at(k)?;
            if !are_put(alloc, seqs, t, k, fast.as_slice())? {
                return Ok(false);
            }
        }
    }
    Ok(t.len() < 4)
}

/// Whether those are the places of a text, listed between sequences of these tokens.
fn are_listed(
    alloc: Global,
    seqs: &mut Vec<Seq>,
    tokens: &[Token],
    text: &str,
) -> Result<bool, Fail> {
    put_sequences(seqs, tokens)?;
    let text = Text::from_utf8(alloc, text.as_bytes())?;
    are_all_put(alloc, seqs, &text)
}

fn has_slow_listing(alloc: Global, tokens: &[Token], text: &str) -> Result<bool, Fail> {
    let mut seqs = Vec::new(alloc);
    are_listed(alloc, &mut seqs, tokens, text)
}

#[test]
fn places_are_those_of_a_slow_listing(rt: HostRuntime) -> Result<(), Fail> {
    let tokens = [Start, End, Digits, Upper, Lower, Alpha, Word, Hyphen];
    for text in ["a1", "Ab-", "--", "a-a"] {
        assert!(rt; has_slow_listing(rt.alloc(), &tokens, text)?, "{text}");
    }
    Ok(())
}
