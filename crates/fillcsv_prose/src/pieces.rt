//! Pieces of texts, between two places.
use crate::names::{Names, put_number};
use crate::places::{put_end, put_nth, put_ordinal, put_start, put_tokens};
use fill_tokens::{Place, Seq};
use std::alloc::AllocError;

/// A piece of a text, as people speak of it.
#[derive(Clone, Copy)]
pub(crate) enum Piece<'a> {
    /// What a sequence spans: `the first number`.
    Match(&'a Seq, i32),
    /// What a sequence spans behind its first tokens, by their count: `the word right after the first "@"`.
    Behind(&'a Seq, usize, i32),
    /// So many characters at the front.
    First(u32),
    /// So many characters at the back.
    Last(u32),
    /// All up to a place.
    UpTo(&'a Place),
    /// All from a place on.
    From(&'a Place),
    /// What stands between two places.
    Between(&'a Place, &'a Place),
}

impl<'a> Piece<'a> {
    /// The piece between two places.
    pub(crate) fn of(start: &'a Place, end: &'a Place) -> Piece<'a> {
        match (start, end) {
            (Place::CPos(0), Place::CPos(count)) => {
                if *count > 0 {
                    Piece::First(count.unsigned_abs())
                } else {
                    Piece::UpTo(end)
                }
            }
            (Place::CPos(count), Place::CPos(-1)) => {
                if *count < -1 {
                    Piece::Last(count.unsigned_abs() - 1)
                } else {
                    Piece::From(start)
                }
            }
            (Place::CPos(0), _) => Piece::UpTo(end),
            (_, Place::CPos(-1)) => Piece::From(start),
            (Place::Pos(left, right, first), Place::Pos(before, after, second)) => {
                if *first != *second || !after.is_empty() {
                    return Piece::Between(start, end);
                }
                if left.is_empty() && right.same(before) {
                    return Piece::Match(before, *second);
                }
                if right.is_empty() && !left.is_empty() && begins(before, left) {
                    return Piece::Behind(before, left.len(), *second);
                }
                Piece::Between(start, end)
            }
            _ => Piece::Between(start, end),
        }
    }

    /// Puts the piece of a text that is named after it at the end.
    pub(crate) fn put(self, to: &mut String) -> Result<(), AllocError> {
        match self {
            Piece::Match(seq, number) => put_nth(to, number, seq),
            Piece::Behind(seq, front, number) => put_behind(to, seq, front, number),
            Piece::First(count) => put_count(to, "first", count),
            Piece::Last(count) => put_count(to, "last", count),
            Piece::UpTo(end) => {
                to.push_str("from the start to ")?;
                put_end(to, end)
            }
            Piece::From(start) => {
                to.push_str("from ")?;
                put_start(to, start)?;
                to.push_str(" to the end")
            }
            Piece::Between(start, end) => {
                to.push_str("from ")?;
                put_start(to, start)?;
                to.push_str(" to ")?;
                put_end(to, end)
            }
        }
    }

    /// Puts the piece of a column's cell at the end.
    pub(crate) fn put_of_column(
        self,
        to: &mut String,
        column: u32,
        names: Names<'_>,
    ) -> Result<(), AllocError> {
        match self {
            Piece::UpTo(end) => {
                names.put_column(to, column)?;
                to.push_str(if is_before(end) { " " } else { " up to " })?;
                put_end(to, end)
            }
            Piece::From(start) => {
                names.put_column(to, column)?;
                if is_before(start) {
                    to.push_str(" from ")?;
                    put_start(to, start)?;
                    return to.push_str(" on");
                }
                to.push_str(" ")?;
                put_start(to, start)
            }
            _ => {
                self.put(to)?;
                to.push_str(" of ")?;
                names.put_column(to, column)
            }
        }
    }
}

/// Whether the place is told by what stands after it.
fn is_before(place: &Place) -> bool {
    match place {
        Place::CPos(_) => false,
        Place::Pos(_, right, _) => !right.is_empty(),
    }
}

/// Whether a sequence begins with another one and goes on.
fn begins(seq: &Seq, front: &Seq) -> bool {
    if seq.len() <= front.len() {
        return false;
    }
    for i in 0..front.len() {
        if seq.token(i).number() != front.token(i).number() {
            return false;
        }
    }
    true
}

/// Puts what a sequence spans behind its first tokens at the end.
fn put_behind(to: &mut String, seq: &Seq, front: usize, number: i32) -> Result<(), AllocError> {
    to.push_str("the ")?;
    put_tokens(to, seq, front, seq.len())?;
    to.push_str(" right after the ")?;
    put_ordinal(to, number)?;
    to.push_str(" ")?;
    put_tokens(to, seq, 0, front)
}

/// Puts the words for this many characters at the front or the back at the end.
fn put_count(to: &mut String, side: &str, count: u32) -> Result<(), AllocError> {
    to.push_str("the ")?;
    to.push_str(side)?;
    if count == 1 {
        return to.push_str(" character");
    }
    to.push_str(" ")?;
    put_number(to, count)?;
    to.push_str(" characters")
}
