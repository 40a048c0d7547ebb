//! Places.
ghost use Rattle.std.specs.Prelude.{◌≡◌, ◌↔◌, IsTrue};
ghost use Rattle.fill_tokens.specs.Place.{place_cmp, signed_cmp};

use crate::seq::Seq;
use std::cmp::Ordering;

/// A place in a text, which names a position from 0 to the text's length.
#[derive(Clone, Copy, Debug, PartialEq, Eq)]
pub enum Place {
    /// The position counted from the left, or below 0 from the right, where -1 is the end of the text.
    CPos(i32),
    /// One of the positions at which a piece that the first sequence spans ends and one that the second spans begins:
    /// the count says which of them, from 1 from the left, or from -1 from the right.
    Pos(Seq, Seq, i32),
}

/// By the absolute value, and then plus before minus.
fn compare_signed(a: i32, b: i32) -> Ordering
    ensures { result ≡ signed_cmp a b }
{
    let by_size = a.unsigned_abs().cmp(&b.unsigned_abs());
    by_size.then((a < 0).cmp(&(b < 0)))
}

impl Place {
    /// The total order of places: `CPos` before `Pos`, each by its parts from the left. It looks at no more parts than it
    /// takes.
    pub fn compare(&self, other: &Place) -> Ordering
        ensures { result ≡ place_cmp self.now other.now }
    {
        match (self, other) {
            (Place::CPos(a), Place::CPos(b)) => compare_signed(*a, *b),
            (Place::CPos(_), Place::Pos(_, _, _)) => Ordering::Less,
            (Place::Pos(_, _, _), Place::CPos(_)) => Ordering::Greater,
            (Place::Pos(a, b, c), Place::Pos(d, e, f)) => {
                let by_left = a.compare(d);
                if by_left != Ordering::Equal {
                    return by_left;
                }
                let by_right = b.compare(e);
                if by_right != Ordering::Equal {
                    return by_right;
                }
                compare_signed(*c, *f)
            }
        }
    }

    /// Whether the two are one place. Their counts, which tell most places apart, are looked at first.
    pub fn same(&self, other: &Place) -> bool
        ensures { IsTrue result ↔ (self.now ≡ other.now) }
    {
        match (self, other) {
            (Place::CPos(a), Place::CPos(b)) => *a == *b,
            (Place::Pos(a, b, c), Place::Pos(d, e, f)) => {
                if *c != *f {
                    return false;
                }
                a.same(d) && b.same(e)
            }
            _ => false,
        }
    }
}
