//! Which places the grammar has.
ghost use Rattle.std.specs.Prelude.{◌≡◌, ℕ, ◌↔◌, IsTrue, slice_get};
ghost use Rattle.fill_tokens.specs.PlaceGrammar.{OnlyFirst, OnlyLast, Nowhere, AreAround, IsPlace};

use crate::place::Place;
use crate::seq::Seq;
use crate::token::Token;

/// Whether the token stands in the sequence nowhere but at this place, from 0.
fn stands_only_at(token: Token, r: &Seq, place: usize) -> bool
    ensures { IsTrue result ↔ ((i : ℕ) → slice_get r.now i ≡ Some token → i ≡ place) }
{
    for i in 0..r.len() {
        if i != place && r.token(i) == token {
            return false;
        }
    }
    true
}

fn stands_only_first(token: Token, r: &Seq) -> bool
    ensures { IsTrue result ↔ OnlyFirst token r.now }
{
    stands_only_at(token, r, 0)
}

fn stands_only_last(token: Token, r: &Seq) -> bool
    ensures { IsTrue result ↔ OnlyLast token r.now }
{
    r.is_empty() || stands_only_at(token, r, r.len() - 1)
}

fn stands_nowhere(token: Token, r: &Seq) -> bool
    ensures { IsTrue result ↔ Nowhere token r.now }
{
    stands_only_at(token, r, r.len())
}

/// Whether the sequences may stand on the two sides of a position.
fn are_around(left: &Seq, right: &Seq) -> bool
    ensures { IsTrue result ↔ AreAround left.now right.now }
{
    if left.len() + right.len() == 0 {
        return false;
    }
    if !stands_only_first(Token::Start, left) || !stands_nowhere(Token::End, left) {
        return false;
    }
    stands_nowhere(Token::Start, right) && stands_only_last(Token::End, right)
}

/// Whether the place is one of the grammar.
pub fn is_place(p: &Place) -> bool
    ensures { IsTrue result ↔ IsPlace p.now }
{
    match *p {
        Place::CPos(_number) => true,
        Place::Pos(left, right, count) => count != 0 && are_around(&left, &right),
    }
}
