//! Sequences of tokens.
ghost use Rattle.std.specs.Prelude.{◌≡◌, [], ◌∷◌, ◌≤◌, ◌<◌, ◌↔◌, ◌^◌, IsTrue, slice_get, length};
ghost use Rattle.fill_tokens.specs.Place.{seq_cmp};
ghost use Rattle.fill_tokens.specs.Prices.{seq_cost};

use crate::prices::Prices;
use crate::token::Token;
use std::cmp::Ordering;
use std::marker::Model;

#[derive(Clone, Copy, Debug, PartialEq, Eq)]
enum Tokens {
    None,
    One(Token),
    Two(Token, Token),
    Three(Token, Token, Token),
}

/// A sequence of at most three tokens, which spans consecutive pieces. Contracts see it as the list of its tokens.
#[derive(Clone, Copy, Debug, PartialEq, Eq)]
pub struct Seq {
    tokens: Tokens,
}

impl Model for Seq {
    ghost use Rattle.std.specs.Prelude.{List};
    ghost use Rattle.fill_tokens.specs.declared.token.Token.{Token};

    ghost Value = { List Token };

    ghost use Rattle.fill_tokens.specs.Seq.{tokens_of, tokens_from};

    ghost view = { λ seq. tokens_of seq.tokens };

    ghost inverse = { λ tokens. record { tokens = tokens_from tokens } };
}

/// Whether the two are one token.
fn is_same(a: Token, b: Token) -> bool
    ensures { IsTrue result ↔ (a ≡ b) }
{
    a == b
}

impl Seq {
    /// The sequence of no token, which spans the empty piece at every position.
    pub fn empty() -> Seq
        ensures { result ≡ [] }
    {
        Seq {
            tokens: Tokens::None,
        }
    }

    /// The sequence of one token.
    pub fn one(a: Token) -> Seq
        ensures { result ≡ a ∷ [] }
    {
        Seq {
            tokens: Tokens::One(a),
        }
    }

    /// The sequence of two tokens.
    pub fn two(a: Token, b: Token) -> Seq
        ensures { result ≡ a ∷ b ∷ [] }
    {
        Seq {
            tokens: Tokens::Two(a, b),
        }
    }

    /// The sequence of three tokens.
    pub fn three(a: Token, b: Token, c: Token) -> Seq
        ensures { result ≡ a ∷ b ∷ c ∷ [] }
    {
        Seq {
            tokens: Tokens::Three(a, b, c),
        }
    }

    /// The number of tokens.
    pub fn len(&self) -> usize
        ensures value { result ≡ length self.now }
        ensures few { result ≤ 3 }
    {
        match self.tokens {
            Tokens::None => 0,
            Tokens::One(_) => 1,
            Tokens::Two(_, _) => 2,
            Tokens::Three(_, _, _) => 3,
        }
    }

    /// Whether there is no token.
    pub fn is_empty(&self) -> bool
        ensures { IsTrue result ↔ (self.now ≡ []) }
    {
        self.len() == 0
    }

    /// The token at a place, from 0.
    pub fn token(&self, i: usize) -> Token
        requires { i < length self.now }
        ensures { slice_get self.now i ≡ Some result }
    {
        match self.tokens {
            Tokens::None => unreachable!(),
            Tokens::One(a) => a,
            Tokens::Two(a, b) => { if i == 0 { a } else { b } }
            Tokens::Three(a, b, c) => match i {
                0 => a,
                1 => b,
                _ => c,
            },
        }
    }

    /// The cost of the sequence: that of its tokens.
    pub fn cost(&self, prices: &Prices) -> u64
        ensures value { result ≡ seq_cost prices.now self.now }
        ensures few { result < 2 ^ 18 }
    {
        match self.tokens {
            Tokens::None => 0,
            Tokens::One(a) => u64::from(a.cost(prices)),
            Tokens::Two(a, b) => u64::from(a.cost(prices)) + u64::from(b.cost(prices)),
            Tokens::Three(a, b, c) => {
                u64::from(a.cost(prices)) + u64::from(b.cost(prices)) + u64::from(c.cost(prices))
            }
        }
    }

    /// The order by length and then by the tokens' numbers from the left.
    pub fn compare(&self, other: &Seq) -> Ordering
        ensures { result ≡ seq_cmp self.now other.now }
    {
        match (self.tokens, other.tokens) {
            (Tokens::None, Tokens::None) => Ordering::Equal,
            (Tokens::One(a), Tokens::One(b)) => a.number().cmp(&b.number()),
            (Tokens::Two(a, b), Tokens::Two(c, d)) => {
                a.number()
                    .cmp(&c.number())
                    .then(b.number().cmp(&d.number()))
            }
            (Tokens::Three(a, b, c), Tokens::Three(d, e, f)) => a
                .number()
                .cmp(&d.number())
                .then(b.number().cmp(&e.number()))
                .then(c.number().cmp(&f.number())),
            _ => self.len().cmp(&other.len()),
        }
    }

    /// Whether the two are one sequence.
    pub fn same(&self, other: &Seq) -> bool
        ensures { IsTrue result ↔ (self.now ≡ other.now) }
    {
        match (self.tokens, other.tokens) {
            (Tokens::None, Tokens::None) => true,
            (Tokens::One(a), Tokens::One(b)) => is_same(a, b),
            (Tokens::Two(a, b), Tokens::Two(c, d)) => is_same(a, c) && is_same(b, d),
            (Tokens::Three(a, b, c), Tokens::Three(d, e, f)) => {
                is_same(a, d) && is_same(b, e) && is_same(c, f)
            }
            _ => false,
        }
    }
}
