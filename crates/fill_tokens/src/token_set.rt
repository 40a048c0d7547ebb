//! Sets of tokens.
ghost use Rattle.std.specs.Prelude.{◌≡◌, ◌↔◌, IsTrue};
ghost use Rattle.fill_tokens.specs.TokenSet.{IsTokenOf, AreTokensOf, HasTokensOf, has_token};

use crate::place::Place;
use crate::seq::Seq;
use crate::token::Token;

/// A set of tokens, as the bits of a word: bit n says whether the token of number n is in the set.
#[derive(Clone, Copy, Debug, PartialEq, Eq)]
pub struct TokenSet {
    pub bits: u64,
}

impl TokenSet {
    /// The tokens up to [`Token::Dollar`].
    pub const FIRST: TokenSet = TokenSet { bits: 0x7ff_fffe };

    /// The tokens up to [`Token::NonAlpha`]: those of [`TokenSet::FIRST`] and the runs of negated classes.
    pub const SECOND: TokenSet = TokenSet { bits: 0x3fff_fffe };

    /// All tokens but [`Token::NonDigit`] and [`Token::NonAlpha`].
    pub const THIRD: TokenSet = TokenSet {
        bits: 0x7f_cfff_fffe,
    };

    /// All tokens.
    pub const ALL: TokenSet = TokenSet {
        bits: 0x7f_ffff_fffe,
    };

    /// Whether the two sets have the same tokens.
    pub fn same(self, other: TokenSet) -> bool
        ensures { IsTrue result ↔ (self ≡ other) }
    {
        self == other
    }

    /// Whether the token is in the set.
    pub fn has(self, token: Token) -> bool
        ensures { result ≡ has_token self token }
    {
        (self.bits >> token.number()) & 1 == 1
    }
}

impl Token {
    /// Whether the token is in the set.
    pub fn is_of(self, token_set: TokenSet) -> bool
        ensures { IsTrue result ↔ IsTokenOf token_set self }
    {
        token_set.has(self)
    }
}

impl Seq {
    /// Whether all tokens of the sequence are in the set.
    #[tactic(auto, using(crate::proofs::SetLaws::token_within))]
    pub fn is_of(&self, token_set: TokenSet) -> bool
        ensures { IsTrue result ↔ AreTokensOf token_set self.now }
    {
        for i in 0..self.len() {
            if !self.token(i).is_of(token_set) {
                return false;
            }
        }
        true
    }
}

impl Place {
    /// Whether all tokens of the place are in the set.
    pub fn is_of(&self, token_set: TokenSet) -> bool
        ensures { IsTrue result ↔ HasTokensOf token_set self.now }
    {
        match self {
            Place::CPos(_) => true,
            Place::Pos(left, right, _) => left.is_of(token_set) && right.is_of(token_set),
        }
    }
}
