//! Which tokens a notation spells.
ghost use Rattle.std.specs.Prelude.{◌≡◌};
ghost use Rattle.fill_print.specs.Tokens.{tokens_of};

use fill_tokens::TokenSet;

/// A notation of programs, by the tokens that it has names for. Each of them has [`fill_tokens::Token::Digits`].
#[derive(Clone, Copy, Debug, PartialEq, Eq)]
pub enum Notation {
    /// The tokens of [`TokenSet::SECOND`], by which `flashfill` saves programs.
    Second,
    /// The tokens of [`TokenSet::THIRD`].
    Third,
    /// All tokens.
    All,
}

impl Notation {
    /// The tokens that the notation has.
    pub fn tokens(self) -> TokenSet
        ensures { result ≡ tokens_of self }
    {
        match self {
            Notation::Second => TokenSet::SECOND,
            Notation::Third => TokenSet::THIRD,
            Notation::All => TokenSet::ALL,
        }
    }
}
