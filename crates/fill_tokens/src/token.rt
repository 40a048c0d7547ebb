//! Tokens.
ghost use Rattle.std.specs.Prelude.{◌≡◌, ◌≢◌, ◌+◌, ◌<◌, MatchOption};
ghost use Rattle.fill_tokens.specs.Token.{token_number, token_name};
ghost use Rattle.fill_tokens.specs.declared.token.Token.{Token};

/// A token: a pattern that spans a piece of a text. [`Token::kind`] says which.
#[derive(Clone, Copy, Debug, PartialEq, Eq)]
pub enum Token {
    Start,
    End,
    Digits,
    Upper,
    Lower,
    Alpha,
    Word,
    Space,
    Hyphen,
    Dot,
    Comma,
    Semicolon,
    Colon,
    Slash,
    Backslash,
    Underscore,
    At,
    Hash,
    Ampersand,
    LeftParen,
    RightParen,
    DoubleQuote,
    SingleQuote,
    Percent,
    Plus,
    Dollar,
    NonSpace,
    NonDigit,
    NonAlpha,
    Equals,
    Less,
    Greater,
    LeftBracket,
    RightBracket,
    LeftBrace,
    RightBrace,
    Bar,
    Newline,
}

/// How many tokens there are.
pub const TOKEN_COUNT: usize = 38;

/// The token of a place in the list of all tokens, from 0.
pub fn token_at(i: usize) -> Token
    requires { i < TOKEN_COUNT }
    ensures { token_number result ≡ i + 1 }
{
    Token::ALL[i]
}

impl Token {
    /// All tokens, in the order of their numbers.
    pub const ALL: [Token; 38] = [
        Token::Start,
        Token::End,
        Token::Digits,
        Token::Upper,
        Token::Lower,
        Token::Alpha,
        Token::Word,
        Token::Space,
        Token::Hyphen,
        Token::Dot,
        Token::Comma,
        Token::Semicolon,
        Token::Colon,
        Token::Slash,
        Token::Backslash,
        Token::Underscore,
        Token::At,
        Token::Hash,
        Token::Ampersand,
        Token::LeftParen,
        Token::RightParen,
        Token::DoubleQuote,
        Token::SingleQuote,
        Token::Percent,
        Token::Plus,
        Token::Dollar,
        Token::NonSpace,
        Token::NonDigit,
        Token::NonAlpha,
        Token::Equals,
        Token::Less,
        Token::Greater,
        Token::LeftBracket,
        Token::RightBracket,
        Token::LeftBrace,
        Token::RightBrace,
        Token::Bar,
        Token::Newline,
    ];

    /// The token's number, from 1, by which tokens are ordered.
    pub fn number(self) -> u8
        ensures { result ≡ token_number self }
    {
        self as u8 + 1
    }

    /// The token of a number.
    #[tactic(auto, using(crate::proofs::TokenLaws::number_within))]
    pub fn from_number(n: u8) -> Option<Token>
        ensures { MatchOption result
            ((token : Token) → token_number token ≢ n)
            (λ token. token_number token ≡ n) }
    {
        let place = usize::from(n);
        if place == 0 || place > Token::ALL.len() {
            return None;
        }
        Some(Token::ALL[place - 1])
    }

    /// The token's name, by which texts of trees spell it.
    pub fn name(self) -> &'static str
        ensures { result.now ≡ token_name self }
    {
        match self {
            Token::Start => "Start",
            Token::End => "End",
            Token::Digits => "Digits",
            Token::Upper => "Upper",
            Token::Lower => "Lower",
            Token::Alpha => "Alpha",
            Token::Word => "Word",
            Token::Space => "Space",
            Token::Hyphen => "Hyphen",
            Token::Dot => "Dot",
            Token::Comma => "Comma",
            Token::Semicolon => "Semicolon",
            Token::Colon => "Colon",
            Token::Slash => "Slash",
            Token::Backslash => "Backslash",
            Token::Underscore => "Underscore",
            Token::At => "At",
            Token::Hash => "Hash",
            Token::Ampersand => "Ampersand",
            Token::LeftParen => "LeftParen",
            Token::RightParen => "RightParen",
            Token::DoubleQuote => "DoubleQuote",
            Token::SingleQuote => "SingleQuote",
            Token::Percent => "Percent",
            Token::Plus => "Plus",
            Token::Dollar => "Dollar",
            Token::NonSpace => "NonSpace",
            Token::NonDigit => "NonDigit",
            Token::NonAlpha => "NonAlpha",
            Token::Equals => "Equals",
            Token::Less => "Less",
            Token::Greater => "Greater",
            Token::LeftBracket => "LeftBracket",
            Token::RightBracket => "RightBracket",
            Token::LeftBrace => "LeftBrace",
            Token::RightBrace => "RightBrace",
            Token::Bar => "Bar",
            Token::Newline => "Newline",
        }
    }

    /// The token of a name.
    pub fn from_name(name: &[u8]) -> Option<Token>
        ensures { MatchOption result
            ((token : Token) → token_name token ≢ name.now)
            (λ token. token_name token ≡ name.now) }
    {
        for token in Token::ALL {
            if token.name().as_bytes() == name {
                return Some(token);
            }
        }
        None
    }
}
