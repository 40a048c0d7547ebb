//! The kinds of pieces that tokens span.
ghost use Rattle.std.specs.Prelude.{◌≡◌, ℕ};
ghost use Rattle.fill_text.specs.Classes.{class_of};
ghost use Rattle.fill_tokens.specs.Kind.{run_has, kind_of};

use crate::token::Token;
use fill_text::{Class, class_of};

/// A class of characters that a token matches maximal runs of.
#[derive(Clone, Copy, Debug, PartialEq, Eq)]
pub enum RunClass {
    Digit,
    Upper,
    Lower,
    Alpha,
    Word,
    Space,
    NonSpace,
    NonDigit,
    NonAlpha,
}

/// What a token spans.
#[derive(Clone, Copy, Debug)]
pub enum Kind {
    /// The empty piece at the start of the text.
    AtStart,
    /// The empty piece at the end of the text.
    AtEnd,
    /// A run of characters of a class, as long as it can be.
    Run(RunClass),
    /// One character.
    Single(char),
}

impl RunClass {
    /// Whether a character in these classes is in the class.
    pub fn is_among(self, classes: &Class) -> bool
        ensures { (c : ℕ) → classes.now ≡ class_of c → result ≡ run_has self c }
    {
        match self {
            RunClass::Digit => classes.digit,
            RunClass::Upper => classes.upper,
            RunClass::Lower => classes.lower,
            RunClass::Alpha => classes.alpha,
            RunClass::Word => classes.alpha || classes.digit,
            RunClass::Space => classes.space,
            RunClass::NonSpace => !classes.space,
            RunClass::NonDigit => !classes.digit,
            RunClass::NonAlpha => !classes.alpha,
        }
    }

    /// Whether the class has the character.
    pub fn has(self, c: char) -> bool
        ensures { result ≡ run_has self c }
    {
        self.is_among(&class_of(c))
    }
}

impl Token {
    /// What the token spans.
    pub fn kind(self) -> Kind
        ensures { result ≡ kind_of self }
    {
        match self {
            Token::Start => Kind::AtStart,
            Token::End => Kind::AtEnd,
            Token::Digits => Kind::Run(RunClass::Digit),
            Token::Upper => Kind::Run(RunClass::Upper),
            Token::Lower => Kind::Run(RunClass::Lower),
            Token::Alpha => Kind::Run(RunClass::Alpha),
            Token::Word => Kind::Run(RunClass::Word),
            Token::Space => Kind::Run(RunClass::Space),
            Token::Hyphen => Kind::Single('-'),
            Token::Dot => Kind::Single('.'),
            Token::Comma => Kind::Single(','),
            Token::Semicolon => Kind::Single(';'),
            Token::Colon => Kind::Single(':'),
            Token::Slash => Kind::Single('/'),
            Token::Backslash => Kind::Single('\\'),
            Token::Underscore => Kind::Single('_'),
            Token::At => Kind::Single('@'),
            Token::Hash => Kind::Single('#'),
            Token::Ampersand => Kind::Single('&'),
            Token::LeftParen => Kind::Single('('),
            Token::RightParen => Kind::Single(')'),
            Token::DoubleQuote => Kind::Single('"'),
            Token::SingleQuote => Kind::Single('\''),
            Token::Percent => Kind::Single('%'),
            Token::Plus => Kind::Single('+'),
            Token::Dollar => Kind::Single('$'),
            Token::NonSpace => Kind::Run(RunClass::NonSpace),
            Token::NonDigit => Kind::Run(RunClass::NonDigit),
            Token::NonAlpha => Kind::Run(RunClass::NonAlpha),
            Token::Equals => Kind::Single('='),
            Token::Less => Kind::Single('<'),
            Token::Greater => Kind::Single('>'),
            Token::LeftBracket => Kind::Single('['),
            Token::RightBracket => Kind::Single(']'),
            Token::LeftBrace => Kind::Single('{'),
            Token::RightBrace => Kind::Single('}'),
            Token::Bar => Kind::Single('|'),
            Token::Newline => Kind::Single('\n'),
        }
    }
}
