//! Lines that exist.
ghost use Rattle.std.specs.Prelude.{◌≡◌, MatchResult, string_bytes};

use fill_opening::Stop;
use std::alloc::AllocError;
use std::marker::Model;

/// The line that says why a file, a table or a key is refused, which contracts see as its bytes.
#[derive(Debug, Drop)]
pub struct Line {
    text: String,
}

impl Model for Line {
    ghost use Rattle.std.specs.Prelude.{ℕ, List, string_bytes};

    ghost Value = { List ℕ };

    ghost view = { λ line. string_bytes line.text };
}

impl Line {
    /// The line with its end.
    pub fn as_str(&self) -> &str
        ensures { result.now ≡ self.now }
    {
        self.text.as_str()
    }
}

/// The refusal with this line, or `NoMemory` where memory ran out for the line.
pub fn refused(line: Result<String, AllocError>) -> Stop<Line>
    ensures { MatchResult line (λ text. result ≡ Stop.Refused (string_bytes text)) (λ _. result ≡ Stop.NoMemory) }
{
    match line {
        Ok(text) => Stop::Refused(Line { text }),
        Err(AllocError) => Stop::NoMemory,
    }
}
