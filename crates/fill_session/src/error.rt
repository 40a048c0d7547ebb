//! Why an edit is refused.
use std::error::Error;
use std::fmt;

/// Which part is too long.
#[derive(Clone, Copy, Debug, PartialEq, Eq)]
pub enum Part {
    /// The text.
    Text,
    /// The row's inputs.
    Inputs,
}

/// Why an edit was not made. Reports give its text as the reason.
#[derive(Clone, Copy, Debug, PartialEq, Eq)]
pub enum EditError {
    NoSuchRow { rows: u32 },
    HasExample,
    NoExample,
    TooLong { part: Part, length: usize },
    TooMany,
    NoProgram { row: u32 },
    TooManyBranches { row: u32 },
    NoGuard { branch: u32 },
    NoMemory,
}

impl fmt::Display for EditError {
    ghost use Rattle.std.specs.Prelude.{Some};
    ghost use Rattle.fill_session.specs.Texts.{reason_text};

    ghost output = { λ e. Some (reason_text e) };

    fn fmt<W: fmt::Write>(&self, f: &mut fmt::Formatter<W>) -> fmt::Result {
        match self {
            EditError::NoSuchRow { .. } => f.write_str("no such row"),
            EditError::HasExample => f.write_str("row has an example"),
            EditError::NoExample => f.write_str("row has no example"),
            EditError::TooLong { part, length } => match part {
                Part::Text => write!(f, "text of {length} characters is too long"),
                Part::Inputs => write!(f, "inputs of {length} characters are too long"),
            },
            EditError::TooMany => f.write_str("too many examples"),
            EditError::NoProgram { row } => write!(f, "no program for row {row}"),
            EditError::TooManyBranches { row } => write!(f, "too many branches at row {row}"),
            EditError::NoGuard { branch } => write!(f, "no guard for branch {branch}"),
            EditError::NoMemory => f.write_str("out of memory"),
        }
    }
}

impl Error for EditError {}
