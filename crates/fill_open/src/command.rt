//! Commands.
ghost use Rattle.std.specs.Prelude.{◌≡◌, IfSome, map, option_map, string_bytes};
ghost use Rattle.fill_numbers.specs.Columns.{number_between};
ghost use Rattle.fill_open.specs.Command.{IsCommand, command_data, command_in, with_argument, with_names};

use fill_numbers::number_in;

/// What the words of a command line ask for.
#[derive(Clone, Copy, Debug, PartialEq, Eq)]
pub enum Command<'a> {
    /// Replay the session in the file of this name.
    Replay {
        session: &'a str,
    },
    /// Replay the generated session over this many lines.
    Made {
        n: u32,
    },
    /// Run the conditional program that a report shows on the rows of a sheet, with the header line, the inputs, the tables
    /// and the keys of a session.
    Apply {
        session: &'a str,
        program: &'a str,
        sheet: &'a str,
    },
    /// List the keys of the table in the file of this name.
    Keys {
        file: &'a str,
    },
}

/// The most lines of the sheet that a generated session is over.
pub const MOST_MADE_LINES: u32 = 2_000;

/// The command of these words, those after the program's name.
///
/// `replay` and `keys` go with a name that is not empty, `made` with a number from 1 to [`MOST_MADE_LINES`] in plain decimal, and
/// `apply` with three names that are not empty.
pub fn command_of(words: &[String]) -> Option<Command<'_>>
    ensures is { option_map command_data result ≡ command_in (map string_bytes words.now) }
    ensures proper { IfSome result (λ command. IsCommand (command_data command)) }
{
    match words {
        [word, argument] => with_argument(word.as_str(), argument.as_str()),
        [word, session, program, sheet] => with_names(
            word.as_str(),
            session.as_str(),
            program.as_str(),
            sheet.as_str(),
        ),
        _ => None,
    }
}

/// The command of a word and its argument.
fn with_argument<'a>(word: &str, argument: &'a str) -> Option<Command<'a>>
    ensures is { option_map command_data result ≡ with_argument word.now argument.now }
    ensures proper { IfSome result (λ command. IsCommand (command_data command)) }
{
    if word == "made" {
        let n = lines_in(argument.as_bytes())?;
        return Some(Command::Made { n });
    }
    if argument.is_empty() {
        return None;
    }
    if word == "replay" {
        Some(Command::Replay { session: argument })
    } else if word == "keys" {
        Some(Command::Keys { file: argument })
    } else {
        None
    }
}

/// The command of a word and three names.
fn with_names<'a>(
    word: &str,
    session: &'a str,
    program: &'a str,
    sheet: &'a str,
) -> Option<Command<'a>>
    ensures is { option_map command_data result ≡ with_names word.now session.now program.now sheet.now }
    ensures proper { IfSome result (λ command. IsCommand (command_data command)) }
{
    if word != "apply" {
        return None;
    }
    if session.is_empty() || program.is_empty() || sheet.is_empty() {
        return None;
    }
    Some(Command::Apply {
        session,
        program,
        sheet,
    })
}

/// The number of lines that these bytes spell.
fn lines_in(bytes: &[u8]) -> Option<u32>
    ensures { result ≡ number_between 1 MOST_MADE_LINES bytes.now }
{
    let n = number_in(bytes)?;
    if 1 <= n && n <= MOST_MADE_LINES {
        Some(n)
    } else {
        None
    }
}
