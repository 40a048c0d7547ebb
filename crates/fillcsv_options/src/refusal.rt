//! Why the words ask for no sheet.
ghost use Rattle.std.specs.Prelude.{◌≡◌};
ghost use Rattle.clap.specs.Words.{kind_of};
ghost use Rattle.fillcsv_options.specs.Words.{IsRefusedBy, Wrong, meaning_of_kind};
ghost use Rattle.clap.specs.declared.error.kind.ErrorKind.TheVariants.{OutOfMemory};
ghost use Rattle.fillcsv_options.specs.declared.refusal.Refusal.TheVariants.{NoMemory};

use clap::Error;
use clap::error::ErrorKind;
use std::alloc::{AllocError, AllocFailed, Global};

/// Why the words ask for no sheet.
#[derive(Debug, Drop)]
pub enum Refusal {
    /// Help or the version was asked for: this text goes to the standard output.
    Shown(String),
    /// The words are wrong: this text goes to the standard error.
    Usage(String),
    /// Out of memory.
    NoMemory,
}

impl Refusal {
    /// The refusal that says what `clap` has found.
    pub(crate) fn of(alloc: Global, error: &Error) -> Refusal
        ensures meaning { IsRefusedBy (meaning_of_kind (kind_of error.now)) result }
        ensures memory { kind_of error.now ≡ OutOfMemory → result ≡ NoMemory }
    {
        let Ok(text) = error.to_string(alloc) else {
            return Refusal::NoMemory;
        };
        match error.kind() {
            ErrorKind::OutOfMemory => Refusal::NoMemory,
            ErrorKind::DisplayHelp | ErrorKind::DisplayVersion => Refusal::Shown(text),
            _ => Refusal::Usage(text),
        }
    }

    /// The refusal of a word that an option does not take.
    pub(crate) fn of_word(alloc: Global, word: &str, option: &str, words: &str) -> Refusal
        ensures { IsRefusedBy Wrong result }
    {
        let text = format!(in alloc;
            "error: invalid value '{word}' for '{option}'\n  [possible values: {words}]\n\nFor more information, try '--help'.\n"
        );
        match text {
            Ok(text) => Refusal::Usage(text),
            Err(_) => Refusal::NoMemory,
        }
    }

    /// The refusal of a word that an option does not take, with the reason.
    pub(crate) fn of_value(alloc: Global, word: &str, option: &str, why: &str) -> Refusal
        ensures { IsRefusedBy Wrong result }
    {
        let text = format!(in alloc;
            "error: invalid value '{word}' for '{option}': {why}\n\nFor more information, try '--help'.\n"
        );
        match text {
            Ok(text) => Refusal::Usage(text),
            Err(_) => Refusal::NoMemory,
        }
    }

    /// The refusal with this text.
    pub(crate) fn of_usage(alloc: Global, text: &str) -> Refusal
        ensures { IsRefusedBy Wrong result }
    {
        match String::from_str(alloc, text) {
            Ok(text) => Refusal::Usage(text),
            Err(_) => Refusal::NoMemory,
        }
    }
}

impl From<AllocError> for Refusal {
    ghost from_gives = { λ _ e. e ≡ NoMemory };

    fn from(_refused: AllocError) -> Refusal {
        Refusal::NoMemory
    }
}
