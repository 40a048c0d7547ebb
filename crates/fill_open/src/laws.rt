//! What is true of every generated session.
ghost use Rattle.std.specs.Prelude.{◌≡◌, ℕ, List, Some};
ghost use Rattle.fill_open.specs.Command.{command_in, made};
ghost use Rattle.fill_open.specs.MadeReady.{made_ready};
ghost use Rattle.fill_opening.specs.Opened.{Passed};
ghost use Rattle.fill_open.specs.Steps.{made_opens};

use crate::command::MOST_MADE_LINES;

/// Where words ask for the generated session of `n` lines, every step of its opening passes: its session file is read as a
/// script, and its sheet as `n` rows. It does nothing.
pub fn generated_session_opens()
    ensures { (words : List (List ℕ)) (n : ℕ) → command_in words ≡ Some (made n) → (made_opens n).outcome ≡ Passed (made_ready n) }
{}

/// How many lines a generated session may have. It does nothing.
pub fn limits_are_as_specified()
    ensures { MOST_MADE_LINES ≡ 2000 }
{}
