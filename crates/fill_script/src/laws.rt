//! What is true of all session files.
ghost use Rattle.std.specs.Prelude.{◌≡◌, ◌≢◌, ℕ, ◌++◌, List, Err};
ghost use Rattle.fill_script.specs.Script.{script_of};
ghost use Rattle.fill_script.specs.declared.error.ScriptError.{ScriptError};
ghost use Rattle.fill_script.specs.declared.error.ScriptError.TheVariants as error;

use crate::script::MOST_LINES;

/// The first line that breaks a rule decides: once some lines are refused, those that follow change nothing. Only a
/// missing `begin` can still come. It does nothing.
pub fn first_fault_decides()
    ensures { (lines later : List (List (List ℕ))) → (e : ScriptError) → e ≢ error.MissingBegin → script_of lines ≡ Err e → script_of (lines ++ later) ≡ Err e }
{}

/// How many lines a session file may have. It does nothing.
pub fn limits_are_as_specified()
    ensures { MOST_LINES ≡ 1000 }
{}
