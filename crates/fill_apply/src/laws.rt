//! What is true of every report.
ghost use Rattle.std.specs.Prelude.{◌≡◌, ℕ, List, Result};
ghost use Rattle.fill_tree.specs.Switch.{SwitchTree};
ghost use Rattle.fill_apply.specs.Saved.{SavedIs};
ghost use Rattle.fill_apply.specs.declared.error.ApplyError.{ApplyError};

/// One thing at most comes of opening a report's bytes. It does nothing.
pub fn saved_programs_are_one()
    ensures { (inputs : List ℕ) (bytes : List ℕ) (x : Result SwitchTree ApplyError) (y : Result SwitchTree ApplyError)
        → SavedIs inputs bytes x → SavedIs inputs bytes y → x ≡ y }
{}
