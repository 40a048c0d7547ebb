//! What it is for one state of a history to change.
ghost use Rattle.std.specs.Prelude.{◌≡◌, ◌≢◌, ℕ, ◌<◌, Some};
ghost use Rattle.fill_undo.specs.Moves.{Moves, count_of, done_at, state_at, with_state_at};

/// A state that is changed is then the one of its place; all others stay, and so do all edits. It does nothing.
pub fn one_state_changes<S: Drop>()
    ensures count { (moves : Moves S) (i : ℕ) (state : S) → count_of (with_state_at moves i state) ≡ count_of moves }
    ensures changed { (moves : Moves S) (i : ℕ) (state : S) → i < count_of moves →
        state_at (with_state_at moves i state) i ≡ Some state }
    ensures others { (moves : Moves S) (i j : ℕ) (state : S) → j ≢ i →
        state_at (with_state_at moves i state) j ≡ state_at moves j }
    ensures edits { (moves : Moves S) (i j : ℕ) (state : S) →
        done_at (with_state_at moves i state) j ≡ done_at moves j }
{}
