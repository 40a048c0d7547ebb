//! Moves: edits, undo, redo and forget, and what each comes to.
ghost use Rattle.std.specs.Prelude.{◌≡◌, ℕ, ◌+◌, ◌≤◌, length};
ghost use Rattle.fill_session.specs.Made.{AreMade, MoveIs, move_term};
ghost use Rattle.fill_session.specs.Timeline.{timeline};

use crate::{Done, EditError, Session};
use fill_edge::{Ledger, Steps};
use fill_tree::Edit;

/// What is done to a session.
#[derive(Debug, Drop)]
pub enum Move {
    Edit(Edit),
    Undo,
    Redo,
    Forget,
}

/// What a move came to.
#[derive(Clone, Copy, Debug, PartialEq, Eq)]
pub enum Reply {
    /// The edit was made, or why it was refused.
    Edited(Result<(), EditError>),
    /// What the edit did that was undone, if there was one.
    Undone(Option<Done>),
    /// What the edit did that was done again, if there was one.
    Redone(Option<Done>),
    Forgotten,
}

impl Session {
    /// Makes a move.
    fn move_once<L: Ledger>(&mut self, what: &Move, steps: &mut Steps<L>) -> Reply
        ensures ground { self.new.spaces.ground ≡ self.old.spaces.ground }
        ensures is { MoveIs self.old.spaces.ground (timeline self.old) what.now result (timeline self.new) }
        ensures cost { steps.new ≤ steps.old + move_term self.old.spaces.ground.sheet self.old.examples what.now }
    {
        match what {
            Move::Edit(edit) => Reply::Edited(self.edit(edit, steps)),
            Move::Undo => Reply::Undone(self.undo()),
            Move::Redo => Reply::Redone(self.redo()),
            Move::Forget => {
                self.forget();
                Reply::Forgotten
            }
        }
    }

    /// Makes moves one after the other, refused edits among them, and puts what each one came to at its place.
    pub fn move_all<L: Ledger>(
        &mut self,
        moves: &[Move],
        replies: &mut [Reply],
        steps: &mut Steps<L>,
    )
        requires { length replies.old ≡ length moves.now }
        ensures ground { self.new.spaces.ground ≡ self.old.spaces.ground }
        ensures all { (n : ℕ) × AreMade self.old.spaces.ground (timeline self.old) moves.now replies.new n (timeline self.new)
            × (steps.new ≤ steps.old + n) }
    {
        for i in 0..moves.len() {
            replies[i] = self.move_once(&moves[i], steps);
        }
    }
}
