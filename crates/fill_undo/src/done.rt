//! What was done by an edit.
ghost use Rattle.std.specs.Prelude.{◌≡◌};
ghost use Rattle.fill_undo.specs.Done.{done_of};

use fill_tree::Edit;

/// What an edit does to the example of its row, or to all examples.
#[derive(Clone, Copy, Debug, PartialEq, Eq)]
pub enum Kind {
    Add,
    Correct,
    Retract,
    Clear,
}

/// What was done by an edit, and at which row.
#[derive(Clone, Copy, Debug, PartialEq, Eq)]
pub struct Done {
    pub kind: Kind,
    /// The row, from 1; 0 for `Clear`.
    pub row: u32,
}

impl Done {
    /// What the edit does.
    pub fn of(edit: &Edit) -> Done
        ensures { result ≡ done_of edit.now }
    {
        match edit {
            Edit::Add { row, text: _ } => Done {
                kind: Kind::Add,
                row: *row,
            },
            Edit::Correct { row, text: _ } => Done {
                kind: Kind::Correct,
                row: *row,
            },
            Edit::Retract { row } => Done {
                kind: Kind::Retract,
                row: *row,
            },
            Edit::Clear => Done {
                kind: Kind::Clear,
                row: 0,
            },
        }
    }
}

/// A state on the other side of an edit, and what the edit did.
#[derive(Debug, Drop)]
pub struct Moved<S> {
    pub state: S,
    pub done: Done,
}
