//! Moves one after the other.
ghost use Rattle.std.specs.Prelude.{◌≡◌, length};

use crate::session::{Work, goes, text_of};
use fill_edge::{Ledger, Steps};
use fill_session::{Done, EditError, Kind, Move, Reply, Session};
use fill_text::NoMemory;
use fill_tree::Edit;
use std::alloc::Global;
use std::marker::Brand;
use std::sync::ledger::Blank;
use std::test::Fail;

/// What seven moves come to.
fn counted<L: Ledger>(session: &mut Session, moves: &[Move], blank: Blank) -> [Reply; 7]
    requires name { blank.name ≡ L.name }
    requires parts { blank.parts ≡ L.parts }
    requires one { blank.parts ≡ 1 }
    requires seven { length moves.now ≡ 7 }
{
    let (book, share) = blank.open::<L>();
    let mut steps: Steps<L> = Steps::new(book, share);
    let mut replies = [Reply::Forgotten; 7];
    session.move_all(moves, &mut replies, &mut steps);
    replies
}

/// What seven moves come to, with steps of their own.
fn replies(session: &mut Session, moves: &[Move]) -> [Reply; 7]
    requires { length moves.now ≡ 7 }
{
    counted::<Brand>(session, moves, Blank::new(1))
}

/// A refused edit, and an undo and a redo, among edits that are made; they leave no example.
struct Among;

impl Work for Among {
    fn goes(&self, alloc: Global, session: &mut Session) -> Result<bool, NoMemory> {
        let text = text_of(alloc, "Cd")?;
        let moves = [
            Move::Edit(Edit::Add { row: 1, text }),
            Move::Edit(Edit::Retract { row: 2 }),
            Move::Undo,
            Move::Redo,
            Move::Edit(Edit::Retract { row: 1 }),
            Move::Forget,
            Move::Undo,
        ];
        let added = Done {
            kind: Kind::Add,
            row: 1,
        };
        let wanted = [
            Reply::Edited(Ok(())),
            Reply::Edited(Err(EditError::NoExample)),
            Reply::Undone(Some(added)),
            Reply::Redone(Some(added)),
            Reply::Edited(Ok(())),
            Reply::Forgotten,
            Reply::Undone(None),
        ];
        Ok(replies(session, &moves) == wanted && session.examples().is_empty())
    }
}

#[test]
fn a_refused_edit_and_undo_among_others(rt: HostRuntime) -> Result<(), Fail> {
    assert!(rt; goes(rt.alloc(), "Ab Cd\nEfgh Ijk\n", &Among)?);
    Ok(())
}
