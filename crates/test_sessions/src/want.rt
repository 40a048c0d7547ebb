//! Edits that run out of memory.
//!
//! The test passes also where one allocation is refused, whichever it is.
use crate::session::{Kind, Tried, Work, accepted, edit_of, goes, make};
use fill_session::{EditError, Session, State};
use fill_text::NoMemory;
use fill_tree::Edit;
use std::alloc::Global;
use std::test::Fail;

/// The branch and the state of the last row.
fn last_row(session: &Session) -> Result<(u32, State), NoMemory> {
    let row = session.sheet().rows();
    if row == 0 {
        return Err(NoMemory);
    }
    let answer = session.answer(row)?;
    Ok((answer.branch, answer.state))
}

/// Whether the last row is answered as before, and the edit is accepted now.
fn again(session: &mut Session, edit: &Edit, before: (u32, State)) -> Result<bool, NoMemory> {
    let after = last_row(session)?;
    Ok(after == before && make(session, edit).is_none())
}

/// Whether an edit is accepted, given once more where memory was wanted. Then the last row is answered as before.
fn is_accepted(alloc: Global, session: &mut Session, tried: &Tried) -> Result<bool, NoMemory> {
    let before = last_row(session)?;
    let edit = edit_of(alloc, tried)?;
    match make(session, &edit) {
        None => Ok(true),
        Some(EditError::NoMemory) => again(session, &edit, before),
        Some(_) => Ok(false),
    }
}

/// Three examples, which make two branches.
struct Branches;

impl Work for Branches {
    fn goes(&self, alloc: Global, session: &mut Session) -> Result<bool, NoMemory> {
        for (row, text) in [(1, "k"), (2, "12"), (3, "k")] {
            if !is_accepted(alloc, session, &accepted(Kind::Add, row, text))? {
                return Ok(false);
            }
        }
        Ok(session.branches().len() == 2)
    }
}

/// Whether they do over three rows.
fn two_branches(alloc: Global) -> Result<bool, NoMemory> {
    goes(alloc, "k\n12\nA-\n", &Branches)
}

#[test]
fn an_edit_again_after_want_of_memory(rt: HostRuntime) -> Result<(), Fail> {
    let done = match two_branches(rt.alloc()) {
        Ok(done) => done,
        Err(NoMemory) => two_branches(rt.alloc())?,
    };
    assert!(rt; done);
    Ok(())
}
