//! The best programs of a branch.
ghost use Rattle.std.specs.Prelude.{◌≤◌};

use crate::session::{Kind, Work, accepted, goes, replay};
use fill_session::Session;
use fill_text::{List, NoMemory};
use fill_tree::Program;
use std::alloc::Global;
use std::test::Fail;

/// How many programs are the first `k` of the first branch; none where there is no branch.
fn found(session: &Session, k: u32) -> Result<usize, NoMemory>
    requires some { 1 ≤ k }
    requires few { k ≤ 20 }
{
    if session.branches().len() == 0 {
        return Ok(0);
    }
    let programs = session.best(1, k)?;
    Ok(programs.len())
}

/// So many programs are the first `k`, of 1 to 20, after the addition of the text on the first row.
#[derive(Clone, Copy)]
struct First<'a> {
    text: &'a str,
    k: u32,
    count: usize,
}

impl Work for First<'_> {
    fn goes(&self, alloc: Global, session: &mut Session) -> Result<bool, NoMemory> {
        let (k, count) = (self.k, self.count);
        let edits = [accepted(Kind::Add, 1, self.text)];
        if k < 1 || 20 < k || !replay(alloc, session, &edits)? {
            return Ok(false);
        }
        Ok(found(session, k)? == count)
    }
}

/// Whether this many programs are the first `k` for this text of a name.
fn finds(alloc: Global, text: &str, k: u32, count: usize) -> Result<bool, NoMemory> {
    goes(alloc, "John Smith\n", &First { text, k, count })
}

#[test]
fn the_first_programs_of_a_branch(rt: HostRuntime) -> Result<(), Fail> {
    assert!(rt; finds(rt.alloc(), "Smith", 3, 3)?);
    assert!(rt; finds(rt.alloc(), "", 20, 1)?);
    Ok(())
}

/// The least program of the first branch, where there is one.
fn least(alloc: Global, session: &Session) -> Result<List<Program>, NoMemory> {
    if session.branches().len() == 0 {
        return Ok(List::new(alloc));
    }
    session.best(1, 1)
}

/// Whether the first branch, if there is one, explains its examples by the first of these programs.
fn explains(session: &Session, programs: &[Program]) -> bool {
    match programs.first() {
        Some(program) => session.branches().len() > 0 && session.represents(1, program),
        None => false,
    }
}

/// A text for the first row and the one that it is corrected to, which the program of the first does not explain.
struct Explained;

impl Work for Explained {
    fn goes(&self, alloc: Global, session: &mut Session) -> Result<bool, NoMemory> {
        if !replay(alloc, session, &[accepted(Kind::Add, 1, "Smith")])? {
            return Ok(false);
        }
        let programs = least(alloc, session)?;
        if !explains(session, programs.as_slice()) {
            return Ok(false);
        }
        let edits = [accepted(Kind::Correct, 1, "John")];
        Ok(replay(alloc, session, &edits)? && !explains(session, programs.as_slice()))
    }
}

#[test]
fn a_program_explains_its_example_and_no_other_text(rt: HostRuntime) -> Result<(), Fail> {
    assert!(rt; goes(rt.alloc(), "John Smith\n", &Explained)?);
    Ok(())
}
