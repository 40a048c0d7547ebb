//! Which row is suggested.
use crate::session::{Kind, Work, accepted, goes, is_text, replay};
use fill_session::Session;
use fill_text::NoMemory;
use std::alloc::Global;
use std::test::Fail;

/// The row that is to be suggested beside those passed over, and what is answered there; none where no row is.
#[derive(Clone, Copy)]
struct Wanted<'a> {
    passed: &'a [u32],
    next: Option<(u32, &'a str)>,
}

impl Wanted<'_> {
    /// Whether it is, where "a" is the other answer.
    fn is_met(&self, alloc: Global, session: &Session) -> Result<bool, NoMemory> {
        match (session.suggest_beside(self.passed)?, self.next) {
            (Some(next), Some((row, text))) => {
                let answered = is_text(alloc, &next.answer, Some(text))?;
                let objected = is_text(alloc, &next.objection.text, Some("a"))?;
                Ok(next.row == row && answered && objected)
            }
            (None, None) => Ok(true),
            (_, _) => Ok(false),
        }
    }
}

/// No row without examples; after an example the upper one of two rows with one objector, and the other one where that is
/// passed over.
struct Suggested;

impl Work for Suggested {
    fn goes(&self, alloc: Global, session: &mut Session) -> Result<bool, NoMemory> {
        if session.suggest()?.is_some() {
            return Ok(false);
        }
        if !replay(alloc, session, &[accepted(Kind::Add, 1, "a")])? {
            return Ok(false);
        }
        let table = [
            Wanted {
                passed: &[],
                next: Some((2, "b")),
            },
            Wanted {
                passed: &[2],
                next: Some((3, "c")),
            },
            Wanted {
                passed: &[3, 2],
                next: None,
            },
        ];
        for wanted in &table {
            if !wanted.is_met(alloc, session)? {
                return Ok(false);
            }
        }
        Ok(true)
    }
}

#[test]
fn the_upper_of_two_rows_with_one_objector(rt: HostRuntime) -> Result<(), Fail> {
    assert!(rt; goes(rt.alloc(), "a\nb\nc\n", &Suggested)?);
    Ok(())
}
