//! The reasons against edits, in their order, and the examples that edits leave.
use crate::session::{Kind, Tried, Work, accepted, goes, refused, repeated, replay};
use fill_session::{EditError, Part, Session};
use fill_text::NoMemory;
use std::alloc::Global;
use std::test::Fail;

/// Edits, each accepted or refused as it is to be.
#[derive(Clone, Copy)]
struct Edits<'a> {
    all: &'a [Tried<'a>],
}

impl Work for Edits<'_> {
    fn goes(&self, alloc: Global, session: &mut Session) -> Result<bool, NoMemory> {
        replay(alloc, session, self.all)
    }
}

/// Whether these edits go as they are to over three rows, the last of which has 1,001 characters.
fn go(alloc: Global, all: &[Tried]) -> Result<bool, NoMemory> {
    let long = repeated(alloc, "x", 1001)?;
    let lines = format!(in alloc; "ab\nd\n{long}\n")?;
    goes(alloc, lines.as_str(), &Edits { all })
}

#[test]
fn the_first_of_several_reasons(rt: HostRuntime) -> Result<(), Fail> {
    let long = repeated(rt.alloc(), "x", 101)?;
    let no_row = EditError::NoSuchRow { rows: 3 };
    let edits = [
        accepted(Kind::Add, 1, "x"),
        refused(Kind::Retract, 0, "", no_row),
        refused(Kind::Add, 4, long.as_str(), no_row),
        refused(Kind::Add, 1, long.as_str(), EditError::HasExample),
        refused(Kind::Correct, 2, long.as_str(), EditError::NoExample),
    ];
    assert!(rt; go(rt.alloc(), &edits)?);
    Ok(())
}

#[test]
fn what_is_too_long(rt: HostRuntime) -> Result<(), Fail> {
    let longest = repeated(rt.alloc(), "x", 100)?;
    let longer = repeated(rt.alloc(), "x", 101)?;
    let text = EditError::TooLong {
        part: Part::Text,
        length: 101,
    };
    let inputs = EditError::TooLong {
        part: Part::Inputs,
        length: 1001,
    };
    let edits = [
        accepted(Kind::Add, 1, "x"),
        refused(Kind::Correct, 1, longer.as_str(), text),
        refused(Kind::Add, 3, longest.as_str(), inputs),
    ];
    assert!(rt; go(rt.alloc(), &edits)?);
    Ok(())
}

/// Examples for 64 rows, and none for a further one.
struct Full;

impl Work for Full {
    fn goes(&self, alloc: Global, session: &mut Session) -> Result<bool, NoMemory> {
        for row in 1..65 {
            if !replay(alloc, session, &[accepted(Kind::Add, row, "")])? {
                return Ok(false);
            }
        }
        let further = [refused(Kind::Add, 65, "", EditError::TooMany)];
        replay(alloc, session, &further)
    }
}

#[test]
fn the_sixty_fifth_example(rt: HostRuntime) -> Result<(), Fail> {
    let lines = repeated(rt.alloc(), "x\n", 65)?;
    assert!(rt; goes(rt.alloc(), lines.as_str(), &Full)?);
    Ok(())
}

/// Two digits for each example, its row and how long its text is, after a 9.
fn digits(session: &Session) -> u64 {
    let mut digits = 9u64;
    for example in session.examples() {
        digits = digits.wrapping_mul(10).wrapping_add(u64::from(example.row));
        digits = digits
            .wrapping_mul(10)
            .wrapping_add(example.text.len() as u64);
    }
    digits
}

/// An edit where the rows 2 and 3 have examples, of one character and of two, and the digits after it.
#[derive(Clone, Copy)]
struct Left<'a> {
    tried: Tried<'a>,
    digits: u64,
}

impl Work for Left<'_> {
    fn goes(&self, alloc: Global, session: &mut Session) -> Result<bool, NoMemory> {
        let edits = [
            accepted(Kind::Add, 2, "x"),
            accepted(Kind::Add, 3, "xx"),
            self.tried,
        ];
        Ok(replay(alloc, session, &edits)? && digits(session) == self.digits)
    }
}

#[test]
fn what_edits_make_of_examples(rt: HostRuntime) -> Result<(), Fail> {
    let rows = [
        (accepted(Kind::Add, 1, "xxxx"), 9_142_132),
        (accepted(Kind::Correct, 3, "xxxx"), 92_134),
        (accepted(Kind::Retract, 2, ""), 932),
        (accepted(Kind::Clear, 0, ""), 9),
    ];
    for (tried, digits) in rows {
        assert!(rt; goes(rt.alloc(), "-\n.\n;\n", &Left { tried, digits })?);
    }
    Ok(())
}
