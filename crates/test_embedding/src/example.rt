//! A session in a program of one's own.
ghost use Rattle.std.specs.Prelude.{◌≡◌};

use fill_edge::{Ledger, Steps};
use fill_session::{Answer, Session, Shapes, State};
use fill_sheet::Sheet;
use fill_tables::Tables;
use fill_text::{NoMemory, Text};
use fill_tree::{Constants, Edit, Profile, Settings};
use std::alloc::Global;
use std::marker::Brand;
use std::sync::ledger::Blank;
use std::test::Fail;

/// A session over three names that has learned from the first one.
fn learned<L: Ledger>(alloc: Global, steps: &mut Steps<L>) -> Result<Session, Fail> {
    let sheet = Sheet::read(
        alloc,
        b"Ada Byron\nMax Planck\nEmmy A Noether\n",
        false,
        &[1],
        None,
    )?;
    let settings = Settings {
        depth: 1,
        constants: Constants::Any,
        profile: Profile::THIRD,
    };
    let mut session = Session::new(alloc, settings, sheet, Tables::new(alloc))?;
    let text = Text::from_utf8(alloc, b"Byron")?;
    session.edit(&Edit::Add { row: 1, text }, steps)?;
    Ok(session)
}

/// The answers on all rows: here `Byron`, given, and then `Planck` and `A Noether`, both in doubt.
fn answers(alloc: Global, session: &Session) -> Result<Vec<Answer>, NoMemory> {
    let mut shapes = Shapes::new(alloc);
    let mut answers = Vec::new(alloc);
    let rows = session.sheet().rows();
    for above in 0..rows {
        answers.push(session.answer_with(&mut shapes, above + 1)?)?;
    }
    Ok(answers)
}

/// Whether an answer is this text in this state.
fn is(answer: Option<&Answer>, text: &str, state: State) -> bool {
    match answer {
        Some(
            Answer {
                text: Some(found),
                state: found_state,
                ..
            },
        ) => found.as_slice().iter().copied().eq(text.chars()) && *found_state == state,
        _ => false,
    }
}

fn all_go<L: Ledger>(alloc: Global, blank: Blank) -> Result<bool, Fail>
    requires name { blank.name ≡ L.name }
    requires parts { blank.parts ≡ L.parts }
    requires one { blank.parts ≡ 1 }
{
    let (book, share) = blank.open::<L>();
    let mut steps: Steps<L> = Steps::new(book, share);
    let session = learned(alloc, &mut steps)?;
    let answers = answers(alloc, &session)?;
    Ok(
        is(answers.get(0), "Byron", State::Given)
            && is(answers.get(1), "Planck", State::Doubt)
            && is(answers.get(2), "A Noether", State::Doubt),
    )
}

#[test]
fn the_example_goes(rt: HostRuntime) -> Result<(), Fail> {
    assert!(rt; all_go::<Brand>(rt.alloc(), Blank::new(1))?);
    Ok(())
}
