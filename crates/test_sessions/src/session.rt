//! Sessions of small sheets.
ghost use Rattle.std.specs.Prelude.{◌≡◌, ◌≤◌, length};
ghost use Rattle.fill_doubt.specs.Shapes.{ShapesStand};
ghost use Rattle.fill_tree.specs.Grammar.{AreSettings};

use fill_edge::{Ledger, Steps};
use fill_session::{Answer, EditError, Session, Shapes, State};
use fill_sheet::Sheet;
use fill_tables::Tables;
use fill_text::{NoMemory, Text};
use fill_tree::{Constants, Edit, Profile, Settings};
use std::alloc::Global;
use std::marker::Brand;
use std::sync::ledger::Blank;
use std::test::Fail;

/// A sheet of six rows of words.
const WORDS: &str = "Ab Cd\nEfgh Ijk\nMn Op\nXy\nBc De Fg\n\"\"\n";

/// What is done in a session, and whether all goes as it is to.
pub(crate) trait Work {
    fn goes(&self, alloc: Global, session: &mut Session) -> Result<bool, NoMemory>;
}

/// Whether the work goes as it is to in a session over the sheet of these lines, of one input column.
fn goes_under<W: Work>(
    alloc: Global,
    lines: &str,
    settings: Settings,
    work: &W,
) -> Result<bool, NoMemory>
    requires { AreSettings settings }
{
    let Ok(sheet) = Sheet::read(alloc, lines.as_bytes(), false, &[1], None) else {
        return Err(NoMemory);
    };
    let mut session = Session::new(alloc, settings, sheet, Tables::new(alloc))?;
    work.goes(alloc, &mut session)
}

/// Whether the work goes as it is to under the usual settings.
pub(crate) fn goes<W: Work>(alloc: Global, lines: &str, work: &W) -> Result<bool, NoMemory> {
    let settings = Settings {
        depth: 1,
        constants: Constants::Any,
        profile: Profile::FIRST,
    };
    goes_under(alloc, lines, settings, work)
}

/// Makes an edit, and gives the reason where it is refused.
fn counted<L: Ledger>(session: &mut Session, edit: &Edit, blank: Blank) -> Option<EditError>
    requires name { blank.name ≡ L.name }
    requires parts { blank.parts ≡ L.parts }
    requires one { blank.parts ≡ 1 }
{
    let (book, share) = blank.open::<L>();
    let mut steps: Steps<L> = Steps::new(book, share);
    match session.edit(edit, &mut steps) {
        Ok(()) => None,
        Err(reason) => Some(reason),
    }
}

pub(crate) fn make(session: &mut Session, edit: &Edit) -> Option<EditError> {
    counted::<Brand>(session, edit, Blank::new(1))
}

/// What an edit does.
#[derive(Clone, Copy)]
pub(crate) enum Kind {
    Add,
    Correct,
    Retract,
    Clear,
}

/// An edit, and the reason where it is to be refused.
#[derive(Clone, Copy)]
pub(crate) struct Tried<'a> {
    kind: Kind,
    row: u32,
    text: &'a str,
    reason: Option<EditError>,
}

pub(crate) fn accepted(kind: Kind, row: u32, text: &str) -> Tried<'_> {
    Tried {
        kind,
        row,
        text,
        reason: None,
    }
}

pub(crate) fn refused(kind: Kind, row: u32, text: &str, reason: EditError) -> Tried<'_> {
    Tried {
        kind,
        row,
        text,
        reason: Some(reason),
    }
}

/// The text of these characters.
pub(crate) fn text_of(alloc: Global, characters: &str) -> Result<Text, NoMemory> {
    match Text::from_utf8(alloc, characters.as_bytes()) {
        Ok(text) => Ok(text),
        Err(_) => Err(NoMemory),
    }
}

pub(crate) fn edit_of(alloc: Global, tried: &Tried) -> Result<Edit, NoMemory> {
    let row = tried.row;
    match tried.kind {
        Kind::Add => Ok(Edit::Add {
            row,
            text: text_of(alloc, tried.text)?,
        }),
        Kind::Correct => Ok(Edit::Correct {
            row,
            text: text_of(alloc, tried.text)?,
        }),
        Kind::Retract => Ok(Edit::Retract { row }),
        Kind::Clear => Ok(Edit::Clear),
    }
}

/// Makes an edit, and tells whether it is accepted or refused as it is to be.
fn is_as_told(alloc: Global, session: &mut Session, tried: &Tried) -> Result<bool, NoMemory> {
    let edit = edit_of(alloc, tried)?;
    Ok(make(session, &edit) == tried.reason)
}

/// Makes edits in turn, and tells whether each is accepted or refused as it is to be.
pub(crate) fn replay(
    alloc: Global,
    session: &mut Session,
    edits: &[Tried],
) -> Result<bool, NoMemory> {
    for tried in edits {
        if !is_as_told(alloc, session, tried)? {
            return Ok(false);
        }
    }
    Ok(true)
}

/// The answer that a row is to have.
#[derive(Clone, Copy)]
struct Wanted<'a> {
    row: u32,
    branch: u32,
    text: Option<&'a str>,
    state: State,
}

fn expected(row: u32, branch: u32, text: Option<&str>, state: State) -> Wanted<'_> {
    Wanted {
        row,
        branch,
        text,
        state,
    }
}

/// Whether the text is this one, or there is none as there is to be.
pub(crate) fn is_text(
    alloc: Global,
    text: &Option<Text>,
    wanted: Option<&str>,
) -> Result<bool, NoMemory> {
    match (text, wanted) {
        (None, None) => Ok(true),
        (Some(text), Some(wanted)) => Ok(text.same(&text_of(alloc, wanted)?)),
        (_, _) => Ok(false),
    }
}

/// Whether the answer is the one that a row is to have.
fn is_wanted(alloc: Global, answer: &Answer, wanted: &Wanted) -> Result<bool, NoMemory> {
    let same = is_text(alloc, &answer.text, wanted.text)?;
    Ok(same && answer.branch == wanted.branch && answer.state == wanted.state)
}

/// Whether a row has the answer that it is to have, where the shapes of these texts are known.
fn answers_with(
    alloc: Global,
    session: &Session,
    shapes: &mut Shapes,
    wanted: &Wanted,
) -> Result<bool, NoMemory>
    requires first { 1 ≤ wanted.now.row }
    requires last { wanted.now.row ≤ length session.now.spaces.ground.sheet.rows }
    requires shapes { ShapesStand session.now.spaces.arena shapes.old }
    ensures { ShapesStand session.now.spaces.arena shapes.new }
{
    let answer = session.answer_with(shapes, wanted.row)?;
    is_wanted(alloc, &answer, wanted)
}

/// Whether a row has its answer two times, the second time with the shapes that the first one made.
fn answers_twice(
    alloc: Global,
    session: &Session,
    shapes: &mut Shapes,
    wanted: &Wanted,
) -> Result<bool, NoMemory>
    requires first { 1 ≤ wanted.now.row }
    requires last { wanted.now.row ≤ length session.now.spaces.ground.sheet.rows }
    requires shapes { ShapesStand session.now.spaces.arena shapes.old }
{
    if !answers_with(alloc, session, shapes, wanted)? {
        return Ok(false);
    }
    answers_with(alloc, session, shapes, wanted)
}

/// Whether a row has the answer that it is to have, and has it again where the shapes of its texts are known.
fn answers(alloc: Global, session: &Session, wanted: &Wanted) -> Result<bool, NoMemory> {
    if wanted.row < 1 || session.sheet().rows() < wanted.row {
        return Ok(false);
    }
    let mut shapes = Shapes::new(alloc);
    answers_twice(alloc, session, &mut shapes, wanted)
}

/// Whether all these rows do.
fn all_answer(alloc: Global, session: &Session, wanted: &[Wanted]) -> Result<bool, NoMemory> {
    for one in wanted {
        if !answers(alloc, session, one)? {
            return Ok(false);
        }
    }
    Ok(true)
}

/// The rows of the branches as digits, branch after branch, with a 0 after each that has a guard.
fn digits(session: &Session) -> u64 {
    let mut digits = 0u64;
    for branch in session.branches() {
        for row in branch.rows.as_slice() {
            digits = digits.wrapping_mul(10).wrapping_add(u64::from(*row));
        }
        if branch.guard.is_some() {
            digits = digits.wrapping_mul(10);
        }
    }
    digits
}

/// Edits, each accepted or refused as it is to be, the answers that rows have after them, and the digits of the branches.
#[derive(Clone, Copy)]
struct Course<'a> {
    edits: &'a [Tried<'a>],
    rows: &'a [Wanted<'a>],
    branches: u64,
}

impl Work for Course<'_> {
    fn goes(&self, alloc: Global, session: &mut Session) -> Result<bool, NoMemory> {
        if !replay(alloc, session, self.edits)? || !all_answer(alloc, session, self.rows)? {
            return Ok(false);
        }
        Ok(digits(session) == self.branches)
    }
}

#[test]
fn answers_after_two_examples(rt: HostRuntime) -> Result<(), Fail> {
    let edits = [accepted(Kind::Add, 1, "Cd"), accepted(Kind::Add, 2, "Ijk")];
    let rows = [
        expected(1, 1, Some("Cd"), State::Given),
        expected(3, 1, Some("Op"), State::Sure),
        expected(5, 1, Some("Fg"), State::Doubt),
        expected(6, 1, None, State::Sure),
    ];
    let course = Course {
        edits: &edits,
        rows: &rows,
        branches: 12,
    };
    assert!(rt; goes(rt.alloc(), WORDS, &course)?);
    Ok(())
}

#[test]
fn a_session_without_examples_has_no_answer(rt: HostRuntime) -> Result<(), Fail> {
    let course = Course {
        edits: &[],
        rows: &[expected(1, 0, None, State::Sure)],
        branches: 0,
    };
    assert!(rt; goes(rt.alloc(), "John Smith\n", &course)?);
    Ok(())
}

/// Whether edits over three rows under these settings go as they are to, and leave branches of these digits.
fn goes_in(
    alloc: Global,
    settings: Settings,
    edits: &[Tried],
    branches: u64,
) -> Result<bool, NoMemory>
    requires { AreSettings settings }
{
    let course = Course {
        edits,
        rows: &[],
        branches,
    };
    goes_under(alloc, "A-\nk\nz\n", settings, &course)
}

#[test]
fn the_profiles_place_examples_differently(rt: HostRuntime) -> Result<(), Fail> {
    let mut settings = Settings {
        depth: 1,
        constants: Constants::Any,
        profile: Profile::FIRST,
    };
    let mut edits = [
        accepted(Kind::Add, 1, "z"),
        accepted(Kind::Add, 2, "k"),
        refused(Kind::Add, 3, "z", EditError::NoGuard { branch: 1 }),
    ];
    assert!(rt; goes_in(rt.alloc(), settings, &edits, 102)?);
    settings.profile = Profile::SECOND;
    edits[2].reason = None;
    assert!(rt; goes_in(rt.alloc(), settings, &edits, 1023)?);
    Ok(())
}

/// So many times these characters.
pub(crate) fn repeated(alloc: Global, characters: &str, times: u32) -> Result<String, NoMemory> {
    let mut spelled = String::new(alloc);
    for _ in 0..times {
        spelled.push_str(characters)?;
    }
    Ok(spelled)
}

/// Whether an edit of row 1 to ten times these digits is accepted, and the spaces are small then.
fn stays_small(
    alloc: Global,
    session: &mut Session,
    kind: Kind,
    digits: &str,
) -> Result<bool, NoMemory> {
    let text = repeated(alloc, digits, 10)?;
    Ok(
        is_as_told(alloc, session, &accepted(kind, 1, text.as_str()))?
            && session.spaces().size() <= 6900,
    )
}

/// Whether a correction of row 1 to ten times these digits is accepted, and the spaces are small then.
fn corrects(alloc: Global, session: &mut Session, number: u32) -> Result<bool, NoMemory> {
    let digits = format!(in alloc; "{number}")?;
    stays_small(alloc, session, Kind::Correct, digits.as_str())
}

/// 900 texts for one row, one after the other, where the spaces stay small.
struct Corrections;

impl Work for Corrections {
    fn goes(&self, alloc: Global, session: &mut Session) -> Result<bool, NoMemory> {
        if !stays_small(alloc, session, Kind::Add, "100")? {
            return Ok(false);
        }
        for number in 101..1000 {
            if !corrects(alloc, session, number)? {
                return Ok(false);
            }
        }
        Ok(true)
    }
}

/// Whether a text is accepted after the session is cleared, and the spaces are small then.
fn fills_again(alloc: Global, session: &mut Session, number: u32) -> Result<bool, NoMemory> {
    let digits = format!(in alloc; "{number}")?;
    Ok(
        make(session, &Edit::Clear).is_none()
            && stays_small(alloc, session, Kind::Add, digits.as_str())?,
    )
}

/// A session that is cleared and filled again 400 times, where the spaces stay small.
struct Refills;

impl Work for Refills {
    fn goes(&self, alloc: Global, session: &mut Session) -> Result<bool, NoMemory> {
        for number in 100..500 {
            if !fills_again(alloc, session, number)? {
                return Ok(false);
            }
        }
        Ok(true)
    }
}

#[test]
fn many_corrections_leave_small_spaces(rt: HostRuntime) -> Result<(), Fail> {
    let settings = Settings {
        depth: 0,
        constants: Constants::Any,
        profile: Profile::FIRST,
    };
    assert!(rt; goes_under(rt.alloc(), "Ab\n", settings, &Corrections)?);
    Ok(())
}

#[test]
fn a_session_filled_again_and_again_leaves_small_spaces(rt: HostRuntime) -> Result<(), Fail> {
    let settings = Settings {
        depth: 0,
        constants: Constants::Any,
        profile: Profile::FIRST,
    };
    assert!(rt; goes_under(rt.alloc(), "Ab\n", settings, &Refills)?);
    Ok(())
}
