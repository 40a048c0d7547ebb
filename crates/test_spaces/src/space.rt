//! Spaces of small sheets.
ghost use Rattle.std.specs.Prelude.{◌≡◌, ◌≤◌, List, length, IfOk, IfSome};
ghost use Rattle.fill_tree.specs.declared.user.Example.{Example as Given};
ghost use Rattle.fill_split.specs.Keeping.{Keeps};
ghost use Rattle.fill_space.specs.Spaces.{SpaceStands};

use fill_edge::{Ledger, Steps};
use fill_sheet::Sheet;
use fill_space::{Space, Spaces, laws};
use fill_split::Maker;
use fill_tables::Tables;
use fill_text::{List, NoMemory, Text};
use fill_tokens::{Place, Seq, Token};
use fill_tree::{Atom, Constants, Example, Profile, Program, Settings, Source};
use std::alloc::Global;
use std::cmp::Ordering;
use std::marker::Brand;
use std::sync::ledger::Blank;
use std::test::Fail;

/// The space of one example. None where the sheet lacks the row, the text is too long or nothing explains the example.
fn space_of<L: Ledger>(
    alloc: Global,
    spaces: &mut Spaces,
    row: u32,
    text: &str,
    steps: &mut Steps<L>,
) -> Result<Option<Space>, NoMemory>
    ensures stands { IfOk result (λ made. IfSome made (λ s. (l : List Given) × SpaceStands spaces.new s l)) }
    ensures older { Keeps (SpaceStands spaces.old) (SpaceStands spaces.new) }
    ensures longer { length spaces.old.arena ≤ length spaces.new.arena }
{
    let Ok(text) = Text::from_utf8(alloc, text.as_bytes()) else {
        return Err(NoMemory);
    };
    if row < 1 || spaces.sheet().rows() < row || text.len() > 100 {
        return Ok(None);
    }
    Ok(spaces.first(&Example { row, text }, steps)?)
}

/// The space of two examples of the first rows.
fn joined<L: Ledger>(
    alloc: Global,
    spaces: &mut Spaces,
    first: &str,
    second: &str,
    steps: &mut Steps<L>,
) -> Result<Option<Space>, NoMemory>
    ensures { IfOk result (λ made. IfSome made (λ s. (l : List Given) × SpaceStands spaces.new s l)) }
{
    let Some(one) = space_of(alloc, spaces, 1, first, steps)? else {
        return Err(NoMemory);
    };
    let Some(other) = space_of(alloc, spaces, 2, second, steps)? else {
        return Err(NoMemory);
    };
    Ok(spaces.join(one, other, steps)?)
}

/// The last word of column 1, which begins with a capital letter.
fn last_word(alloc: Global) -> Result<Program, NoMemory> {
    let start = Place::Pos(Seq::empty(), Seq::one(Token::Upper), -1);
    let mut atoms = List::new(alloc);
    atoms.push(Atom::Sub(Source::Col(1), start, Place::CPos(-1)))?;
    Ok(Program { atoms })
}

/// Whether the last word is the space's least program, and one of its programs.
fn learned_last_word(alloc: Global, spaces: &mut Spaces, space: Space) -> Result<bool, NoMemory>
    requires { (l : List Given) × SpaceStands spaces.old space l }
    ensures { spaces.new ≡ spaces.old }
{
    let weight = spaces.weight(space)?;
    let program = last_word(alloc)?;
    let least = spaces.least(space)?;
    Ok(
        least.compare(&program) == Ordering::Equal
            && spaces.holds(space, &program)
            && spaces.arena().holds(spaces.graph(space), &program)
            && weight == 16,
    )
}

/// Whether the rows 3 to 5 have these flags.
fn have_flags(spaces: &Spaces, space: Space, flags: [bool; 3]) -> Result<bool, NoMemory>
    requires { (l : List Given) × SpaceStands spaces.now space l }
{
    if spaces.sheet().rows() < 5 {
        return Ok(false);
    }
    Ok(
        spaces.doubt(space, 3)? == flags[0]
            && spaces.doubt(space, 4)? == flags[1]
            && spaces.doubt(space, 5)? == flags[2],
    )
}

/// Whether the last word is learned from two rows of words, and three more rows have the flags that they are to have.
fn learns<L: Ledger>(
    alloc: Global,
    spaces: &mut Spaces,
    steps: &mut Steps<L>,
) -> Result<bool, NoMemory> {
    let Some(space) = joined(alloc, spaces, "Cd", "Ijk", steps)? else {
        return Ok(false);
    };
    Ok(learned_last_word(alloc, spaces, space)? && have_flags(spaces, space, [false, true, true])?)
}

/// Whether a cut leaves nothing of a space.
fn is_cut_away<L: Ledger>(
    alloc: Global,
    spaces: &mut Spaces,
    steps: &mut Steps<L>,
) -> Result<bool, NoMemory> {
    let mark = spaces.mark();
    let made = space_of(alloc, spaces, 1, "a", steps)?.is_some();
    let grown = spaces.size() > 0;
    spaces.cut(mark);
    Ok(made && grown && spaces.size() == 0 && spaces.settings().depth == 1)
}

/// The space in place of the given one where all others are forgotten.
fn alone(spaces: &mut Spaces, space: Space) -> Result<Space, NoMemory>
    requires { (l : List Given) × SpaceStands spaces.old space l }
    ensures { IfOk result (λ s. (l : List Given) × SpaceStands spaces.new s l) }
{
    let mut live = [space];
    spaces.compact(&mut live)?;
    Ok(live[0])
}

/// Whether the last word is learned from the space of two rows as before, where all others are forgotten.
fn learns_alone<L: Ledger>(
    alloc: Global,
    spaces: &mut Spaces,
    steps: &mut Steps<L>,
) -> Result<bool, NoMemory> {
    let Some(space) = joined(alloc, spaces, "Cd", "Ijk", steps)? else {
        return Ok(false);
    };
    let size = spaces.size();
    let space = alone(spaces, space)?;
    Ok(learned_last_word(alloc, spaces, space)? && spaces.size() < size)
}

/// Whether the last word is learned from the second row alone, where the space of both rows is forgotten.
fn learns_of_the_second<L: Ledger>(
    alloc: Global,
    spaces: &mut Spaces,
    steps: &mut Steps<L>,
) -> Result<bool, NoMemory> {
    if joined(alloc, spaces, "Cd", "Ijk", steps)?.is_none() {
        return Ok(false);
    }
    let Some(space) = space_of(alloc, spaces, 2, "Ijk", steps)? else {
        return Ok(false);
    };
    let space = alone(spaces, space)?;
    learned_last_word(alloc, spaces, space)
}

/// What spaces are to do.
#[derive(Clone, Copy)]
enum Task {
    /// To learn the last word of two rows.
    Learn,
    /// To learn the last word of two rows, where all other spaces are forgotten.
    LearnAlone,
    /// To learn the last word of the second row, where the space of two rows is forgotten.
    LearnOfTheSecond,
    /// To find a program that gives `a` of the first row and this of the second one, or none.
    Join(&'static str, bool),
    /// To forget a space.
    Cut,
}

/// Whether the spaces do what they are to do.
fn holds<L: Ledger>(
    alloc: Global,
    spaces: &mut Spaces,
    steps: &mut Steps<L>,
    task: Task,
) -> Result<bool, NoMemory> {
    match task {
        Task::Learn => learns(alloc, spaces, steps),
        Task::LearnAlone => learns_alone(alloc, spaces, steps),
        Task::LearnOfTheSecond => learns_of_the_second(alloc, spaces, steps),
        Task::Join(second, found) => {
            Ok(joined(alloc, spaces, "a", second, steps)?.is_some() == found)
        }
        Task::Cut => is_cut_away(alloc, spaces, steps),
    }
}

/// Whether the spaces do what they are to do, with a ledger of their own.
fn counted<L: Ledger>(
    alloc: Global,
    blank: Blank,
    spaces: &mut Spaces,
    task: Task,
) -> Result<bool, NoMemory>
    requires name { blank.name ≡ L.name }
    requires parts { blank.parts ≡ L.parts }
    requires one { blank.parts ≡ 1 }
{
    let (book, share) = blank.open::<L>();
    let mut steps: Steps<L> = Steps::new(book, share);
    holds(alloc, spaces, &mut steps, task)
}

/// Whether spaces over the sheet of these lines do what they are to do.
fn done(alloc: Global, lines: &str, task: Task) -> Result<bool, NoMemory> {
    let Ok(sheet) = Sheet::read(alloc, lines.as_bytes(), false, &[1], None) else {
        return Err(NoMemory);
    };
    let settings = Settings {
        depth: 1,
        constants: Constants::Any,
        profile: Profile::FIRST,
    };
    let mut spaces = Spaces::new(alloc, sheet, Tables::new(alloc), settings);
    counted::<Brand>(alloc, Blank::new(1), &mut spaces, task)
}

#[test]
fn the_last_word_is_learned(rt: HostRuntime) -> Result<(), Fail> {
    let lines = "Ab Cd\nEfgh Ijk\nMn Op\nXy\nBc De Fg\n\"\"\n";
    assert!(rt; done(rt.alloc(), lines, Task::Learn)?);
    Ok(())
}

#[test]
fn rows_that_are_alike_give_one_text(rt: HostRuntime) -> Result<(), Fail> {
    for task in [Task::Join("a", true), Task::Join("b", false)] {
        assert!(rt; done(rt.alloc(), "ab\nab\n", task)?);
    }
    Ok(())
}

#[test]
fn a_cut_takes_spaces_away(rt: HostRuntime) -> Result<(), Fail> {
    laws::spaces_tell_of_their_ground();
    laws::spaces_stand_for_the_same();
    laws::one_weight();
    assert!(rt; done(rt.alloc(), "ab\n", Task::Cut)?);
    Ok(())
}

#[test]
fn a_space_stays_alone(rt: HostRuntime) -> Result<(), Fail> {
    for task in [Task::LearnAlone, Task::LearnOfTheSecond] {
        assert!(rt; done(rt.alloc(), "Ab Cd\nEfgh Ijk\n", task)?);
    }
    Ok(())
}
