//! Examples in the order of their rows, and what an edit makes of them.
ghost use Rattle.std.specs.Prelude.{◌≡◌, ◌+◌, ◌*◌, ◌≤◌, ◌++◌, length, drop, nat_lt, nat_le, Some, None, Ok, IfOk, OnOk, MatchOption, IfSome};
ghost use Rattle.std.specs.List.{prefix_len};
ghost use Rattle.fill_split.specs.Changes.{changed as changed_at, IsPlace, IsAllowed};
ghost use Rattle.fill_text.specs.Data.{SheetData};
ghost use Rattle.fill_space.specs.declared.ground.Ground.{Ground};
ghost use Rattle.fill_space.specs.Ground.{MayStand};
ghost use Rattle.fill_session.specs.Edits.{AreExamples, changed, with_example, without_example};
ghost use Rattle.fill_session.specs.Outcome.{first_reason, term};

use fill_split::{Change, MOST_BRANCHES};
use fill_text::{List, NoMemory, Text};
use fill_tree::{Edit, Example};
use std::alloc::Global;

/// A change of the list of examples, and its place there.
#[derive(Drop)]
pub(crate) struct ChangeAt {
    pub(crate) at: usize,
    pub(crate) change: Change<Example>,
}

/// The examples after an edit, copied.
pub(crate) fn changed_examples(
    alloc: Global,
    examples: &[Example],
    edit: &Edit,
) -> Result<List<Example>, NoMemory>
    requires { AreExamples examples.now }
    ensures { IfOk result (λ made. made ≡ changed examples.now edit.now) }
{
    match edit {
        Edit::Add { row, text } => copied_with(alloc, examples, *row, text),
        Edit::Correct { row, text } => copied_with(alloc, examples, *row, text),
        Edit::Retract { row } => copied_without(alloc, examples, *row),
        Edit::Clear => Ok(List::new(alloc)),
    }
}

/// The examples, copied, with this text for the row.
fn copied_with(
    alloc: Global,
    examples: &[Example],
    row: u32,
    text: &Text,
) -> Result<List<Example>, NoMemory>
    requires { AreExamples examples.now }
    ensures { IfOk result (λ made. made ≡ with_example (record { row = row; text = text.now }) examples.now) }
{
    let mut made = List::with_capacity(alloc, examples.len().saturating_add(1))?;
    push_copies(alloc, &mut made, &examples[..before(examples, row)])?;
    made.push(Example {
        row,
        text: text.copy()?,
    })?;
    push_copies(alloc, &mut made, &examples[through(examples, row)..])?;
    Ok(made)
}

/// The examples, copied, without that of the row.
fn copied_without(alloc: Global, examples: &[Example], row: u32) -> Result<List<Example>, NoMemory>
    requires { AreExamples examples.now }
    ensures { IfOk result (λ made. made ≡ without_example row examples.now) }
{
    let mut made = List::with_capacity(alloc, examples.len())?;
    push_copies(alloc, &mut made, &examples[..before(examples, row)])?;
    push_copies(alloc, &mut made, &examples[through(examples, row)..])?;
    Ok(made)
}

/// Puts copies of the examples at the end of a list.
fn push_copies(alloc: Global, to: &mut List<Example>, examples: &[Example]) -> Result<(), NoMemory>
    ensures { OnOk result (to.new ≡ to.old ++ examples.now) }
{
    for example in examples {
        to.push(example.copy(alloc)?)?;
    }
    Ok(())
}

/// How many examples stand before those of the row and later ones.
fn before(examples: &[Example], row: u32) -> usize
    requires { AreExamples examples.now }
    ensures count { result ≡ prefix_len (λ x. nat_lt x.row row) examples.now }
    ensures within { result ≤ length examples.now }
{
    examples.partition_point(|example| example.row < row)
}

/// How many examples stand before those of later rows.
fn through(examples: &[Example], row: u32) -> usize
    requires { AreExamples examples.now }
    ensures count { result ≡ prefix_len (λ x. nat_le x.row row) examples.now }
    ensures within { result ≤ length examples.now }
{
    examples.partition_point(|example| example.row <= row)
}

/// What an edit that has no reason against it changes: None where it takes all examples away.
pub(crate) fn change_of(examples: &[Example], edit: &Edit) -> Result<Option<ChangeAt>, NoMemory>
    requires rising { AreExamples examples.now }
    requires free { (sheet : SheetData) × (first_reason sheet examples.now edit.now ≡ None) }
    ensures change { IfOk result (λ made. MatchOption made (edit.now ≡ Edit.Clear) (λ m. IsPlace m.change m.at (length examples.now)
        × (changed_at m.change m.at examples.now ≡ changed examples.now edit.now))) }
    ensures allowed { IfOk result (λ made. (g : Ground) → first_reason g.sheet examples.now edit.now ≡ None →
        IfSome made (λ m. IsAllowed (MayStand g) m.change)) }
    ensures steps { IfOk result (λ made. (sheet : SheetData) → first_reason sheet examples.now edit.now ≡ None →
        IfSome made (λ m. 1 + MOST_BRANCHES * length (drop m.at (changed examples.now edit.now)) ≡ term sheet examples.now edit.now)) }
    ensures cleared { edit.now ≡ Edit.Clear → result ≡ Ok None }
{
    match edit {
        Edit::Add { row, text } => {
            let change = Change::Insert(Example {
                row: *row,
                text: text.copy()?,
            });
            let at = before(examples, *row);
            Ok(Some(ChangeAt { at, change }))
        }
        Edit::Correct { row, text } => {
            let change = Change::Replace(Example {
                row: *row,
                text: text.copy()?,
            });
            let at = before(examples, *row);
            Ok(Some(ChangeAt { at, change }))
        }
        Edit::Retract { row } => {
            let at = before(examples, *row);
            Ok(Some(ChangeAt {
                at,
                change: Change::Remove,
            }))
        }
        Edit::Clear => Ok(None),
    }
}
