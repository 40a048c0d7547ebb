//! The reasons to refuse an edit that are seen without a look at programs.
ghost use Rattle.std.specs.Prelude.{◌≡◌, length, IsTrue};
ghost use Rattle.fill_session.specs.Outcome.{first_reason, is_row, has_example, inputs_length, length_reason, count_reason};
ghost use Rattle.fill_tree.specs.declared.user.Edit.TheVariants.{Add, Correct, Retract};

use crate::error::{EditError, Part};
use fill_sheet::Sheet;
use fill_text::Text;
use fill_tree::{Edit, Example, MOST_CHARACTERS, MOST_EXAMPLES};

/// The most characters that the input cells of an example's row have together.
pub const MOST_INPUT_CHARACTERS: usize = 1_000;

/// The first reason to refuse the edit that is seen without a look at programs. Takes no memory.
pub(crate) fn first_reason(sheet: &Sheet, examples: &[Example], edit: &Edit) -> Option<EditError>
    ensures { result ≡ first_reason sheet.now examples.now edit.now }
{
    match edit {
        Edit::Add { row, text } => reason_to_add(sheet, examples, *row, text),
        Edit::Correct { row, text } => reason_to_correct(sheet, examples, *row, text),
        Edit::Retract { row } => reason_to_retract(sheet, examples, *row),
        Edit::Clear => None,
    }
}

/// Why an example for a row is refused without a look at programs.
fn reason_to_add(sheet: &Sheet, examples: &[Example], row: u32, text: &Text) -> Option<EditError>
    ensures { result ≡ first_reason sheet.now examples.now (Add row text.now) }
{
    if !stands_in(sheet, row) {
        return Some(no_such_row(sheet));
    }
    if is_given(examples, row) {
        return Some(EditError::HasExample);
    }
    if let Some(reason) = reason_of_length(sheet, row, text) {
        return Some(reason);
    }
    reason_of_count(examples)
}

/// Why another text for a row's example is refused without a look at programs.
fn reason_to_correct(
    sheet: &Sheet,
    examples: &[Example],
    row: u32,
    text: &Text,
) -> Option<EditError>
    ensures { result ≡ first_reason sheet.now examples.now (Correct row text.now) }
{
    if !stands_in(sheet, row) {
        return Some(no_such_row(sheet));
    }
    if !is_given(examples, row) {
        return Some(EditError::NoExample);
    }
    reason_of_length(sheet, row, text)
}

/// Why a row's example is not taken away.
fn reason_to_retract(sheet: &Sheet, examples: &[Example], row: u32) -> Option<EditError>
    ensures { result ≡ first_reason sheet.now examples.now (Retract row) }
{
    if !stands_in(sheet, row) {
        return Some(no_such_row(sheet));
    }
    if !is_given(examples, row) {
        return Some(EditError::NoExample);
    }
    None
}

/// Whether the sheet has the row, from 1.
fn stands_in(sheet: &Sheet, row: u32) -> bool
    ensures { result ≡ is_row sheet.now row }
{
    1 <= row && row <= sheet.rows()
}

fn no_such_row(sheet: &Sheet) -> EditError
    ensures { result ≡ EditError.NoSuchRow (length sheet.now.rows) }
{
    EditError::NoSuchRow { rows: sheet.rows() }
}

/// Whether the row has an example.
pub(crate) fn is_given(examples: &[Example], row: u32) -> bool
    ensures { result ≡ has_example examples.now row }
{
    examples.iter().any(|example| example.row == row)
}

/// Whether the text is too long to learn from, or else what the row's cells have together.
fn reason_of_length(sheet: &Sheet, row: u32, text: &Text) -> Option<EditError>
    requires { IsTrue (is_row sheet.now row) }
    ensures { result ≡ length_reason sheet.now row text.now }
{
    let length = text.len();
    if length > MOST_CHARACTERS {
        return Some(EditError::TooLong {
            part: Part::Text,
            length,
        });
    }
    let length = characters(sheet, row);
    if length > MOST_INPUT_CHARACTERS {
        return Some(EditError::TooLong {
            part: Part::Inputs,
            length,
        });
    }
    None
}

/// How many characters the cells of a row of the sheet have together.
fn characters(sheet: &Sheet, row: u32) -> usize
    requires { IsTrue (is_row sheet.now row) }
    ensures { result ≡ inputs_length sheet.now row }
{
    let _rows = sheet.rows();
    let mut sum = 0;
    for column in sheet.inputs() {
        sum += sheet.cell(row, *column).len();
    }
    sum
}

/// Whether there are already as many examples as there may be.
fn reason_of_count(examples: &[Example]) -> Option<EditError>
    ensures { result ≡ count_reason examples.now }
{
    if examples.len() >= MOST_EXAMPLES {
        Some(EditError::TooMany)
    } else {
        None
    }
}
