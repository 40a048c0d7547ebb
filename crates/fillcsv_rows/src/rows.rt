//! The records of rows.
ghost use Rattle.std.specs.Prelude.{◌≡◌, ◌≤◌, IfOk, IfSome, option_copied};
ghost use Rattle.fillcsv_rows.specs.Filled.{cell_of, cell_state, filled_fields, head_fields, name_of, wanted_text, with_answer, with_name, with_word};
ghost use Rattle.fillcsv_rows.specs.Learned.{given_by};

use crate::Form;
use fill_output::answer_field;
use fill_records::Record;
use fill_session::{Answer, State};
use fill_states::RowState;
use fill_text::{List, NoMemory, Text};
use fillcsv_columns::{fields_of, with_field};
use std::alloc::Global;

/// The header's fields, with the name of a new column, where that is filled, and with a name for the column of states,
/// where there is to be one.
pub fn head_fields(
    alloc: Global,
    form: &Form,
    name: Option<&[u8]>,
    header: &Record,
) -> Result<Vec<List<u8>>, NoMemory>
    requires column { 1 ≤ form.now.column }
    requires states { IfSome form.now.states (λ column. 1 ≤ column) }
    ensures { IfOk result (λ made. made.items ≡ head_fields form.now (option_copied name.entry) header.now) }
{
    let mut word = List::new(alloc);
    word.append(name_of(form, name, header))?;
    word.append(b" state")?;
    let fields = with_name(alloc, form, name, header)?;
    with_word(alloc, form, word, fields)
}

/// The name of the column that is filled.
fn name_of<'a>(form: &Form, name: Option<&'a [u8]>, header: &'a Record) -> &'a [u8]
    requires { 1 ≤ form.now.column }
    ensures { result.now ≡ name_of form.now (option_copied name.entry) header.now }
{
    match name {
        Some(name) => name,
        None => header.field(form.column),
    }
}

/// The header's fields with the name of a new column, where that is filled.
fn with_name(
    alloc: Global,
    form: &Form,
    name: Option<&[u8]>,
    header: &Record,
) -> Result<Vec<List<u8>>, NoMemory>
    requires { 1 ≤ form.now.column }
    ensures { IfOk result (λ made. made.items ≡ with_name form.now (option_copied name.entry) header.now) }
{
    let fields = fields_of(alloc, header)?;
    let Some(name) = name else {
        return Ok(fields);
    };
    let mut field = List::new(alloc);
    field.append(name)?;
    with_field(alloc, fields, form.column as usize, field)
}

/// The state of the cell of a row that gives a text or none, with this answer.
pub fn cell_state(given: Option<&Text>, answer: &Answer) -> RowState
    ensures { result ≡ cell_state (option_copied given.entry) answer.now }
{
    match given {
        Some(_) => RowState::Given,
        None => RowState::of(answer),
    }
}

/// What a row gives by what is typed for it and by its cell.
fn given_by<'a>(typed: Option<&'a Text>, cell: Option<&'a Text>) -> Option<&'a Text>
    ensures { option_copied result ≡ given_by (option_copied typed.entry) (option_copied cell.entry) }
{
    match typed {
        Some(text) => Some(text),
        None => cell,
    }
}

/// The fields of a row with its answer and its state: a text may be typed for it, and its cell may give one.
pub fn filled_fields(
    alloc: Global,
    form: &Form,
    typed: Option<&Text>,
    cell: Option<&Text>,
    answer: &Answer,
    row: &Record,
) -> Result<Vec<List<u8>>, NoMemory>
    requires column { 1 ≤ form.now.column }
    requires states { IfSome form.now.states (λ column. 1 ≤ column) }
    ensures { IfOk result (λ made. made.items ≡ filled_fields form.now (option_copied typed.entry) (option_copied cell.entry) answer.now row.now) }
{
    let fields = with_answer(alloc, form, typed, cell, answer, row)?;
    let mut word = List::new(alloc);
    word.append(cell_state(given_by(typed, cell), answer).name())?;
    with_word(alloc, form, word, fields)
}

/// The fields of a row with its answer.
fn with_answer(
    alloc: Global,
    form: &Form,
    typed: Option<&Text>,
    cell: Option<&Text>,
    answer: &Answer,
    row: &Record,
) -> Result<Vec<List<u8>>, NoMemory>
    requires { 1 ≤ form.now.column }
    ensures { IfOk result (λ made. made.items ≡ with_answer form.now (option_copied typed.entry) (option_copied cell.entry) answer.now row.now) }
{
    let cell = cell_of(alloc, form, typed, cell, answer, row)?;
    let fields = fields_of(alloc, row)?;
    with_field(alloc, fields, form.column as usize, cell)
}

/// The cell of a row: the text that is typed for it, or else what it gives, or else its answer.
fn cell_of(
    alloc: Global,
    form: &Form,
    typed: Option<&Text>,
    cell: Option<&Text>,
    answer: &Answer,
    row: &Record,
) -> Result<List<u8>, NoMemory>
    requires { 1 ≤ form.now.column }
    ensures { IfOk result (λ made. made ≡ cell_of form.now (option_copied typed.entry) (option_copied cell.entry) answer.now row.now) }
{
    match (typed, cell) {
        (Some(text), _) => {
            let mut made = List::new(alloc);
            text.push_utf8(&mut made)?;
            Ok(made)
        }
        (None, Some(_)) => {
            let mut made = List::new(alloc);
            made.append(row.field(form.column))?;
            Ok(made)
        }
        (None, None) => wanted_text(alloc, form.only_sure, answer),
    }
}

/// The text that is written of an answer.
fn wanted_text(alloc: Global, only_sure: bool, answer: &Answer) -> Result<List<u8>, NoMemory>
    ensures { IfOk result (λ made. made ≡ wanted_text only_sure answer.now.state answer.now.text) }
{
    if only_sure && answer.state == State::Doubt {
        return Ok(List::new(alloc));
    }
    answer_field(alloc, &answer.text)
}

/// The fields with a word in the column of states, where there is to be one.
fn with_word(
    alloc: Global,
    form: &Form,
    word: List<u8>,
    fields: Vec<List<u8>>,
) -> Result<Vec<List<u8>>, NoMemory>
    requires { IfSome form.now.states (λ column. 1 ≤ column) }
    ensures { IfOk result (λ made. made.items ≡ with_word form.now.states word fields.items) }
{
    match form.states {
        Some(column) => with_field(alloc, fields, column, word),
        None => Ok(fields),
    }
}
