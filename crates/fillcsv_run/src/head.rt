//! What stands before the records of rows, and how answers are written.
ghost use Rattle.std.specs.Prelude.{◌≡◌, ◌≤◌, ◌++◌, ℕ, List as Listed, IfOk, IfSome, OnOk, option_copied};
ghost use Rattle.fill_output.specs.Fields.{report_text};
ghost use Rattle.fill_output.specs.Fields.{Fields};
ghost use Rattle.fillcsv_columns.specs.Columns.{width as width_of};
ghost use Rattle.fillcsv_options.specs.Words.{data_of, target_data};
ghost use Rattle.fillcsv_run.specs.Ends.{form_of, head_of, heads_of, name_of, some_record, states_of};
ghost use Rattle.fillcsv_run.specs.Opening.{mark_if};
ghost use Rattle.fillcsv_run.specs.Read.{AreChosen, AreParts, read_data};

use crate::opening::SheetFile;
use fill_records::Record;
use fill_sheet::put_record;
use fill_text::{List, NoMemory};
use fillcsv_options::{Asked, Target};
use fillcsv_rows::{Form, head_fields};
use std::alloc::Global;

/// The mark by which some programs begin a file in UTF-8.
const MARK: &[u8] = b"\xef\xbb\xbf";

/// How answers are written into the records of a sheet.
pub(crate) fn form_of(asked: &Asked, read: &SheetFile) -> Form
    requires { AreChosen read.now.choice }
    ensures form { (bytes : Listed ℕ) → AreParts (data_of asked.now) bytes read.now → result ≡ form_of (data_of asked.now) (read_data (data_of asked.now) bytes read.now) }
    ensures column { 1 ≤ result.column }
    ensures states { IfSome result.states (λ column. 1 ≤ column) }
{
    Form {
        column: read.choice.to,
        states: states_of(asked.states, read.choice.to, read.width),
        only_sure: asked.only_sure,
    }
}

/// The column of states, from 1, where one is asked for.
fn states_of(states: bool, column: u32, width: usize) -> Option<usize>
    ensures column { (records : Listed Fields) → width ≡ width_of records → result ≡ states_of states column records }
    ensures first { IfSome result (λ column. 1 ≤ column) }
{
    if states {
        Some(width.max(column as usize).saturating_add(1))
    } else {
        None
    }
}

/// What stands before the records of rows: the mark of the file, and the header.
pub(crate) fn head_of(
    alloc: Global,
    asked: &Asked,
    read: &SheetFile,
    form: &Form,
) -> Result<List<u8>, NoMemory>
    requires column { 1 ≤ form.now.column }
    requires states { IfSome form.now.states (λ column. 1 ≤ column) }
    ensures { (bytes : Listed ℕ) → AreParts (data_of asked.now) bytes read.now → form.now ≡ form_of (data_of asked.now) (read_data (data_of asked.now) bytes read.now) →
        IfOk result (λ head. head ≡ head_of (data_of asked.now) (read_data (data_of asked.now) bytes read.now)) }
{
    let mut head = List::new(alloc);
    head.append(mark_of(read.marked))?;
    put_header(
        alloc,
        &mut head,
        form,
        name_of(&asked.to),
        read.header.as_ref(),
    )?;
    Ok(head)
}

/// The name of a new column.
fn name_of(to: &Target) -> Option<&[u8]>
    ensures { option_copied result ≡ name_of (target_data to.now) }
{
    match to {
        Target::There(_) => None,
        Target::New(name) => Some(name.as_bytes()),
    }
}

/// The byte order mark, where it stands in front of the file, or nothing.
fn mark_of(marked: bool) -> &'static [u8]
    ensures { result.now ≡ mark_if marked }
{
    if marked { MARK } else { &[] }
}

/// Puts the header at the end, where there is one.
fn put_header(
    alloc: Global,
    to: &mut List<u8>,
    form: &Form,
    name: Option<&[u8]>,
    header: Option<&Record>,
) -> Result<(), NoMemory>
    requires column { 1 ≤ form.now.column }
    requires states { IfSome form.now.states (λ column. 1 ≤ column) }
    ensures { OnOk result (to.new ≡ to.old ++ report_text (heads_of form.now (option_copied name.entry) (option_copied header.entry))) }
{
    match header {
        Some(header) => {
            let fields = List::from_vec(head_fields(alloc, form, name, header)?);
            put_fields(alloc, to, &fields)
        }
        None => Ok(()),
    }
}

/// Puts the record of these fields at the end, where there are some.
fn put_fields(alloc: Global, to: &mut List<u8>, fields: &List<List<u8>>) -> Result<(), NoMemory>
    ensures { OnOk result (to.new ≡ to.old ++ report_text (some_record fields.now)) }
{
    if fields.len() == 0 {
        return Ok(());
    }
    put_record(alloc, to, fields)
}
