//! The records of edits.
ghost use Rattle.std.specs.Prelude.{◌≡◌, ◌∷◌, ◌++◌, IfOk};
ghost use Rattle.fill_report.specs.Records.{done_fields, kind_word, ok_record, refused_record};
ghost use Rattle.fill_undo.specs.Done.{done_of};

use fill_output::Record;
use fill_session::EditError;
use fill_text::NoMemory;
use fill_tree::Edit;
use fill_undo::{Done, Kind};
use std::alloc::Global;

/// The word of what an edit does.
fn kind_word(kind: Kind) -> &'static [u8]
    ensures { result.now ≡ kind_word kind }
{
    match kind {
        Kind::Add => b"add",
        Kind::Correct => b"correct",
        Kind::Retract => b"retract",
        Kind::Clear => b"clear",
    }
}

/// The record with what an edit does more.
pub(crate) fn with_done(before: Record, done: Done) -> Result<Record, NoMemory>
    ensures { IfOk result (λ made. made ≡ before ++ done_fields done) }
{
    let record = before.with(kind_word(done.kind))?;
    match done.kind {
        Kind::Add | Kind::Correct | Kind::Retract => record.with_number(done.row),
        Kind::Clear => Ok(record),
    }
}

/// The record of a word and an edit.
fn edit_record(alloc: Global, word: &[u8], edit: &Edit) -> Result<Record, NoMemory>
    ensures { IfOk result (λ made. made ≡ word.now ∷ done_fields (done_of edit.now)) }
{
    with_done(Record::of(alloc, word)?, Done::of(edit))
}

/// The record of an edit that was made.
pub(crate) fn ok_record(alloc: Global, edit: &Edit) -> Result<Record, NoMemory>
    ensures { IfOk result (λ made. made ≡ ok_record edit.now) }
{
    edit_record(alloc, b"ok", edit)
}

/// The record of an edit that was refused.
pub(crate) fn refused_record(
    alloc: Global,
    edit: &Edit,
    reason: &EditError,
) -> Result<Record, NoMemory>
    ensures { IfOk result (λ made. made ≡ refused_record edit.now reason.now) }
{
    let text = format!(in alloc; "{reason}")?;
    edit_record(alloc, b"refused", edit)?.with(text.as_bytes())
}
