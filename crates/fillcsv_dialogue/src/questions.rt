//! The questions, and what is remarked on replies. No contract says these texts.
ghost use Rattle.std.specs.Prelude.{◌≤◌, length};
ghost use Rattle.fillcsv_dialogue.specs.Told.{Grew};

use crate::dialogue::Topic;
use crate::replies::Reply;
use crate::say::say;
use fill_edge::Sink;
use fill_session::Suggestion;
use fill_sheet::Sheet;
use fill_text::{NoMemory, Text};
use fillcsv_prose::{Named, put_quoted};
use std::alloc::Global;

/// What can be replied beside the two answers.
const CHOICES: &str = "   or the right text (- empty, s skip, u undo, q end)\n> ";

/// Asks about a row, as far as there is memory for it.
pub(crate) fn tell_question<E: Sink>(
    alloc: Global,
    topic: &Topic<'_>,
    sheet: &Sheet,
    asked: &Suggestion,
    err: &mut E,
)
    ensures { Grew (E.written err.old) (E.written err.new) (E.faults err.old) (E.faults err.new) }
{
    if asked.row == 0 || asked.row > sheet.rows() {
        return;
    }
    if let Ok(text) = question_text(alloc, topic, sheet, asked) {
        say(err, text.as_bytes());
    }
}

/// The question about a row: its cells, and the two answers.
fn question_text(
    alloc: Global,
    topic: &Topic<'_>,
    sheet: &Sheet,
    asked: &Suggestion,
) -> Result<String, NoMemory>
    requires first { 1 ≤ asked.now.row }
    requires last { asked.now.row ≤ length sheet.now.rows }
{
    let number = asked.row.saturating_add(topic.above);
    let mut text = format!(in alloc; "row {number}:")?;
    let mut between = " ";
    for column in sheet.inputs() {
        text.push_str(between)?;
        put_name(alloc, &mut text, topic.columns, *column)?;
        text.push_str(" ")?;
        put_cut(&mut text, sheet.cell(asked.row, *column))?;
        between = ", ";
    }
    text.push_str("\n  Enter: ")?;
    put_answer(&mut text, &asked.answer)?;
    text.push_str("   2: ")?;
    put_answer(&mut text, &asked.objection.text)?;
    text.push_str(CHOICES)?;
    Ok(text)
}

/// Puts the name of a column at the end, or its number where it has none.
fn put_name(
    alloc: Global,
    to: &mut String,
    columns: &[Named],
    column: u32,
) -> Result<(), NoMemory> {
    for named in columns {
        if named.number == column && !named.name.is_empty() {
            return Ok(to.push_str(named.name.as_str())?);
        }
    }
    let name = format!(in alloc; "column {column}")?;
    Ok(to.push_str(name.as_str())?)
}

/// Puts an answer at the end: a text in quotes, or the word `none`.
fn put_answer(to: &mut String, answer: &Option<Text>) -> Result<(), NoMemory> {
    match answer {
        Some(text) => put_cut(to, text),
        None => Ok(to.push_str("none")?),
    }
}

/// The most characters of a text that are told.
const MOST_TOLD: usize = 60;

/// Puts a text in quotes at the end, or the front of a long one.
fn put_cut(to: &mut String, text: &Text) -> Result<(), NoMemory> {
    let chars = text.as_slice();
    if chars.len() <= MOST_TOLD {
        return Ok(put_quoted(to, chars)?);
    }
    let (front, _) = chars.split_at(MOST_TOLD);
    put_quoted(to, front)?;
    Ok(to.push_str("..")?)
}

/// How many replies in a row take what stands in the cell before a line says that the dialogue can be ended.
const RIGHT: u32 = 3;

/// Remarks on a reply, and counts those in a row that took what stands in the cell.
pub(crate) fn remark_on<E: Sink>(reply: &Reply, right: &mut u32, err: &mut E)
    ensures { Grew (E.written err.old) (E.written err.new) (E.faults err.old) (E.faults err.new) }
{
    match reply {
        Reply::First => {
            *right = right.saturating_add(1);
            if *right == RIGHT {
                say(err, b"three right in a row: q ends\n");
            }
        }
        Reply::Unclear => say(err, b"this line is not UTF-8\n"),
        Reply::Second | Reply::Empty | Reply::Given(_) | Reply::Skip | Reply::Back => *right = 0,
        Reply::Quit => {}
    }
}
