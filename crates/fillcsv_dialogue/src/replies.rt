//! What a line replies to a question, and what replies teach.
ghost use Rattle.std.specs.Prelude.{◌≡◌, ◌∷◌, ◌++◌, [], IfOk, OnOk, Some, None, false, filter_map, true, if◌then◌else◌};
ghost use Rattle.std.specs.Str.{chars};
ghost use Rattle.fill_session.specs.Suggested.{asked_of};
ghost use Rattle.fillcsv_dialogue.specs.Replies.{example_of, kept_text, replied, reply_in, reply_of, rows_of, text_in, typed_with};

use fill_session::{Objection, Suggestion};
use fill_text::{List, NoMemory, Text};
use fill_tree::Example;
use std::alloc::Global;

/// A reply about a row: the text that its cell shall have, or none where the row is passed over.
#[derive(Debug, Drop)]
pub(crate) struct Kept {
    pub row: u32,
    pub text: Option<Text>,
}

/// What a line replies.
#[derive(Debug, Drop)]
pub(crate) enum Reply {
    /// What stands in the cell now is right.
    First,
    /// The objector is right.
    Second,
    /// The cell stays empty.
    Empty,
    /// This text is right.
    Given(Text),
    /// The row is passed over.
    Skip,
    /// The last reply is taken back.
    Back,
    /// The dialogue is over.
    Quit,
    /// Nothing that is understood: the line is not UTF-8.
    Unclear,
}

/// What a line replies.
pub(crate) fn reply_in(alloc: Global, line: &[u8]) -> Result<Reply, NoMemory>
    ensures { IfOk result (λ reply. reply ≡ reply_in line.now) }
{
    match str::from_utf8(line) {
        Ok(line) => reply_of(alloc, line),
        Err(_) => Ok(Reply::Unclear),
    }
}

/// What a line of text replies.
fn reply_of(alloc: Global, line: &str) -> Result<Reply, NoMemory>
    ensures { IfOk result (λ reply. reply ≡ reply_of line.now) }
{
    match line {
        "" => Ok(Reply::First),
        "2" => Ok(Reply::Second),
        "-" => Ok(Reply::Empty),
        "s" => Ok(Reply::Skip),
        "u" => Ok(Reply::Back),
        "q" => Ok(Reply::Quit),
        _ => Ok(Reply::Given(text_of(alloc, text_in(line.as_bytes()))?)),
    }
}

/// The byte that may stand before a text.
const MARK: u8 = b'=';

/// The text of a line: what stands behind `=`, or else the line.
fn text_in(line: &[u8]) -> &[u8]
    ensures { result.now ≡ text_in line.now }
{
    let Some((first, text)) = line.split_first() else {
        return line;
    };
    if *first == MARK { text } else { line }
}

/// The text that these bytes spell.
fn text_of(alloc: Global, bytes: &[u8]) -> Result<Text, NoMemory>
    ensures { IfOk result (λ made. made ≡ chars bytes.now) }
{
    match Text::from_utf8(alloc, bytes) {
        Ok(text) => Ok(text),
        Err(_) => Err(NoMemory),
    }
}

/// Adds a reply about a row to those before it, or takes the last of them back, and answers whether the dialogue goes on.
pub(crate) fn take_reply(
    alloc: Global,
    asked: Suggestion,
    reply: Reply,
    kept: &mut Vec<Kept>,
) -> Result<bool, NoMemory>
    ensures replied { IfOk result (λ on. replied (asked_of asked) reply kept.old.items ≡ (if on then Some kept.new.items else None)) }
    ensures stays { IfOk result (λ on. on ≡ false → kept.new.items ≡ kept.old.items) }
{
    let Suggestion {
        row,
        answer,
        objection,
    } = asked;
    let Objection { text: other, .. } = objection;
    match reply {
        Reply::First => keep_text(alloc, row, answer, kept),
        Reply::Second => keep_text(alloc, row, other, kept),
        Reply::Empty => keep_text(alloc, row, None, kept),
        Reply::Given(text) => keep_text(alloc, row, Some(text), kept),
        Reply::Skip => keep(Kept { row, text: None }, kept),
        Reply::Back => {
            let _ = kept.pop();
            Ok(true)
        }
        Reply::Unclear => Ok(true),
        Reply::Quit => Ok(false),
    }
}

/// Adds the text of a row, or an empty one where there is none.
fn keep_text(
    alloc: Global,
    row: u32,
    text: Option<Text>,
    kept: &mut Vec<Kept>,
) -> Result<bool, NoMemory>
    ensures { IfOk result (λ on. (on ≡ true) × (kept.new.items ≡ kept.old.items ++ kept_text row text ∷ [])) }
{
    let text = Some(text.unwrap_or(Text::new(alloc)));
    keep(Kept { row, text }, kept)
}

/// Adds a reply.
fn keep(reply: Kept, kept: &mut Vec<Kept>) -> Result<bool, NoMemory>
    ensures { IfOk result (λ on. (on ≡ true) × (kept.new.items ≡ kept.old.items ++ reply ∷ [])) }
{
    kept.push(reply)?;
    Ok(true)
}

/// The typed texts: those of the replies, and those that the words give for other rows.
pub(crate) fn typed_with(
    alloc: Global,
    words: &[Example],
    kept: &[Kept],
) -> Result<List<Example>, NoMemory>
    ensures { IfOk result (λ typed. typed ≡ typed_with words.now kept.now) }
{
    let mut typed = List::new(alloc);
    for reply in kept {
        put_example(&mut typed, reply)?;
    }
    for word in words {
        let text = word.text.copy()?;
        typed.push(Example {
            row: word.row,
            text,
        })?;
    }
    Ok(typed)
}

/// Puts the example of a reply at the end, where it gives a text.
fn put_example(typed: &mut List<Example>, reply: &Kept) -> Result<(), NoMemory>
    ensures { OnOk result (typed.new ≡ typed.old ++ filter_map example_of (reply.now ∷ [])) }
{
    let Some(text) = &reply.text else {
        return Ok(());
    };
    let text = text.copy()?;
    typed.push(Example {
        row: reply.row,
        text,
    })
}

/// The rows of the replies, which are not asked again.
pub(crate) fn rows_of(alloc: Global, kept: &[Kept]) -> Result<Vec<u32>, NoMemory>
    ensures { IfOk result (λ rows. rows.items ≡ rows_of kept.now) }
{
    let mut rows = Vec::new(alloc);
    for reply in kept {
        rows.push(reply.row)?;
    }
    Ok(rows)
}
