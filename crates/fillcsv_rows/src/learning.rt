//! Learning from what is typed and from the cells of a column.
ghost use Rattle.std.specs.Prelude.{◌≡◌, ◌≤◌, ◌++◌, [], List as Listed, Some, length, IfOk, OnOk};
ghost use Rattle.fillcsv_rows.specs.Learned.{AreLearned, Gives, counts, given_for};

use crate::given::given_for;
use fill_edge::{Ledger, Steps};
use fill_session::{EditError, Session};
use fill_text::{List, NoMemory, Text};
use fill_tree::{Edit, Example};
use std::alloc::Global;

/// A given text that is no example.
#[derive(Clone, Copy, Debug)]
pub struct Refused {
    /// Its row, from 1.
    pub row: u32,
    /// Why it was refused.
    pub reason: EditError,
}

impl Refused {
    /// Whether the refusal counts: one for want of room, after the sixty-fourth example, does not.
    pub fn counts(&self) -> bool
        ensures { result ≡ counts self.now }
    {
        match self.reason {
            EditError::TooMany => false,
            _ => true,
        }
    }
}

/// Adds what the rows of the sheet give to a session without examples, in their order, and answers which texts are
/// refused. A text that is typed for a row wins over its cell.
pub fn learn<L: Ledger>(
    alloc: Global,
    session: &mut Session,
    typed: &[Example],
    steps: &mut Steps<L>,
) -> Result<List<Refused>, NoMemory>
    requires { session.old.examples ≡ [] }
    ensures ground { session.new.spaces.ground ≡ session.old.spaces.ground }
    ensures learned { IfOk result (AreLearned typed.now session.old.spaces.ground session.new.examples) }
{
    let mut refused = List::new(alloc);
    let rows = session.sheet().rows();
    for above in 0..rows {
        learn_row(session, above + 1, typed, &mut refused, steps)?;
    }
    Ok(refused)
}

/// Adds the text that a row gives, where it gives one.
fn learn_row<L: Ledger>(
    session: &mut Session,
    row: u32,
    typed: &[Example],
    refused: &mut List<Refused>,
    steps: &mut Steps<L>,
) -> Result<(), NoMemory>
    requires first { 1 ≤ row }
    requires last { row ≤ length session.old.spaces.ground.sheet.rows }
    ensures ground { session.new.spaces.ground ≡ session.old.spaces.ground }
    ensures gives { OnOk result ((here : Listed Refused) × Gives session.old.spaces.ground session.old.examples row (given_for typed.now session.old.spaces.ground.sheet row) session.new.examples here
        × (refused.new ≡ refused.old ++ here)) }
{
    let text = match given_for(typed, session.sheet(), row) {
        None => return Ok(()),
        Some(text) => text.copy(),
    };
    match text {
        Ok(text) => add(session, row, text, refused, steps),
        Err(NoMemory) => Err(NoMemory),
    }
}

/// Adds the text of a row.
fn add<L: Ledger>(
    session: &mut Session,
    row: u32,
    text: Text,
    refused: &mut List<Refused>,
    steps: &mut Steps<L>,
) -> Result<(), NoMemory>
    ensures ground { session.new.spaces.ground ≡ session.old.spaces.ground }
    ensures gives { OnOk result ((here : Listed Refused) × Gives session.old.spaces.ground session.old.examples row (Some text) session.new.examples here
        × (refused.new ≡ refused.old ++ here)) }
{
    let edit = Edit::Add { row, text };
    match session.edit(&edit, steps) {
        Ok(()) => Ok(()),
        Err(EditError::NoMemory) => Err(NoMemory),
        Err(reason) => refused.push(Refused { row, reason }),
    }
}
