//! Why a given text is not learned from. No contract says these texts.
ghost use Rattle.fillcsv_dialogue.specs.Told.{Grew};

use crate::say::say;
use fill_edge::Sink;
use fill_session::{EditError, Part, Session};
use fillcsv_rows::{Refused, clash_of};
use std::alloc::{AllocError, Global};

/// Tells why a given text is not learned from, if one is not, as far as there is memory for it.
pub(crate) fn tell_refusal<E: Sink>(
    alloc: Global,
    session: &Session,
    above: u32,
    cell: Option<&Refused>,
    err: &mut E,
)
    ensures { Grew (E.written err.old) (E.written err.new) (E.faults err.old) (E.faults err.new) }
{
    let Some(cell) = cell else {
        return;
    };
    if let Ok(text) = refused_text(alloc, above, cell, clash_of(session, cell.row)) {
        say(err, text.as_bytes());
    }
}

/// Why a given text is not learned from, which clashes with the example of a row, or with none where that is 0. Rows are numbered
/// as a spreadsheet shows them, below `above` records.
pub fn refused_text(
    alloc: Global,
    above: u32,
    cell: &Refused,
    clash: u32,
) -> Result<String, AllocError> {
    let number = cell.row.saturating_add(above);
    if clash > 0 {
        let other = clash.saturating_add(above);
        return format!(in alloc;
            "fillcsv: row {number}: not learned from: row {other} reads the same cells and has another text\n"
        );
    }
    match cell.reason {
        EditError::TooLong {
            part: Part::Text,
            length,
        } => {
            format!(in alloc;
                "fillcsv: row {number}: not learned from: {length} characters, and an example has 100 at most\n"
            )
        }
        EditError::TooLong {
            part: Part::Inputs,
            length,
        } => {
            format!(in alloc;
                "fillcsv: row {number}: not learned from: {length} characters to read, and an example has 1000 at most\n"
            )
        }
        EditError::NoProgram { .. } => {
            format!(in alloc; "fillcsv: row {number}: not learned from: no rule gives this text\n")
        }
        EditError::TooManyBranches { .. } => {
            format!(in alloc;
                "fillcsv: row {number}: not learned from: no rule fits it beside the examples above, and more than 8 rules would be needed\n"
            )
        }
        EditError::NoGuard { .. } => {
            format!(in alloc;
                "fillcsv: row {number}: not learned from: no rule fits it beside the examples above, and nothing tells its row from theirs\n"
            )
        }
        EditError::NoSuchRow { .. }
        | EditError::HasExample
        | EditError::NoExample
        | EditError::TooMany
        | EditError::NoMemory => format!(in alloc; "fillcsv: row {number}: not learned from\n"),
    }
}
