//! What is told of a sheet once it is written. No contract says these texts.
ghost use Rattle.std.specs.Prelude.{◌≡◌, ◌||◌, ◌&&◌, true};
ghost use Rattle.std.specs.List.{list_any};
ghost use Rattle.fillcsv_rows.specs.Learned.{counts};

use crate::explain::Next;
use crate::stop::say;
use fill_edge::{Sink, write_all};
use fill_text::List;
use fillcsv_dialogue::refused_text;
use fillcsv_rows::{Counts, Refused, Summary};
use std::alloc::{AllocError, Global};

/// How many refused texts are told one by one.
const MOST_REFUSALS: usize = 10;

/// What is told of a sheet that was written.
#[derive(Drop)]
pub(crate) struct Told {
    /// The given texts that are no examples.
    pub refused: List<Refused>,
    /// For each of the first of them that count the row of an example that reads the same cells, 0 where there is none.
    pub clashes: Vec<u32>,
    /// How many cells have each state.
    pub summary: Summary,
    /// The rule that was learned, a line for each of its cases.
    pub rule: Vec<String>,
    /// Both answers for the cells of the first rows in doubt.
    pub doubts: Vec<String>,
    /// The row to look at next, where that is told.
    pub next: Option<Next>,
    /// The text of the rule, where it is to be saved and there is one.
    pub text: Option<List<u8>>,
}

impl Told {
    /// Whether something is left to do: a given text is refused, not counting those after the sixty-fourth example, or
    /// a cell is neither given nor sure where all are to be.
    pub(crate) fn is_wanting(&self, strict: bool) -> bool
        ensures { result ≡ (list_any counts self.now.refused || (strict && self.now.summary.unsure)) }
    {
        if any_counts(self.refused.as_slice()) {
            return true;
        }
        strict && self.summary.unsure
    }

    /// Tells on `err` which given texts are no examples, how many cells have each state, the rule, and the first rows in
    /// doubt. Rows are numbered as a spreadsheet shows them, the header among them. Out of memory and failed writes are passed
    /// over.
    pub(crate) fn say<E: Sink>(&self, alloc: Global, header: bool, err: &mut E) {
        let above = if header { 1 } else { 0 };
        let refused = self.refused.as_slice();
        for (i, cell) in refused
            .iter()
            .filter(|cell| cell.counts())
            .take(MOST_REFUSALS)
            .enumerate()
        {
            let clash = self.clashes.get(i).copied().unwrap_or(0);
            say_line(err, refused_text(alloc, above, cell, clash));
        }
        let counted = refused.iter().filter(|cell| cell.counts()).count();
        say_line(err, more_text(alloc, counted));
        if counted < refused.len() {
            say(
                err,
                b"fillcsv: only the first 64 filled cells are learned from\n",
            );
        }
        if self.summary.counts.given == 0 {
            say(
                err,
                b"fillcsv: no cell of the column is filled: nothing to learn from\n",
            );
        }
        say_line(err, counts_text(alloc, &self.summary.counts));
        for line in &self.rule {
            say_line(err, rule_text(alloc, line.as_str()));
        }
        if self.doubts.is_empty() {
            say_line(err, doubtful_text(alloc, above, &self.summary.counts));
        }
        for (i, doubt) in self.doubts.iter().enumerate() {
            let row = self.summary.counts.doubtful.get(i).copied().unwrap_or(0);
            say_line(
                err,
                doubt_text(alloc, row.saturating_add(above), doubt.as_str()),
            );
        }
        if let Some(next) = &self.next {
            let row = next.row.saturating_add(above);
            say_line(err, next_text(alloc, row, next.answers.as_str()));
        }
    }
}

/// Whether one of the refusals counts.
fn any_counts(refused: &[Refused]) -> bool
    ensures { result ≡ list_any counts refused.now }
{
    refused.iter().any(|cell| cell.counts())
}

/// Writes a line, where there was memory for it.
fn say_line<E: Sink>(err: &mut E, line: Result<String, AllocError>) {
    if let Ok(line) = line {
        let _ = write_all(err, line.as_bytes());
    }
}

/// A case of the rule.
fn rule_text(alloc: Global, line: &str) -> Result<String, AllocError> {
    format!(in alloc; "fillcsv: rule: {line}\n")
}

/// Both answers for the cell of a row.
fn doubt_text(alloc: Global, row: u32, doubt: &str) -> Result<String, AllocError> {
    format!(in alloc; "fillcsv: row {row}: {doubt}\n")
}

/// The row to look at next, and both answers for its cell.
fn next_text(alloc: Global, row: u32, answers: &str) -> Result<String, AllocError> {
    format!(in alloc; "fillcsv: look at row {row} next: {answers}\n")
}

/// How many cells have each state.
fn counts_text(alloc: Global, counts: &Counts) -> Result<String, AllocError> {
    let Counts {
        given,
        sure,
        doubt,
        nothing,
        nothing_in_doubt,
        ..
    } = *counts;
    format!(in alloc;
        "fillcsv: {given} given, {sure} sure, {doubt} doubt, {nothing} none, {nothing_in_doubt} none doubt\n"
    )
}

/// How many given cells are no examples beside those that are told; empty where there are none.
fn more_text(alloc: Global, refused: usize) -> Result<String, AllocError> {
    let more = refused.saturating_sub(MOST_REFUSALS);
    if more == 0 {
        return Ok(String::new(alloc));
    }
    format!(in alloc; "fillcsv: {more} more cells are not learned from\n")
}

/// The rows of the first cells in doubt; empty where there are none.
fn doubtful_text(alloc: Global, above: u32, counts: &Counts) -> Result<String, AllocError> {
    let mut text = String::new(alloc);
    for row in counts.doubtful.iter() {
        if *row == 0 {
            break;
        }
        let number = row.saturating_add(above);
        let next = if text.is_empty() {
            format!(in alloc; "fillcsv: look at row {number}")?
        } else {
            format!(in alloc; ", {number}")?
        };
        text.push_str(next.as_str())?;
    }
    if !text.is_empty() {
        text.push_str("\n")?;
    }
    Ok(text)
}
