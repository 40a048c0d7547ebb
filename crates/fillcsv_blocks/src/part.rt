//! Sheets of some rows of a long one.
ghost use Rattle.std.specs.Prelude.{◌≡◌, ◌<◌, ◌≤◌, ◌+◌, ◌-◌, ◌^◌, ◌==◌, List as Listed, All, IfOk, OnOk, drop, if◌then◌else◌, length};
ghost use Rattle.std.specs.Option.{ForSome};
ghost use Rattle.fill_sheet.specs.Columns.{AreInputs, IsColumn, rising};
ghost use Rattle.fillcsv_blocks.specs.Merged.{IsReadable, merged, no_rows, placed_in, with_row, with_rows};
ghost use Rattle.fillcsv_blocks.specs.declared.numbered.Numbered.{Numbered as NumberedRow};

use crate::numbered::{Numbered, Rows};
use fill_sheet::{MOST_ROWS, Sheet};
use fill_text::NoMemory;
use std::alloc::Global;
use std::marker::Model;

/// A sheet of some rows of a long one, and their numbers there.
#[derive(Drop)]
pub(crate) struct Part {
    pub(crate) sheet: Sheet,
    pub(crate) numbers: Vec<u32>,
}

impl Model for Part {
    ghost use Rattle.fillcsv_blocks.specs.Merged.{PartData};

    ghost Value = { PartData };

    ghost view = { λ part. record { sheet = part.sheet; numbers = part.numbers.items } };
}

impl Part {
    /// The rows of both lists in rising order.
    pub(crate) fn of(alloc: Global, rows: &Rows<'_>) -> Result<Part, NoMemory>
        requires inputs { AreInputs rows.now.inputs.now }
        requires output { ForSome rows.now.output IsColumn }
        requires few { length rows.now.first.now + length rows.now.second.now ≤ MOST_ROWS }
        requires first { All (IsReadable (rising rows.now.inputs.now) rows.now.output) rows.now.first.now }
        requires second { All (IsReadable (rising rows.now.inputs.now) rows.now.output) rows.now.second.now }
        ensures { IfOk result (λ part. part ≡ with_rows rows.now.output (no_rows (rising rows.now.inputs.now)) (merged rows.now.first.now rows.now.second.now)) }
    {
        let mut part = Part {
            sheet: Sheet::without_rows(alloc, rows.inputs)?,
            numbers: Vec::new(alloc),
        };
        let mut at = 0;
        for row in rows.first {
            at = part.add_through(rows, at, row)?;
        }
        part.add_from(rows, at)?;
        Ok(part)
    }

    /// Adds the rows of the second list from this place on that stand before a row, and then this one. Answers which place of
    /// the second list comes next.
    fn add_through(&mut self, rows: &Rows<'_>, at: usize, row: &Numbered) -> Result<usize, NoMemory>
        requires at { at ≤ length rows.now.second.now }
        requires room { length self.old.sheet.rows + (length rows.now.second.now - at) < MOST_ROWS }
        requires output { ForSome rows.now.output IsColumn }
        requires row { IsReadable self.old.sheet.inputs rows.now.output row.now }
        requires second { All (IsReadable self.old.sheet.inputs rows.now.output) rows.now.second.now }
        ensures inputs { self.new.sheet.inputs ≡ self.old.sheet.inputs }
        ensures bound { IfOk result (λ next. (at ≤ next) × (next ≤ length rows.now.second.now)) }
        ensures count { IfOk result (λ next. length self.new.sheet.rows ≤ length self.old.sheet.rows + (next - at) + 1) }
        ensures adds { IfOk result (λ next. (above : Listed NumberedRow → Listed NumberedRow) → with_rows rows.now.output self.new (above (drop next rows.now.second.now)) ≡ with_rows rows.now.output self.old (placed_in row.now above (drop at rows.now.second.now))) }
    {
        for next in at..rows.second.len() {
            let other = &rows.second[next];
            if other.number >= row.number {
                self.add(row, rows.output)?;
                return Ok(past(other, row, next));
            }
            self.add(other, rows.output)?;
        }
        self.add(row, rows.output)?;
        Ok(rows.second.len())
    }

    /// Adds the rows of the second list from this place on.
    fn add_from(&mut self, rows: &Rows<'_>, at: usize) -> Result<(), NoMemory>
        requires at { at ≤ length rows.now.second.now }
        requires room { length self.old.sheet.rows + (length rows.now.second.now - at) ≤ MOST_ROWS }
        requires output { ForSome rows.now.output IsColumn }
        requires second { All (IsReadable self.old.sheet.inputs rows.now.output) rows.now.second.now }
        ensures { OnOk result (self.new ≡ with_rows rows.now.output self.old (drop at rows.now.second.now)) }
    {
        for next in at..rows.second.len() {
            self.add(&rows.second[next], rows.output)?;
        }
        Ok(())
    }

    /// Adds a row after the last one.
    fn add(&mut self, row: &Numbered, output: Option<u32>) -> Result<(), NoMemory>
        requires room { length self.old.sheet.rows < MOST_ROWS }
        requires output { ForSome output IsColumn }
        requires row { IsReadable self.old.sheet.inputs output row.now }
        ensures inputs { self.new.sheet.inputs ≡ self.old.sheet.inputs }
        ensures adds { OnOk result (self.new ≡ with_row output self.old row.now) }
    {
        self.sheet.add_row(&row.fields, output)?;
        self.numbers.push(row.number)?;
        Ok(())
    }
}

/// The place after that of another row, if it has the row's number, or else its own place.
fn past(other: &Numbered, row: &Numbered, place: usize) -> usize
    requires { place < 2 ^ 63 }
    ensures { result ≡ (if other.now.number == row.now.number then place + 1 else place) }
{
    if other.number == row.number {
        place + 1
    } else {
        place
    }
}
