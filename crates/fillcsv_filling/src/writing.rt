//! Writing a long sheet with its column filled.
ghost use Rattle.std.specs.Prelude.{◌≡◌, ◌≤◌, ◌++◌, ◌||◌, ◌⊎◌, ◌∷◌, [], ℕ, List as Listed, All, Contains, IfOk, IsErrOf, OnOk, Some, length};
ghost use Rattle.fill_edge.specs.Outside.{Rose};
ghost use Rattle.fill_records.specs.Records.{records_of};
ghost use Rattle.fill_tree.specs.declared.user.TheConstants.{MOST_EXAMPLES};
ghost use Rattle.fill_doubt.specs.Shapes.{ShapesStand};
ghost use Rattle.fillcsv_rows.specs.Filled.{is_unsure};
ghost use Rattle.fillcsv_blocks.specs.Merged.{numbers_of};
ghost use Rattle.fillcsv_filling.specs.Long.{AreFit, IsLong, IsSet, long_of};
ghost use Rattle.fillcsv_filling.specs.Reading.{AreOf, most_rows};
ghost use Rattle.fillcsv_filling.specs.Rows.{Stands, WritesBlock, WritesRow, WritesSheet};
ghost use Rattle.fillcsv_filling.specs.Taught.{IsTaught};

use crate::learning::Learned;
use crate::reading::{next_rows, skip_header};
use crate::sheet::{Basis, LongSheet};
use fill_edge::{Cabinet, Ledger, Sink, Steps, write_all};
use fill_output::Halt;
use fill_passes::{Origin, Pass};
use fill_session::Shapes;
use fill_sheet::put_record;
use fill_states::RowState;
use fill_text::{List, NoMemory};
use fillcsv_blocks::{Block, Numbered};
use fillcsv_rows::Summary;
use std::alloc::Global;

/// The most rows in doubt that are kept to be told of.
const MOST_SHOWN: usize = 1_000;

/// What is known of a sheet that was written.
#[derive(Drop)]
pub struct Written {
    pub summary: Summary,
    /// The first rows in doubt.
    pub shown: Vec<Numbered>,
}

/// Writes the head, and then the record of each row when it is made, in a pass over the file. Tells of all rows, and what the next
/// block is made of: the last block, where there is one.
///
/// A read that fails is answered as memory that ran out is: the rows before it are written.
pub fn write<C: Cabinet + Drop, B: Origin, L: Ledger, O: Sink>(
    alloc: Global,
    pass: &mut Pass<C, B>,
    sheet: &LongSheet<'_>,
    learned: &Learned,
    basis: Basis,
    steps: &mut Steps<L>,
    out: &mut O,
) -> Result<(Written, Basis), Halt>
    requires set { IsSet sheet.now }
    requires kept { AreFit sheet.now MOST_EXAMPLES learned.now.kept.items }
    ensures shown { IfOk result (λ made. AreFit sheet.now most_rows made.0.shown.items) }
    ensures fault { IsErrOf result Halt.Fault → Rose (O.faults out.old) (O.faults out.new) }
    ensures writes { (bytes : Listed ℕ) → pass.old ≡ Some (records_of bytes) → let s = long_of bytes sheet.now in IsLong s → IsTaught s learned.now basis →
        WritesSheet s learned.now basis s.head (O.written out.old) (O.written out.new) result }
{
    match write_all(out, sheet.head) {
        Ok(()) => write_blocks(alloc, pass, sheet, learned, basis, steps, out),
        Err(_) => Err(Halt::Fault),
    }
}

/// Writes the records of the rows, block by block.
fn write_blocks<C: Cabinet + Drop, B: Origin, L: Ledger, O: Sink>(
    alloc: Global,
    pass: &mut Pass<C, B>,
    sheet: &LongSheet<'_>,
    learned: &Learned,
    basis: Basis,
    steps: &mut Steps<L>,
    out: &mut O,
) -> Result<(Written, Basis), Halt>
    requires set { IsSet sheet.now }
    requires kept { AreFit sheet.now MOST_EXAMPLES learned.now.kept.items }
    ensures shown { IfOk result (λ made. AreFit sheet.now most_rows made.0.shown.items) }
    ensures fault { IsErrOf result Halt.Fault → Rose (O.faults out.old) (O.faults out.new) }
    ensures writes { (bytes : Listed ℕ) → pass.old ≡ Some (records_of bytes) → let s = long_of bytes sheet.now in IsLong s → IsTaught s learned.now basis →
        WritesSheet s learned.now basis [] (O.written out.old) (O.written out.new) result }
{
    let mut written = Written {
        summary: Summary::NONE,
        shown: Vec::new(alloc),
    };
    let mut basis = basis;
    match skip_header(alloc, pass, sheet.header) {
        Ok(()) => {}
        Err(NoMemory) => return Err(Halt::NoMemory),
    }
    let mut done = 0;
    loop {
        let rows = match next_rows(alloc, pass, sheet, done) {
            Ok(rows) => rows,
            Err(NoMemory) => return Err(Halt::NoMemory),
        };
        if rows.is_empty() {
            return Ok((written, basis));
        }
        done += rows.len() as u32;
        let block = match sheet.block(alloc, learned, basis, &rows, steps) {
            Ok(block) => block,
            Err(NoMemory) => return Err(Halt::NoMemory),
        };
        match write_rows(alloc, sheet, &block, rows, &mut written, out) {
            Ok(()) => basis = Basis::Block(block),
            Err(halt) => return Err(halt),
        }
    }
}

/// Writes the records of some rows, which a block has, each when it is made.
fn write_rows<O: Sink>(
    alloc: Global,
    sheet: &LongSheet<'_>,
    block: &Block,
    rows: Vec<Numbered>,
    written: &mut Written,
    out: &mut O,
) -> Result<(), Halt>
    requires set { IsSet sheet.now }
    requires here { All (λ it. Contains block.now.numbers it.number) rows.items }
    requires few { length written.old.shown.items ≤ MOST_SHOWN }
    ensures shown { OnOk result (AreOf written.new.shown.items (written.old.shown.items ++ rows.items)) }
    ensures few { OnOk result (length written.new.shown.items ≤ MOST_SHOWN) }
    ensures fault { IsErrOf result Halt.Fault → Rose (O.faults out.old) (O.faults out.new) }
    ensures later { O.faults out.old ≤ O.faults out.new }
    ensures writes { (bytes : Listed ℕ) → let s = long_of bytes sheet.now in Stands s block.now rows.items →
        WritesBlock s block.now (numbers_of rows.items) written.old.summary.unsure written.new.summary.unsure (O.written out.old) (O.written out.new) result }
{
    let mut shapes = Shapes::new(alloc);
    for row in rows {
        match write_row(alloc, sheet, block, &row, &mut shapes, out) {
            Ok(state) => written.note(row, state)?,
            Err(halt) => return Err(halt),
        }
    }
    Ok(())
}

/// Writes the record of a row, which a block has, and answers the state of its cell.
fn write_row<O: Sink>(
    alloc: Global,
    sheet: &LongSheet<'_>,
    block: &Block,
    row: &Numbered,
    shapes: &mut Shapes,
    out: &mut O,
) -> Result<RowState, Halt>
    requires set { IsSet sheet.now }
    requires here { Contains block.now.numbers row.now.number }
    requires shapes { ShapesStand block.now.session.spaces.arena shapes.old }
    ensures shapes { ShapesStand block.now.session.spaces.arena shapes.new }
    ensures fault { IsErrOf result Halt.Fault → Rose (O.faults out.old) (O.faults out.new) }
    ensures later { O.faults out.old ≤ O.faults out.new }
    ensures writes { (bytes : Listed ℕ) → let s = long_of bytes sheet.now in Stands s block.now (row.now ∷ []) →
        WritesRow s block.now row.now.number (O.written out.old) (O.written out.new) result }
{
    let answer = block.answer(shapes, row.number)?;
    let fields = block.row_fields(alloc, &sheet.form, sheet.typed, row, &answer)?;
    let mut line = List::new(alloc);
    put_record(alloc, &mut line, &fields)?;
    match write_all(out, line.as_slice()) {
        Ok(()) => Ok(block.row_state(sheet.typed, row.number, &answer)),
        Err(_) => Err(Halt::Fault),
    }
}

impl Written {
    /// Notes the state of a row's cell, and keeps the row where it is to be told of.
    fn note(&mut self, row: Numbered, state: RowState) -> Result<(), NoMemory>
        requires { length self.old.shown.items ≤ MOST_SHOWN }
        ensures unsure { OnOk result (self.new.summary.unsure ≡ (self.old.summary.unsure || is_unsure state)) }
        ensures shown { OnOk result ((self.new.shown.items ≡ self.old.shown.items) ⊎ (self.new.shown.items ≡ self.old.shown.items ++ row ∷ [])) }
        ensures few { OnOk result (length self.new.shown.items ≤ MOST_SHOWN) }
    {
        self.summary.add(row.number, state);
        if is_shown(state) && self.shown.len() < MOST_SHOWN {
            self.shown.push(row)?;
        }
        Ok(())
    }
}

/// Whether a row with this state is told of.
fn is_shown(state: RowState) -> bool {
    match state {
        RowState::Doubt | RowState::NothingInDoubt => true,
        RowState::Given | RowState::Sure | RowState::Nothing => false,
    }
}
