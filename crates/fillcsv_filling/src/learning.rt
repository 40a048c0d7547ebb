//! What the rows of a long sheet teach.
ghost use Rattle.std.specs.Prelude.{◌≡◌, ◌++◌, ◌⊎◌, ◌<◌, ◌≤◌, ◌∷◌, ℕ, [], List as Listed, All, Contains, IfOk, None, OnOk, Some, false, length};
ghost use Rattle.fill_records.specs.Records.{records_of};
ghost use Rattle.fill_tree.specs.declared.user.TheConstants.{MOST_EXAMPLES};
ghost use Rattle.fill_sheet.specs.Sheet.{given_in};
ghost use Rattle.fillcsv_rows.specs.Learned.{given_for};
ghost use Rattle.fillcsv_blocks.specs.Merged.{RowsRise};
ghost use Rattle.fillcsv_filling.specs.Long.{AreFit, IsLong, IsSet, LongData, long_of, rows_of};
ghost use Rattle.fillcsv_filling.specs.Reading.{AreOf, most_rows, numbered};
ghost use Rattle.fillcsv_filling.specs.Rows.{GivesNone, IsRow};
ghost use Rattle.fillcsv_filling.specs.Taught.{Adds, IsInStep, IsTaught, LearnsEach, LearnsRow, LearnsRows, Teaches, ground_with};

use crate::reading::{next_rows, skip_header};
use crate::sheet::{Basis, LongSheet};
use fill_edge::{Cabinet, Ledger, Steps};
use fill_passes::{Origin, Pass};
use fill_session::EditError;
use fill_tables::Tables;
use fill_text::{List, NoMemory, Text};
use fill_tree::{Example, MOST_EXAMPLES};
use fillcsv_blocks::{Block, Numbered};
use fillcsv_rows::{Refused, clash_of, typed_at};
use std::alloc::Global;

/// What rows teach.
#[derive(Drop)]
pub struct Learned {
    /// The examples, in the order of their rows.
    pub examples: List<Example>,
    /// The rows of the examples.
    pub kept: Vec<Numbered>,
    /// The given texts that are no examples.
    pub refused: List<Refused>,
    /// For each of the first of them that count the row of an example that reads the same cells, 0 where there is none.
    pub clashes: Vec<u32>,
}

/// For how many refused texts such an example is sought.
const MOST_CLASHES: usize = 10;

/// Learns from all rows that give a text, in their order, in a pass over the file. A text that is typed for a row wins over its
/// cell. Answers too what the next block is made of: the last block, where there is one.
///
/// A read that fails is answered as memory that ran out is. What was learned is of the file's bytes, where they are told.
pub fn learn<C: Cabinet + Drop, B: Origin, L: Ledger>(
    alloc: Global,
    pass: &mut Pass<C, B>,
    sheet: &LongSheet<'_>,
    tables: Tables,
    steps: &mut Steps<L>,
) -> Result<(Learned, Basis), NoMemory>
    requires { IsSet sheet.now }
    ensures kept { IfOk result (λ made. AreFit sheet.now MOST_EXAMPLES made.0.kept.items) }
    ensures teaches { IfOk result (λ made. (bytes : Listed ℕ) → pass.old ≡ Some (records_of bytes) → let s = long_of bytes sheet.now in IsLong s → Teaches s tables made.0 made.1) }
{
    let mut learned = Learned {
        examples: List::new(alloc),
        kept: Vec::new(alloc),
        refused: List::new(alloc),
        clashes: Vec::new(alloc),
    };
    let mut basis = Basis::Tables(tables);
    match skip_header(alloc, pass, sheet.header) {
        Ok(()) => {}
        Err(NoMemory) => return Err(NoMemory),
    }
    let mut done = 0;
    loop {
        let rows = match next_rows(alloc, pass, sheet, done) {
            Ok(rows) => rows,
            Err(NoMemory) => return Err(NoMemory),
        };
        if rows.is_empty() {
            return Ok((learned, basis));
        }
        done += rows.len() as u32;
        basis = match learn_rows(alloc, sheet, &mut learned, basis, rows, steps) {
            Ok(basis) => basis,
            Err(NoMemory) => return Err(NoMemory),
        };
    }
}

/// Learns from some rows, which stand after those of the examples.
fn learn_rows<L: Ledger>(
    alloc: Global,
    sheet: &LongSheet<'_>,
    learned: &mut Learned,
    basis: Basis,
    rows: Vec<Numbered>,
    steps: &mut Steps<L>,
) -> Result<Basis, NoMemory>
    requires set { IsSet sheet.now }
    requires kept { AreFit sheet.now MOST_EXAMPLES learned.old.kept.items }
    requires rows { AreFit sheet.now most_rows rows.items }
    ensures kept { OnOk result (AreOf learned.new.kept.items (learned.old.kept.items ++ rows.items)) }
    ensures few { OnOk result (length learned.new.kept.items ≤ MOST_EXAMPLES) }
    ensures learns { IfOk result (λ after. (bytes : Listed ℕ) → let s = long_of bytes sheet.now in IsLong s → IsTaught s learned.old basis →
        AreOf (learned.old.kept.items ++ rows.items) (numbered 1 (rows_of s)) → LearnsRows s learned.old basis rows.items learned.new after) }
{
    if !gives_any(sheet, &rows) {
        return Ok(basis);
    }
    let mut block = sheet.block(alloc, learned, basis, &rows, steps)?;
    learn_each(sheet, &mut block, learned, rows, steps)?;
    learned.examples = block.examples(alloc)?;
    Ok(Basis::Block(block))
}

/// Whether one of the rows gives a text.
fn gives_any(sheet: &LongSheet<'_>, rows: &[Numbered]) -> bool
    requires { IsSet sheet.now }
    ensures { (bytes : Listed ℕ) → let s = long_of bytes sheet.now in IsLong s → All (IsRow s) rows.now → result ≡ false → All (GivesNone s) rows.now }
{
    for row in rows {
        if gives(sheet, row) {
            return true;
        }
    }
    false
}

/// Whether a row gives a text: one is typed for it, or its cell has one.
fn gives(sheet: &LongSheet<'_>, row: &Numbered) -> bool
    requires { IsSet sheet.now }
    ensures { (bytes : Listed ℕ) → let s = long_of bytes sheet.now in IsLong s → IsRow s row.now → result ≡ false → GivesNone s row.now }
{
    match typed_at(sheet.typed, row.number) {
        Some(_) => true,
        None => has_cell(sheet, row),
    }
}

/// Whether the cell of a row has a text.
fn has_cell(sheet: &LongSheet<'_>, row: &Numbered) -> bool
    requires { IsSet sheet.now }
    ensures { result ≡ false → given_in sheet.now.output row.now.fields ≡ None }
{
    match sheet.output {
        Some(column) => !row.fields.field(column).is_empty(),
        None => false,
    }
}

/// Learns from each of these rows, which a block has. The examples are then those of the block, and are not set here.
fn learn_each<L: Ledger>(
    sheet: &LongSheet<'_>,
    block: &mut Block,
    learned: &mut Learned,
    rows: Vec<Numbered>,
    steps: &mut Steps<L>,
) -> Result<(), NoMemory>
    requires here { All (λ it. Contains block.old.numbers it.number) rows.items }
    requires few { length learned.old.kept.items ≤ MOST_EXAMPLES }
    ensures few { OnOk result (length learned.new.kept.items ≤ MOST_EXAMPLES) }
    ensures kept { OnOk result (AreOf learned.new.kept.items (learned.old.kept.items ++ rows.items)) }
    ensures learns { OnOk result ((bytes : Listed ℕ) → let s = long_of bytes sheet.now in IsInStep s learned.old.kept.items block.old → RowsRise (learned.old.kept.items ++ rows.items) →
        LearnsEach s block.old learned.old learned.new rows.items block.new) }
{
    for row in rows {
        learn_row(sheet, block, learned, row, steps)?;
    }
    Ok(())
}

/// Learns from a row of the block, where it gives a text.
fn learn_row<L: Ledger>(
    sheet: &LongSheet<'_>,
    block: &mut Block,
    learned: &mut Learned,
    row: Numbered,
    steps: &mut Steps<L>,
) -> Result<(), NoMemory>
    requires here { Contains block.old.numbers row.number }
    requires few { length learned.old.kept.items ≤ MOST_EXAMPLES }
    ensures few { OnOk result (length learned.new.kept.items ≤ MOST_EXAMPLES) }
    ensures numbers { block.new.numbers ≡ block.old.numbers }
    ensures kept { OnOk result ((learned.new.kept.items ≡ learned.old.kept.items) ⊎ (learned.new.kept.items ≡ learned.old.kept.items ++ row ∷ [])) }
    ensures learns { OnOk result ((bytes : Listed ℕ) → let s = long_of bytes sheet.now in IsInStep s learned.old.kept.items block.old → All (λ it. it.number < row.number) learned.old.kept.items →
        LearnsRow s block.old learned.old learned.new row.number (given_for s.typed (ground_with s block.old).sheet row.number) block.new) }
{
    let text = match block.given_for(row.number, sheet.typed) {
        None => return Ok(()),
        Some(text) => text.copy(),
    };
    match text {
        Ok(text) => learn_text(block, learned, row, text, steps),
        Err(NoMemory) => Err(NoMemory),
    }
}

/// Learns a text of a row of the block.
fn learn_text<L: Ledger>(
    block: &mut Block,
    learned: &mut Learned,
    row: Numbered,
    text: Text,
    steps: &mut Steps<L>,
) -> Result<(), NoMemory>
    requires here { Contains block.old.numbers row.number }
    requires few { length learned.old.kept.items ≤ MOST_EXAMPLES }
    ensures few { OnOk result (length learned.new.kept.items ≤ MOST_EXAMPLES) }
    ensures numbers { block.new.numbers ≡ block.old.numbers }
    ensures kept { OnOk result ((learned.new.kept.items ≡ learned.old.kept.items) ⊎ (learned.new.kept.items ≡ learned.old.kept.items ++ row ∷ [])) }
    ensures learns { OnOk result ((s : LongData) → IsInStep s learned.old.kept.items block.old → All (λ it. it.number < row.number) learned.old.kept.items →
        LearnsRow s block.old learned.old learned.new row.number (Some text) block.new) }
{
    let accepted = learned.add(block, row.number, text, steps)?;
    if !accepted {
        return Ok(());
    }
    // no session accepts more examples
    if learned.kept.len() >= MOST_EXAMPLES {
        return Err(NoMemory);
    }
    Ok(learned.kept.push(row)?)
}

impl Learned {
    /// Adds the text of a row to a block, and answers whether it was accepted. One that was not is noted.
    fn add<L: Ledger>(
        &mut self,
        block: &mut Block,
        row: u32,
        text: Text,
        steps: &mut Steps<L>,
    ) -> Result<bool, NoMemory>
        requires { Contains block.old.numbers row }
        ensures numbers { block.new.numbers ≡ block.old.numbers }
        ensures examples { self.new.examples ≡ self.old.examples }
        ensures kept { self.new.kept ≡ self.old.kept }
        ensures added { IfOk result (Adds block.old block.new row text self.old.refused self.new.refused) }
    {
        match block.add(row, text, steps) {
            Ok(()) => Ok(true),
            Err(EditError::NoMemory) => Err(NoMemory),
            Err(reason) => {
                let refused = Refused { row, reason };
                self.note_clash(block, &refused)?;
                self.refused.push(refused)?;
                Ok(false)
            }
        }
    }

    /// Notes which example a refused text clashes with, if its refusal is one of the first ones that count.
    fn note_clash(&mut self, block: &Block, refused: &Refused) -> Result<(), NoMemory>
        ensures examples { self.new.examples ≡ self.old.examples }
        ensures kept { self.new.kept ≡ self.old.kept }
        ensures refused { self.new.refused ≡ self.old.refused }
    {
        if !refused.counts() || self.clashes.len() >= MOST_CLASHES {
            return Ok(());
        }
        let Some(row) = block.row(refused.row) else {
            return Ok(());
        };
        let clash = clash_of(block.session(), row);
        self.clashes.push(block.number(clash))?;
        Ok(())
    }
}
