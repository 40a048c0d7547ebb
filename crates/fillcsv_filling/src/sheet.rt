//! Long sheets, and what their blocks are made of.
ghost use Rattle.std.specs.Prelude.{◌≡◌, ℕ, List as Listed, All, Contains, IfOk, true};
ghost use Rattle.fill_tree.specs.declared.user.TheConstants.{MOST_EXAMPLES};
ghost use Rattle.fillcsv_blocks.specs.Blocks.{StandsFor};
ghost use Rattle.fillcsv_filling.specs.Long.{AreFit, AreRows, IsLong, IsSet, ground_of, long_of};
ghost use Rattle.fillcsv_filling.specs.Reading.{most_rows};
ghost use Rattle.fillcsv_filling.specs.Taught.{IsTaught, tables_of};

use crate::learning::Learned;
use fill_edge::{Ledger, Steps};
use fill_tables::Tables;
use fill_text::NoMemory;
use fill_tree::{Example, Settings};
use fillcsv_blocks::{Block, Numbered, Rows};
use fillcsv_rows::Form;
use std::alloc::Global;

/// What is known of a sheet that is filled, beside the bytes of its file.
#[derive(Clone, Copy)]
pub struct LongSheet<'a> {
    /// Whether the first record names the columns.
    pub header: bool,
    /// The columns that rules may read, in any order.
    pub inputs: &'a [u32],
    /// The column whose cells are examples, where it has some.
    pub output: Option<u32>,
    /// The texts that are typed for rows.
    pub typed: &'a [Example],
    /// The bounds of the rules.
    pub settings: Settings,
    /// How answers are written.
    pub form: Form,
    /// What stands before the records of rows.
    pub head: &'a [u8],
}

/// What the next block is made of.
#[derive(Drop)]
pub enum Basis {
    /// The tables.
    Tables(Tables),
    /// The block before it, with the tables in it. It is that block itself where it has all rows.
    Block(Block),
}

impl LongSheet<'_> {
    /// A block that has these rows and what was learned.
    ///
    /// Whatever the file holds now, the rows are some that a block can have; where they are those of the sheet, the block stands
    /// for it.
    pub fn block<L: Ledger>(
        &self,
        alloc: Global,
        learned: &Learned,
        basis: Basis,
        rows: &[Numbered],
        steps: &mut Steps<L>,
    ) -> Result<Block, NoMemory>
        requires set { IsSet self.now }
        requires kept { AreFit self.now MOST_EXAMPLES learned.now.kept.items }
        requires rows { AreFit self.now most_rows rows.now }
        ensures stands { (bytes : Listed ℕ) → let s = long_of bytes self.now in IsLong s → IsTaught s learned.now basis → AreRows s rows.now →
            IfOk result (λ block. StandsFor (ground_of s (tables_of basis)) block learned.now.examples) }
        ensures here { IfOk result (λ block. All (λ it. Contains block.numbers it.number) rows.now) }
    {
        let tables = match basis {
            Basis::Tables(tables) => tables,
            Basis::Block(block) => {
                if has_rows(&block, rows) {
                    return Ok(block);
                }
                block.into_tables()
            }
        };
        self.open(alloc, learned, tables, rows, steps)
    }

    /// A new block of these rows and those of the examples, which are learned again.
    fn open<L: Ledger>(
        &self,
        alloc: Global,
        learned: &Learned,
        tables: Tables,
        rows: &[Numbered],
        steps: &mut Steps<L>,
    ) -> Result<Block, NoMemory>
        requires set { IsSet self.now }
        requires kept { AreFit self.now MOST_EXAMPLES learned.now.kept.items }
        requires rows { AreFit self.now most_rows rows.now }
        ensures stands { (bytes : Listed ℕ) → let s = long_of bytes self.now in IsLong s → IsTaught s learned.now (Basis.Tables tables) → AreRows s rows.now →
            IfOk result (λ block. StandsFor (ground_of s tables) block learned.now.examples) }
        ensures here { IfOk result (λ block. All (λ it. Contains block.numbers it.number) rows.now) }
    {
        let rows = Rows {
            inputs: self.inputs,
            output: self.output,
            first: &learned.kept,
            second: rows,
        };
        let mut block = Block::open(alloc, self.settings, &rows, tables)?;
        block.learn_again(learned.examples.as_slice(), steps)?;
        Ok(block)
    }
}

/// Whether a block has all of these rows.
fn has_rows(block: &Block, rows: &[Numbered]) -> bool
    ensures { result ≡ true → All (λ it. Contains block.now.numbers it.number) rows.now }
{
    for row in rows {
        if block.row(row.number).is_none() {
            return false;
        }
    }
    true
}
