//! Blocks.
ghost use Rattle.std.specs.Prelude.{◌≡◌, ◌≤◌, ◌+◌, List as Listed, All, Contains, IfOk, MatchOption, None, OnErr, OnOk, [], length, option_copied, option_map};
ghost use Rattle.std.specs.Option.{ForSome};
ghost use Rattle.fill_doubt.specs.Shapes.{ShapesStand};
ghost use Rattle.fill_sheet.specs.Columns.{AreInputs, IsColumn, rising};
ghost use Rattle.fill_sheet.specs.Sheet.{given_at};
ghost use Rattle.fill_tree.specs.Grammar.{AreSettings};
ghost use Rattle.fill_tree.specs.Switch.{switch_tree};
ghost use Rattle.fill_tree.specs.declared.user.Edit.TheVariants.{Add};
ghost use Rattle.fill_tree.specs.declared.user.Example.{Example as ExampleData};
ghost use Rattle.fill_space.specs.Ground.{MayStand};
ghost use Rattle.fill_space.specs.declared.ground.Ground.{Ground};
ghost use Rattle.fill_session.specs.Answers.{AnswerIs, switch_of};
ghost use Rattle.fill_session.specs.Branches.{AreBranches, BranchData};
ghost use Rattle.fill_session.specs.Edits.{changed};
ghost use Rattle.fill_session.specs.Outcome.{Answers, OutcomeIs};
ghost use Rattle.fill_session.specs.State.{IsAsBefore};
ghost use Rattle.fill_local.specs.Local.{renumbered, renumbered_reason};
ghost use Rattle.fillcsv_blocks.specs.Accepted.{Accepts};
ghost use Rattle.fillcsv_blocks.specs.Blocks.{HasNumber, StandsFor};
ghost use Rattle.fillcsv_blocks.specs.Merged.{IsReadable, IsRowOf, RowsRise};
ghost use Rattle.fillcsv_blocks.specs.Numbers.{number_at};

use crate::numbered::Rows;
use crate::part::Part;
use fill_edge::{Ledger, Steps};
use fill_session::{Answer, EditError, Session, Shapes};
use fill_sheet::MOST_ROWS;
use fill_tables::Tables;
use fill_text::{List, NoMemory, Text};
use fill_tree::{Edit, Example, Settings, Switch};
use std::alloc::Global;
use std::marker::Model;

/// Some rows of a long sheet as a sheet of their own, with a session over them.
#[derive(Drop)]
pub struct Block {
    session: Session,
    // which rows of the long sheet these are, in rising order
    numbers: Vec<u32>,
}

impl Model for Block {
    ghost use Rattle.std.specs.Prelude.{◌≡◌, length};
    ghost use Rattle.fill_tree.specs.contracts.tree.Atom as atom;
    ghost use Rattle.std.specs.Coded.{codes};
    ghost use Rattle.fillcsv_blocks.specs.Blocks.{BlockData};
    ghost use Rattle.fillcsv_blocks.specs.Numbers.{Rise};

    ghost Value = { BlockData };

    ghost coded = { Prim.hlevel (codes, atom.the_row.coded) };

    ghost view = { λ b. record { session = b.session; numbers = b.numbers.items } };

    ghost invariant = { λ b. Rise b.numbers.items × (length b.numbers.items ≡ length b.session.spaces.ground.sheet.rows) };
}

impl Block {
    /// A block over these rows, without examples.
    pub fn open(
        alloc: Global,
        settings: Settings,
        rows: &Rows<'_>,
        tables: Tables,
    ) -> Result<Block, NoMemory>
        requires settings { AreSettings settings }
        requires inputs { AreInputs rows.now.inputs.now }
        requires output { ForSome rows.now.output IsColumn }
        requires few { length rows.now.first.now + length rows.now.second.now ≤ MOST_ROWS }
        requires first { All (IsReadable (rising rows.now.inputs.now) rows.now.output) rows.now.first.now }
        requires second { All (IsReadable (rising rows.now.inputs.now) rows.now.output) rows.now.second.now }
        requires first_rises { RowsRise rows.now.first.now }
        requires second_rises { RowsRise rows.now.second.now }
        ensures stands { IfOk result (λ made. (g : Ground) → g.settings ≡ settings → g.tables ≡ tables → g.sheet.inputs ≡ rising rows.now.inputs.now →
            All (IsRowOf g.sheet rows.now.output) rows.now.first.now → All (IsRowOf g.sheet rows.now.output) rows.now.second.now → StandsFor g made []) }
        ensures first { IfOk result (λ made. All (λ it. Contains made.numbers it.number) rows.now.first.now) }
        ensures second { IfOk result (λ made. All (λ it. Contains made.numbers it.number) rows.now.second.now) }
    {
        let Part { sheet, numbers } = Part::of(alloc, rows)?;
        let session = Session::new(alloc, settings, sheet, tables)?;
        Ok(Block { session, numbers })
    }

    /// Adds the text of a row of the long sheet, or tells why it is refused there. After a refusal the block is as before.
    pub fn add<L: Ledger>(
        &mut self,
        number: u32,
        text: Text,
        steps: &mut Steps<L>,
    ) -> Result<(), EditError>
        requires { Contains self.old.numbers number }
        ensures numbers { self.new.numbers ≡ self.old.numbers }
        ensures answers { (g : Ground) (examples : Listed ExampleData) → StandsFor g self.old examples →
            (after : Listed ExampleData) × Answers g examples (Add number text) result after × StandsFor g self.new after }
        ensures as_before { OnErr result (IsAsBefore self.old.session self.new.session) }
    {
        self.keeps_rows();
        let row = self.row_of(number);
        let edit = Edit::Add { row, text };
        match self.session.edit(&edit, steps) {
            Ok(()) => Ok(()),
            Err(reason) => Err(renumbered_reason(&self.numbers, reason)),
        }
    }

    /// Adds examples of rows of the long sheet that were accepted one after the other before. Where one is not accepted now, as
    /// where the rows are others than then, it is answered as memory that ran out is.
    pub fn learn_again<L: Ledger>(
        &mut self,
        examples: &[Example],
        steps: &mut Steps<L>,
    ) -> Result<(), NoMemory>
        ensures numbers { self.new.numbers ≡ self.old.numbers }
        ensures learned { OnOk result ((g : Ground) (a b : Listed ExampleData) → StandsFor g self.old a → Accepts g a examples.now b → StandsFor g self.new b) }
    {
        for example in examples {
            self.add_again(example, steps)?;
        }
        Ok(())
    }

    /// Adds an example that was accepted before.
    fn add_again<L: Ledger>(
        &mut self,
        example: &Example,
        steps: &mut Steps<L>,
    ) -> Result<(), NoMemory>
        ensures numbers { self.new.numbers ≡ self.old.numbers }
        ensures learned { OnOk result ((g : Ground) (a : Listed ExampleData) → StandsFor g self.old a → OutcomeIs g a (Add example.now.row example.now.text) None →
            StandsFor g self.new (changed a (Add example.now.row example.now.text))) }
    {
        match self.row(example.row) {
            Some(_) => self.add_here(example, steps),
            None => Err(NoMemory),
        }
    }

    /// Adds an example that was accepted before, of a row that the block has.
    fn add_here<L: Ledger>(
        &mut self,
        example: &Example,
        steps: &mut Steps<L>,
    ) -> Result<(), NoMemory>
        requires { Contains self.old.numbers example.now.row }
        ensures numbers { self.new.numbers ≡ self.old.numbers }
        ensures learned { OnOk result ((g : Ground) (a : Listed ExampleData) → StandsFor g self.old a → OutcomeIs g a (Add example.now.row example.now.text) None →
            StandsFor g self.new (changed a (Add example.now.row example.now.text))) }
    {
        let text = example.text.copy()?;
        match self.add(example.row, text, steps) {
            Ok(()) => Ok(()),
            Err(_) => Err(NoMemory),
        }
    }

    /// The answer on a row of the long sheet, with what was found of the shapes of texts before, as long as the block stays
    /// as it is.
    pub fn answer(&self, shapes: &mut Shapes, number: u32) -> Result<Answer, NoMemory>
        requires here { Contains self.now.numbers number }
        requires shapes { ShapesStand self.now.session.spaces.arena shapes.old }
        ensures shapes { ShapesStand self.now.session.spaces.arena shapes.new }
        ensures answer { IfOk result (λ a. (g : Ground) (examples : Listed ExampleData) → StandsFor g self.now examples → AnswerIs g examples number a) }
    {
        self.keeps_rows();
        let row = self.row_of(number);
        self.session.answer_with(shapes, row)
    }

    /// The conditional program; none where there is no branch.
    pub fn switch(&self) -> Result<Option<Switch>, NoMemory>
        ensures { IfOk result (λ made. (g : Ground) (examples : Listed ExampleData) → StandsFor g self.now examples →
            (branches : Listed BranchData) × AreBranches g examples branches × (option_map switch_tree made ≡ switch_of branches)) }
    {
        self.keeps_rows();
        self.session.switch()
    }

    /// The examples, with the rows of the long sheet.
    pub fn examples(&self, alloc: Global) -> Result<List<Example>, NoMemory>
        ensures made { IfOk result (λ made. made ≡ renumbered (number_at self.now.numbers) self.now.session.examples) }
        ensures same { IfOk result (λ made. (g : Ground) (examples : Listed ExampleData) → StandsFor g self.now examples → made ≡ examples) }
    {
        let mut made = List::new(alloc);
        for example in self.session.examples() {
            let row = number_at(&self.numbers, example.row);
            let text = example.text.copy()?;
            made.push(Example { row, text })?;
        }
        Ok(made)
    }

    /// The tables, once the block is let go.
    pub fn into_tables(self) -> Tables
        ensures { result ≡ self.session.spaces.ground.tables }
    {
        let Block { session, .. } = self;
        session.into_tables()
    }

    /// The session over the rows of the block, which count from 1 there.
    pub fn session(&self) -> &Session
        ensures { result.now ≡ self.now.session }
    {
        &self.session
    }

    /// Which row of the block has this number in the long sheet; none where the block lacks the row.
    pub fn row(&self, number: u32) -> Option<u32>
        ensures { MatchOption result (¬ (Contains self.now.numbers number)) (HasNumber self.now number) }
    {
        // there are few enough to count them by `u32`
        let _rows = self.session.sheet().rows();
        match self.numbers.binary_search(&number) {
            Ok(above) => Some(above as u32 + 1),
            Err(_) => None,
        }
    }

    /// Which number a row of the block has in the long sheet; 0 where the block has no such row.
    pub fn number(&self, row: u32) -> u32
        ensures { result ≡ number_at self.now.numbers row }
    {
        number_at(&self.numbers, row)
    }

    /// The text that the sheet gives in its output column for a row of the long sheet.
    pub(crate) fn given(&self, number: u32) -> Option<&Text>
        requires { Contains self.now.numbers number }
        ensures { (g : Ground) (examples : Listed ExampleData) → StandsFor g self.now examples → option_copied result ≡ given_at g.sheet number }
    {
        let row = self.row_of(number);
        self.session.sheet().given(row)
    }

    /// The examples are of rows of the block. It does nothing.
    fn keeps_rows(&self)
        ensures { All (MayStand self.now.session.spaces.ground) self.now.session.examples }
    {
        let _examples = self.session.examples();
    }

    /// The row of the block with this number.
    fn row_of(&self, number: u32) -> u32
        requires { Contains self.now.numbers number }
        ensures { HasNumber self.now number result }
    {
        match self.row(number) {
            Some(row) => row,
            None => unreachable!(),
        }
    }
}

/// The number of a row, or 0 where there is no such row.
fn number_at(numbers: &[u32], row: u32) -> u32
    ensures { result ≡ number_at numbers.now row }
{
    if row == 0 {
        return 0;
    }
    match numbers.get(row as usize - 1) {
        Some(number) => *number,
        None => 0,
    }
}

/// A reason under the numbers of the long sheet.
fn renumbered_reason(numbers: &[u32], reason: EditError) -> EditError
    ensures { result ≡ renumbered_reason (number_at numbers.now) reason }
{
    match reason {
        EditError::NoProgram { row } => EditError::NoProgram {
            row: number_at(numbers, row),
        },
        EditError::TooManyBranches { row } => EditError::TooManyBranches {
            row: number_at(numbers, row),
        },
        other => other,
    }
}
