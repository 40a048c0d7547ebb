//! What a row of a block gives, and what it is written as.
ghost use Rattle.std.specs.Prelude.{◌≡◌, ◌<◌, ◌≤◌, List as Listed, Contains, IfOk, IfSome, Some, length, option_copied};
ghost use Rattle.fill_text.specs.Data.{nth};
ghost use Rattle.fill_tree.specs.declared.user.Example.{Example as ExampleData};
ghost use Rattle.fill_space.specs.declared.ground.Ground.{Ground};
ghost use Rattle.fill_session.specs.Answers.{AnswerIs};
ghost use Rattle.fill_output.specs.Fields.{Fields};
ghost use Rattle.fillcsv_rows.specs.Filled.{IsCellState, IsFilledRow};
ghost use Rattle.fillcsv_rows.specs.Learned.{given_for};
ghost use Rattle.fillcsv_blocks.specs.Blocks.{StandsFor};

use crate::block::Block;
use crate::numbered::Numbered;
use fill_session::Answer;
use fill_states::RowState;
use fill_text::{List, NoMemory, Text};
use fill_tree::Example;
use fillcsv_rows::{Form, cell_state, filled_fields, typed_at};
use std::alloc::Global;

impl Block {
    /// What a row of the long sheet gives: the text that is typed for it, or else that of its cell.
    pub fn given_for<'a>(&'a self, number: u32, typed: &'a [Example]) -> Option<&'a Text>
        requires { Contains self.now.numbers number }
        ensures { (g : Ground) (examples : Listed ExampleData) → StandsFor g self.now examples → option_copied result ≡ given_for typed.now g.sheet number }
    {
        match typed_at(typed, number) {
            Some(text) => Some(text),
            None => self.given(number),
        }
    }

    /// The fields of a row of the long sheet with its answer.
    pub fn row_fields(
        &self,
        alloc: Global,
        form: &Form,
        typed: &[Example],
        row: &Numbered,
        answer: &Answer,
    ) -> Result<List<List<u8>>, NoMemory>
        requires here { Contains self.now.numbers row.now.number }
        requires column { 1 ≤ form.now.column }
        requires states { IfSome form.now.states (λ column. 1 ≤ column) }
        ensures made { IfOk result (λ made. (g : Ground) (examples : Listed ExampleData) (records : Listed Fields) → StandsFor g self.now examples →
            nth records row.now.number ≡ Some row.now.fields → AnswerIs g examples row.now.number answer.now →
            IsFilledRow form.now typed.now g examples records row.now.number made) }
        ensures some { IfOk result (λ made. 0 < length made) }
    {
        let text = typed_at(typed, row.number);
        let cell = self.given(row.number);
        let fields = filled_fields(alloc, form, text, cell, answer, &row.fields)?;
        Ok(List::from_vec(fields))
    }

    /// The state of the cell of a row of the long sheet with its answer.
    pub fn row_state(&self, typed: &[Example], number: u32, answer: &Answer) -> RowState
        requires here { Contains self.now.numbers number }
        ensures { (g : Ground) (examples : Listed ExampleData) → StandsFor g self.now examples → AnswerIs g examples number answer.now →
            IsCellState typed.now g examples number result }
    {
        cell_state(self.given_for(number, typed), answer)
    }
}
