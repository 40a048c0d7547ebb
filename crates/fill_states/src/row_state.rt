//! The states of rows.
ghost use Rattle.std.specs.Prelude.{◌≡◌};
ghost use Rattle.fill_states.specs.States.{row_state, state_name};

use fill_session::{Answer, State};

/// What is told of a row.
#[derive(Clone, Copy, Debug, PartialEq, Eq)]
pub enum RowState {
    /// The row has an example.
    Given,
    /// All programs agree on a text.
    Sure,
    /// There is a text, and some programs differ.
    Doubt,
    /// There is no text.
    Nothing,
    /// There is no text, and some programs differ.
    NothingInDoubt,
}

impl RowState {
    /// The state of the row of an answer.
    pub fn of(answer: &Answer) -> RowState
        ensures { result ≡ row_state answer.now }
    {
        match answer.state {
            State::Given => RowState::Given,
            State::Sure => match answer.text {
                Some(_) => RowState::Sure,
                None => RowState::Nothing,
            },
            State::Doubt => match answer.text {
                Some(_) => RowState::Doubt,
                None => RowState::NothingInDoubt,
            },
        }
    }

    /// The word for the state.
    pub fn name(self) -> &'static [u8]
        ensures { result.now ≡ state_name self }
    {
        match self {
            RowState::Given => b"given",
            RowState::Sure => b"sure",
            RowState::Doubt => b"doubt",
            RowState::Nothing => b"none",
            RowState::NothingInDoubt => b"none doubt",
        }
    }
}
