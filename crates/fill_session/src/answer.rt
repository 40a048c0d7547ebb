//! Answers.
use fill_text::Text;

/// What is known of a row's answer.
#[derive(Clone, Copy, Debug, PartialEq, Eq)]
pub enum State {
    /// The row has an example.
    Given,
    /// All programs agree.
    Sure,
    /// Two programs differ.
    Doubt,
}

/// The answer on a row.
#[derive(Debug, Drop)]
pub struct Answer {
    pub branch: u32,
    pub text: Option<Text>,
    pub state: State,
}
