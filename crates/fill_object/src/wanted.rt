//! What the rest of a program is wanted to answer.
ghost use Rattle.std.specs.Prelude.{◌≡◌, ◌≢◌, ◌⊎◌, ◌↔◌, ◌+◌, ◌++◌, drop, length, IsTrue, MatchOption, List as Items, ℕ, false};
ghost use Rattle.fill_tree.specs.Tree.{AtomTree, Atoms, end, more};
ghost use Rattle.fill_tree.specs.Value.{AtomIs, IsValue};
ghost use Rattle.fill_object.specs.Wants.{RestAgrees};
ghost use Rattle.fill_object.specs.declared.row.OnRow.{OnRow as Row};

use fill_text::Text;

/// What the rest of a program is to answer, so that the whole program answers otherwise than was said.
#[derive(Clone, Copy)]
pub(crate) enum Wanted {
    /// Anything: what came before is otherwise already.
    Any,
    /// Another text than the end of the said one from this character on, or none.
    Other(usize),
    /// Some text.
    Value,
}

impl Wanted {
    /// Whether both are the same.
    pub fn same(self, other: Wanted) -> bool
        ensures { IsTrue result → self ≡ other }
    {
        match (self, other) {
            (Wanted::Any, Wanted::Any) => true,
            (Wanted::Other(from), Wanted::Other(others)) => from == others,
            (Wanted::Value, Wanted::Value) => true,
            _ => false,
        }
    }

    /// Whether the end of a program, which adds no character, answers what is wanted.
    pub fn is_end(self, answer: &[char]) -> bool
        ensures wanted { (on : Row) → IsTrue result → ¬ (RestAgrees on answer.now self end) }
        ensures other { (on : Row) → result ≡ false → RestAgrees on answer.now self end }
    {
        match self {
            Wanted::Any => true,
            Wanted::Other(from) => from < answer.len(),
            Wanted::Value => true,
        }
    }

    /// What is wanted of the rest after an atom of this text. None where no rest helps.
    pub fn after(self, answer: &[char], text: &Option<Text>) -> Option<Wanted>
        ensures { (on : Row) (a : AtomTree) (q : Atoms) → IsValue (AtomIs on.sheet.now on.tables.now on.row a) text.now →
            MatchOption result (RestAgrees on answer.now self (more a q)) (λ next. RestAgrees on answer.now next q ↔ RestAgrees on answer.now self (more a q)) }
    {
        match (self, text) {
            (Wanted::Any, _) => Some(Wanted::Any),
            (Wanted::Value, None) => None,
            (Wanted::Value, Some(_)) => Some(Wanted::Value),
            (Wanted::Other(_), None) => Some(Wanted::Any),
            (Wanted::Other(from), Some(text)) => Some(after_text(answer, from, text.as_slice())),
        }
    }
}

/// What is wanted after a text, where the end of the said one from a character on is not to come.
fn after_text(answer: &[char], from: usize, text: &[char]) -> Wanted
    ensures { ((rest : Items ℕ) × (drop from answer.now ≡ text.now ++ rest) × (result ≡ Wanted.Other (from + length text.now)))
        ⊎ (((rest : Items ℕ) → drop from answer.now ≢ text.now ++ rest) × (result ≡ Wanted.Any)) }
{
    if end_of(answer, from).starts_with(text) {
        Wanted::Other(from + text.len())
    } else {
        Wanted::Any
    }
}

/// The characters from this one on; none past the end.
fn end_of(answer: &[char], from: usize) -> &[char]
    ensures { result.now ≡ drop from answer.now }
{
    if from < answer.len() {
        &answer[from..]
    } else {
        &[]
    }
}
