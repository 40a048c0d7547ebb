//! Laws of the definitions that the contracts of this crate cite.
//!
//! Each function does nothing: what it tells is its clauses, which hold over all grounds and for all lists of examples
//! and of moves.
ghost use Rattle.std.specs.Prelude.{◌≡◌, ◌≢◌, ℕ, All, Contains, Err, List, None, Option, Some};
ghost use Rattle.fill_tables.specs.Keys.{KeysDistinguish};
ghost use Rattle.fill_tree.specs.declared.user.Edit.{Edit};
ghost use Rattle.fill_tree.specs.declared.user.Example.{Example};
ghost use Rattle.fill_undo.specs.Done.{done_of};
ghost use Rattle.fill_undo.specs.declared.done.Done.{Done};
ghost use Rattle.fill_space.specs.declared.ground.Ground.{Ground};
ghost use Rattle.fill_space.specs.Objector.{ObjectionTree};
ghost use Rattle.fill_session.specs.Answers.{AnswerIs, IsBranchAt};
ghost use Rattle.fill_session.specs.Branches.{AreBranches, BranchData};
ghost use Rattle.fill_session.specs.Fate.{FateIs};
ghost use Rattle.fill_session.specs.Laws.{IsGivenAs, IsReproducedBy};
ghost use Rattle.fill_session.specs.Made.{AreMade, start};
ghost use Rattle.fill_session.specs.Objector.{ObjectorIs};
ghost use Rattle.fill_session.specs.Outcome.{OutcomeIs};
ghost use Rattle.fill_session.specs.State.{AreHeld};
ghost use Rattle.fill_session.specs.Timeline.{RedoIs, Timeline, UndoIs, edited};
ghost use Rattle.fill_session.specs.declared.answer.Answer.{Answer};
ghost use Rattle.fill_session.specs.declared.error.EditError.{EditError};
ghost use Rattle.fill_session.specs.declared.moves.Move.{Move};
ghost use Rattle.fill_session.specs.declared.moves.Reply.{Reply};

use crate::reasons::MOST_INPUT_CHARACTERS;

/// Each example's row takes one of the branches, which reproduces the example; so the answer there is the example's
/// text. Programs have one value where the keys of the tables distinguish their rows.
pub fn examples_are_reproduced()
    ensures taken { (g : Ground) (examples : List Example) (branches : List BranchData) (e : Example) →
        AreBranches g examples branches → Contains examples e → (n : ℕ) × (b : BranchData) × IsBranchAt g.sheet e.row branches n b }
    ensures reproduced { (g : Ground) (examples : List Example) (branches : List BranchData) (e : Example) →
        KeysDistinguish g.tables → AreBranches g examples branches → Contains examples e →
        (n : ℕ) (b : BranchData) → IsBranchAt g.sheet e.row branches n b → IsReproducedBy g e b }
    ensures given { (g : Ground) (examples : List Example) (e : Example) (a : Answer) →
        KeysDistinguish g.tables → Contains examples e → AnswerIs g examples e.row a → IsGivenAs e a }
{}

/// After any sequence of moves, even refused or out-of-memory ones, the examples are accepted ones, and so are those
/// of each state that undo and redo come to.
pub fn accepted_stay_accepted()
    ensures present { (g : Ground) (moves : List Move) (replies : List Reply) (n : ℕ) (t : Timeline) →
        AreMade g start moves replies n t → FateIs g t.examples None }
    ensures others { (g : Ground) (moves : List Move) (replies : List Reply) (n : ℕ) (t : Timeline) →
        AreMade g start moves replies n t → AreHeld (λ examples. FateIs g examples None) t.moves }
{}

/// Examples have at most one fate, and at most one list of branches.
pub fn one_fate()
    ensures fate { (g : Ground) (examples : List Example) (a b : Option EditError) →
        FateIs g examples a → FateIs g examples b → a ≡ b }
    ensures branches { (g : Ground) (examples : List Example) (a b : List BranchData) →
        AreBranches g examples a → AreBranches g examples b → a ≡ b }
{}

/// An edit of examples has at most one outcome. So the same moves of the same timeline have the same replies, may take the
/// same steps and leave the same timeline, unless memory was wanted.
pub fn one_outcome()
    ensures outcome { (g : Ground) (examples : List Example) (edit : Edit) (a b : Option EditError) →
        OutcomeIs g examples edit a → OutcomeIs g examples edit b → a ≡ b }
    ensures moves { (g : Ground) (a : Timeline) (moves : List Move) (ones others : List Reply) (n k : ℕ) (b c : Timeline) →
        All (λ r. r ≢ Reply.Edited (Err EditError.NoMemory)) ones → All (λ r. r ≢ Reply.Edited (Err EditError.NoMemory)) others →
        AreMade g a moves ones n b → AreMade g a moves others k c → (ones ≡ others) × (n ≡ k) × (b ≡ c) }
{}

/// Examples have at most one answer on a row.
pub fn one_answer()
    ensures { (g : Ground) (examples : List Example) (row : ℕ) (a b : Answer) →
        AnswerIs g examples row a → AnswerIs g examples row b → a ≡ b }
{}

/// A row has at most one objector.
pub fn one_objector()
    ensures { (g : Ground) (examples : List Example) (row : ℕ) (a b : Option ObjectionTree) →
        ObjectorIs g examples row a → ObjectorIs g examples row b → a ≡ b }
{}

/// An accepted edit that is undone is told, and the examples of before it are there again. What was undone and is done again
/// is told once more, and all is as before both.
pub fn undo_goes_back()
    ensures undone { (a b c : Timeline) (edit : Edit) (o : Option Done) →
        b ≡ edited a edit → UndoIs b o c → (o ≡ Some (done_of edit)) × (c.examples ≡ a.examples) }
    ensures redone { (a b c : Timeline) (done : Done) (o : Option Done) →
        UndoIs a (Some done) b → RedoIs b o c → (o ≡ Some done) × (c ≡ a) }
{}

/// How many characters the input cells of an example's row may have together.
pub fn limits_are_as_specified()
    ensures { MOST_INPUT_CHARACTERS ≡ 1000 }
{}
