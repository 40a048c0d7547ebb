//! What examples teach hangs on their own rows alone, and what they answer on a row hangs on that row besides.
//!
//! So a sheet of any length can be answered piece by piece, beside the rows of its examples. Each function does nothing: what
//! it tells is its clauses, which hold over all grounds and for all lists of examples.
#![tactic(auto)]

ghost use Rattle.std.specs.Prelude.{◌≡◌, ◌∷◌, ℕ, List, Option, map, option_map};
ghost use Rattle.fill_tree.specs.declared.user.Edit.TheVariants.{Add};
ghost use Rattle.fill_tree.specs.declared.user.Example.{Example};
ghost use Rattle.fill_space.specs.Objector.{ObjectionTree};
ghost use Rattle.fill_space.specs.declared.ground.Ground.{Ground};
ghost use Rattle.fill_session.specs.Answers.{AnswerIs};
ghost use Rattle.fill_session.specs.Branches.{AreBranches, BranchData};
ghost use Rattle.fill_session.specs.Edits.{changed, rows_of};
ghost use Rattle.fill_session.specs.Objector.{ObjectorIs};
ghost use Rattle.fill_session.specs.Outcome.{OutcomeIs};
ghost use Rattle.fill_session.specs.declared.answer.Answer.{Answer};
ghost use Rattle.fill_session.specs.declared.error.EditError.{EditError};
ghost use Rattle.fill_local.specs.Local.{AreInOrder, AreKept, AreRenumbered, IsSameButRows, renumbered, renumbered_branch, renumbered_reason};

/// Where two sheets hold the same in the rows of the examples and in the row that is asked, the answer there is the same, with
/// its branch and its flag, and so is the objector.
pub fn answers_hang_on_their_rows()
    ensures answers { (g h : Ground) (examples : List Example) (row : ℕ) (a : Answer) →
        IsSameButRows g h → AreKept g h (row ∷ rows_of examples) → AnswerIs g examples row a → AnswerIs h examples row a }
    ensures objectors { (g h : Ground) (examples : List Example) (row : ℕ) (found : Option ObjectionTree) →
        IsSameButRows g h → AreKept g h (row ∷ rows_of examples) → ObjectorIs g examples row found → ObjectorIs h examples row found }
{}

/// Where the rows stand under other numbers, the branches have the same guards and programs, and answers and objectors are
/// the same.
pub fn numbers_of_rows_do_not_count()
    ensures branches { (g h : Ground) (number : ℕ → ℕ) (examples : List Example) (branches : List BranchData) →
        AreRenumbered g h number (rows_of examples) → AreBranches g examples branches →
        AreBranches h (renumbered number examples) (map (renumbered_branch number) branches) }
    ensures answers { (g h : Ground) (number : ℕ → ℕ) (examples : List Example) (row : ℕ) (a : Answer) →
        AreRenumbered g h number (row ∷ rows_of examples) → AnswerIs g examples row a → AnswerIs h (renumbered number examples) (number row) a }
    ensures objectors { (g h : Ground) (number : ℕ → ℕ) (examples : List Example) (row : ℕ) (found : Option ObjectionTree) →
        AreRenumbered g h number (row ∷ rows_of examples) → ObjectorIs g examples row found → ObjectorIs h (renumbered number examples) (number row) found }
{}

/// What one more example leads to, accepted or refused for a reason, hangs on its row and on those of the examples before it,
/// whatever their numbers, as long as these keep their order; and so do the examples that there are with it.
pub fn edits_hang_on_their_rows()
    ensures outcomes { (g h : Ground) (number : ℕ → ℕ) (examples : List Example) (row : ℕ) (text : List ℕ) (reason : Option EditError) →
        AreInOrder g h number (row ∷ rows_of examples) → OutcomeIs g examples (Add row text) reason →
        OutcomeIs h (renumbered number examples) (Add (number row) text) (option_map (renumbered_reason number) reason) }
    ensures changes { (g h : Ground) (number : ℕ → ℕ) (examples : List Example) (row : ℕ) (text : List ℕ) →
        AreInOrder g h number (row ∷ rows_of examples) →
        changed (renumbered number examples) (Add (number row) text) ≡ renumbered number (changed examples (Add row text)) }
{}
