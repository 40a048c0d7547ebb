//! Sessions.
ghost use Rattle.std.specs.Prelude.{◌≡◌, ◌≢◌, ◌↔◌, ◌+◌, ◌<◌, ◌≤◌, ◌^◌, List as Listed, length, map, [], None, Some, Ok, Err, Result, IfOk, IfSome, OnErr, IsTrue, All, option_map};
ghost use Rattle.fill_tree.specs.Cost.{program_cost};
ghost use Rattle.fill_tree.specs.Grammar.{AreSettings};
ghost use Rattle.fill_tree.specs.Meaning.{program_tree};
ghost use Rattle.fill_tree.specs.Switch.{switch_tree};
ghost use Rattle.fill_tree.specs.declared.user.Example.{Example};
ghost use Rattle.fill_doubt.specs.Shapes.{ShapesStand};
ghost use Rattle.fill_space.specs.Best.{AreBestOn, BeginsWithChosen};
ghost use Rattle.fill_space.specs.Ground.{ExplainsOn, MayStand};
ghost use Rattle.fill_space.specs.Objector.{objection_tree};
ghost use Rattle.fill_space.specs.Spaces.{SpaceStands};
ghost use Rattle.fill_session.specs.Answers.{AnswerIs, switch_of};
ghost use Rattle.fill_session.specs.Branches.{AreBranches, BranchData};
ghost use Rattle.fill_session.specs.Edits.{AreExamples};
ghost use Rattle.fill_session.specs.Objector.{ObjectorIs};
ghost use Rattle.fill_session.specs.Outcome.{Answers, first_reason, term};
ghost use Rattle.fill_session.specs.State.{AreShown, IsAsBefore, IsBranch};
ghost use Rattle.fill_session.specs.Suggested.{SuggestionIs, asked_of};
ghost use Rattle.fill_session.specs.Timeline.{RedoIs, UndoIs, edited_by, forgotten, timeline};
ghost use Rattle.fill_undo.specs.Moves.{no_moves};
ghost use Rattle.fill_session.specs.declared.answer.Answer.{Answer as Answered};
ghost use Rattle.fill_session.specs.declared.answer.State.TheVariants.{Doubt};
ghost use Rattle.fill_session.specs.declared.error.EditError.{EditError};

use crate::answers::{answer_on, objector_on, switch_from};
use crate::compaction::{compact, is_due};
use crate::edit::present_after;
use crate::present::Present;
use crate::reasons::first_reason;
use crate::suggestion::{Suggestion, suggest_beside};
use crate::{Answer, Branch, EditError};
use fill_edge::{Ledger, Steps};
use fill_sheet::Sheet;
use fill_space::{Objection, Shapes, Space, Spaces};
use fill_tables::Tables;
use fill_text::{List, NoMemory};
use fill_tree::{Edit, Example, MOST_EXAMPLES, MOST_PROGRAMS, Program, Settings, Switch};
use fill_undo::{Done, History};
use std::alloc::Global;
use std::marker::Model;
use std::mem;

/// How many states the history keeps.
const MOST_STATES: usize = 32;

/// Examples over a sheet and tables, the branches that are learned from them, and the edits that can be undone.
#[derive(Drop)]
pub struct Session {
    alloc: Global,
    spaces: Spaces,
    present: Present,
    history: History<Present>,
    // the size of the spaces after the last compaction, 0 before the first
    compacted: u128,
}

impl Model for Session {
    ghost use Rattle.fill_session.specs.State.{SessionData, AreHeld, IsHeld, seen_as};
    ghost use Rattle.fill_tree.specs.contracts.tree.Atom as atom;
    ghost use Rattle.std.specs.Coded.{codes};

    ghost Value = { SessionData };

    ghost coded = { Prim.hlevel (codes, atom.the_row.coded) };

    ghost view = { λ s. record { spaces = s.spaces; examples = s.present.examples; branches = s.present.branches; moves = seen_as (λ p. p.examples) s.history } };

    ghost invariant = { λ s. IsHeld s.spaces s.present.examples s.present.folds s.present.branches × AreHeld (λ p. IsHeld s.spaces p.examples p.folds p.branches) s.history };
}

impl Session {
    /// No examples yet, and no edit to undo. Takes the memory that the history will ever need.
    pub fn new(
        alloc: Global,
        settings: Settings,
        sheet: Sheet,
        tables: Tables,
    ) -> Result<Session, NoMemory>
        requires { AreSettings settings }
        ensures ground { IfOk result (λ made. made.spaces.ground ≡ record { settings = settings; sheet = sheet; tables = tables }) }
        ensures timeline { IfOk result (λ made. timeline made ≡ record { examples = []; moves = no_moves }) }
    {
        let history = History::new(alloc)?;
        let spaces = Spaces::new(alloc, sheet, tables, settings);
        let present = Present::none(alloc, &settings);
        Ok(Session {
            alloc,
            spaces,
            present,
            history,
            compacted: 0,
        })
    }

    /// Makes an edit, or tells why it is refused. After a refusal the session is as before. One that is accepted can be
    /// undone.
    pub fn edit<L: Ledger>(&mut self, edit: &Edit, steps: &mut Steps<L>) -> Result<(), EditError>
        ensures ground { self.new.spaces.ground ≡ self.old.spaces.ground }
        ensures answers { Answers self.old.spaces.ground self.old.examples edit.now result self.new.examples }
        ensures timeline { timeline self.new ≡ edited_by (timeline self.old) edit.now result }
        ensures certain { (reason : EditError) → first_reason self.old.spaces.ground.sheet self.old.examples edit.now ≡ Some reason → result ≡ Err reason }
        ensures cleared { edit.now ≡ Edit.Clear → result ≡ Ok tt }
        ensures same { edit.now ≡ Edit.Clear → self.new.spaces ≡ self.old.spaces }
        ensures as_before { OnErr result (IsAsBefore self.old self.new) }
        ensures cost { steps.new ≤ steps.old + term self.old.spaces.ground.sheet self.old.examples edit.now }
    {
        let examples = self.present.examples.as_slice();
        if let Some(reason) = first_reason(self.spaces.sheet(), examples, edit) {
            return Err(reason);
        }
        match present_after(self.alloc, &mut self.spaces, &self.present, edit, steps) {
            Ok(present) => {
                let forgets = self.history.can_redo() || self.history.len() == MOST_STATES;
                let before = mem::replace(&mut self.present, present);
                self.history.push(edit, before);
                if is_due(edit, forgets, self.spaces.size(), self.compacted) {
                    self.compact();
                }
                Ok(())
            }
            Err(refusal) => Err(refusal),
        }
    }

    /// Undoes the last edit that was accepted, if there is one, and tells what that edit did. It takes no memory and no
    /// step, and can be done again by [`Session::redo`] until the next accepted edit.
    pub fn undo(&mut self) -> Option<Done>
        ensures spaces { self.new.spaces ≡ self.old.spaces }
        ensures timeline { UndoIs (timeline self.old) result (timeline self.new) }
    {
        let none = Present::none(self.alloc, self.spaces.settings());
        let now = mem::replace(&mut self.present, none);
        match self.history.undo(now) {
            Ok(before) => {
                self.present = before.state;
                Some(before.done)
            }
            Err(now) => {
                self.present = now;
                None
            }
        }
    }

    /// Does again what was undone last, if no edit was accepted since, and tells what that edit did. It takes no memory and
    /// no step.
    pub fn redo(&mut self) -> Option<Done>
        ensures spaces { self.new.spaces ≡ self.old.spaces }
        ensures timeline { RedoIs (timeline self.old) result (timeline self.new) }
    {
        let none = Present::none(self.alloc, self.spaces.settings());
        let now = mem::replace(&mut self.present, none);
        match self.history.redo(now) {
            Ok(after) => {
                self.present = after.state;
                Some(after.done)
            }
            Err(now) => {
                self.present = now;
                None
            }
        }
    }

    /// Nothing can be undone or redone any more.
    pub fn forget(&mut self)
        ensures spaces { self.new.spaces ≡ self.old.spaces }
        ensures branches { self.new.branches ≡ self.old.branches }
        ensures timeline { timeline self.new ≡ forgotten (timeline self.old) }
    {
        self.history.forget();
    }

    /// Lets the spaces forget what no state needs. Where there is no memory for that, all stays as it is.
    fn compact(&mut self)
        ensures ground { self.new.spaces.ground ≡ self.old.spaces.ground }
        ensures examples { self.new.examples ≡ self.old.examples }
        ensures branches { self.new.branches ≡ self.old.branches }
        ensures moves { self.new.moves ≡ self.old.moves }
    {
        if compact(
            self.alloc,
            &mut self.spaces,
            &mut self.present,
            &mut self.history,
        )
        .is_ok()
        {
            self.compacted = self.spaces.size();
        }
    }

    /// The sheet.
    pub fn sheet(&self) -> &Sheet
        ensures { result.now ≡ self.now.spaces.ground.sheet }
    {
        self.spaces.sheet()
    }

    /// The tables, once the session is let go.
    pub fn into_tables(self) -> Tables
        ensures { result ≡ self.spaces.ground.tables }
    {
        let Session { spaces, .. } = self;
        spaces.into_tables()
    }

    /// The examples in the order of their rows.
    pub fn examples(&self) -> &[Example]
        ensures same { result.now ≡ self.now.examples }
        ensures rising { AreExamples result.now }
        ensures few { length result.now ≤ MOST_EXAMPLES }
        ensures each { All (MayStand self.now.spaces.ground) result.now }
    {
        self.present.examples.as_slice()
    }

    /// The branches in order.
    pub fn branches(&self) -> &[Branch]
        ensures same { result.now ≡ self.now.branches }
        ensures shown { AreShown self.now.spaces.ground self.now.examples result.now }
    {
        self.present.branches.as_slice()
    }

    /// What programs are learned over, and the spaces of all branches.
    pub fn spaces(&self) -> &Spaces
        ensures { result.now ≡ self.now.spaces }
    {
        &self.spaces
    }

    /// The space of a branch, of the programs that explain its examples. Branches count from 1.
    pub fn space(&self, branch: u32) -> Space
        requires first { 1 ≤ branch }
        requires last { branch ≤ length self.now.branches }
        ensures { (list : Listed Example) → IsBranch self.now.spaces.ground self.now.examples branch list → SpaceStands self.now.spaces result list }
    {
        self.present.folds.branches()[branch as usize - 1].kept
    }

    /// Whether the program explains the examples of a branch. Branches count from 1.
    pub fn represents(&self, branch: u32, p: &Program) -> bool
        requires first { 1 ≤ branch }
        requires last { branch ≤ length self.now.branches }
        ensures { (list : Listed Example) → IsBranch self.now.spaces.ground self.now.examples branch list →
            IsTrue result ↔ ExplainsOn self.now.spaces.ground list (program_tree p.now) }
    {
        self.spaces.holds(self.space(branch), p)
    }

    /// The first `k` programs that explain the examples of a branch, by the order of programs; all of them where they are
    /// fewer. The first one is the branch's own. Branches count from 1.
    pub fn best(&self, branch: u32, k: u32) -> Result<List<Program>, NoMemory>
        requires first { 1 ≤ branch }
        requires last { branch ≤ length self.now.branches }
        requires some { 1 ≤ k }
        requires few { k ≤ MOST_PROGRAMS }
        ensures best { IfOk result (λ made. (list : Listed Example) → IsBranch self.now.spaces.ground self.now.examples branch list →
            AreBestOn self.now.spaces.ground list k (map program_tree made)) }
        ensures chosen { IfOk result (λ made. (list : Listed Example) → IsBranch self.now.spaces.ground self.now.examples branch list →
            BeginsWithChosen self.now.spaces.ground list (map program_tree made)) }
    {
        self.spaces.best(self.space(branch), k)
    }

    /// The answer on a row of the sheet. Rows count from 1.
    pub fn answer(&self, row: u32) -> Result<Answer, NoMemory>
        requires first { 1 ≤ row }
        requires last { row ≤ length self.now.spaces.ground.sheet.rows }
        ensures { IfOk result (AnswerIs self.now.spaces.ground self.now.examples row) }
    {
        let mut shapes = Shapes::new(self.alloc);
        self.answer_with(&mut shapes, row)
    }

    /// As [`Session::answer`], with what was found of the shapes of texts before, as long as the session stays as it is.
    pub fn answer_with(&self, shapes: &mut Shapes, row: u32) -> Result<Answer, NoMemory>
        requires first { 1 ≤ row }
        requires last { row ≤ length self.now.spaces.ground.sheet.rows }
        requires shapes { ShapesStand self.now.spaces.arena shapes.old }
        ensures shapes { ShapesStand self.now.spaces.arena shapes.new }
        ensures answer { IfOk result (AnswerIs self.now.spaces.ground self.now.examples row) }
    {
        answer_on(self.alloc, self, shapes, row)
    }

    /// Who objects on a row to what is answered there: of the programs that explain the examples of the row's branch the
    /// least one that answers otherwise, with its value. Rows count from 1.
    pub fn object(&self, row: u32) -> Result<Option<Objection>, NoMemory>
        requires first { 1 ≤ row }
        requires last { row ≤ length self.now.spaces.ground.sheet.rows }
        ensures objector { IfOk result (λ found. ObjectorIs self.now.spaces.ground self.now.examples row (option_map objection_tree found)) }
        ensures doubtful { IfOk result (λ found. (a : Answered) → AnswerIs self.now.spaces.ground self.now.examples row a → (found ≢ None) ↔ (a.state ≡ Doubt)) }
        ensures few { IfOk result (λ found. IfSome found (λ o. program_cost self.now.spaces.ground.settings.profile.prices (program_tree o.program) < 2 ^ 64)) }
    {
        self.spaces.tables().keeps_keys();
        objector_on(self.alloc, self, row)
    }

    /// Which row to look at next: first the rows in doubt without an answer, then that whose objector comes first by the
    /// order of programs, of equal ones the upper one. None where no row is in doubt.
    pub fn suggest(&self) -> Result<Option<Suggestion>, NoMemory>
        ensures { IfOk result (λ found. SuggestionIs self.now.spaces.ground self.now.examples [] (option_map asked_of found)) }
    {
        self.suggest_beside(&[])
    }

    /// As [`Session::suggest`], beside rows that are passed over. Rows count from 1.
    pub fn suggest_beside(&self, passed: &[u32]) -> Result<Option<Suggestion>, NoMemory>
        ensures { IfOk result (λ found. SuggestionIs self.now.spaces.ground self.now.examples passed.now (option_map asked_of found)) }
    {
        suggest_beside(self.alloc, self, passed)
    }

    /// The conditional program; none where there is no branch.
    pub fn switch(&self) -> Result<Option<Switch>, NoMemory>
        ensures { IfOk result (λ made. (branches : Listed BranchData) × AreBranches self.now.spaces.ground self.now.examples branches
            × (option_map switch_tree made ≡ switch_of branches)) }
    {
        switch_from(self.alloc, self.present.branches.as_slice())
    }
}
