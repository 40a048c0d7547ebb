//! What is true of every rule that is saved.
ghost use Rattle.std.specs.Prelude.{◌≡◌, ◌∷◌, [], ℕ, List, Some};
ghost use Rattle.fill_text.specs.Data.{nth};
ghost use Rattle.fill_sheet.specs.Columns.{rising};
ghost use Rattle.fill_tree.specs.Switch.{SwitchTree};
ghost use Rattle.fill_tree.specs.declared.user.Example.{Example};
ghost use Rattle.fill_session.specs.Answers.{AnswerIs, switch_of};
ghost use Rattle.fill_session.specs.Branches.{AreBranches, BranchData};
ghost use Rattle.fill_session.specs.declared.answer.Answer.{Answer};
ghost use Rattle.fill_opening.specs.Opened.{Held, Passed};
ghost use Rattle.fill_output.specs.Fields.{Fields};
ghost use Rattle.fillcsv_rule_runs.specs.Filled.{ValueIs};
ghost use Rattle.fillcsv_options.specs.Words.{AskedData};
ghost use Rattle.fillcsv_tables.specs.Tables.{lookups_open};
ghost use Rattle.fillcsv_run.specs.Alike.{learned};
ghost use Rattle.fillcsv_run.specs.Ends.{rows_of};
ghost use Rattle.fillcsv_run.specs.Ground.{ground_of};
ghost use Rattle.fillcsv_run.specs.Opening.{SheetRead, sheet_opens};

/// A rule that is saved and run over the same files has the tables that it was learned with, and gives each record of the
/// sheet the text that is the answer on its row. It does nothing.
pub fn saved_rules_answer_alike()
    ensures tables { (asked : AskedData) (held : Held) (read : SheetRead) (switch : SwitchTree) →
        (sheet_opens asked held).outcome ≡ Passed read →
        let rule = learned asked read switch in (lookups_open held [] rule.rule.lookups).outcome ≡ Passed rule.tables }
    ensures answers { (asked : AskedData) (held : Held) (read : SheetRead) (e : Example) (es : List Example) (branches : List BranchData) (switch : SwitchTree) (row : ℕ) (fields : Fields) (answer : Answer) →
        (sheet_opens asked held).outcome ≡ Passed read → AreBranches (ground_of asked read) (e ∷ es) branches → switch_of branches ≡ Some switch →
        nth (rows_of asked read) row ≡ Some fields → AnswerIs (ground_of asked read) (e ∷ es) row answer →
        ValueIs (learned asked read switch) (rising read.choice.from) fields answer.text }
{}
