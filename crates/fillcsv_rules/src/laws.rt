//! What is true of every rule.
ghost use Rattle.std.specs.Prelude.{All, Ok, ◌≡◌, ◌↔◌, ℕ, List, Some};
ghost use Rattle.fill_print.specs.Rules.{IsSwitch};
ghost use Rattle.fillcsv_rules.specs.File.{FileIs};
ghost use Rattle.fillcsv_rules.specs.Rule.{IsNamed, IsRule, RuleData, rule_text};
ghost use Rattle.fill_text.specs.Data.{RowData, SheetData, TableData, nth};
ghost use Rattle.fill_tree.specs.Guard.{SwitchIs};
ghost use Rattle.fill_tree.specs.Switch.{SwitchTree};
ghost use Rattle.fill_sheet.specs.Sheet.{row_sheet};
ghost use Rattle.fill_tokens.specs.declared.token_set.TheConstants.TokenSet as set;

/// What is written of a rule whose program keeps the rules of the notation is read back as that rule. It does nothing.
pub fn rules_read_back()
    ensures { (r : RuleData) → IsRule r → All IsNamed r.lookups → IsSwitch set.ALL r.switch → FileIs (rule_text r) (Ok r) }
{}

/// The value on a row of a sheet depends on its cells alone: it is that on the sheet of this one row. It does nothing.
pub fn values_are_of_cells()
    ensures { (sheet : SheetData) (tables : List TableData) (row : ℕ) (r : RowData) (s : SwitchTree) (v : List ℕ)
        → nth sheet.rows row ≡ Some r
        → SwitchIs sheet tables row s v ↔ SwitchIs (row_sheet sheet.inputs r.cells) tables 1 s v }
{}
