//! The record of a row.
ghost use Rattle.std.specs.Prelude.{◌≡◌, ◌≤◌, ◌++◌, All, Contains, IfOk, List, ℕ, OnErr, OnOk, length};
ghost use Rattle.fill_sheet.specs.Report.{record_text};
ghost use Rattle.fill_tree.specs.Switch.{switch_tree};
ghost use Rattle.fill_apply.specs.Applied.{IsAppliedRecord, applied_record};
ghost use Rattle.fill_apply.specs.Saved.{columns_read};

use fill_eval::switch_value;
use fill_output::{Record, answer_field, value_word};
use fill_sheet::Sheet;
use fill_tables::Tables;
use fill_text::{List, NoMemory, Text};
use fill_tree::Switch;
use std::alloc::Global;

/// Puts the record of what a conditional program gives on a row at the end.
pub fn apply_record(
    alloc: Global,
    to: &mut List<u8>,
    s: &Switch,
    row: u32,
    sheet: &Sheet,
    tables: &Tables,
) -> Result<(), NoMemory>
    requires first { 1 ≤ row }
    requires last { row ≤ length sheet.now.rows }
    requires inputs { let tree = switch_tree s.now in All (Contains sheet.now.inputs) (columns_read tree.cases) }
    ensures ok { OnOk result ((fields : List (List ℕ)) × IsAppliedRecord sheet.now tables.now (switch_tree s.now) row fields × (to.new ≡ to.old ++ record_text fields)) }
    ensures err { OnErr result (to.new ≡ to.old) }
{
    applied_record(alloc, s, row, sheet, tables)?.put(to)
}

/// The record of what a conditional program gives on a row.
pub fn applied_record(
    alloc: Global,
    s: &Switch,
    row: u32,
    sheet: &Sheet,
    tables: &Tables,
) -> Result<Record, NoMemory>
    requires first { 1 ≤ row }
    requires last { row ≤ length sheet.now.rows }
    requires inputs { let tree = switch_tree s.now in All (Contains sheet.now.inputs) (columns_read tree.cases) }
    ensures { IfOk result (IsAppliedRecord sheet.now tables.now (switch_tree s.now) row) }
{
    let value = switch_value(alloc, s, row, sheet, tables)?;
    record_of(alloc, row, &value)
}

/// The record of a row with this value.
fn record_of(alloc: Global, row: u32, value: &Option<Text>) -> Result<Record, NoMemory>
    ensures { IfOk result (λ made. made ≡ applied_record row value.now) }
{
    let text = answer_field(alloc, value)?;
    Record::of(alloc, b"applied")?
        .with_number(row)?
        .with(text.as_slice())?
        .with(value_word(value))
}
