//! Literals, guards and conditional programs on a row.
ghost use Rattle.std.specs.Prelude.{◌≤◌, ◌↔◌, IsTrue, IfOk, All, Contains, length};
ghost use Rattle.fill_tree.specs.Guard.{GuardHolds, LiteralHolds, ReadsInputs, SwitchIs, Takes};
ghost use Rattle.fill_tree.specs.Meaning.{program_tree};
ghost use Rattle.fill_tree.specs.Switch.{switch_tree};
ghost use Rattle.fill_tree.specs.Value.{IsValue};

use crate::value::program_value;
use fill_sheet::Sheet;
use fill_tables::Tables;
use fill_text::{NoMemory, Text};
use fill_tokens::match_count;
use fill_tree::{Guard, Literal, Program, Switch, is_input};
use std::alloc::Global;

/// Whether the literal holds on the row, in time linear in the cell.
pub fn literal_holds(l: &Literal, row: u32, sheet: &Sheet) -> bool
    requires first { 1 ≤ row }
    requires last { row ≤ length sheet.now.rows }
    requires input { Contains sheet.now.inputs l.now.column }
    ensures { IsTrue result ↔ LiteralHolds sheet.now row l.now }
{
    let has = match_count(&l.seq, sheet.cell(row, l.column)) >= l.least as usize;
    has != l.negated
}

/// Whether the guard holds on the row.
pub fn guard_holds(g: &Guard, row: u32, sheet: &Sheet) -> bool
    requires first { 1 ≤ row }
    requires last { row ≤ length sheet.now.rows }
    requires inputs { ReadsInputs sheet.now g.now }
    ensures { IsTrue result ↔ GuardHolds sheet.now row g.now }
{
    if !literal_holds(&g.first, row, sheet) {
        return false;
    }
    match &g.second {
        Some(second) => literal_holds(second, row, sheet),
        None => true,
    }
}

/// Whether the guard reads cells of input columns alone, as is asked where it is to be tested.
pub fn guard_reads_inputs(g: &Guard, sheet: &Sheet) -> bool
    ensures { IsTrue result ↔ ReadsInputs sheet.now g.now }
{
    if !is_input(g.first.column, sheet) {
        return false;
    }
    match &g.second {
        Some(second) => is_input(second.column, sheet),
        None => true,
    }
}

/// Whether all guards of the conditional program read cells of input columns alone.
pub fn switch_reads_inputs(s: &Switch, sheet: &Sheet) -> bool
    ensures { IsTrue result ↔ All (λ c. ReadsInputs sheet.now c.guard) s.now.cases }
{
    for case in s.cases.as_slice() {
        if !guard_reads_inputs(&case.guard, sheet) {
            return false;
        }
    }
    true
}

/// The program that the row takes.
fn taken<'s>(s: &'s Switch, row: u32, sheet: &Sheet) -> &'s Program
    requires first { 1 ≤ row }
    requires last { row ≤ length sheet.now.rows }
    requires inputs { All (λ c. ReadsInputs sheet.now c.guard) s.now.cases }
    ensures { Takes sheet.now row (switch_tree s.now) (program_tree result.now) }
{
    for case in s.cases.as_slice() {
        if guard_holds(&case.guard, row, sheet) {
            return &case.program;
        }
    }
    &s.last
}

/// The text on the row of the program that the row takes; none exactly where that has none.
pub fn switch_value(
    alloc: Global,
    s: &Switch,
    row: u32,
    sheet: &Sheet,
    tables: &Tables,
) -> Result<Option<Text>, NoMemory>
    requires first { 1 ≤ row }
    requires last { row ≤ length sheet.now.rows }
    requires inputs { All (λ c. ReadsInputs sheet.now c.guard) s.now.cases }
    ensures { IfOk result (IsValue (SwitchIs sheet.now tables.now row (switch_tree s.now))) }
{
    program_value(alloc, taken(s, row, sheet), row, sheet, tables)
}
