//! The columns that guards read.
ghost use Rattle.std.specs.Prelude.{◌↔◌, Contains, IsTrue, map};
ghost use Rattle.fill_apply.specs.Columns.{IsFirstOther, guard_columns};
ghost use Rattle.fill_tree.specs.Switch.{case_tree};
ghost use Rattle.fill_apply.specs.Saved.{columns_read};

use fill_tree::{Guard, Switch};

/// The first column that the guards read and that is none of the inputs: in the order of the cases, and of a guard's
/// literals.
pub(crate) fn first_other(s: &Switch, inputs: &[u32]) -> Option<u32>
    ensures { IsFirstOther inputs.now (columns_read (map case_tree s.now.cases)) result }
{
    for case in s.cases.as_slice() {
        if let Some(column) = other_column(&case.guard, inputs) {
            return Some(column);
        }
    }
    None
}

/// The first column of the guard that is none of the inputs.
fn other_column(g: &Guard, inputs: &[u32]) -> Option<u32>
    ensures { IsFirstOther inputs.now (guard_columns g.now) result }
{
    if !is_among(inputs, g.first.column) {
        return Some(g.first.column);
    }
    let Some(second) = &g.second else {
        return None;
    };
    if is_among(inputs, second.column) {
        None
    } else {
        Some(second.column)
    }
}

/// Whether a column is among the inputs.
fn is_among(inputs: &[u32], column: u32) -> bool
    ensures { IsTrue result ↔ Contains inputs.now column }
{
    inputs.contains(&column)
}
