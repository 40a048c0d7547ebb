//! The value of a conditional program on the cells of a row.
ghost use Rattle.std.specs.Prelude.{All, IfOk};
ghost use Rattle.fill_sheet.specs.Sheet.{IsSheet, row_sheet};
ghost use Rattle.fill_tree.specs.Guard.{ReadsInputs, SwitchIs};
ghost use Rattle.fill_tree.specs.Switch.{switch_tree};
ghost use Rattle.fill_tree.specs.Value.{IsValue};

use fill_sheet::Sheet;
use fill_tables::Tables;
use fill_text::{List, NoMemory, Text};
use fill_tree::Switch;
use std::alloc::Global;

/// The text of the program that a row with these cells in the input columns takes; none exactly where that has none.
pub fn cells_value(
    alloc: Global,
    s: &Switch,
    inputs: &[u32],
    cells: List<Text>,
    tables: &Tables,
) -> Result<Option<Text>, NoMemory>
    requires sheet { IsSheet (row_sheet inputs.now cells) }
    requires inputs { All (λ c. ReadsInputs (row_sheet inputs.now cells) c.guard) s.now.cases }
    ensures { IfOk result (IsValue (SwitchIs (row_sheet inputs.now cells) tables.now 1 (switch_tree s.now))) }
{
    let sheet = Sheet::of_row(alloc, inputs, cells)?;
    fill_eval::switch_value(alloc, s, 1, &sheet, tables)
}
