//! Columns in rising order.
ghost use Rattle.std.specs.Prelude.{◌≡◌, IfOk};
ghost use Rattle.fill_sheet.specs.Columns.{rising, used};

use fill_text::NoMemory;
use std::alloc::Global;

/// The most input columns of a sheet.
pub const MOST_INPUTS: usize = 8;

/// The last column that a sheet is read from.
pub const LAST_COLUMN: u32 = 1_000;

/// The columns in rising order.
pub(crate) fn rising(alloc: Global, columns: &[u32]) -> Result<Vec<u32>, NoMemory>
    ensures { IfOk result (λ v. v.items ≡ rising columns.now) }
{
    let mut rising = Vec::from_slice(alloc, columns)?;
    rising.sort()?;
    Ok(rising)
}

/// The inputs and the output, where one is set, in rising order.
pub(crate) fn used(alloc: Global, inputs: &[u32], output: Option<u32>) -> Result<Vec<u32>, NoMemory>
    ensures { IfOk result (λ v. v.items ≡ used inputs.now output) }
{
    let mut used = Vec::from_slice(alloc, inputs)?;
    if let Some(column) = output {
        used.push(column)?;
    }
    used.sort()?;
    Ok(used)
}
