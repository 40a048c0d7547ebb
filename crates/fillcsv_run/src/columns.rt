//! The columns that a sheet is read from.
ghost use Rattle.std.specs.Prelude.{◌≡◌, ◌<◌, All, IfOk};
ghost use Rattle.fill_sheet.specs.Columns.{IsColumn, IsOutput, rising, used};
ghost use Rattle.fillcsv_run.specs.Opening.{output_of};

use fill_text::NoMemory;
use std::alloc::Global;

/// The column whose cells are examples: that which is filled, if its cells are not to be replaced.
pub(crate) fn output_of(replace: bool, column: u32) -> Option<u32>
    ensures { result ≡ output_of replace column }
{
    if replace { None } else { Some(column) }
}

/// Columns in rising order.
pub(crate) fn rising(alloc: Global, columns: &[u32]) -> Result<Vec<u32>, NoMemory>
    requires { All IsColumn columns.now }
    ensures value { IfOk result (λ v. v.items ≡ rising columns.now) }
    ensures columns { IfOk result (λ v. All IsColumn v.items) }
{
    let mut rising = Vec::from_slice(alloc, columns)?;
    rising.sort()?;
    Ok(rising)
}

/// The columns that are read, in rising order: the inputs, and the output where one is set.
pub(crate) fn used(alloc: Global, inputs: &[u32], output: Option<u32>) -> Result<Vec<u32>, NoMemory>
    requires inputs { All IsColumn inputs.now }
    requires output { IsOutput inputs.now output }
    ensures value { IfOk result (λ v. v.items ≡ used inputs.now output) }
    ensures counted { IfOk result (λ v. All (λ column. 0 < column) v.items) }
{
    let mut columns = Vec::from_slice(alloc, inputs)?;
    if let Some(column) = output {
        columns.push(column)?;
    }
    rising(alloc, &columns)
}
