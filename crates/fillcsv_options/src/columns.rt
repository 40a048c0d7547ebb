//! Columns in a list, with commas between them.
ghost use Rattle.std.specs.Prelude.{◌≡◌, ◌++◌, IfOk, OnOk, flat_map, map, string_bytes};
ghost use Rattle.fillcsv_options.specs.Words.{columns_in};

use std::alloc::{AllocError, Global};

/// Puts each column of a list at the end of the columns.
fn push_columns(alloc: Global, columns: &mut Vec<String>, list: &str) -> Result<(), AllocError>
    ensures { OnOk result (map string_bytes columns.new.items ≡ map string_bytes columns.old.items ++ columns_in list.now) }
{
    for column in list.split(',') {
        columns.push(String::from_str(alloc, column)?)?;
    }
    Ok(())
}

/// The columns of all lists, in order.
pub(crate) fn columns_of(alloc: Global, lists: &[&str]) -> Result<Vec<String>, AllocError>
    ensures { IfOk result (λ columns. map string_bytes columns.items ≡ flat_map columns_in (map (λ l. l.now) lists.now)) }
{
    let mut columns = Vec::new(alloc);
    for list in lists {
        push_columns(alloc, &mut columns, list)?;
    }
    Ok(columns)
}
