//! The records of reports.
ghost use Rattle.std.specs.Prelude.{◌≡◌, ◌<◌, ◌++◌, length, IfOk, OnOk, OnErr};
ghost use Rattle.fill_sheet.specs.Report.{record_text};

use crate::text::{push_end, push_field, push_sep};
use fill_text::{List, NoMemory};
use std::alloc::Global;

/// Puts a record of these fields at the end, as a CSV file has it.
pub fn put_record(alloc: Global, to: &mut List<u8>, fields: &List<List<u8>>) -> Result<(), NoMemory>
    requires { 0 < length fields.now }
    ensures ok { OnOk result (to.new ≡ to.old ++ record_text fields.now) }
    ensures err { OnErr result (to.new ≡ to.old) }
{
    let text = record_bytes(alloc, fields.as_slice())?;
    to.append(text.as_slice())
}

/// The bytes of a record.
fn record_bytes(alloc: Global, fields: &[List<u8>]) -> Result<List<u8>, NoMemory>
    ensures { IfOk result (λ text. text ≡ record_text fields.now) }
{
    let mut text = List::new(alloc);
    for i in 0..fields.len() {
        push_sep(i, &mut text)?;
        push_field(fields[i].as_slice(), &mut text)?;
    }
    push_end(&mut text)?;
    Ok(text)
}
