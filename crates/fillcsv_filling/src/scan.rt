//! What is seen of all records of a sheet at once.
ghost use Rattle.std.specs.Prelude.{◌≡◌, ◌+◌, ◌<◌, ◌^◌, All, IfOk, IfSome, length, max};
ghost use Rattle.fill_records.specs.Texts.{first_bad};
ghost use Rattle.fill_sheet.specs.Sheet.{headers, row_records};
ghost use Rattle.fillcsv_filling.specs.Long.{IsSeen, header_with};

use crate::reading::skip_header;
use fill_edge::Cabinet;
use fill_passes::{Origin, Pass};
use fill_records::Record;
use fill_text::NoMemory;
use std::alloc::Global;

/// What is seen of the records of a sheet.
#[derive(Drop)]
pub struct Seen {
    /// The first record, where it names the columns.
    pub header: Option<Record>,
    /// The number of fields of the longest record.
    pub width: usize,
    /// How many records there are, the header among them, as far as they are counted.
    pub records: u32,
    /// Whether there are more than are counted.
    pub more: bool,
}

impl Seen {
    /// What is seen of the records that a pass has left, of which `most` are looked at.
    pub fn of<C: Cabinet + Drop, B: Origin>(
        alloc: Global,
        pass: &mut Pass<C, B>,
        header: bool,
        most: u32,
    ) -> Result<Seen, NoMemory>
        ensures { IfOk result (λ seen. IfSome pass.old (λ records. IsSeen header most records seen)) }
    {
        let mut seen = Seen {
            header: None,
            width: 0,
            records: 0,
            more: false,
        };
        for _ in 0..most {
            match pass.next(alloc) {
                Ok(Some(fields)) => seen.add(header, fields),
                Ok(None) => return Ok(seen),
                Err(NoMemory) => return Err(NoMemory),
            }
        }
        match pass.next(alloc) {
            Ok(next) => {
                seen.more = next.is_some();
                Ok(seen)
            }
            Err(NoMemory) => Err(NoMemory),
        }
    }

    /// One more record is seen.
    fn add(&mut self, header: bool, fields: Record)
        requires { self.old.records + 1 < 2 ^ 32 }
        ensures header { self.new.header ≡ header_with header self.old.records fields self.old.header }
        ensures width { self.new.width ≡ max self.old.width (length fields) }
        ensures records { self.new.records ≡ self.old.records + 1 }
        ensures more { self.new.more ≡ self.old.more }
    {
        self.width = self.width.max(fields.len());
        if header && self.records == 0 {
            self.header = Some(fields);
        }
        self.records += 1;
    }
}

/// The number of the first record after the header, where there is one, that has a field in these columns that is not UTF-8,
/// and the first such column of it. Records after the first `most` are not looked at.
pub fn first_bad<C: Cabinet + Drop, B: Origin>(
    alloc: Global,
    pass: &mut Pass<C, B>,
    header: bool,
    columns: &[u32],
    most: u32,
) -> Result<Option<(u32, u32)>, NoMemory>
    requires { All (λ column. 0 < column) columns.now }
    ensures { IfOk result (λ found. IfSome pass.old (λ records. found ≡ first_bad columns.now (headers header + 1) (row_records most header records))) }
{
    let above = if header { 1 } else { 0 };
    match skip_header(alloc, pass, header) {
        Ok(()) => {}
        Err(NoMemory) => return Err(NoMemory),
    }
    for n in above..most {
        match pass.next(alloc) {
            Ok(Some(fields)) => {
                if let Some(column) = fields.bad_column(columns) {
                    return Ok(Some((n + 1, column)));
                }
            }
            Ok(None) => return Ok(None),
            Err(NoMemory) => return Err(NoMemory),
        }
    }
    Ok(None)
}
