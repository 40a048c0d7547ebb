//! Reading the records of a file.
ghost use Rattle.std.specs.Prelude.{◌≡◌, IfOk, take};
ghost use Rattle.csv.specs.Reading.{error_kind};
ghost use Rattle.fill_records.specs.Records.{records_of};
ghost use Rattle.fill_records.specs.Errors.{IsOfMemory};

use crate::Record;
use csv::{ByteRecord, Error, ErrorKind, ReaderBuilder};
use fill_text::{List, NoMemory};
use std::alloc::Global;

/// The first records of a file's bytes, no more than `most`, past which it reads nothing.
///
/// Fields are parted by commas, records by line ends; a field in double quotes may hold either. Records may differ in
/// length, and none is a header. A UTF-8 byte order mark in front is no part of the first field.
pub fn read_records(alloc: Global, bytes: &[u8], most: usize) -> Result<List<Record>, NoMemory>
    ensures { IfOk result (λ records. records ≡ take most (records_of bytes.now)) }
{
    let mut reader = ReaderBuilder::new()
        .has_headers(false)
        .flexible(true)
        .from_reader(alloc, bytes);
    let mut records = List::new(alloc);
    for _ in 0..most {
        let mut row = ByteRecord::new(alloc);
        match reader.read_byte_record(&mut row) {
            Ok(true) => records.push(Record { row })?,
            Ok(false) => break,
            Err(error) => return Err(out_of_memory(error)),
        }
    }
    Ok(records)
}

/// The first of the records, no more than `most`.
pub fn first_records(records: &[Record], most: usize) -> &[Record]
    ensures { result.now ≡ take most records.now }
{
    &records[..records.len().min(most)]
}

/// What an error of reading bytes in memory tells. They can always be read, so one of their source is memory's too.
fn out_of_memory(error: Error) -> NoMemory
    requires { IsOfMemory (error_kind error) }
{
    match error.into_kind() {
        ErrorKind::Io(_) => NoMemory,
        ErrorKind::OutOfMemory => NoMemory,
        ErrorKind::UnequalLengths { .. } => unreachable!(),
        ErrorKind::Utf8 { .. } => unreachable!(),
        ErrorKind::Serialize(_) => unreachable!(),
        ErrorKind::Deserialize { .. } => unreachable!(),
    }
}
