//! Records of a stream, filtered one after another.
ghost use Rattle.std.specs.Prelude.{◌≡◌, ◌≢◌, ℕ, ◌≤◌, [], List, IfErr, OnErr, OnOk};
ghost use Rattle.std.specs.Io.KnownBytes.{Appends};
ghost use Rattle.csv.specs.Records.{fields_of};
ghost use Rattle.fill_edge.specs.Outside.{AppendsPart, Rose};
ghost use Rattle.fill_stream.specs.Filters.{Filtered, Held, IsCounted, Puts, Tells};

use crate::{Cell, RecordStream, Watch};
use csv::ByteRecord;
use fill_edge::{Sink, WriteFault, write_all};
use std::io::Read;

/// How many bytes a buffer may hold before they are written.
const FULL: usize = 65_536;

/// Why a record gives no text.
#[derive(Clone, Copy, Debug, PartialEq, Eq)]
pub enum Unmade {
    /// The field in this column, from 1, is refused.
    Refused { column: usize },
    /// Out of memory.
    NoMemory,
}

/// How the filtering of a stream's records ended.
#[derive(Clone, Copy, Debug, PartialEq, Eq)]
pub enum Ending {
    /// All records were read, and their texts written or put into the buffer.
    All,
    /// The record of this number, from 0, is refused for the field in this column.
    Refused { record: u64, column: usize },
    /// A write failed.
    WriteFault,
    /// A read failed, or memory ran out.
    Broken,
}

/// What becomes of the records of a stream: a text of each, which depends on that record alone.
pub trait Filter {
    /// What `put` asks of the filter.
    ghost valid: { Self → Type 0 };

    /// The text is one of a record with these fields.
    ghost makes: { Self → List (List ℕ) → List ℕ → Type 0 };

    /// A record with these fields is refused for the one in this column.
    ghost refuses: { Self → List (List ℕ) → ℕ → Type 0 };

    /// Puts the text of a record at the end, and tells what it shows.
    fn put(&self, row: &ByteRecord, to: &mut Vec<u8>) -> Result<Cell, Unmade>
        requires { valid self.now }
        ensures made { OnOk result (Puts (makes self.now (fields_of row.now)) to.old.items to.new.items) }
        ensures refused { IfErr result (Tells (refuses self.now (fields_of row.now))) }
        ensures kept { OnErr result (to.new.items ≡ to.old.items) };
}

/// Writes what the buffer holds, which is empty then.
pub fn flush<K: Sink>(buffer: &mut Vec<u8>, sink: &mut K) -> Result<(), WriteFault>
    ensures whole { OnOk result (Appends (K.written sink.old) (K.written sink.new) buffer.old.items) }
    ensures empty { OnOk result (buffer.new.items ≡ []) }
    ensures part { OnErr result (AppendsPart (K.written sink.old) (K.written sink.new) buffer.old.items) }
    ensures later { K.faults sink.old ≤ K.faults sink.new }
    ensures taken { OnOk result (K.faults sink.new ≡ K.faults sink.old) }
    ensures fault { OnErr result (Rose (K.faults sink.old) (K.faults sink.new)) }
{
    match write_all(sink, buffer.as_slice()) {
        Ok(()) => {
            buffer.clear();
            Ok(())
        }
        Err(WriteFault) => Err(WriteFault),
    }
}

/// Writes what a full buffer holds.
fn spill<K: Sink>(buffer: &mut Vec<u8>, sink: &mut K) -> Result<(), WriteFault>
    ensures held { OnOk result (Held (K.written sink.old) (K.written sink.new) buffer.new.items buffer.old.items) }
    ensures part { OnErr result (AppendsPart (K.written sink.old) (K.written sink.new) buffer.old.items) }
    ensures later { K.faults sink.old ≤ K.faults sink.new }
    ensures taken { OnOk result (K.faults sink.new ≡ K.faults sink.old) }
    ensures fault { OnErr result (Rose (K.faults sink.old) (K.faults sink.new)) }
{
    if buffer.as_slice().len() < FULL {
        return Ok(());
    }
    flush(buffer, sink)
}

/// Reads record after record, and puts the text of each into the buffer, which is written when it is full.
///
/// What is left in the buffer at the end is the caller's to write.
pub fn filter_records<R: Read + Drop, F: Filter, K: Sink, W: Watch>(
    records: &mut RecordStream<R>,
    filter: &F,
    buffer: &mut Vec<u8>,
    sink: &mut K,
    watch: &mut W,
) -> Ending
    requires { F.valid filter.now }
    ensures filtered { Filtered (F.makes filter.now) (F.refuses filter.now) result records.old.rest (K.written sink.old) (K.written sink.new) buffer.old.items buffer.new.items }
    ensures later { K.faults sink.old ≤ K.faults sink.new }
    ensures counted { IsCounted result }
    ensures taken { result ≢ Ending.WriteFault → K.faults sink.new ≡ K.faults sink.old }
    ensures fault { result ≡ Ending.WriteFault → Rose (K.faults sink.old) (K.faults sink.new) }
{
    for record in 0..u64::MAX {
        match records.next() {
            Ok(true) => {}
            Ok(false) => return Ending::All,
            Err(_) => return Ending::Broken,
        }
        match filter.put(records.row(), buffer) {
            Ok(cell) => watch.see(cell),
            Err(Unmade::Refused { column }) => return Ending::Refused { record, column },
            Err(Unmade::NoMemory) => return Ending::Broken,
        }
        match spill(buffer, sink) {
            Ok(()) => {}
            Err(WriteFault) => return Ending::WriteFault,
        }
    }
    Ending::Broken
}
