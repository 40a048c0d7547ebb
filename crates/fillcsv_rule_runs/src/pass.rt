//! One pass of a rule over the records of a stream.
ghost use Rattle.std.specs.Prelude.{◌≡◌, ◌<◌, ◌≤◌, ◌++◌, [], IfErr, IfOk, Ok, length};
ghost use Rattle.csv.specs.Records.{fields_of};
ghost use Rattle.fill_edge.specs.Outside.{Rose};
ghost use Rattle.fill_sheet.specs.Report.{record_text};
ghost use Rattle.fill_stream.specs.Filters.{IsCounted};
ghost use Rattle.fillcsv_rules.specs.Rule.{IsRule, rule_data};
ghost use Rattle.fillcsv_rule_runs.specs.Filled.{named_head};
ghost use Rattle.fillcsv_rule_runs.specs.Loaded.{loaded_data};
ghost use Rattle.fillcsv_rule_runs.specs.Passing.{Begins, BeginsNamed, FailsAs, FailsFirst, FailsNamed, Finishes, PassWrites, after, how_of, mark_text};
ghost use Rattle.fillcsv_rule_runs.specs.Places.{places_by};
ghost use Rattle.fillcsv_rule_runs.specs.Placing.{ArePlaces, places_data};

use crate::LoadedRule;
use crate::places::{Places, Unplaced, places_by, places_of};
use crate::rows::{PlacedRule, put_row};
use csv::ByteRecord;
use fill_edge::{Sink, WriteFault};
use fill_stream::{Ending, RecordStream, Watch, filter_records, flush};
use fill_text::NoMemory;
use fillcsv_rules::{Names, Rule};
use std::alloc::Global;
use std::io::Read;

/// A byte order mark.
const MARK: &[u8] = b"\xef\xbb\xbf";

/// How a pass ended.
#[derive(Clone, Copy, Debug, PartialEq, Eq)]
pub(crate) enum How<'r> {
    /// All records were read, and what is made of them was written.
    All,
    /// No column has this name. Nothing was written.
    Missing(&'r [u8]),
    /// More than one column has it. Nothing was written.
    Ambiguous(&'r [u8]),
    /// The field in this column of the record of this number, from 0, is not UTF-8.
    NotText { record: u64, column: usize },
    /// A write failed.
    WriteFault,
    /// A read failed, or memory ran out.
    Broken,
}

/// Runs a rule over all records, behind a byte order mark or none.
pub(crate) fn pass<'r, R: Read + Drop, K: Sink, W: Watch>(
    alloc: Global,
    loaded: &'r LoadedRule,
    marked: bool,
    records: &mut RecordStream<R>,
    sink: &mut K,
    watch: &mut W,
) -> How<'r>
    requires { IsRule (rule_data loaded.now.rule) }
    ensures writes { PassWrites (loaded_data loaded.now) result (mark_text marked) records.old.rest (K.written sink.old) (K.written sink.new) }
    ensures later { K.faults sink.old ≤ K.faults sink.new }
    ensures fault { result ≡ How.WriteFault → Rose (K.faults sink.old) (K.faults sink.new) }
{
    let (places, mut buffer) = match begin(alloc, &loaded.rule, marked, records) {
        Ok(begun) => begun,
        Err(how) => return how,
    };
    let placed = PlacedRule {
        alloc,
        loaded,
        places,
    };
    match filter_records(records, &placed, &mut buffer, sink, watch) {
        Ending::WriteFault => How::WriteFault,
        ending => finish(ending, loaded.rule.names.is_some(), &mut buffer, sink),
    }
}

/// Finds the places of a rule's columns, by the header where it has names, and puts the mark and the header into a buffer.
fn begin<'r, R: Read + Drop>(
    alloc: Global,
    rule: &'r Rule,
    marked: bool,
    records: &mut RecordStream<R>,
) -> Result<(Places, Vec<u8>), How<'r>>
    requires { IsRule (rule_data rule.now) }
    ensures ok { IfOk result (λ begun. Begins (rule_data rule.now) (mark_text marked) records.old.rest records.new.rest (places_data begun.0) begun.1.items) }
    ensures places { IfOk result (λ begun. ArePlaces (length rule.now.inputs.items) (places_data begun.0)) }
    ensures err { IfErr result (λ how. FailsFirst (rule_data rule.now) records.old.rest how) }
{
    let mut buffer = match mark_of(alloc, marked) {
        Ok(buffer) => buffer,
        Err(NoMemory) => return Err(How::Broken),
    };
    match &rule.names {
        Some(names) => match begin_named(alloc, names, records, &mut buffer) {
            Ok(places) => Ok((places, buffer)),
            Err(how) => Err(how),
        },
        None => match places_of(alloc, &rule.inputs, rule.output) {
            Ok(places) => Ok((places, buffer)),
            Err(NoMemory) => Err(How::Broken),
        },
    }
}

/// A byte order mark, or nothing.
fn mark_of(alloc: Global, marked: bool) -> Result<Vec<u8>, NoMemory>
    ensures { IfOk result (λ buffer. buffer.items ≡ mark_text marked) }
{
    let mut buffer = Vec::new(alloc);
    if marked {
        buffer.extend_from_slice(MARK)?;
    }
    Ok(buffer)
}

/// Finds the places by the names in the first record, and puts that record into the buffer.
fn begin_named<'r, R: Read + Drop>(
    alloc: Global,
    names: &'r Names,
    records: &mut RecordStream<R>,
    buffer: &mut Vec<u8>,
) -> Result<Places, How<'r>>
    requires { 0 < length names.now.inputs }
    ensures ok { IfOk result (λ places. BeginsNamed names.now records.old.rest records.new.rest (places_data places) buffer.old.items buffer.new.items) }
    ensures places { IfOk result (λ places. ArePlaces (length names.now.inputs) (places_data places)) }
    ensures err { IfErr result (FailsNamed names.now records.old.rest) }
{
    match records.next() {
        Ok(true) => put_head(alloc, names, records.row(), buffer),
        Ok(false) => Err(unplaced(alloc, names)),
        Err(_) => Err(How::Broken),
    }
}

/// Why names have no places where there is no header.
fn unplaced<'r>(alloc: Global, names: &'r Names) -> How<'r>
    requires { 0 < length names.now.inputs }
    ensures { FailsAs (places_by names.now []) result }
{
    match places_by(alloc, &ByteRecord::new(alloc), names) {
        Ok(_) => How::Broken,
        Err(why) => how_of(why),
    }
}

/// Finds the places by the names in a header, and puts it into the buffer.
fn put_head<'r>(
    alloc: Global,
    names: &'r Names,
    header: &ByteRecord,
    buffer: &mut Vec<u8>,
) -> Result<Places, How<'r>>
    ensures ok { IfOk result (λ places. places_by names.now (fields_of header.now) ≡ Ok (places_data places)) }
    ensures put { IfOk result (λ places. buffer.new.items ≡ buffer.old.items ++ record_text (named_head names.now (places_data places) (fields_of header.now))) }
    ensures places { IfOk result (λ places. ArePlaces (length names.now.inputs) (places_data places)) }
    ensures err { IfErr result (FailsAs (places_by names.now (fields_of header.now))) }
{
    let places = match places_by(alloc, header, names) {
        Ok(places) => places,
        Err(why) => return Err(how_of(why)),
    };
    match put_row(
        alloc,
        header,
        places.target,
        names.output.as_slice(),
        buffer,
    ) {
        Ok(()) => Ok(places),
        Err(NoMemory) => Err(How::Broken),
    }
}

/// How a pass ends whose columns have no places.
fn how_of(why: Unplaced<'_>) -> How<'_>
    ensures { result ≡ how_of why.entry }
{
    match why {
        Unplaced::Missing(name) => How::Missing(name),
        Unplaced::Ambiguous(name) => How::Ambiguous(name),
        Unplaced::NoMemory => How::Broken,
    }
}

/// Writes what is left in the buffer, and says how the pass ends whose filtering ended so, after a header or none.
fn finish<'r, K: Sink>(ending: Ending, headed: bool, buffer: &mut Vec<u8>, sink: &mut K) -> How<'r>
    requires { IsCounted ending }
    ensures finishes { Finishes ending headed result (K.written sink.old) (K.written sink.new) buffer.old.items (K.faults sink.old) (K.faults sink.new) }
    ensures later { K.faults sink.old ≤ K.faults sink.new }
{
    match flush(buffer, sink) {
        Ok(()) => after(ending, headed),
        Err(WriteFault) => How::WriteFault,
    }
}

/// How a pass ends whose filtering ended so, after a header or none.
fn after<'r>(ending: Ending, headed: bool) -> How<'r>
    requires { IsCounted ending }
    ensures { result ≡ after ending headed }
{
    match ending {
        Ending::All => How::All,
        Ending::Refused { record, column } => How::NotText {
            record: if headed { record + 1 } else { record },
            column,
        },
        Ending::WriteFault => How::WriteFault,
        Ending::Broken => How::Broken,
    }
}
