//! Opening a sheet: its file, the columns that words choose, and its rows.
ghost use Rattle.std.specs.Prelude.{◌≡◌, ◌-◌, ℕ, List as Listed, All, IfOk, IfErr, MatchOption, Ok, Err, Some, map, option_copied, option_map, string_bytes, false, true};
ghost use Rattle.fill_edge.specs.Outside.{NoneFell, Rose};
ghost use Rattle.fill_opening.specs.Stops.{Refuses as IsRefusedBy, Stops};
ghost use Rattle.fill_passes.specs.Files.{IsThere, IsTold, told_bytes};
ghost use Rattle.fill_records.specs.Records.{records_of};
ghost use Rattle.fill_sheet.specs.Columns.{AreInputs, IsOutput};
ghost use Rattle.fill_sheet.specs.Sheet.{headers, read_up_to};
ghost use Rattle.fillcsv_options.specs.Words.{IsLookup, data_of, lookup_data, target_data};
ghost use Rattle.fillcsv_columns.specs.Choice.{Refuses, choice_data};
ghost use Rattle.fillcsv_columns.specs.Columns.{names_of};
ghost use Rattle.fillcsv_filling.specs.Long.{IsSeen};
ghost use Rattle.fill_stream.specs.Fronts.{is_marked};
ghost use Rattle.fillcsv_run.specs.Opening.{choice_for, choice_of, most_records, output_of, records_in, sheet_in, sheet_opens};
ghost use Rattle.fillcsv_run.specs.Read.{AreChosen, AreReadable, AreRowsIn, IsNoRead, IsScanned, IsUnreadFor, OpensFile};

use crate::columns::{output_of, used};
use crate::file::{find_file, unread};
use crate::lines::{choice_line, sheet_line};
use crate::typed::examples_in;
use fill_edge::{Cabinet, LAST_PLACE};
use fill_opening::Stop;
use fill_passes::{FileReader, Origin, Pass};
use fill_records::Record;
use fill_sheet::SheetError;
use fill_tables::Tables;
use fill_text::{List, NoMemory};
use fill_tree::Example;
use fillcsv_columns::{Choice, ChoiceError, choose, choose_new};
use fillcsv_filling::{MOST_LONG_RECORDS, Seen, first_bad};
use fillcsv_options::{Asked, Target};
use fillcsv_tables::{Line, open_tables, refused};
use std::alloc::Global;
use std::marker::Brand;

/// A sheet that was read.
#[derive(Drop)]
pub(crate) struct SheetFile {
    /// Whether a byte order mark stands in front of its file.
    pub marked: bool,
    /// The record that names the columns, where there is one.
    pub header: Option<Record>,
    /// The number of fields of the longest record.
    pub width: usize,
    /// The column that is filled, and those that rules may read.
    pub choice: Choice,
    /// The texts that are typed for rows.
    pub typed: List<Example>,
    /// The tables in which rules may look up.
    pub tables: Tables,
}

/// Reads the sheet that the words name, chooses their columns in it, and reads its tables. The cabinet is given back.
pub(crate) fn open_sheet<C: Cabinet + Drop>(
    alloc: Global,
    mut cabinet: C,
    asked: &Asked,
) -> (C, Result<SheetFile, Stop<Line>>)
    requires { All IsLookup (map lookup_data asked.now.lookups.items) }
    ensures chosen { IfOk result.1 (λ read. AreChosen read.choice) }
    ensures opened { IfOk result.1 (OpensFile (data_of asked.now) (C.files cabinet)) }
    ensures there { IfOk result.1 (λ read. IsThere (C.files cabinet) (string_bytes asked.now.file) LAST_PLACE) }
    ensures stopped { IfErr result.1 (Stops (sheet_opens (data_of asked.now)) (C.files cabinet) (C.faults cabinet) (C.faults result.0)) }
    ensures files { C.files result.0 ≡ C.files cabinet }
    ensures later { NoneFell (C.faults cabinet) (C.faults result.0) }
{
    let marked = match find_file(alloc, &mut cabinet, asked.file.as_str()) {
        Ok(marked) => marked,
        Err(stop) => return (cabinet, Err(stop)),
    };
    let (mut cabinet, scanned) = scan_file::<C, Brand>(alloc, cabinet, asked, marked);
    let mut read = match scanned {
        Ok(read) => read,
        Err(stop) => return (cabinet, Err(stop)),
    };
    match open_tables(alloc, &mut cabinet, asked.lookups.as_slice()) {
        Ok(tables) => {
            read.tables = tables;
            (cabinet, Ok(read))
        }
        Err(stop) => (cabinet, Err(stop)),
    }
}

/// Goes over the records of the sheet's file, for all that is to be known of them before its rows are learned from.
fn scan_file<C: Cabinet + Drop, B: Origin>(
    alloc: Global,
    cabinet: C,
    asked: &Asked,
    marked: bool,
) -> (C, Result<SheetFile, Stop<Line>>)
    requires files { B.files ≡ C.files cabinet }
    requires before { B.before ≡ C.faults cabinet }
    requires name { B.name ≡ string_bytes asked.now.file }
    requires there { IsThere (C.files cabinet) (string_bytes asked.now.file) LAST_PLACE }
    ensures chosen { IfOk result.1 (λ read. AreChosen read.choice) }
    ensures unread { IfErr result.1 (IsUnreadFor B.name (Rose (B.before B.name) (C.faults result.0 B.name))) }
    ensures scanned { (bytes : Listed ℕ) → IsTold B.files B.name bytes → marked ≡ is_marked bytes → IsScanned (data_of asked.now) bytes result.1 }
    ensures files { C.files result.0 ≡ C.files cabinet }
    ensures later { NoneFell (C.faults cabinet) (C.faults result.0) }
{
    let name = match String::from_str(alloc, asked.file.as_str()) {
        Ok(name) => name,
        Err(_) => return (cabinet, Err(Stop::NoMemory)),
    };
    let pass = Pass::new(alloc, FileReader::<C, B>::new(cabinet, name));
    let (pass, scanned) = scan(alloc, asked, marked, pass);
    let (cabinet, failed) = pass.into_cabinet();
    match scanned {
        Err(Stop::NoMemory) if failed => (cabinet, Err(unread(alloc, asked.file.as_str()))),
        scanned => (cabinet, scanned),
    }
}

/// The same in a pass from the front of the file on, and in the next one. The pass is given back.
fn scan<C: Cabinet + Drop, B: Origin>(
    alloc: Global,
    asked: &Asked,
    marked: bool,
    mut pass: Pass<C, B>,
) -> (Pass<C, B>, Result<SheetFile, Stop<Line>>)
    requires { pass ≡ option_map records_of (told_bytes B.files B.name) }
    ensures chosen { IfOk result.1 (λ read. AreChosen read.choice) }
    ensures no_read { IfErr result.1 IsNoRead }
    ensures scanned { (bytes : Listed ℕ) → IsTold B.files B.name bytes → marked ≡ is_marked bytes → IsScanned (data_of asked.now) bytes result.1 }
{
    let seen = Seen::of(alloc, &mut pass, asked.header, MOST_LONG_RECORDS);
    let mut pass = pass.again(alloc);
    match seen {
        Ok(seen) => {
            let scanned = sheet_in(alloc, asked, seen, marked, &mut pass);
            (pass, scanned)
        }
        Err(NoMemory) => (pass, Err(Stop::NoMemory)),
    }
}

/// The sheet of which this was seen, in the next pass over its file; `marked` is whether a byte order mark stands in front.
fn sheet_in<C: Cabinet + Drop, B: Origin>(
    alloc: Global,
    asked: &Asked,
    seen: Seen,
    marked: bool,
    pass: &mut Pass<C, B>,
) -> Result<SheetFile, Stop<Line>>
    ensures chosen { IfOk result (λ read. AreChosen read.choice) }
    ensures no_read { IfErr result IsNoRead }
    ensures scanned { (bytes : Listed ℕ) → pass.old ≡ Some (records_of bytes) → IsSeen asked.now.header most_records (records_of bytes) seen → marked ≡ is_marked bytes →
        IsScanned (data_of asked.now) bytes result }
{
    let choice = match choice_in(alloc, asked, &seen) {
        Ok(choice) => choice,
        Err(stop) => return Err(stop),
    };
    let typed = match rows_in(alloc, asked, &choice, pass, &seen) {
        Ok(typed) => typed,
        Err(stop) => return Err(stop),
    };
    Ok(SheetFile {
        marked,
        header: seen.header,
        width: seen.width,
        choice,
        typed,
        tables: Tables::new(alloc),
    })
}

/// The columns that words choose among those that were seen.
fn choice_in(alloc: Global, asked: &Asked, seen: &Seen) -> Result<Choice, Stop<Line>>
    ensures ready { IfOk result (λ choice. (bytes : Listed ℕ) → IsSeen asked.now.header most_records (records_of bytes) seen.now →
        choice_of (data_of asked.now) (records_in bytes) ≡ Ok (choice_data choice)) }
    ensures inputs { IfOk result (λ choice. AreInputs choice.from.items) }
    ensures output { IfOk result (λ choice. IsOutput choice.from.items (Some choice.to)) }
    ensures no_read { IfErr result IsNoRead }
    ensures stopped { IfErr result (λ why. (bytes : Listed ℕ) → IsSeen asked.now.header most_records (records_of bytes) seen.now →
        IsRefusedBy (sheet_in (data_of asked.now) bytes) why) }
{
    let header = seen.header.as_ref();
    match choice_for(alloc, &asked.to, header, seen.width, &asked.from) {
        Ok(choice) => Ok(choice),
        Err(e) => Err(refused(choice_line(alloc, asked.file.as_str(), header, e))),
    }
}

/// The columns that words choose where this one is filled.
fn choice_for<'a>(
    alloc: Global,
    to: &'a Target,
    header: Option<&Record>,
    width: usize,
    from: &'a [String],
) -> Result<Choice, ChoiceError<'a>>
    ensures ok { IfOk result (λ c. choice_for (target_data to.now) (names_of (option_copied header.entry)) width (map string_bytes from.now) ≡ Ok (choice_data c)) }
    ensures err { IfErr result (Refuses (choice_for (target_data to.now) (names_of (option_copied header.entry)) width (map string_bytes from.now))) }
    ensures inputs { IfOk result (λ c. AreInputs c.from.items) }
    ensures output { IfOk result (λ c. IsOutput c.from.items (Some c.to)) }
{
    match to {
        Target::There(column) => choose(alloc, header, width, column.as_str(), from),
        Target::New(name) => choose_new(alloc, header, width, name.as_str(), from),
    }
}

/// The texts that the words give for rows of the sheet, where its rows can be read in the chosen columns.
fn rows_in<C: Cabinet + Drop, B: Origin>(
    alloc: Global,
    asked: &Asked,
    choice: &Choice,
    pass: &mut Pass<C, B>,
    seen: &Seen,
) -> Result<List<Example>, Stop<Line>>
    requires inputs { AreInputs choice.now.from.items }
    requires output { IsOutput choice.now.from.items (Some choice.now.to) }
    ensures no_read { IfErr result IsNoRead }
    ensures rows { (bytes : Listed ℕ) → pass.old ≡ Some (records_of bytes) → IsSeen asked.now.header most_records (records_of bytes) seen.now →
        AreRowsIn (data_of asked.now) bytes choice.now result }
{
    match sheet_error(alloc, asked, choice, pass, seen) {
        Ok(None) => examples_in(alloc, asked, rows_of(asked.header, seen)),
        Ok(Some(e)) => Err(refused(sheet_line(alloc, asked.file.as_str(), e))),
        Err(NoMemory) => Err(Stop::NoMemory),
    }
}

/// How many rows were seen: all records but the header, where there is one.
fn rows_of(header: bool, seen: &Seen) -> u32
    ensures { result ≡ seen.now.records - headers header }
{
    if header {
        seen.records.saturating_sub(1)
    } else {
        seen.records
    }
}

/// Why the sheet cannot be read in the chosen columns; none where it can be.
fn sheet_error<C: Cabinet + Drop, B: Origin>(
    alloc: Global,
    asked: &Asked,
    choice: &Choice,
    pass: &mut Pass<C, B>,
    seen: &Seen,
) -> Result<Option<SheetError>, NoMemory>
    requires inputs { AreInputs choice.now.from.items }
    requires output { IsOutput choice.now.from.items (Some choice.now.to) }
    ensures { (bytes : Listed ℕ) → pass.old ≡ Some (records_of bytes) → IsSeen asked.now.header most_records (records_of bytes) seen.now →
        let output = output_of asked.now.replace choice.now.to in IfOk result (λ found. MatchOption found
        (AreReadable asked.now.header choice.now.from.items output bytes)
        (λ e. read_up_to most_records asked.now.header choice.now.from.items output bytes ≡ Err e)) }
{
    let columns = match used(alloc, &choice.from, output_of(asked.replace, choice.to)) {
        Ok(columns) => columns,
        Err(NoMemory) => return Err(NoMemory),
    };
    match first_bad(alloc, pass, asked.header, &columns, MOST_LONG_RECORDS) {
        Ok(Some((number, column))) => Ok(Some(SheetError::NotUtf8 { number, column })),
        Ok(None) => Ok(too_many(seen.more)),
        Err(NoMemory) => Err(NoMemory),
    }
}

/// That there are more records than are counted, where it is so.
fn too_many(more: bool) -> Option<SheetError>
    ensures { MatchOption result (more ≡ false) (λ e. (more ≡ true) × (e ≡ SheetError.TooManyRows MOST_LONG_RECORDS)) }
{
    if more {
        return Some(SheetError::TooManyRows {
            limit: MOST_LONG_RECORDS,
        });
    }
    None
}
