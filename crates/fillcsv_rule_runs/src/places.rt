//! Where the columns of a rule stand in a stream.
ghost use Rattle.std.specs.Prelude.{◌≡◌, ◌<◌, All, IfErr, IfOk, Ok, [], get_or, length};
ghost use Rattle.std.specs.Str.{bytes_eq};
ghost use Rattle.csv.specs.Records.{fields_of};
ghost use Rattle.fill_sheet.specs.Columns.{IsColumn};
ghost use Rattle.fillcsv_columns.specs.Columns.{named};
ghost use Rattle.fillcsv_rule_runs.specs.Places.{one_or_new, only_one, places_by, source_in, sources_in, target_in};
ghost use Rattle.fillcsv_rule_runs.specs.Placing.{ArePlaces, Refuses, places_data};

use crate::fields::field_at;
use csv::ByteRecord;
use fill_text::{List, NoMemory};
use fillcsv_rules::Names;
use std::alloc::Global;

/// The columns of a stream, from 1, that a rule reads, in the order of its inputs, and the one that it fills.
#[derive(Debug, Drop)]
pub(crate) struct Places {
    pub(crate) sources: Vec<usize>,
    pub(crate) target: usize,
}

/// Why a rule's columns have no place.
#[derive(Clone, Copy, Debug, PartialEq, Eq)]
pub(crate) enum Unplaced<'r> {
    /// No column has this name.
    Missing(&'r [u8]),
    /// More than one column has it.
    Ambiguous(&'r [u8]),
    /// Out of memory.
    NoMemory,
}

/// Whether the field at a place is this name.
#[tactic(auto, using(crate::proofs::RowFields::field_in))]
fn is_name(header: &ByteRecord, i: usize, name: &[u8]) -> bool
    requires { i < length (fields_of header.now) }
    ensures { result ≡ bytes_eq (get_or (fields_of header.now) i []) name.now }
{
    field_at(header, i) == name
}

/// The columns of a name in a header.
fn named(alloc: Global, header: &ByteRecord, name: &[u8]) -> Result<Vec<usize>, NoMemory>
    ensures { IfOk result (λ columns. columns.items ≡ named name.now 1 (fields_of header.now)) }
{
    let mut columns = Vec::new(alloc);
    for i in 0..header.len() {
        if !is_name(header, i, name) {
            continue;
        }
        columns.push(i + 1)?;
    }
    Ok(columns)
}

/// The one of these columns, which have the name.
fn only_one<'r>(name: &'r [u8], columns: &[usize]) -> Result<usize, Unplaced<'r>>
    ensures ok { IfOk result (λ column. only_one name.now columns.now ≡ Ok column) }
    ensures err { IfErr result (Refuses (only_one name.now columns.now)) }
    ensures counted { IfOk result (λ column. All (λ c. 0 < c) columns.now → 0 < column) }
{
    match columns {
        [] => Err(Unplaced::Missing(name)),
        [column] => Ok(*column),
        _ => Err(Unplaced::Ambiguous(name)),
    }
}

/// The one of these columns, which have the name, or a new column where there is none.
fn one_or_new<'r>(name: &'r [u8], new: usize, columns: &[usize]) -> Result<usize, Unplaced<'r>>
    requires { 0 < new }
    ensures ok { IfOk result (λ column. one_or_new name.now new columns.now ≡ Ok column) }
    ensures err { IfErr result (Refuses (one_or_new name.now new columns.now)) }
    ensures counted { IfOk result (λ column. All (λ c. 0 < c) columns.now → 0 < column) }
{
    match columns {
        [] => Ok(new),
        [column] => Ok(*column),
        _ => Err(Unplaced::Ambiguous(name)),
    }
}

/// The column of a name in a header.
#[tactic(auto, using(crate::proofs::Names::named_counted))]
fn source_in<'r>(alloc: Global, header: &ByteRecord, name: &'r [u8]) -> Result<usize, Unplaced<'r>>
    ensures ok { IfOk result (λ column. source_in (fields_of header.now) name.now ≡ Ok column) }
    ensures err { IfErr result (Refuses (source_in (fields_of header.now) name.now)) }
    ensures counted { IfOk result (λ column. 0 < column) }
{
    match named(alloc, header, name) {
        Ok(columns) => only_one(name, columns.as_slice()),
        Err(NoMemory) => Err(Unplaced::NoMemory),
    }
}

/// The column of a name, or the one after the last.
#[tactic(auto, using(crate::proofs::Names::named_counted))]
fn target_in<'r>(alloc: Global, header: &ByteRecord, name: &'r [u8]) -> Result<usize, Unplaced<'r>>
    ensures ok { IfOk result (λ column. target_in (fields_of header.now) name.now ≡ Ok column) }
    ensures err { IfErr result (Refuses (target_in (fields_of header.now) name.now)) }
    ensures counted { IfOk result (λ column. 0 < column) }
{
    // More fields than can be counted fit in no memory.
    let Some(new) = header.len().checked_add(1) else {
        return Err(Unplaced::NoMemory);
    };
    match named(alloc, header, name) {
        Ok(columns) => one_or_new(name, new, columns.as_slice()),
        Err(NoMemory) => Err(Unplaced::NoMemory),
    }
}

/// The columns of these names in a header.
#[tactic(auto, using(crate::proofs::Names::sources_start, crate::proofs::Names::sources_more, crate::proofs::Names::sources_all))]
fn sources_in<'r>(
    alloc: Global,
    header: &ByteRecord,
    names: &'r [List<u8>],
) -> Result<Vec<usize>, Unplaced<'r>>
    ensures ok { IfOk result (λ columns. sources_in (fields_of header.now) names.now ≡ Ok columns.items) }
    ensures err { IfErr result (Refuses (sources_in (fields_of header.now) names.now)) }
    ensures counted { IfOk result (λ columns. All (λ column. 0 < column) columns.items) }
    ensures many { IfOk result (λ columns. length columns.items ≡ length names.now) }
{
    let mut columns = Vec::new(alloc);
    for name in names {
        let column = source_in(alloc, header, name.as_slice())?;
        if columns.push(column).is_err() {
            return Err(Unplaced::NoMemory);
        }
    }
    Ok(columns)
}

/// The places of a rule's columns by their names in a header.
pub(crate) fn places_by<'r>(
    alloc: Global,
    header: &ByteRecord,
    names: &'r Names,
) -> Result<Places, Unplaced<'r>>
    ensures ok { IfOk result (λ places. places_by names.now (fields_of header.now) ≡ Ok (places_data places)) }
    ensures err { IfErr result (Refuses (places_by names.now (fields_of header.now))) }
    ensures places { IfOk result (λ places. ArePlaces (length names.now.inputs) (places_data places)) }
{
    let sources = sources_in(alloc, header, names.inputs.as_slice())?;
    let target = target_in(alloc, header, names.output.as_slice())?;
    Ok(Places { sources, target })
}

/// The places of a rule's columns as they stood.
pub(crate) fn places_of(alloc: Global, inputs: &[u32], output: u32) -> Result<Places, NoMemory>
    requires inputs { All IsColumn inputs.now }
    requires output { IsColumn output }
    ensures ok { IfOk result (λ places. places_data places ≡ record { sources = inputs.now; target = output }) }
    ensures places { IfOk result (λ places. ArePlaces (length inputs.now) (places_data places)) }
{
    let mut sources = Vec::with_capacity(alloc, inputs.len())?;
    for column in inputs {
        sources.push(*column as usize)?;
    }
    Ok(Places {
        sources,
        target: output as usize,
    })
}
