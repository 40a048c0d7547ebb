//! What becomes of a record.
ghost use Rattle.std.specs.Prelude.{◌≡◌, ◌<◌, ◌++◌, [], IfErr, IfOk, OnErr, OnOk, Some, get_or, length, unwrap_or};
ghost use Rattle.csv.specs.Records.{fields_of};
ghost use Rattle.fill_records.specs.Records.{field_of};
ghost use Rattle.fill_records.specs.Texts.{IsText, bad_column};
ghost use Rattle.fill_sheet.specs.Report.{record_text};
ghost use Rattle.fill_output.specs.Fields.{answer_field};
ghost use Rattle.fillcsv_columns.specs.Fields.{with_field};
ghost use Rattle.fill_stream.specs.Filters.{Puts, Tells};
ghost use Rattle.fillcsv_rule_runs.specs.Filled.{GivesValue};
ghost use Rattle.fillcsv_rule_runs.specs.Loaded.{loaded_data};
ghost use Rattle.fillcsv_rule_runs.specs.Placed.{IsPlaced, Makes};

use crate::LoadedRule;
use crate::fields::{bad_column, field, field_at, texts};
use crate::places::Places;
use crate::text::row_bytes;
use csv::ByteRecord;
use fill_stream::{Cell, Filter, Unmade};
use fill_text::{List, NoMemory, Text};
use fillcsv_rules::cells_value;
use std::alloc::Global;

/// A rule at its places in a stream.
#[derive(Drop)]
pub(crate) struct PlacedRule<'r> {
    pub(crate) alloc: Global,
    pub(crate) loaded: &'r LoadedRule,
    pub(crate) places: Places,
}

impl PlacedRule<'_> {
    /// The value of the rule's program on a record, in UTF-8, if it has one.
    fn value(&self, row: &ByteRecord) -> Result<Option<List<u8>>, NoMemory>
        requires valid { IsPlaced self.now }
        requires text { IsText self.now.places.sources.items (fields_of row.now) }
        ensures { IfOk result (λ bytes. GivesValue (loaded_data self.now.loaded.now) self.now.places.sources.items (fields_of row.now) (unwrap_or bytes [])) }
    {
        let LoadedRule { rule, tables } = self.loaded;
        let cells = texts(self.alloc, row, &self.places.sources)?;
        let value = cells_value(self.alloc, &rule.switch, &rule.inputs, cells, tables)?;
        utf8_of(self.alloc, value)
    }

    /// Puts what is made of a record at the end, and tells what its cell shows.
    fn fill(&self, row: &ByteRecord, to: &mut Vec<u8>) -> Result<Cell, NoMemory>
        requires valid { IsPlaced self.now }
        requires text { IsText self.now.places.sources.items (fields_of row.now) }
        ensures made { OnOk result (Puts (Makes self.now (fields_of row.now)) to.old.items to.new.items) }
        ensures kept { OnErr result (to.new.items ≡ to.old.items) }
    {
        let given = field(row, self.places.target);
        if given.is_empty() {
            self.fill_empty(row, to)
        } else {
            put_row(self.alloc, row, self.places.target, given, to)?;
            Ok(Cell::Left)
        }
    }

    /// Puts what is made of a record whose cell is empty, and tells what the cell shows.
    fn fill_empty(&self, row: &ByteRecord, to: &mut Vec<u8>) -> Result<Cell, NoMemory>
        requires valid { IsPlaced self.now }
        requires text { IsText self.now.places.sources.items (fields_of row.now) }
        requires empty { field_of self.now.places.target (fields_of row.now) ≡ [] }
        ensures made { OnOk result (Puts (Makes self.now (fields_of row.now)) to.old.items to.new.items) }
        ensures kept { OnErr result (to.new.items ≡ to.old.items) }
    {
        match self.value(row)? {
            Some(value) => {
                put_row(self.alloc, row, self.places.target, value.as_slice(), to)?;
                Ok(Cell::Filled)
            }
            None => {
                put_row(self.alloc, row, self.places.target, b"", to)?;
                Ok(Cell::Left)
            }
        }
    }
}

/// The UTF-8 of a text, if there is one.
fn utf8_of(alloc: Global, text: Option<Text>) -> Result<Option<List<u8>>, NoMemory>
    ensures { IfOk result (λ bytes. unwrap_or bytes [] ≡ answer_field text) }
{
    let Some(text) = text else {
        return Ok(None);
    };
    let mut bytes = List::new(alloc);
    text.push_utf8(&mut bytes)?;
    Ok(Some(bytes))
}

impl Filter for PlacedRule<'_> {
    ghost use Rattle.std.specs.Prelude.{◌≡◌, Some};
    ghost use Rattle.fill_records.specs.Texts.{bad_column};
    ghost use Rattle.fillcsv_rule_runs.specs.Placed.{IsPlaced, Makes};

    ghost valid = { λ p. IsPlaced p };

    ghost makes = { λ p fields text. Makes p fields text };

    ghost refuses = { λ p fields column. bad_column p.places.sources.items fields ≡ Some column };

    fn put(&self, row: &ByteRecord, to: &mut Vec<u8>) -> Result<Cell, Unmade>
        requires { IsPlaced self.now }
        ensures made { OnOk result (Puts (Makes self.now (fields_of row.now)) to.old.items to.new.items) }
        ensures refused { IfErr result (Tells (λ column. bad_column self.now.places.sources.items (fields_of row.now) ≡ Some column)) }
        ensures kept { OnErr result (to.new.items ≡ to.old.items) }
    {
        match bad_column(row, &self.places.sources) {
            Some(column) => Err(Unmade::Refused { column }),
            None => match self.fill(row, to) {
                Ok(cell) => Ok(cell),
                Err(NoMemory) => Err(Unmade::NoMemory),
            },
        }
    }
}

/// Puts a record with this field in a column at the end, as a CSV file has it.
pub(crate) fn put_row(
    alloc: Global,
    row: &ByteRecord,
    column: usize,
    field: &[u8],
    to: &mut Vec<u8>,
) -> Result<(), NoMemory>
    requires { 0 < column }
    ensures ok { OnOk result (to.new.items ≡ to.old.items ++ record_text (with_field column field.now (fields_of row.now))) }
    ensures err { OnErr result (to.new.items ≡ to.old.items) }
{
    let text = row_bytes(alloc, row, column, field)?;
    to.extend_from_slice(text.as_slice())?;
    Ok(())
}

/// The field at a place of a record with this one in a column.
pub(crate) fn other_field<'a>(
    row: &'a ByteRecord,
    column: usize,
    field: &'a [u8],
    i: usize,
) -> &'a [u8]
    requires column { 0 < column }
    requires place { i < length (with_field column field.now (fields_of row.now)) }
    ensures { result.now ≡ get_or (with_field column field.now (fields_of row.now)) i [] }
{
    let here = column - 1;
    if i == here { field } else { field_at(row, i) }
}
