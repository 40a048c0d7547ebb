//! The tables of a rule and their keys, as lines of its file.
ghost use Rattle.std.specs.Prelude.{◌≡◌, ◌≤◌, ◌++◌, ◌∷◌, [], if◌then◌else◌, IfErr, IfOk, None, Ok, OnOk, Some, codes, map, option_map};
ghost use Rattle.std.specs.Fmt.{decimal};
ghost use Rattle.std.specs.List.{flat_map};
ghost use Rattle.std.specs.Str.{is_utf8};
ghost use Rattle.fill_sheet.specs.Report.{record_text};
ghost use Rattle.fillcsv_options.specs.Words.{lookup_data};
ghost use Rattle.fillcsv_rules.specs.Form.{IsFormError, IsLineError};
ghost use Rattle.fillcsv_rules.specs.Lookups.{at_end, key_in, lookup_in, lookup_line, lookups_from, table_in};

use crate::RuleError;
use crate::lines::{copied, has_form, is_shown};
use fill_numbers::columns_in;
use fill_records::Record;
use fill_sheet::put_record;
use fill_text::{List, NoMemory};
use fillcsv_options::Lookup;
use std::alloc::Global;

/// The bytes of a field as a text.
fn as_text(field: &[u8]) -> Option<&str>
    ensures { option_map (λ text. text.now) result ≡ (if is_utf8 field.now then Some field.now else None) }
{
    match str::from_utf8(field) {
        Ok(text) => Some(text),
        Err(_) => None,
    }
}

/// `table,NAME,FILE`
fn table_in(alloc: Global, line: &Record) -> Result<Option<Lookup>, NoMemory>
    ensures { IfOk result (λ table. option_map lookup_data table ≡ table_in line.now) }
{
    if !has_form(line, b"table", 3) {
        return Ok(None);
    }
    let Some(name) = as_text(line.field(2)) else {
        return Ok(None);
    };
    let Some(file) = as_text(line.field(3)) else {
        return Ok(None);
    };
    Ok(Some(Lookup::Table {
        name: String::from_str(alloc, name)?,
        file: String::from_str(alloc, file)?,
    }))
}

/// `key,NAME,COLUMN,..`
fn key_in(alloc: Global, line: &Record) -> Result<Option<Lookup>, NoMemory>
    ensures { IfOk result (λ key. option_map lookup_data key ≡ key_in line.now) }
{
    if line.field(1) != b"key".as_slice() {
        return Ok(None);
    }
    let Some(table) = as_text(line.field(2)) else {
        return Ok(None);
    };
    let Some(columns) = columns_in(alloc, line, 2, 3, u32::MAX)? else {
        return Ok(None);
    };
    Ok(Some(Lookup::Key {
        table: String::from_str(alloc, table)?,
        columns: Vec::from_slice(alloc, columns.as_slice())?,
    }))
}

/// The table or the key that the line of a number says.
fn lookup_at(alloc: Global, number: usize, line: &Record) -> Result<Lookup, RuleError>
    ensures ok { IfOk result (λ lookup. lookup_in line.now ≡ Some (lookup_data lookup)) }
    ensures err { IfErr result (IsLineError number (lookup_in line.now)) }
{
    let lookup = if line.field(1) == b"table".as_slice() {
        table_in(alloc, line)
    } else {
        key_in(alloc, line)
    };
    match lookup {
        Ok(Some(lookup)) => Ok(lookup),
        Ok(None) => Err(RuleError::BadLine { number }),
        Err(NoMemory) => Err(RuleError::NoMemory),
    }
}

/// These tables and keys, where no line is left: the line of this number would be the next.
fn at_end(number: usize, lookups: Vec<Lookup>, lines: &[Record]) -> Result<Vec<Lookup>, RuleError>
    ensures ok { IfOk result (λ all. at_end number (map lookup_data lookups.items) lines.now ≡ Ok (map lookup_data all.items)) }
    ensures err { IfErr result (IsFormError (at_end number (map lookup_data lookups.items) lines.now)) }
{
    if lines.is_empty() {
        Ok(lookups)
    } else {
        Err(RuleError::BadLine { number })
    }
}

/// Puts a table or a key at the end.
fn push(lookups: &mut Vec<Lookup>, lookup: Lookup) -> Result<(), NoMemory>
    ensures { OnOk result (map lookup_data lookups.new.items ≡ map lookup_data lookups.old.items ++ lookup_data lookup ∷ []) }
{
    lookups.push(lookup)?;
    Ok(())
}

/// The tables and keys that these lines say, the first of which has this number. The last line, and no other one, shows a
/// program.
pub(crate) fn lookups_from(
    alloc: Global,
    number: usize,
    lines: &[Record],
) -> Result<Vec<Lookup>, RuleError>
    requires { number ≤ 6 }
    ensures ok { IfOk result (λ lookups. lookups_from number [] lines.now ≡ Ok (map lookup_data lookups.items)) }
    ensures err { IfErr result (IsFormError (lookups_from number [] lines.now)) }
{
    let mut lookups = Vec::new(alloc);
    for i in 0..lines.len() {
        let here = number + i;
        if is_shown(&lines[i]) {
            return at_end(here + 1, lookups, &lines[i + 1..]);
        }
        let lookup = lookup_at(alloc, here, &lines[i])?;
        push(&mut lookups, lookup)?;
    }
    Err(RuleError::BadLine {
        number: number + lines.len(),
    })
}

/// Puts the lines of tables and keys at the end.
pub(crate) fn put_lookups(
    alloc: Global,
    to: &mut List<u8>,
    lookups: &[Lookup],
) -> Result<(), NoMemory>
    ensures { OnOk result (to.new ≡ to.old ++ flat_map record_text (map lookup_line (map lookup_data lookups.now))) }
{
    for lookup in lookups {
        put_record(alloc, to, &line_of(alloc, lookup)?)?;
    }
    Ok(())
}

/// The line of a table or of a key.
fn line_of(alloc: Global, lookup: &Lookup) -> Result<List<List<u8>>, NoMemory>
    ensures { IfOk result (λ fields. fields ≡ lookup_line (lookup_data lookup.now)) }
{
    match lookup {
        Lookup::Table { name, file } => table_line(alloc, name.as_str(), file.as_str()),
        Lookup::Key { table, columns } => key_line(alloc, table.as_str(), columns),
    }
}

/// The line of a table.
fn table_line(alloc: Global, name: &str, file: &str) -> Result<List<List<u8>>, NoMemory>
    ensures { IfOk result (λ fields. fields ≡ codes "table" ∷ name.now ∷ file.now ∷ []) }
{
    let mut fields = List::new(alloc);
    fields.push(copied(alloc, b"table")?)?;
    fields.push(copied(alloc, name.as_bytes())?)?;
    fields.push(copied(alloc, file.as_bytes())?)?;
    Ok(fields)
}

/// The line of a key.
fn key_line(alloc: Global, table: &str, columns: &[u32]) -> Result<List<List<u8>>, NoMemory>
    ensures { IfOk result (λ fields. fields ≡ codes "key" ∷ table.now ∷ map decimal columns.now) }
{
    let mut fields = List::new(alloc);
    fields.push(copied(alloc, b"key")?)?;
    fields.push(copied(alloc, table.as_bytes())?)?;
    for column in columns {
        let mut buffer = itoa::Buffer::new();
        fields.push(copied(alloc, buffer.format(*column).as_bytes())?)?;
    }
    Ok(fields)
}
