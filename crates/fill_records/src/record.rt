//! A record.
ghost use Rattle.std.specs.Prelude.{◌≡◌, ℕ, ◌<◌, length, slice_get, option_copied, All, IfOk, IsTrue};
ghost use Rattle.std.specs.List.{list_all};
ghost use Rattle.std.specs.Str.{is_utf8};
ghost use Rattle.csv.specs.Records.{fields_of};
ghost use Rattle.fill_records.specs.Records.{field_of};
ghost use Rattle.fill_records.specs.Texts.{bad_column, text_in};

use crate::utf8::is_text;
use csv::ByteRecord;
use fill_text::{NoMemory, Text, TextError};
use std::alloc::Global;
use std::marker::Model;

/// A record of a CSV file, which contracts see as the list of its fields, each the list of its bytes.
#[derive(Debug, Drop)]
pub struct Record {
    pub(crate) row: ByteRecord,
}

impl Model for Record {
    ghost use Rattle.std.specs.Prelude.{ℕ, List};
    ghost use Rattle.csv.specs.Records.{fields_of};

    ghost Value = { List (List ℕ) };

    ghost view = { λ r. fields_of r.row };
}

impl Record {
    /// The record that was read into a row.
    pub fn of(row: ByteRecord) -> Record
        ensures { result ≡ fields_of row }
    {
        Record { row }
    }

    /// The number of fields.
    pub fn len(&self) -> usize
        ensures { result ≡ length self.now }
    {
        self.row.len()
    }

    /// The bytes of a field; the first field is that of column 1. Where the record ends before the column they are none.
    pub fn field(&self, column: u32) -> &[u8]
        requires { 0 < column }
        ensures { result.now ≡ field_of column self.now }
    {
        self.row.get(column as usize - 1).unwrap_or(b"")
    }

    /// The bytes of the field at a place, from 0.
    pub fn get(&self, i: usize) -> Option<&[u8]>
        ensures { option_copied result ≡ slice_get self.now i }
    {
        self.row.get(i)
    }

    /// The first of these columns whose field is not UTF-8.
    pub fn bad_column(&self, columns: &[u32]) -> Option<u32>
        requires { All (λ column. 0 < column) columns.now }
        ensures { result ≡ bad_column columns.now self.now }
    {
        for column in columns {
            if !is_text(self.field(*column)) {
                return Some(*column);
            }
        }
        None
    }

    /// Whether all fields are UTF-8.
    pub fn is_text(&self) -> bool
        ensures { result ≡ list_all is_utf8 self.now }
    {
        for i in 0..self.len() {
            if let Some(field) = self.get(i) {
                if !is_text(field) {
                    return false;
                }
            }
        }
        true
    }

    /// The text of a field.
    pub fn text(&self, alloc: Global, column: u32) -> Result<Text, NoMemory>
        requires column { 0 < column }
        requires text { IsTrue (is_utf8 (field_of column self.now)) }
        ensures { IfOk result (λ text. text ≡ text_in self.now column) }
    {
        match Text::from_utf8(alloc, self.field(column)) {
            Ok(text) => Ok(text),
            Err(TextError::NoMemory) => Err(NoMemory),
            Err(TextError::NotUtf8 { .. }) => unreachable!(),
        }
    }
}
