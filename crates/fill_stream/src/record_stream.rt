//! The records of a stream, one after another.
ghost use Rattle.std.specs.Prelude.{◌≡◌, true, false, option_map, IfOk};
ghost use Rattle.csv.specs.Records.{fields_of};
ghost use Rattle.fill_records.specs.Records.{records_of};
ghost use Rattle.fill_stream.specs.Records.{IsDone, Took};

use csv::{ByteRecord, Reader, ReaderBuilder};
use fill_records::Record;
use std::alloc::Global;
use std::io::Read;
use std::marker::Model;
use std::mem;
use thiserror::Error;

/// A read failed, or memory ran out. No record follows.
#[derive(Clone, Copy, Debug, PartialEq, Eq, Error)]
#[error("the records could not be read on")]
pub struct Broken;

/// The records of a reader's bytes, as a CSV file has them, each of which takes the place of the one before.
///
/// Records may differ in length, and none is a header. A byte order mark in front is no part of the first field.
#[derive(Drop)]
pub struct RecordStream<R: Read + Drop> {
    reader: Reader<R>,
    row: ByteRecord,
    broken: bool,
}

impl<R: Read + Drop> Model for RecordStream<R> {
    ghost use Rattle.std.specs.Prelude.{◌≡◌, false};
    ghost use Rattle.csv.specs.Records.{fields_of};
    ghost use Rattle.fill_stream.specs.Records.{IsSet, Standing, standing};

    ghost Value = { Standing };

    ghost view = { λ s. record { rest = standing s.broken R.remaining s.reader; row = fields_of s.row } };

    ghost invariant = { λ s. s.broken ≡ false → IsSet s.reader };
}

impl<R: Read + Drop> RecordStream<R> {
    /// The records of what a reader has left.
    pub fn new(alloc: Global, reader: R) -> RecordStream<R>
        ensures { result.rest ≡ option_map records_of (R.remaining reader) }
    {
        let reader = ReaderBuilder::new()
            .has_headers(false)
            .flexible(true)
            .from_reader(alloc, reader);
        RecordStream {
            reader,
            row: ByteRecord::new(alloc),
            broken: false,
        }
    }

    /// Reads the next record, and answers whether there was one.
    pub fn next(&mut self) -> Result<bool, Broken>
        ensures found { IfOk result (λ found. found ≡ true → Took self.old.rest self.new.rest self.new.row) }
        ensures ended { IfOk result (λ found. found ≡ false → IsDone self.old.rest) }
    {
        if self.broken {
            return Err(Broken);
        }
        match self.reader.read_byte_record(&mut self.row) {
            Ok(true) => Ok(true),
            Ok(false) => {
                self.broken = true;
                Ok(false)
            }
            Err(_) => {
                self.broken = true;
                Err(Broken)
            }
        }
    }

    /// The record that was read last.
    pub fn row(&self) -> &ByteRecord
        ensures { fields_of result.now ≡ self.now.row }
    {
        &self.row
    }

    /// The record that was read last, which is no longer here.
    pub fn take(&mut self, alloc: Global) -> Record
        ensures record { result ≡ self.old.row }
        ensures rest { self.new.rest ≡ self.old.rest }
    {
        Record::of(mem::replace(&mut self.row, ByteRecord::new(alloc)))
    }

    /// The reader, after what was read of it.
    pub fn into_inner(self) -> R {
        self.reader.into_inner()
    }
}
