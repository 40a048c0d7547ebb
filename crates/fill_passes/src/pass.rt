//! A pass over the records of a file.
ghost use Rattle.std.specs.Prelude.{◌≡◌, IfOk, IfSome, OnOk, Some, drop, false, option_map, slice_get, true};
ghost use Rattle.fill_records.specs.Records.{records_of};
ghost use Rattle.fill_edge.specs.Outside.{NoneChanged, NoneFell, Rose};
ghost use Rattle.fill_passes.specs.Files.{told_bytes};

use crate::{FileReader, Origin, ReadAhead};
use fill_edge::Cabinet;
use fill_records::Record;
use fill_stream::{Broken, RecordStream};
use fill_text::NoMemory;
use std::alloc::Global;
use std::marker::Model;

/// A pass over the records of a cabinet's file. Contracts see the records that it has left, where they are told.
///
/// A read that fails ends the pass, and is answered as memory that ran out is. Which of the two it was is told when the cabinet
/// is given back.
#[derive(Drop)]
pub struct Pass<C: Cabinet + Drop, B: Origin> {
    stream: RecordStream<ReadAhead<FileReader<C, B>>>,
    ended: bool,
}

impl<C: Cabinet + Drop, B: Origin> Model for Pass<C, B> {
    ghost use Rattle.std.specs.Prelude.{Option};
    ghost use Rattle.fill_stream.specs.Records.{Rows};
    ghost use Rattle.fill_passes.specs.Records.{left_of};

    ghost Value = { Option Rows };

    ghost view = { λ pass. left_of pass.ended pass.stream.rest };
}

impl<C: Cabinet + Drop, B: Origin> Pass<C, B> {
    /// A pass from the front of the file on.
    pub fn new(alloc: Global, mut reader: FileReader<C, B>) -> Pass<C, B>
        ensures { result ≡ option_map records_of (told_bytes B.files B.name) }
    {
        reader.rewind();
        Pass {
            stream: RecordStream::new(alloc, ReadAhead::new(alloc, reader)),
            ended: false,
        }
    }

    /// The next pass.
    pub fn again(self, alloc: Global) -> Pass<C, B>
        ensures { result ≡ option_map records_of (told_bytes B.files B.name) }
    {
        Pass::new(alloc, self.stream.into_inner().into_inner())
    }

    /// The next record; none after the last one.
    pub fn next(&mut self, alloc: Global) -> Result<Option<Record>, NoMemory>
        ensures found { IfOk result (λ found. IfSome self.old (λ rest. found ≡ slice_get rest 0)) }
        ensures left { OnOk result (IfSome self.old (λ rest. self.new ≡ Some (drop 1 rest))) }
    {
        if self.ended {
            return Ok(None);
        }
        match self.stream.next() {
            Ok(true) => Ok(Some(self.stream.take(alloc))),
            Ok(false) => {
                self.ended = true;
                Ok(None)
            }
            Err(Broken) => Err(NoMemory),
        }
    }

    /// The cabinet, and whether a read of the file failed.
    pub fn into_cabinet(self) -> (C, bool)
        ensures files { C.files result.0 ≡ B.files }
        ensures later { NoneFell B.before (C.faults result.0) }
        ensures same { result.1 ≡ false → NoneChanged B.before (C.faults result.0) }
        ensures rose { result.1 ≡ true → Rose (B.before B.name) (C.faults result.0 B.name) }
    {
        let reader = self.stream.into_inner().into_inner();
        let failed = reader.failed();
        (reader.into_cabinet(), failed)
    }
}
