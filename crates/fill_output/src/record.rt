//! Records, and their way to a sink.
ghost use Rattle.std.specs.Prelude.{◌≡◌, ◌≤◌, [], ◌∷◌, ◌++◌, IfOk, OnErr, OnOk, IsErrOf};
ghost use Rattle.std.specs.Fmt.{decimal};
ghost use Rattle.std.specs.Io.KnownBytes.{Appends};
ghost use Rattle.fill_edge.specs.Outside.{AppendsPart, Rose};
ghost use Rattle.fill_sheet.specs.Report.{record_text};

use crate::Halt;
use fill_edge::{Sink, write_all};
use fill_sheet::put_record;
use fill_text::{List, NoMemory};
use std::alloc::Global;
use std::marker::Model;

/// A record of a report: its fields in order, at least one.
#[derive(Drop)]
pub struct Record {
    alloc: Global,
    fields: List<List<u8>>,
}

impl Model for Record {
    ghost use Rattle.std.specs.Prelude.{ℕ, ◌<◌, List, length};

    ghost Value = { List (List ℕ) };

    ghost view = { λ made. made.fields };

    ghost invariant = { λ made. 0 < length made.fields };
}

impl Record {
    /// The record of one word.
    pub fn of(alloc: Global, word: &[u8]) -> Result<Record, NoMemory>
        ensures { IfOk result (λ made. made ≡ word.now ∷ []) }
    {
        let mut field = List::new(alloc);
        field.append(word)?;
        let mut fields = List::new(alloc);
        fields.push(field)?;
        Ok(Record { alloc, fields })
    }

    /// The record with one field more.
    pub fn with(self, text: &[u8]) -> Result<Record, NoMemory>
        ensures { IfOk result (λ made. made ≡ self ++ text.now ∷ []) }
    {
        let Record { alloc, mut fields } = self;
        let mut field = List::new(alloc);
        field.append(text)?;
        fields.push(field)?;
        Ok(Record { alloc, fields })
    }

    /// The record with the field of a number more.
    pub fn with_number(self, n: u32) -> Result<Record, NoMemory>
        ensures { IfOk result (λ made. made ≡ self ++ decimal n ∷ []) }
    {
        let mut buffer = itoa::Buffer::new();
        self.with(buffer.format(n).as_bytes())
    }

    /// Puts the record at the end, as a CSV file has it.
    pub fn put(&self, to: &mut List<u8>) -> Result<(), NoMemory>
        ensures ok { OnOk result (to.new ≡ to.old ++ record_text self.now) }
        ensures err { OnErr result (to.new ≡ to.old) }
    {
        put_record(self.alloc, to, &self.fields)
    }

    /// Writes the record at once.
    pub fn write<O: Sink>(&self, out: &mut O) -> Result<(), Halt>
        ensures whole { OnOk result (Appends (O.written out.old) (O.written out.new) (record_text self.now)) }
        ensures part { IsErrOf result Halt.Fault → AppendsPart (O.written out.old) (O.written out.new) (record_text self.now) }
        ensures fault { IsErrOf result Halt.Fault → Rose (O.faults out.old) (O.faults out.new) }
        ensures memory { IsErrOf result Halt.NoMemory → out.new ≡ out.old }
        ensures later { O.faults out.old ≤ O.faults out.new }
    {
        let mut line = List::new(self.alloc);
        self.put(&mut line)?;
        match write_all(out, line.as_slice()) {
            Ok(()) => Ok(()),
            Err(_) => Err(Halt::Fault),
        }
    }
}
