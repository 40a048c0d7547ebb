//! The records of a table's keys.
ghost use Rattle.std.specs.Prelude.{◌≡◌, ◌≤◌, ℕ, IfOk, IsErrOf, OnOk, length, take};
ghost use Rattle.std.specs.Io.KnownBytes.{Appends};
ghost use Rattle.fill_edge.specs.Outside.{AppendsPart, Rose};
ghost use Rattle.fill_sheet.specs.Report.{record_text};
ghost use Rattle.fill_command.specs.Output.{key_record, keys_text};

use fill_edge::Sink;
use fill_output::{Halt, Record};
use fill_text::{List, NoMemory};
use std::alloc::Global;

/// Writes the records of keys, each when it is made.
pub fn write_keys<O: Sink>(alloc: Global, keys: &[List<u32>], out: &mut O) -> Result<(), Halt>
    ensures whole { OnOk result (Appends (O.written out.old) (O.written out.new) (keys_text keys.now)) }
    ensures part { IsErrOf result Halt.Fault → (n : ℕ) × (n ≤ length keys.now) × AppendsPart (O.written out.old) (O.written out.new) (keys_text (take n keys.now)) }
    ensures fault { IsErrOf result Halt.Fault → Rose (O.faults out.old) (O.faults out.new) }
    ensures memory { IsErrOf result Halt.NoMemory → (n : ℕ) × (n ≤ length keys.now) × Appends (O.written out.old) (O.written out.new) (keys_text (take n keys.now)) }
{
    for key in keys {
        match write_key(alloc, key.as_slice(), out) {
            Ok(()) => {}
            Err(halt) => return Err(halt),
        }
    }
    Ok(())
}

/// Writes the record of a key at once.
fn write_key<O: Sink>(alloc: Global, key: &[u32], out: &mut O) -> Result<(), Halt>
    ensures whole { OnOk result (Appends (O.written out.old) (O.written out.new) (record_text (key_record key.now))) }
    ensures part { IsErrOf result Halt.Fault → AppendsPart (O.written out.old) (O.written out.new) (record_text (key_record key.now)) }
    ensures fault { IsErrOf result Halt.Fault → Rose (O.faults out.old) (O.faults out.new) }
    ensures memory { IsErrOf result Halt.NoMemory → out.new ≡ out.old }
    ensures later { O.faults out.old ≤ O.faults out.new }
{
    key_record(alloc, key)?.write(out)
}

/// The record of a key.
fn key_record(alloc: Global, key: &[u32]) -> Result<Record, NoMemory>
    ensures { IfOk result (λ made. made ≡ key_record key.now) }
{
    let mut record = Record::of(alloc, b"key")?;
    for column in key {
        record = record.with_number(*column)?;
    }
    Ok(record)
}
