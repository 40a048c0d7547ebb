//! The lines that a run of a rule leaves on `err`.
ghost use Rattle.std.specs.Prelude.{◌≡◌, ℕ, IfOk, IsOk, List, string_bytes};
ghost use Rattle.std.specs.Cow.{cow_str_bytes};
ghost use Rattle.fillcsv_rule_runs.specs.RuleFile.{no_rule_line, unread_line};
ghost use Rattle.fillcsv_rule_runs.specs.Said.{Says};

use crate::Status;
use crate::file::NoRule;
use fill_edge::{Sink, WriteFault, write_all};
use fill_opening::Stop;
use fill_stream::Counts;
use std::alloc::{AllocError, Global};
use std::borrow::CowStr;

/// The line that says that memory ran out.
pub(crate) const MEMORY_LINE: &[u8] = b"fillcsv: out of memory\n";

/// Writes why a run ended before the stream did.
pub(crate) fn say_why<E: Sink>(err: &mut E, status: Status<'_>) -> Result<(), WriteFault>
    ensures { status.entry ≡ Status.Done → err.new ≡ err.old }
{
    match status {
        Status::Done => Ok(()),
        Status::ReadFault => write_all(err, b"fillcsv: the input cannot be read\n"),
        Status::WriteFault => write_all(err, b"fillcsv: output cannot be written\n"),
        Status::Missing(name) => say_name(err, b"fillcsv: no column \"", name),
        Status::Ambiguous(name) => say_name(err, b"fillcsv: more than one column \"", name),
        Status::NotText { record, column } => say_place(err, record, column),
        Status::NoMemory => write_all(err, MEMORY_LINE),
    }
}

fn say_name<E: Sink>(err: &mut E, before: &[u8], name: &[u8]) -> Result<(), WriteFault> {
    write_all(err, before)?;
    write_all(err, name)?;
    write_all(err, b"\"\n")
}

/// Tells a record, from 1, and a column.
fn say_place<E: Sink>(err: &mut E, record: u64, column: usize) -> Result<(), WriteFault> {
    write_all(err, b"fillcsv: record ")?;
    say_number(err, record.saturating_add(1))?;
    write_all(err, b", column ")?;
    say_number(err, column as u64)?;
    write_all(err, b": not UTF-8\n")
}

/// Writes how many rows there were, and how many of them were filled.
pub(crate) fn say_counts<E: Sink>(err: &mut E, counts: Counts) -> Result<(), WriteFault> {
    write_all(err, b"fillcsv: ")?;
    say_number(err, counts.rows)?;
    write_all(err, b" rows, ")?;
    say_number(err, counts.filled)?;
    write_all(err, b" filled\n")
}

/// Writes how many rows there were so far.
pub(crate) fn say_rows<E: Sink>(err: &mut E, rows: u64) -> Result<(), WriteFault> {
    write_all(err, b"fillcsv: ")?;
    say_number(err, rows)?;
    write_all(err, b" rows so far\n")
}

fn say_number<E: Sink>(err: &mut E, number: u64) -> Result<(), WriteFault> {
    let mut buffer = itoa::Buffer::new();
    write_all(err, buffer.format(number).as_bytes())
}

/// The line of a file that cannot be read.
fn unread_line(alloc: Global, name: &str) -> Result<String, AllocError>
    ensures { IfOk result (λ line. string_bytes line ≡ unread_line name.now) }
{
    format!(in alloc; "fillcsv: {name}: cannot be read\n")
}

/// The line of a file that has too many bytes.
fn long_line(alloc: Global, name: &str) -> Result<String, AllocError>
    ensures { IfOk result (λ line. string_bytes line ≡ no_rule_line name.now NoRule.TooLong) }
{
    format!(in alloc; "fillcsv: {name}: more than 16777216 bytes\n")
}

/// The line of a file in which no rule has the line of this number.
fn bad_line(alloc: Global, name: &str, number: usize) -> Result<String, AllocError>
    ensures { IfOk result (λ line. string_bytes line ≡ no_rule_line name.now (NoRule.BadLine number)) }
{
    format!(in alloc; "fillcsv: {name}: line {number} is not understood\n")
}

/// The line that says why there is no rule to run in the file of this name. That of tables that are refused is there
/// already; there may be no memory for another.
pub(crate) fn no_rule_line<'a>(
    alloc: Global,
    name: &str,
    why: &'a NoRule,
) -> Result<CowStr<'a>, AllocError>
    ensures line { IfOk result (λ line. cow_str_bytes line ≡ no_rule_line name.now why.now) }
    ensures lent { (line : List ℕ) → why.now ≡ NoRule.NoTables (Stop.Refused line) → IsOk result }
{
    match why {
        NoRule::Unread => Ok(CowStr::Owned(unread_line(alloc, name)?)),
        NoRule::TooLong => Ok(CowStr::Owned(long_line(alloc, name)?)),
        NoRule::BadLine { number } => Ok(CowStr::Owned(bad_line(alloc, name, *number)?)),
        NoRule::NoTables(Stop::Unread(file)) => {
            Ok(CowStr::Owned(unread_line(alloc, file.as_str())?))
        }
        NoRule::NoTables(Stop::Refused(line)) => Ok(CowStr::Borrowed(line.as_str())),
        NoRule::NoTables(Stop::NoMemory) => Err(AllocError),
        NoRule::NoMemory => Err(AllocError),
    }
}

/// Writes a line on `err`. A fault there changes nothing.
pub(crate) fn say<E: Sink>(err: &mut E, line: &[u8])
    ensures { Says (E.written err.old) (E.written err.new) (E.faults err.old) (E.faults err.new) line.now }
{
    let _ = write_all(err, line);
}
