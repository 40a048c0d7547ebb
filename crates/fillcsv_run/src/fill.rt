//! Filling a sheet.
ghost use Rattle.std.specs.Prelude.{◌≡◌, ℕ, List as Listed, IfErr, IfOk, IsErrOf, IsOk, None, Option, Some, false, option_map, string_bytes, true};
ghost use Rattle.fill_edge.specs.declared.outside.TheConstants.{LAST_PLACE};
ghost use Rattle.fill_edge.specs.Outside.{NoneFell, Rose};
ghost use Rattle.fill_passes.specs.Files.{IsThere, IsTold, told_bytes};
ghost use Rattle.fill_records.specs.Records.{records_of};
ghost use Rattle.fill_text.specs.Data.{TableData};
ghost use Rattle.fill_tree.specs.declared.user.Example.{Example};
ghost use Rattle.fill_tree.specs.declared.user.TheConstants.{MOST_EXAMPLES};
ghost use Rattle.fill_space.specs.declared.ground.Ground.{Ground};
ghost use Rattle.fillcsv_blocks.specs.Blocks.{StandsFor};
ghost use Rattle.fillcsv_filling.specs.Long.{AreFit, IsLong, IsSet, LongData, long_of};
ghost use Rattle.fillcsv_filling.specs.Taught.{Teaches, tables_of};
ghost use Rattle.fillcsv_dialogue.specs.Told.{Grew};
ghost use Rattle.fillcsv_run.specs.Asking.{SaysAfter, heard};
ghost use Rattle.fillcsv_run.specs.Filling.{EndsDesk, EndsPage, EndsSheet, FailsDesk, OfPage};
ghost use Rattle.fillcsv_run.specs.Pages.{FillsPage};
ghost use Rattle.fillcsv_run.specs.Said.{Says};
ghost use Rattle.fillcsv_run.specs.Saved.{IsSavedText};
ghost use Rattle.fillcsv_run.specs.Unfilled.{TellsUnfilled, unfilled_by};
ghost use Rattle.fillcsv_run.specs.Read.{IsLaid, IsReady, frame_data, page_data, page_over};

use crate::desk::{Desk, Doubts, Unasked};
use crate::explain::{Speech, Spoken};
use crate::lines::unread_line;
use crate::saving::{RuleFrame, saved_text};
use crate::stop::{MEMORY_LINE, OUTPUT_LINE, say};
use crate::told::Told;
use fill_edge::{Cabinet, Ledger, Sink, Steps};
use fill_output::Halt;
use fill_passes::{FileReader, Origin, Pass};
use fill_stream::Source;
use fill_tables::Tables;
use fill_text::NoMemory;
use fillcsv_blocks::Block;
use fillcsv_filling::{Basis, Learned, LongSheet, learn, write};
use fillcsv_rows::Summary;
use std::alloc::{AllocError, Global};
use std::marker::Brand;
use std::mem;
use std::sync::ledger::Blank;

/// Fills the column of a sheet, and writes it; where that is wanted, the cells in doubt are asked about first. Where it fails, the
/// line that says why is written too, and the answer is the status. The cabinet is given back.
pub(crate) fn fill<C: Cabinet + Drop, S: Source, O: Sink, E: Sink, L: Ledger>(
    alloc: Global,
    mut desk: Desk,
    cabinet: C,
    input: &mut S,
    out: &mut O,
    err: &mut E,
    blank: Blank,
) -> (C, Result<Told, u8>)
    requires name { blank.name ≡ L.name }
    requires parts { blank.parts ≡ L.parts }
    requires one { blank.parts ≡ 1 }
    requires laid { IsLaid desk }
    requires there { IsThere (C.files cabinet) (string_bytes desk.file) LAST_PLACE }
    ensures filled { IfOk result.1 (λ told. OfPage (C.files cabinet) desk (λ p. FillsPage desk.ask p (heard (S.left input.old) (S.faults input.old) (S.faults input.new)) (O.written out.old) (O.written out.new) told.refused told.summary.unsure told.text)) }
    ensures silent { IsOk result.1 → desk.ask ≡ false → err.new ≡ err.old }
    ensures grew { IsOk result.1 → Grew (E.written err.old) (E.written err.new) (E.faults err.old) (E.faults err.new) }
    ensures fails { IfErr result.1 (λ status. FailsDesk status (C.files cabinet) desk (Rose (O.faults out.old) (O.faults out.new)) (Rose (C.faults cabinet (string_bytes desk.file)) (C.faults result.0 (string_bytes desk.file))) (heard (S.left input.old) (S.faults input.old) (S.faults input.new)) (O.written out.old) (O.written out.new)
        (SaysAfter desk.ask (E.written err.old) (E.written err.new) (E.faults err.old) (E.faults err.new))) }
    ensures files { C.files result.0 ≡ C.files cabinet }
    ensures later { NoneFell (C.faults cabinet) (C.faults result.0) }
{
    let (book, share) = blank.open::<L>();
    let mut steps = Steps::new(book, share);
    let (cabinet, done) = fill_desk(alloc, &mut desk, cabinet, input, out, err, &mut steps);
    match done {
        Ok(told) => (cabinet, Ok(told)),
        Err(why) => (
            cabinet,
            Err(tell_unfilled(alloc, desk.file.as_str(), why, err)),
        ),
    }
}

/// Why a sheet was not filled.
#[derive(Clone, Copy, Debug, PartialEq, Eq)]
pub(crate) enum Unfilled {
    /// A write failed.
    Unwritten,
    /// The file could not be read again.
    Unread,
    /// Out of memory.
    NoMemory,
}

/// Tells why a sheet was not filled, and answers the status. Where there is no memory for the line of a file that could not be
/// read again, it is that of memory.
fn tell_unfilled<E: Sink>(alloc: Global, file: &str, why: Unfilled, err: &mut E) -> u8
    ensures { TellsUnfilled file.now why result (Says (E.written err.old) (E.written err.new) (E.faults err.old) (E.faults err.new)) }
{
    match why {
        Unfilled::Unwritten => {
            say(err, OUTPUT_LINE);
            4
        }
        Unfilled::Unread => match unread_line(alloc, file) {
            Ok(line) => {
                say(err, line.as_bytes());
                4
            }
            Err(AllocError) => {
                say(err, MEMORY_LINE);
                6
            }
        },
        Unfilled::NoMemory => {
            say(err, MEMORY_LINE);
            6
        }
    }
}

/// Asks about the cells in doubt, where that is wanted, and writes the sheet. The cabinet is given back.
fn fill_desk<C: Cabinet + Drop, S: Source, O: Sink, E: Sink, L: Ledger>(
    alloc: Global,
    desk: &mut Desk,
    mut cabinet: C,
    input: &mut S,
    out: &mut O,
    err: &mut E,
    steps: &mut Steps<L>,
) -> (C, Result<Told, Unfilled>)
    requires laid { IsLaid desk.old }
    requires there { IsThere (C.files cabinet) (string_bytes desk.old.file) LAST_PLACE }
    ensures ends { OfPage (C.files cabinet) desk.old (λ p. EndsDesk desk.old.ask p (heard (S.left input.old) (S.faults input.old) (S.faults input.new)) (O.written out.old) (O.written out.new) result.1) }
    ensures silent { desk.old.ask ≡ false → err.new ≡ err.old }
    ensures grew { Grew (E.written err.old) (E.written err.new) (E.faults err.old) (E.faults err.new) }
    ensures fault { IsErrOf result.1 Unfilled.Unwritten → Rose (O.faults out.old) (O.faults out.new) }
    ensures unread { IsErrOf result.1 Unfilled.Unread → Rose (C.faults cabinet (string_bytes desk.old.file)) (C.faults result.0 (string_bytes desk.old.file)) }
    ensures file { desk.new.file ≡ desk.old.file }
    ensures files { C.files result.0 ≡ C.files cabinet }
    ensures later { NoneFell (C.faults cabinet) (C.faults result.0) }
{
    match desk.ask_about(alloc, &mut cabinet, input, err, steps) {
        Ok(()) => {}
        Err(Unasked::Unread) => return (cabinet, Err(Unfilled::Unread)),
        Err(Unasked::NoMemory) => return (cabinet, Err(Unfilled::NoMemory)),
    }
    let (cabinet, failed, done) = write_desk::<C, Brand, O, L>(alloc, desk, cabinet, out, steps);
    match done {
        Ok(told) => (cabinet, Ok(told)),
        Err(halt) => (cabinet, Err(unfilled_by(halt, failed))),
    }
}

/// Why a sheet was not filled whose writing ended so, where it is known whether a read of the file failed.
fn unfilled_by(halt: Halt, failed: bool) -> Unfilled
    ensures { result ≡ unfilled_by halt failed }
{
    match halt {
        Halt::Fault => Unfilled::Unwritten,
        Halt::NoMemory => {
            if failed {
                Unfilled::Unread
            } else {
                Unfilled::NoMemory
            }
        }
    }
}

/// Writes the sheet with its column filled, and makes what is told of it. Answers too whether a read of the file failed.
fn write_desk<C: Cabinet + Drop, B: Origin, O: Sink, L: Ledger>(
    alloc: Global,
    desk: &mut Desk,
    cabinet: C,
    out: &mut O,
    steps: &mut Steps<L>,
) -> (C, bool, Result<Told, Halt>)
    requires laid { IsLaid desk.old }
    requires files { B.files ≡ C.files cabinet }
    requires before { B.before ≡ C.faults cabinet }
    requires name { B.name ≡ string_bytes desk.old.file }
    requires there { IsThere (C.files cabinet) (string_bytes desk.old.file) LAST_PLACE }
    ensures ends { (bytes : Listed ℕ) → IsTold B.files B.name bytes → IsReady bytes desk.old → EndsPage (O.written out.old) (O.written out.new) (page_data bytes desk.old) result.2 }
    ensures fault { IsErrOf result.2 Halt.Fault → Rose (O.faults out.old) (O.faults out.new) }
    ensures failed { result.1 ≡ true → Rose (B.before B.name) (C.faults result.0 B.name) }
    ensures file { desk.new.file ≡ desk.old.file }
    ensures files { C.files result.0 ≡ C.files cabinet }
    ensures later { NoneFell (C.faults cabinet) (C.faults result.0) }
{
    let name = match String::from_str(alloc, desk.file.as_str()) {
        Ok(name) => name,
        Err(_) => return (cabinet, false, Err(Halt::NoMemory)),
    };
    let tables = mem::replace(&mut desk.tables, Tables::new(alloc));
    let saving = desk.saving.take();
    let pass = Pass::new(alloc, FileReader::<C, B>::new(cabinet, name));
    let sheet = LongSheet {
        header: desk.header,
        inputs: &desk.choice.from,
        output: desk.output,
        typed: desk.typed.as_slice(),
        settings: desk.settings,
        form: desk.form,
        head: desk.head.as_slice(),
    };
    let (pass, filled) = write_sheet(alloc, pass, &sheet, tables, out, steps);
    let (cabinet, failed) = pass.into_cabinet();
    let told = told_after(alloc, filled, saving, &desk.spoken, desk.doubts);
    (cabinet, failed, told)
}

/// A sheet that was written with its column filled.
#[derive(Drop)]
struct Filled {
    /// What its rows teach.
    learned: Learned,
    /// How many cells have each state.
    summary: Summary,
    /// The rows that are told of, beside those of the examples.
    block: Block,
}

/// Learns from a sheet in one pass over its file, and writes it with its column filled in the next one.
fn write_sheet<C: Cabinet + Drop, B: Origin, O: Sink, L: Ledger>(
    alloc: Global,
    mut pass: Pass<C, B>,
    sheet: &LongSheet<'_>,
    tables: Tables,
    out: &mut O,
    steps: &mut Steps<L>,
) -> (Pass<C, B>, Result<Filled, Halt>)
    requires fresh { pass ≡ option_map records_of (told_bytes B.files B.name) }
    requires set { IsSet sheet.now }
    ensures ends { (bytes : Listed ℕ) → IsTold B.files B.name bytes → let s = long_of bytes sheet.now in IsLong s →
        EndsSheet (O.written out.old) (O.written out.new) (page_over s tables None) result.1 }
    ensures fault { IsErrOf result.1 Halt.Fault → Rose (O.faults out.old) (O.faults out.new) }
{
    let learned = learn(alloc, &mut pass, sheet, tables, steps);
    let mut pass = pass.again(alloc);
    match learned {
        Ok((learned, basis)) => {
            let filled = write_learned(alloc, &mut pass, sheet, learned, basis, out, steps);
            (pass, filled)
        }
        Err(NoMemory) => (pass, Err(Halt::NoMemory)),
    }
}

/// Writes a sheet with its column filled by what its rows taught.
fn write_learned<C: Cabinet + Drop, B: Origin, O: Sink, L: Ledger>(
    alloc: Global,
    pass: &mut Pass<C, B>,
    sheet: &LongSheet<'_>,
    learned: Learned,
    basis: Basis,
    out: &mut O,
    steps: &mut Steps<L>,
) -> Result<Filled, Halt>
    requires set { IsSet sheet.now }
    requires kept { AreFit sheet.now MOST_EXAMPLES learned.kept.items }
    ensures ends { (bytes : Listed ℕ) → pass.old ≡ Some (records_of bytes) → let s = long_of bytes sheet.now in IsLong s → Teaches s (tables_of basis) learned basis →
        EndsSheet (O.written out.old) (O.written out.new) (page_over s (tables_of basis) None) result }
    ensures fault { IsErrOf result Halt.Fault → Rose (O.faults out.old) (O.faults out.new) }
{
    match write(alloc, pass, sheet, &learned, basis, steps, out) {
        Ok((written, basis)) => match sheet.block(alloc, &learned, basis, &written.shown, steps) {
            Ok(block) => Ok(Filled {
                learned,
                summary: written.summary,
                block,
            }),
            Err(NoMemory) => Err(Halt::NoMemory),
        },
        Err(halt) => Err(halt),
    }
}

/// What is told of a sheet whose writing ended so.
fn told_after(
    alloc: Global,
    filled: Result<Filled, Halt>,
    saving: Option<RuleFrame>,
    spoken: &Spoken,
    doubts: Doubts,
) -> Result<Told, Halt>
    ensures ends { (first last : Option (Listed ℕ)) (s : LongData) (tables : Listed TableData) → EndsSheet first last (page_over s tables None) filled →
        EndsPage first last (page_over s tables (option_map frame_data saving)) result }
    ensures fault { IsErrOf result Halt.Fault → IsErrOf filled Halt.Fault }
{
    match filled {
        Ok(filled) => match told_of(alloc, filled, saving, spoken, doubts) {
            Ok(told) => Ok(told),
            Err(NoMemory) => Err(Halt::NoMemory),
        },
        Err(halt) => Err(halt),
    }
}

/// What is told of a sheet that was written. The text of the rule is made too, where it is to be saved.
fn told_of(
    alloc: Global,
    filled: Filled,
    saving: Option<RuleFrame>,
    spoken: &Spoken,
    doubts: Doubts,
) -> Result<Told, NoMemory>
    ensures refused { IfOk result (λ told. told.refused ≡ filled.learned.refused) }
    ensures unsure { IfOk result (λ told. told.summary.unsure ≡ filled.summary.unsure) }
    ensures text { IfOk result (λ told. (g : Ground) (examples : Listed Example) → StandsFor g filled.block examples → IsSavedText (option_map frame_data saving) g examples told.text) }
{
    let Filled {
        learned,
        summary,
        block,
    } = filled;
    let text = saved_text(alloc, saving, &block)?;
    let speech = Speech {
        spoken,
        doubts,
        block: &block,
    };
    Ok(Told {
        text,
        clashes: learned.clashes,
        refused: learned.refused,
        summary,
        rule: spoken
            .rule_of(alloc, block.session())
            .unwrap_or(Vec::new(alloc)),
        doubts: speech.doubts_of(alloc, &summary.counts.doubtful),
        next: speech.next_of(alloc, &summary.counts),
    })
}
