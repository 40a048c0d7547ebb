//! The run of `fillcsv`, over any cabinet of files, any store, any input and any sinks.
ghost use Rattle.std.specs.Prelude.{◌≡◌, ◌≢◌, ◌⊎◌, ◌≤◌, ℕ, List as Listed, [], All, IfErr, IfOk, IsOk, false, map, Option, option_map, string_bytes, true, unwrap_or};
ghost use Rattle.fill_edge.specs.declared.outside.TheConstants.{LAST_PLACE};
ghost use Rattle.fill_edge.specs.Outside.{NoneFell, Rose};
ghost use Rattle.fill_passes.specs.Files.{IsThere};
ghost use Rattle.fillcsv_rule_runs.specs.RuleFile.{RanFile};
ghost use Rattle.fillcsv_options.specs.Words.{AskedData, Asks, IsLookup, Runs, SavedData, Shows, Wrong, asked_in, data_of, lookup_data};
ghost use Rattle.fillcsv_run.specs.Asking.{Heard, SaysAfter, heard};
ghost use Rattle.fillcsv_run.specs.Ends.{EndsFilled, EndsShown, EndsWrong, OutBefore};
ghost use Rattle.fillcsv_run.specs.Fills.{EndsTold};
ghost use Rattle.fillcsv_run.specs.Read.{IsLaid, OpensDesk};
ghost use Rattle.fillcsv_run.specs.Said.{IsUnsaved, Says};
ghost use Rattle.fillcsv_run.specs.Saved.{StoreAt};

use crate::desk::Desk;
use crate::fill::fill;
use crate::lines::unsaved_line;
use crate::opening::open_sheet;
use crate::saving::{lacks_rule, store_text};
use crate::stop::{MEMORY_LINE, OUTPUT_LINE, say, tell};
use crate::told::Told;
use fill_edge::{Cabinet, Failed, Sink, write_all};
use fill_files::Store;
use fill_stream::Source;
use fill_text::NoMemory;
use fillcsv_options::{Asked, Order, Refusal, read_words};
use fillcsv_rule_runs::{RuleFile, run_rule_file};
use std::alloc::{AllocError, Global};
use std::marker::Brand;
use std::sync::ledger::Blank;

/// The files that a run reads, and those that it saves.
#[derive(Drop)]
pub struct Folder<C, T> {
    pub cabinet: C,
    pub store: T,
}

/// A run that has ended: its status, and the files after it.
#[derive(Drop)]
pub struct Ran<C, T> {
    pub status: u8,
    pub folder: Folder<C, T>,
}

/// Runs `fillcsv` with these words, those after the program's name, and answers the status.
///
/// The words name a sheet and the column that is to be filled. What they give for rows and its filled cells are the
/// examples, where they can be; each other cell of it is filled by the rule that is learned from them, and the sheet is
/// written to `out`, record by record. The rule is saved where they ask for it. Lines on `err` say what was filled, or why
/// there is no sheet.
///
/// Or they name a saved rule, which is run over the sheet that comes from the input.
///
/// | status | meaning |
/// |---|---|
/// | 0 | the whole sheet was written, or help was asked for |
/// | 1 | the whole sheet was written, and some given text is no example, or there is no rule to save, or with `--strict` some cell is neither given nor sure |
/// | 2 | the words are wrong |
/// | 3 | a file is not there, or it or the input could not be read |
/// | 4 | the output or the rule could not be written, or the file of the sheet could not be read again |
/// | 5 | a file or the input is refused, or has no such columns or rows |
/// | 6 | out of memory |
///
/// The file of the sheet is read again for each pass over it. A file of which nothing is told may change between two passes:
/// nothing is promised then of what was written, and where a later pass meets a row that cannot be read, or too many rows, the
/// run ends with 6.
pub fn run<C: Cabinet + Drop, T: Store + Drop, S: Source + Drop, O: Sink, E: Sink>(
    alloc: Global,
    words: &[String],
    mut folder: Folder<C, T>,
    mut input: S,
    out: &mut O,
    err: &mut E,
) -> Ran<C, T>
    // Where the words ask for a sheet, the run ends as its filling does, with the input at some place where it is asked.
    ensures filled { (asked : AskedData) → asked_in (map string_bytes words.now) ≡ Asks asked →
        (after : S) × EndsFilled asked (C.files folder.cabinet) (heard (S.left input) (S.faults input) (S.faults after)) result.status (C.faults folder.cabinet) (C.faults result.folder.cabinet) (O.written out.old) (O.written out.new)
        (record { files = T.saved folder.store; faults = T.faults folder.store }) (record { files = T.saved result.folder.store; faults = T.faults result.folder.store }) (Rose (O.faults out.old) (O.faults out.new))
        (SaysAfter asked.ask (E.written err.old) (E.written err.new) (E.faults err.old) (E.faults err.new)) }

    // Where they name a saved rule, it ends as the run of that rule does, with the input at some place, or memory runs out before.
    ensures ran { (saved : SavedData) → asked_in (map string_bytes words.now) ≡ Runs saved → OutBefore result.status (O.written out.old) (O.written out.new) (Says (E.written err.old) (E.written err.new) (E.faults err.old) (E.faults err.new)) ⊎ ((after : S)
        × RanFile saved.rule (C.files folder.cabinet) (C.faults folder.cabinet) (C.faults result.folder.cabinet) result.status (S.left input) (S.left after) (S.faults input) (S.faults after)
        (O.written out.old) (O.written out.new) (O.faults out.old) (O.faults out.new) (Says (E.written err.old) (E.written err.new) (E.faults err.old) (E.faults err.new))) }
    ensures stays { (saved : SavedData) → asked_in (map string_bytes words.now) ≡ Runs saved → result.folder.store ≡ folder.store }

    // Where they are wrong, nothing is read and nothing is written to `out`.
    ensures wrong { asked_in (map string_bytes words.now) ≡ Wrong → EndsWrong result.status (Says (E.written err.old) (E.written err.new) (E.faults err.old) (E.faults err.new)) × (result.folder ≡ folder) × (out.new ≡ out.old) }

    // Where they ask for help, nothing is read.
    ensures shown { asked_in (map string_bytes words.now) ≡ Shows → EndsShown result.status (Says (E.written err.old) (E.written err.new) (E.faults err.old) (E.faults err.new)) × (result.folder ≡ folder) }

    // Where they ask for quiet, nothing is said of a sheet that was written.
    ensures silent { (asked : AskedData) → asked_in (map string_bytes words.now) ≡ Asks asked → asked.quiet ≡ true → result.status ≤ 1 → err.new ≡ err.old }

    ensures fault { result.status ≡ 4 → Rose (O.faults out.old) (O.faults out.new) ⊎ Rose (T.faults folder.store) (T.faults result.folder.store) ⊎ ((asked : AskedData) × (asked_in (map string_bytes words.now) ≡ Asks asked) × Rose (C.faults folder.cabinet asked.file) (C.faults result.folder.cabinet asked.file)) }
    ensures statuses { result.status ≤ 6 }
    ensures files { C.files result.folder.cabinet ≡ C.files folder.cabinet }
{
    match read_words(alloc, words) {
        Ok(Order::Fill(asked)) => fill_sheet(alloc, &asked, folder, &mut input, out, err),
        Ok(Order::Run(saved)) => {
            let file = RuleFile {
                name: saved.rule.as_str(),
                quiet: saved.quiet,
            };
            let status = run_rule_file(alloc, file, &mut folder.cabinet, input, out, err).status;
            Ran { status, folder }
        }
        Err(Refusal::Usage(text)) => {
            let _ = write_all(err, text.as_bytes());
            Ran { status: 2, folder }
        }
        Err(Refusal::Shown(text)) => {
            let status = show(text.as_str(), out, err);
            Ran { status, folder }
        }
        Err(Refusal::NoMemory) => {
            say(err, MEMORY_LINE);
            Ran { status: 6, folder }
        }
    }
}

/// Fills the column that the words ask for, saves the rule where they ask for it, and answers the status.
fn fill_sheet<C: Cabinet + Drop, T: Store, S: Source, O: Sink, E: Sink>(
    alloc: Global,
    asked: &Asked,
    folder: Folder<C, T>,
    input: &mut S,
    out: &mut O,
    err: &mut E,
) -> Ran<C, T>
    requires lookups { All IsLookup (map lookup_data asked.now.lookups.items) }
    requires loud { asked.now.quiet ≡ true → asked.now.ask ≡ false }
    ensures ends { EndsFilled (data_of asked.now) (C.files folder.cabinet) (heard (S.left input.old) (S.faults input.old) (S.faults input.new)) result.status (C.faults folder.cabinet) (C.faults result.folder.cabinet) (O.written out.old) (O.written out.new)
        (record { files = T.saved folder.store; faults = T.faults folder.store }) (record { files = T.saved result.folder.store; faults = T.faults result.folder.store }) (Rose (O.faults out.old) (O.faults out.new))
        (SaysAfter asked.now.ask (E.written err.old) (E.written err.new) (E.faults err.old) (E.faults err.new)) }
    ensures silent { asked.now.quiet ≡ true → result.status ≤ 1 → err.new ≡ err.old }
    ensures fault { result.status ≡ 4 → Rose (O.faults out.old) (O.faults out.new) ⊎ Rose (T.faults folder.store) (T.faults result.folder.store) ⊎ Rose (C.faults folder.cabinet (data_of asked.now).file) (C.faults result.folder.cabinet (data_of asked.now).file) }
    ensures statuses { result.status ≤ 6 }
    ensures files { C.files result.folder.cabinet ≡ C.files folder.cabinet }
{
    let Folder { cabinet, mut store } = folder;
    let (cabinet, desk) = open_desk(alloc, asked, cabinet, err);
    let desk = match desk {
        Ok(desk) => desk,
        Err(status) => {
            return Ran {
                status,
                folder: Folder { cabinet, store },
            };
        }
    };
    let (cabinet, told) = fill::<C, S, O, E, Brand>(
        alloc,
        desk,
        cabinet,
        input,
        out,
        err,
        Blank::new(1),
    );
    match told {
        Ok(told) => {
            let status = end(alloc, asked, &told, &mut store, err);
            Ran {
                status,
                folder: Folder { cabinet, store },
            }
        }
        Err(status) => Ran {
            status,
            folder: Folder { cabinet, store },
        },
    }
}

/// Opens the sheet that the words name. Where that fails, the line that says why is written, and the answer is the status. The
/// cabinet is given back.
fn open_desk<C: Cabinet + Drop, E: Sink>(
    alloc: Global,
    asked: &Asked,
    cabinet: C,
    err: &mut E,
) -> (C, Result<Desk, u8>)
    requires { All IsLookup (map lookup_data asked.now.lookups.items) }
    ensures laid { IfOk result.1 IsLaid }
    ensures there { IfOk result.1 (λ desk. IsThere (C.files cabinet) (string_bytes desk.file) LAST_PLACE) }
    ensures opened { IfOk result.1 (OpensDesk (data_of asked.now) (C.files cabinet)) }
    ensures silent { IsOk result.1 → err.new ≡ err.old }
    ensures fails { IfErr result.1 (λ status. (input : Heard) (old : Option (Listed ℕ)) (store : StoreAt) → EndsFilled (data_of asked.now) (C.files cabinet) input status (C.faults cabinet) (C.faults result.0) old old store store ⊥
        (SaysAfter asked.now.ask (E.written err.old) (E.written err.new) (E.faults err.old) (E.faults err.new))) }
    ensures statuses { IfErr result.1 (λ status. (2 ≤ status) × (status ≤ 6) × (status ≢ 4)) }
    ensures files { C.files result.0 ≡ C.files cabinet }
    ensures later { NoneFell (C.faults cabinet) (C.faults result.0) }
{
    let (cabinet, read) = open_sheet(alloc, cabinet, asked);
    match read {
        Ok(read) => match Desk::of(alloc, asked, read) {
            Ok(desk) => (cabinet, Ok(desk)),
            Err(NoMemory) => {
                say(err, MEMORY_LINE);
                (cabinet, Err(6))
            }
        },
        Err(stop) => (cabinet, Err(tell(alloc, err, &stop))),
    }
}

/// Saves the rule of a sheet that was written, where the words ask for it, tells of the sheet, and answers the status.
fn end<T: Store, E: Sink>(
    alloc: Global,
    asked: &Asked,
    told: &Told,
    store: &mut T,
    err: &mut E,
) -> u8
    ensures ends { EndsTold (data_of asked.now) told.now result (record { files = T.saved store.old; faults = T.faults store.old }) (record { files = T.saved store.new; faults = T.faults store.new })
        (Says (E.written err.old) (E.written err.new) (E.faults err.old) (E.faults err.new)) }
    ensures silent { asked.now.quiet ≡ true → result ≤ 1 → err.new ≡ err.old }
{
    match store_text(store, &asked.save, &told.text) {
        Ok(()) => {
            tell_of(alloc, asked, told, err);
            if told.is_wanting(asked.strict) || lacks_rule(&asked.save, &told.text) {
                1
            } else {
                0
            }
        }
        Err(Failed) => tell_unsaved(alloc, path_of(&asked.save), err),
    }
}

/// A path, and the empty text where there is none.
fn path_of(path: &Option<String>) -> &str
    ensures { result.now ≡ unwrap_or (option_map string_bytes path.now) [] }
{
    match path {
        Some(path) => path.as_str(),
        None => "",
    }
}

/// Tells that the rule could not be saved, and answers the status: that of the output, or of memory where there is none for the
/// line.
fn tell_unsaved<E: Sink>(alloc: Global, path: &str, err: &mut E) -> u8
    ensures { IsUnsaved path.now result (Says (E.written err.old) (E.written err.new) (E.faults err.old) (E.faults err.new)) }
{
    match unsaved_line(alloc, path) {
        Ok(line) => {
            say(err, line.as_bytes());
            4
        }
        Err(AllocError) => {
            say(err, MEMORY_LINE);
            6
        }
    }
}

/// Tells of a sheet that was written, if the words do not ask for quiet.
fn tell_of<E: Sink>(alloc: Global, asked: &Asked, told: &Told, err: &mut E)
    ensures { asked.now.quiet ≡ true → err.new ≡ err.old }
{
    if asked.quiet {
        return;
    }
    told.say(alloc, asked.header, err);
    if lacks_rule(&asked.save, &told.text) {
        say(err, b"fillcsv: no rule to save\n");
    }
}

/// Writes a text that was asked for, and answers the status.
fn show<O: Sink, E: Sink>(text: &str, out: &mut O, err: &mut E) -> u8
    ensures ends { EndsShown result (Says (E.written err.old) (E.written err.new) (E.faults err.old) (E.faults err.new)) }
    ensures statuses { (result ≡ 0) ⊎ (result ≡ 4) }
    ensures fault { result ≡ 4 → Rose (O.faults out.old) (O.faults out.new) }
{
    match write_all(out, text.as_bytes()) {
        Ok(()) => 0,
        Err(_) => {
            say(err, OUTPUT_LINE);
            4
        }
    }
}
