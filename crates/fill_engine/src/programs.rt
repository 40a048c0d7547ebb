//! The runs of the two programs over the files of a request.
ghost use Rattle.std.specs.Prelude.{◌≡◌, [], IfOk, Some, false, map, string_bytes};
ghost use Rattle.fill_engine.specs.Answer.{IsWhole, answer_data};
ghost use Rattle.fill_engine.specs.Programs.{Ends, EndsFillcsv, EndsFlashfill, Stores, files_of};

use crate::answer::Answer;
use crate::files::NamedFiles;
use crate::input::Input;
use crate::page::Page;
use crate::request::Program;
use fill_edge::{Ledger, Steps};
use fill_files::MemoryStore;
use fill_text::NoMemory;
use fillcsv_run::Folder;
use std::alloc::Global;
use std::marker::Brand;
use std::sync::ledger::Blank;

/// What a program answers to these words over these files.
pub fn run_program(
    alloc: Global,
    program: Program,
    words: &[String],
    files: NamedFiles,
) -> Result<Answer, NoMemory>
    ensures { IfOk result (λ answer. Ends program (map string_bytes words.now) files.files (answer_data answer)) }
{
    match program {
        Program::Flashfill => run_flashfill::<Brand>(alloc, words, files, Blank::new(1)),
        Program::Fillcsv => run_fillcsv(alloc, words, files),
    }
}

fn run_flashfill<L: Ledger>(
    alloc: Global,
    words: &[String],
    mut files: NamedFiles,
    blank: Blank,
) -> Result<Answer, NoMemory>
    requires name { blank.name ≡ L.name }
    requires parts { blank.parts ≡ L.parts }
    requires one { blank.parts ≡ 1 }
    ensures { IfOk result (λ answer. EndsFlashfill (map string_bytes words.now) (files_of files.files) (answer_data answer)) }
{
    let (book, share) = blank.open::<L>();
    let mut steps = Steps::new(book, share);
    let mut out = Page::new(alloc);
    let mut err = Page::new(alloc);
    let status = fill_command::run(alloc, words, &mut files, &mut out, &mut err, &mut steps);
    whole(status, out, err, Vec::new(alloc))
}

fn run_fillcsv(alloc: Global, words: &[String], files: NamedFiles) -> Result<Answer, NoMemory>
    ensures { IfOk result (λ answer. EndsFillcsv (map string_bytes words.now) files.files (answer_data answer)) }
{
    let bytes = files.input()?;
    let input = Input::new(&bytes);
    let folder = folder_of(alloc, files);
    let mut out = Page::new(alloc);
    let mut err = Page::new(alloc);
    let ran = fillcsv_run::run(alloc, words, folder, input, &mut out, &mut err);
    let saved = saved_by(alloc, &ran.folder.store)?;
    whole(ran.status, out, err, saved)
}

/// These files, and a store that holds nothing.
fn folder_of(alloc: Global, files: NamedFiles) -> Folder<NamedFiles, MemoryStore>
    ensures cabinet { result.cabinet ≡ files }
    ensures store { result.store ≡ record { files = []; fails = false; faults = 0 } }
{
    Folder {
        cabinet: files,
        store: MemoryStore::new(alloc),
    }
}

/// The bytes of the file that was saved last, where no save failed.
fn saved_by(alloc: Global, store: &MemoryStore) -> Result<Vec<u8>, NoMemory>
    ensures { IfOk result (λ saved. Stores saved.items (record { files = Some store.now.files; faults = store.now.faults })) }
{
    if store.faults() > 0 {
        return Err(NoMemory);
    }
    Ok(store.last().to_vec(alloc)?)
}

/// The answer of a status, of what was written, where no write failed, and of what was saved.
fn whole(status: u8, out: Page, err: Page, saved: Vec<u8>) -> Result<Answer, NoMemory>
    ensures { IfOk result (IsWhole status out err saved.items) }
{
    if out.faults > 0 {
        return Err(NoMemory);
    }
    if err.faults > 0 {
        return Err(NoMemory);
    }
    Ok(Answer {
        status,
        out: out.bytes,
        err: err.bytes,
        saved,
    })
}
