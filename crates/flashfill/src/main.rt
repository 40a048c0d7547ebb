//! FlashFill at the command line: it learns string programs from a few example cells of a sheet.
#![tactic(auto)]

ghost use Rattle.std.specs.Prelude.{◌≡◌, ◌⊎◌, ◌↔◌, ◌≤◌, ℕ, None, Some, map, string_bytes};
ghost use Rattle.fill_open.specs.Command.{command_in, made};

use fill_command::{Ending, run};
use fill_edge::{FolderCabinet, Ledger, StdSink, Steps};
use std::alloc::AllocError;
use std::marker::Brand;
use std::process::ExitCode;
use std::sync::ledger::Blank;
use std::{env, io};

/// The words after the program's name; none where one of them is not UTF-8, which no command is.
fn words(rt: &HostRuntime) -> Result<Vec<String>, AllocError> {
    let mut words = Vec::new(rt.alloc());
    match env::args(rt) {
        Ok(args) => {
            for word in args.skip(1) {
                words.push(word)?;
            }
            Ok(words)
        }
        Err(e) => {
            if e.kind() == io::ErrorKind::OutOfMemory {
                return Err(AllocError);
            }
            Ok(words)
        }
    }
}

/// Runs the command over the current folder and the standard streams, and answers the status.
fn start<L: Ledger>(rt: HostRuntime, words: &[String], blank: Blank) -> u8
    requires name { blank.name ≡ L.name }
    requires parts { blank.parts ≡ L.parts }
    requires one { blank.parts ≡ 1 }
    // 2 exactly where the words are no command; a generated session gives its report, unless a write fails or memory runs out.
    ensures usage { (command_in (map string_bytes words.now) ≡ None) ↔ (result ≡ 2) }
    ensures generated { (n : ℕ) → command_in (map string_bytes words.now) ≡ Some (made n) → (result ≤ 1) ⊎ (result ≡ 4) ⊎ (result ≡ 6) }
{
    let alloc = rt.alloc();
    let mut out = StdSink::new(rt.stdout());
    let mut err = StdSink::new(rt.stderr());
    let mut cabinet = FolderCabinet::new(alloc, rt);
    let (book, share) = blank.open::<L>();
    let mut steps = Steps::new(book, share);
    run(alloc, words, &mut cabinet, &mut out, &mut err, &mut steps)
}

fn main(rt: HostRuntime) -> ExitCode {
    match words(&rt) {
        Ok(words) => ExitCode::from(start::<Brand>(rt, &words, Blank::new(1))),
        Err(AllocError) => {
            let mut err = StdSink::new(rt.stderr());
            ExitCode::from(Ending::NoMemory.tell(&mut err))
        }
    }
}
