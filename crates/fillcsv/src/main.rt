//! A sheet with one of its columns filled: `fillcsv people.csv --to Label`.
#![tactic(auto)]

use fill_edge::{FolderCabinet, StdSink};
use fill_files::{FolderStore, InputCabinet};
use fill_stream::StdSource;
use fillcsv_run::{Folder, MEMORY_LINE, run, say};
use std::alloc::AllocError;
use std::process::ExitCode;
use std::{env, io};

/// The words after the program's name; none where one of them is not UTF-8, and then they ask for nothing.
fn words(rt: &HostRuntime) -> Result<Vec<String>, AllocError> {
    let mut words = Vec::new(rt.alloc());
    match env::args(rt) {
        Ok(args) => {
            for word in args.skip(1) {
                words.push(word)?;
            }
            Ok(words)
        }
        Err(e) => {
            if e.kind() == io::ErrorKind::OutOfMemory {
                return Err(AllocError);
            }
            Ok(words)
        }
    }
}

/// Runs the program over the current folder and the standard streams.
fn start(rt: &HostRuntime, words: &[String]) -> u8 {
    let folder = Folder {
        cabinet: InputCabinet::new(rt.alloc(), FolderCabinet::new(rt.alloc(), rt), rt.stdin()),
        store: FolderStore::new(rt.alloc(), rt),
    };
    let input = StdSource::new(rt.stdin());
    let mut out = StdSink::new(rt.stdout());
    let mut err = StdSink::new(rt.stderr());
    run(rt.alloc(), words, folder, input, &mut out, &mut err).status
}

fn main(rt: HostRuntime) -> ExitCode {
    match words(&rt) {
        Ok(words) => ExitCode::from(start(&rt, &words)),
        Err(AllocError) => {
            let mut err = StdSink::new(rt.stderr());
            say(&mut err, MEMORY_LINE);
            ExitCode::from(6)
        }
    }
}
