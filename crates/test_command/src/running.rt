//! Whole runs over files and output in memory.
ghost use Rattle.std.specs.Prelude.{◌≡◌};

mod applied;
mod keys;
mod noting;
mod rows;

use fill_command::run;
use fill_edge::{Ledger, MemorySink, Steps};
use noting::NotingCabinet;
use std::alloc::Global;
use std::marker::Brand;
use std::sync::ledger::Blank;
use std::test::Fail;

const PLENTY: usize = 10_000;

/// What a run is given.
#[derive(Clone, Copy)]
struct Given<'a> {
    words: &'a [&'a str],
    /// Each file's name and its bytes.
    files: &'a [(&'a str, &'a [u8])],
    /// How many bytes a read gives, and how many a write takes.
    read: usize,
    write: usize,
    /// How many bytes there is room for in the report and in the line that says why there is none.
    room: usize,
    margin: usize,
    /// The number of the read that fails, and that of the write to the report; 0 where none does.
    failing_read: u64,
    failing_write: u64,
}

/// What a run comes to.
#[derive(Clone, Copy)]
struct Ending<'a> {
    status: u8,
    report: &'a [u8],
    line: &'a [u8],
}

/// A run with plenty of room, in which nothing fails.
fn plain<'a>(words: &'a [&'a str], files: &'a [(&'a str, &'a [u8])]) -> Given<'a> {
    Given {
        words,
        files,
        read: PLENTY,
        write: PLENTY,
        room: PLENTY,
        margin: PLENTY,
        failing_read: 0,
        failing_write: 0,
    }
}

/// All that a run reads and writes.
#[derive(Drop)]
struct Scene {
    words: Vec<String>,
    cabinet: NotingCabinet,
    out: MemorySink,
    err: MemorySink,
}

fn empty_scene(alloc: Global, given: Given) -> Result<Scene, Fail> {
    let out = MemorySink::new(alloc, given.room, given.write.max(1))?;
    let err = MemorySink::new(alloc, given.margin, given.write.max(1))?;
    Ok(Scene {
        words: Vec::new(alloc),
        cabinet: NotingCabinet::new(alloc, given.read.max(1)),
        out,
        err,
    })
}

fn put_words(alloc: Global, words: &mut Vec<String>, given: Given) -> Result<(), Fail> {
    for word in given.words {
        words.push(String::from_str(alloc, word)?)?;
    }
    Ok(())
}

fn put_files(cabinet: &mut NotingCabinet, given: Given) -> Result<(), Fail> {
    for (name, bytes) in given.files {
        cabinet.put(name, bytes)?;
    }
    Ok(())
}

/// Puts the words and the files there, and sets what fails.
fn set(alloc: Global, scene: &mut Scene, given: Given) -> Result<(), Fail> {
    put_words(alloc, &mut scene.words, given)?;
    put_files(&mut scene.cabinet, given)?;
    scene.cabinet.fail_at(given.failing_read)?;
    scene.out.fail_at(given.failing_write)?;
    Ok(())
}

/// The status of a run.
fn status<L: Ledger>(alloc: Global, scene: &mut Scene, blank: Blank) -> u8
    requires name { blank.name ≡ L.name }
    requires parts { blank.parts ≡ L.parts }
    requires one { blank.parts ≡ 1 }
{
    let (book, share) = blank.open::<L>();
    let mut steps = Steps::new(book, share);
    run(
        alloc,
        &scene.words,
        &mut scene.cabinet,
        &mut scene.out,
        &mut scene.err,
        &mut steps,
    )
}

/// Whether a run ends so, and reads files of these names in turn, each ended by a line feed.
fn ends_in(
    alloc: Global,
    scene: &mut Scene,
    given: Given,
    ending: Ending,
    asked: Option<&str>,
) -> Result<bool, Fail> {
    set(alloc, scene, given)?;
    let status = status::<Brand>(alloc, scene, Blank::new(1));
    Ok(
        status == ending.status
            && scene.out.written() == ending.report
            && scene.err.written() == ending.line
            && scene.cabinet.was_asked(asked),
    )
}

fn ends_and_asks(
    alloc: Global,
    given: Given,
    ending: Ending,
    asked: Option<&str>,
) -> Result<bool, Fail> {
    let mut scene = empty_scene(alloc, given)?;
    ends_in(alloc, &mut scene, given, ending, asked)
}

fn ends(alloc: Global, given: Given, ending: Ending) -> Result<bool, Fail> {
    ends_and_asks(alloc, given, ending, None)
}

/// Whether it ends so with reads and writes of one byte, and with whole ones.
fn ends_at_any_length(alloc: Global, given: Given, ending: Ending) -> Result<bool, Fail> {
    let slow = Given {
        read: 1,
        write: 1,
        ..given
    };
    Ok(ends(alloc, slow, ending)? && ends(alloc, given, ending)?)
}

const SHEET: &[u8] = b"John Smith\n";

/// A session with one example over that sheet.
const SESSION: &[u8] = b"sheet,sheet.csv\ninputs,1\nbegin\nadd,1,Smith\nprograms\n";

const REPORT: &[u8] =
    b"ok,add,1\nbranch,1,else,\"Concat(Sub(Col(1),Pos([],[Upper],-1),CPos(-1)))\"\n";

const FILES: &[(&str, &[u8])] = &[("s.csv", SESSION), ("sheet.csv", SHEET)];

const USAGE: &[u8] =
    b"usage: flashfill replay SESSION or flashfill made N or flashfill apply SESSION PROGRAM SHEET or flashfill keys FILE\n";

const NO_OUTPUT: &[u8] = b"flashfill: output cannot be written\n";

/// Whether a session over the sheet `John Smith` ends so.
fn session_ends(alloc: Global, session: &[u8], ending: Ending) -> Result<bool, Fail> {
    let files = [("s.csv", session), ("sheet.csv", SHEET)];
    ends_at_any_length(alloc, plain(&["replay", "s.csv"], &files), ending)
}

#[test]
fn endings_have_their_status_and_line(rt: HostRuntime) -> Result<(), Fail> {
    let rows: [(&str, u8, &[u8], &str); 8] = [
        (
            "sheet,sheet.csv\ninputs,1\nbegin\nadd,1,Smith\nprograms\n",
            0,
            REPORT,
            "",
        ),
        // One file as the sheet and as two tables.
        (
            "sheet,sheet.csv\ninputs,1\ntable,t,sheet.csv\ntable,u,sheet.csv\nbegin\nadd,1,x\n",
            0,
            b"ok,add,1\n",
            "",
        ),
        // The session as its own sheet.
        (
            "sheet,s.csv\ninputs,1\nbegin\nanswer,4\nanswer,5\n",
            0,
            b"row,4,,none\nrow,5,,none\n",
            "",
        ),
        (
            "sheet,größe.csv\ninputs,1\nbegin\n",
            3,
            b"",
            "flashfill: größe.csv: cannot be read\n",
        ),
        (
            "sheet,sheet.csv\ninputs,1\nbegin\nadd,2,x\n",
            1,
            b"refused,add,2,no such row\n",
            "",
        ),
        (
            "sheet,sheet.csv\ninputs,1\nbegin\nadd,01,x\n",
            5,
            b"",
            "flashfill: s.csv: record 4 is not understood\n",
        ),
        (
            "sheet,sheet.csv\ninputs,1\n",
            5,
            b"",
            "flashfill: s.csv: no begin\n",
        ),
        (
            "sheet,gone.csv\ninputs,1\nbegin\n",
            3,
            b"",
            "flashfill: gone.csv: cannot be read\n",
        ),
    ];
    for (session, status, report, line) in rows {
        let ending = Ending {
            status,
            report,
            line: line.as_bytes(),
        };
        assert!(rt;
            session_ends(rt.alloc(), session.as_bytes(), ending)?,
            "{session}"
        );
    }
    Ok(())
}

/// Whether the words are no command.
fn are_no_command(alloc: Global, words: &[&str]) -> Result<bool, Fail> {
    let ending = Ending {
        status: 2,
        report: b"",
        line: USAGE,
    };
    ends(alloc, plain(words, FILES), ending)
}

#[test]
fn other_words_are_no_command(rt: HostRuntime) -> Result<(), Fail> {
    let rows: [&[&str]; 6] = [
        &[],
        &["replay"],
        &["replay", ""],
        &["play", "s.csv"],
        &["replay", "s.csv", "s.csv"],
        &["made", "0"],
    ];
    for words in rows {
        assert!(rt; are_no_command(rt.alloc(), words)?, "{words:?}");
    }
    Ok(())
}

/// Each file is read in two calls, its bytes and its end, and nothing else is read.
#[test]
fn only_files_of_the_session_are_read(rt: HostRuntime) -> Result<(), Fail> {
    let rows: [(&[&str], Ending, &str); 4] = [
        (
            &["replay", "s.csv"],
            Ending {
                status: 0,
                report: REPORT,
                line: b"",
            },
            "s.csv\ns.csv\nsheet.csv\nsheet.csv\n",
        ),
        (
            &["replay", "sheet.csv"],
            Ending {
                status: 5,
                report: b"",
                line: b"flashfill: sheet.csv: record 1 is not understood\n",
            },
            "sheet.csv\nsheet.csv\n",
        ),
        (
            &["replay", "gone.csv"],
            Ending {
                status: 3,
                report: b"",
                line: b"flashfill: gone.csv: cannot be read\n",
            },
            "gone.csv\n",
        ),
        (
            &["play", "s.csv"],
            Ending {
                status: 2,
                report: b"",
                line: USAGE,
            },
            "",
        ),
    ];
    for (words, ending, asked) in rows {
        assert!(rt;
            ends_and_asks(rt.alloc(), plain(words, FILES), ending, Some(asked))?,
            "{asked}"
        );
    }
    Ok(())
}

/// Whether the session ends so where this read of twenty bytes fails.
fn ends_at_read(alloc: Global, failing_read: u64, ending: Ending) -> Result<bool, Fail> {
    let given = Given {
        read: 20,
        failing_read,
        ..plain(&["replay", "s.csv"], FILES)
    };
    ends(alloc, given, ending)
}

/// Each read fails in turn: with reads of 20 bytes the session takes 4 calls and the sheet 2.
#[test]
fn a_failed_read_is_told(rt: HostRuntime) -> Result<(), Fail> {
    for call in 1..8 {
        let (status, report, line) = match call {
            1..=4 => (
                3,
                b"".as_slice(),
                b"flashfill: s.csv: cannot be read\n".as_slice(),
            ),
            5 | 6 => (
                3,
                b"".as_slice(),
                b"flashfill: sheet.csv: cannot be read\n".as_slice(),
            ),
            _ => (0, REPORT, b"".as_slice()),
        };
        let ending = Ending {
            status,
            report,
            line,
        };
        assert!(rt; ends_at_read(rt.alloc(), call, ending)?, "{call}");
    }
    Ok(())
}

/// How a run ends whose writes fail after this many bytes of the report.
fn ending_after(report: &[u8], written: usize) -> Ending {
    if written == report.len() {
        Ending {
            status: 0,
            report,
            line: b"",
        }
    } else {
        Ending {
            status: 4,
            report: report.get(..written).unwrap_or(b""),
            line: NO_OUTPUT,
        }
    }
}

/// Whether this many bytes of the report are written where this write of at most forty bytes fails.
fn writes_until(alloc: Global, failing_write: u64, written: usize) -> Result<bool, Fail> {
    let given = Given {
        write: 40,
        failing_write,
        ..plain(&["replay", "s.csv"], FILES)
    };
    ends(alloc, given, ending_after(REPORT, written))
}

/// Each write fails in turn: the records of the report have 9 and 64 bytes, of which a write takes 40, and no record shares one.
#[test]
fn a_failed_write_leaves_the_front_of_the_report(rt: HostRuntime) -> Result<(), Fail> {
    for (call, written) in [(1, 0), (2, 9), (3, 49), (4, 73)] {
        assert!(rt; writes_until(rt.alloc(), call, written)?, "{call}");
    }
    Ok(())
}

/// Whether the words end so with room for this many bytes of the report and of the line.
fn ends_within(
    alloc: Global,
    words: &[&str],
    (room, margin): (usize, usize),
    ending: Ending,
) -> Result<bool, Fail> {
    let given = Given {
        room,
        margin,
        ..plain(words, FILES)
    };
    ends(alloc, given, ending)
}

/// Sinks of so few bytes take the front of what is written, and the status is as it would be.
#[test]
fn small_sinks_take_what_they_can(rt: HostRuntime) -> Result<(), Fail> {
    let rows: [(&[&str], (usize, usize), Ending); 3] = [
        (
            &["replay", "s.csv"],
            (10, PLENTY),
            Ending {
                status: 4,
                report: b"ok,add,1\nb",
                line: NO_OUTPUT,
            },
        ),
        (
            &["replay", "gone.csv"],
            (0, 11),
            Ending {
                status: 3,
                report: b"",
                line: b"flashfill: ",
            },
        ),
        (
            &["play", "s.csv"],
            (0, 5),
            Ending {
                status: 2,
                report: b"",
                line: b"usage",
            },
        ),
    ];
    for (words, room, ending) in rows {
        assert!(rt; ends_within(rt.alloc(), words, room, ending)?, "{words:?}");
    }
    Ok(())
}
