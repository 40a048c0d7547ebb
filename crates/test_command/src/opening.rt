//! How sessions open, over files in memory.
use fill_edge::MemoryCabinet;
use fill_open::*;
use fill_script::ScriptError;
use fill_sheet::SheetError;
use fill_tables::TableError;
use fill_text::{List, NoMemory};
use std::alloc::Global;
use std::test::Fail;

const PLENTY: usize = 100_000;

const PRICES: &[u8] = b"pen,2011,$1\npen,2012,$2\ncup,2011,$5\ncup,2012,$7\n";

/// A session over a table with a key.
const SESSION: &[u8] =
    b"sheet,sheet.csv\ninputs,1\ntable,prices,prices.csv\nkey,prices,1,2\nbegin\nadd,1,$2\n";

/// A session file, the file `t.csv`, and the number of the read that fails, if one does.
#[derive(Clone, Copy)]
struct Scene<'a> {
    session: &'a [u8],
    other: &'a [u8],
    failing: Option<u64>,
}

/// The scene of a session where no read fails.
fn scene_of(session: &[u8]) -> Scene<'_> {
    Scene {
        session,
        other: b"",
        failing: None,
    }
}

/// Puts a sheet, a table, a file that is not all UTF-8 and those of the scene among the files.
fn put_files(cabinet: &mut MemoryCabinet, scene: &Scene) -> Result<(), NoMemory> {
    cabinet.put("sheet.csv", b"pen\ncup\n")?;
    cabinet.put("prices.csv", PRICES)?;
    cabinet.put("bad.csv", b"a,\xff\nb,c\n")?;
    cabinet.put("t.csv", scene.other)?;
    cabinet.put("s.csv", scene.session)
}

/// Whether this is the line of the stop.
fn is_told(alloc: Global, stop: &Stop, expected: &str) -> Result<bool, NoMemory> {
    let line = line_of(alloc, stop)?;
    Ok(line.as_str() == expected)
}

/// Whether this line says why the session `s.csv` is not ready; it is empty where the session is.
fn ends_with(alloc: Global, cabinet: &mut MemoryCabinet, line: &str) -> Result<bool, NoMemory> {
    match open_replay(alloc, cabinet, "s.csv") {
        Ok(_) => Ok(line.is_empty()),
        Err(stop) => is_told(alloc, &stop, line),
    }
}

/// Puts the files of the scene into the cabinet, and tells whether the session ends with its line.
fn plays(
    alloc: Global,
    cabinet: &mut MemoryCabinet,
    scene: &Scene,
    line: &str,
) -> Result<bool, NoMemory> {
    put_files(cabinet, scene)?;
    if let Some(call) = scene.failing {
        cabinet.fail_at(call)?;
    }
    ends_with(alloc, cabinet, line)
}

/// Whether this line says why the session of the scene is not ready; it is empty where the session is.
fn ends(alloc: Global, scene: &Scene, line: &str) -> Result<bool, NoMemory> {
    let mut cabinet = MemoryCabinet::new(alloc, PLENTY);
    plays(alloc, &mut cabinet, scene, line)
}

/// Puts a text at the end this many times.
fn append_times(bytes: &mut List<u8>, text: &[u8], times: usize) -> Result<(), NoMemory> {
    for _ in 0..times {
        bytes.append(text)?;
    }
    Ok(())
}

#[test]
fn sessions_are_ready_or_refused(rt: HostRuntime) -> Result<(), Fail> {
    let alloc = rt.alloc();
    let rows: [(&[u8], &str); 12] = [
        (SESSION, ""),
        (b"sheet,a.csv\ninputs,1\n", "flashfill: s.csv: no begin\n"),
        (
            b"sheet,sheet.csv\ninputs,1\nbegin\nadd,01,x\n",
            "flashfill: s.csv: record 4 is not understood\n",
        ),
        (
            b"sheet,a.csv\nsheet,b.csv\ninputs,1\nbegin\n",
            "flashfill: s.csv: record 2 comes again\n",
        ),
        (b"begin\n", "flashfill: s.csv: no sheet\n"),
        (b"sheet,a.csv\nbegin\n", "flashfill: s.csv: no inputs\n"),
        (b"\xff\n", "flashfill: s.csv: record 1 is not UTF-8\n"),
        (
            b"sheet,sheet.csv\ninputs,1\nbegin\nadd,4294967296,x\n",
            "flashfill: s.csv: record 4 is not understood\n",
        ),
        (
            b"sheet,sheet.csv\ninputs,1,1\nbegin\n",
            "flashfill: s.csv: record 2 is not understood\n",
        ),
        (
            b"sheet,sheet.csv\ninputs,1\noutput,1\nbegin\n",
            "flashfill: s.csv: record 3 is not understood\n",
        ),
        (
            b"sheet,gone.csv\ninputs,1\nkey,gone,1\nbegin\n",
            "flashfill: gone.csv: cannot be read\n",
        ),
        (
            b"sheet,bad.csv\ninputs,1\noutput,2\nbegin\n",
            "flashfill: bad.csv: record 1 is not UTF-8\n",
        ),
    ];
    for (session, line) in rows {
        assert!(rt; ends(alloc, &scene_of(session), line)?, "{line}");
    }
    Ok(())
}

/// Whether the session of this file is refused for this fault of a file.
fn is_refused_for(
    alloc: Global,
    session: &[u8],
    file: &str,
    fault: Fault,
) -> Result<bool, NoMemory> {
    let mut cabinet = MemoryCabinet::new(alloc, PLENTY);
    put_files(&mut cabinet, &scene_of(session))?;
    match open_replay(alloc, &mut cabinet, "s.csv") {
        Err(Stop::Refused(refusal)) => Ok(refusal.file() == file && refusal.fault() == fault),
        _ => Ok(false),
    }
}

#[test]
fn refusals_are_told_by_type(rt: HostRuntime) -> Result<(), Fail> {
    let alloc = rt.alloc();
    let rows: [(&[u8], &str, Fault); 4] = [
        (
            b"sheet,a.csv\ninputs,1\n",
            "s.csv",
            Fault::Script(ScriptError::MissingBegin),
        ),
        (
            b"sheet,bad.csv\ninputs,1\noutput,2\nbegin\n",
            "bad.csv",
            Fault::Sheet(SheetError::NotUtf8 {
                number: 1,
                column: 2,
            }),
        ),
        (
            b"sheet,sheet.csv\ninputs,1\ntable,t,bad.csv\nbegin\n",
            "bad.csv",
            Fault::Table(TableError::NotUtf8 {
                number: 1,
                column: 2,
            }),
        ),
        (
            b"sheet,sheet.csv\ninputs,1\ntable,t,prices.csv\nkey,t,1\nbegin\n",
            "s.csv",
            Fault::Line {
                number: 4,
                error: TableError::NotAKey { row1: 1, row2: 2 },
            },
        ),
    ];
    for (session, file, fault) in rows {
        assert!(rt; is_refused_for(alloc, session, file, fault)?, "{fault}");
    }
    Ok(())
}

/// Lines of a session after its sheet and its inputs: some first, and one that comes this many times after them.
#[derive(Clone, Copy)]
struct Lines<'a> {
    first: &'a [u8],
    more: &'a [u8],
    times: usize,
}

/// Whether this line says why the session of a sheet, inputs and these lines is not ready.
fn grows_and_ends(
    alloc: Global,
    session: &mut List<u8>,
    lines: &Lines,
    line: &str,
) -> Result<bool, NoMemory> {
    session.append(b"sheet,sheet.csv\ninputs,1\n")?;
    session.append(lines.first)?;
    append_times(session, lines.more, lines.times)?;
    ends(alloc, &scene_of(session.as_slice()), line)
}

/// Whether this line says why a session of these lines is not ready, written into a list of its own.
fn lines_end(alloc: Global, lines: &Lines, line: &str) -> Result<bool, NoMemory> {
    let mut session = List::new(alloc);
    grows_and_ends(alloc, &mut session, lines, line)
}

#[test]
fn tables_and_keys_are_added_or_refused(rt: HostRuntime) -> Result<(), Fail> {
    let alloc = rt.alloc();
    let rows: [(&[u8], &str); 8] = [
        (b"header\noutput,2\n", ""),
        (
            b"key,gone,1\ntable,prices,gone.csv\n",
            "flashfill: s.csv: record 3: no such table\n",
        ),
        (
            b"table,prices,prices.csv\nkey,prices,1\n",
            "flashfill: s.csv: record 4: rows 1 and 2 agree in the key\n",
        ),
        (
            b"table,prices,prices.csv\nkey,prices,4\n",
            "flashfill: s.csv: record 4: no such column\n",
        ),
        (
            b"table,prices,prices.csv\ntable,prices,sheet.csv\n",
            "flashfill: s.csv: record 4: the name is taken\n",
        ),
        (
            b"table,prices,prices.csv\ntable,prices,gone.csv\n",
            "flashfill: gone.csv: cannot be read\n",
        ),
        (
            b"table,x,bad.csv\n",
            "flashfill: bad.csv: record 1 is not UTF-8\n",
        ),
        (
            b"table,p,prices.csv\nkey,p,3\nkey,p,3\nkey,p,1,2\nkey,p,2,1\nkey,p,3\n",
            "flashfill: s.csv: record 8: too many keys\n",
        ),
    ];
    for (first, line) in rows {
        let lines = Lines {
            first,
            more: b"begin\n",
            times: 1,
        };
        assert!(rt; lines_end(alloc, &lines, line)?, "{line}");
    }
    Ok(())
}

/// Whether this line says why the session is not ready where `t.csv` has this many records.
fn fills_and_ends(
    alloc: Global,
    other: &mut List<u8>,
    session: &[u8],
    records: usize,
    line: &str,
) -> Result<bool, NoMemory> {
    append_times(other, b"x\n", records)?;
    let scene = Scene {
        session,
        other: other.as_slice(),
        failing: None,
    };
    ends(alloc, &scene, line)
}

/// Whether this line says why the session is not ready, with the records written into a list of their own.
fn records_end(
    alloc: Global,
    session: &[u8],
    records: usize,
    line: &str,
) -> Result<bool, NoMemory> {
    let mut other = List::new(alloc);
    fills_and_ends(alloc, &mut other, session, records, line)
}

/// A session that names a file of one record too many, or has one too many itself.
#[test]
fn files_have_their_limits(rt: HostRuntime) -> Result<(), Fail> {
    let alloc = rt.alloc();
    let rows: [(&[u8], usize, &str); 3] = [
        (
            b"sheet,t.csv\ninputs,1\nbegin\n",
            20_001,
            "flashfill: t.csv: more than 20000 records\n",
        ),
        (
            b"sheet,sheet.csv\ninputs,1\ntable,t,t.csv\nbegin\n",
            2_001,
            "flashfill: t.csv: more than 2000 records\n",
        ),
        (
            b"sheet,t.csv\ninputs,1\nbegin\n",
            8_388_609,
            "flashfill: t.csv: more than 16777216 bytes\n",
        ),
    ];
    for (session, records, line) in rows {
        assert!(rt; records_end(alloc, session, records, line)?, "{line}");
    }
    Ok(())
}

#[test]
fn a_session_has_its_limits(rt: HostRuntime) -> Result<(), Fail> {
    let alloc = rt.alloc();
    let rows: [(&[u8], &[u8], usize, &str); 4] = [
        (b"begin\n", b"clear\n", 997, ""),
        (
            b"begin\n",
            b"clear\n",
            998,
            "flashfill: s.csv: more than 1000 records\n",
        ),
        (
            b"begin\n",
            b"\n\n",
            8_388_600,
            "flashfill: s.csv: more than 16777216 bytes\n",
        ),
        (
            b"table,1,sheet.csv\ntable,2,sheet.csv\ntable,3,sheet.csv\ntable,4,sheet.csv\ntable,5,sheet.csv\ntable,6,sheet.csv\ntable,7,sheet.csv\ntable,8,sheet.csv\ntable,9,sheet.csv\n",
            b"begin\n",
            1,
            "flashfill: s.csv: record 11: too many tables\n",
        ),
    ];
    for (first, more, times, line) in rows {
        let lines = Lines { first, more, times };
        assert!(rt; lines_end(alloc, &lines, line)?, "{line}");
    }
    Ok(())
}

/// Each read fails in turn: each file takes two, and the files are read in the order of the session.
#[test]
fn a_failed_read_is_told(rt: HostRuntime) -> Result<(), Fail> {
    let alloc = rt.alloc();
    let rows = [
        (1, "flashfill: s.csv: cannot be read\n"),
        (2, "flashfill: s.csv: cannot be read\n"),
        (3, "flashfill: sheet.csv: cannot be read\n"),
        (4, "flashfill: sheet.csv: cannot be read\n"),
        (5, "flashfill: prices.csv: cannot be read\n"),
        (6, "flashfill: prices.csv: cannot be read\n"),
        (7, ""),
    ];
    for (call, line) in rows {
        let scene = Scene {
            session: SESSION,
            other: b"",
            failing: Some(call),
        };
        assert!(rt; ends(alloc, &scene, line)?, "{call}");
    }
    Ok(())
}

/// Whether the generated session over this many lines is ready.
fn generates(alloc: Global, n: u32) -> bool {
    if n < 1 || 2_000 < n {
        return false;
    }
    match open_made(alloc, n) {
        Ok(ready) => ready.sheet.rows() == n,
        Err(_) => false,
    }
}

#[test]
fn a_generated_session_is_ready(rt: HostRuntime) -> Result<(), Fail> {
    for n in [1, 500, 2_000] {
        assert!(rt; generates(rt.alloc(), n), "{n}");
    }
    Ok(())
}

/// Puts a word at the end of the words.
fn push_word(alloc: Global, words: &mut Vec<String>, word: &str) -> Result<(), NoMemory> {
    words.push(String::from_str(alloc, word)?)?;
    Ok(())
}

/// Whether a word and its argument are this command, and no fewer and no more words are one.
fn ask_for(
    alloc: Global,
    words: &mut Vec<String>,
    word: &str,
    argument: &str,
    command: Option<Command<'_>>,
) -> Result<bool, NoMemory> {
    let none = command_of(words).is_none();
    push_word(alloc, words, word)?;
    let one = command_of(words).is_none();
    push_word(alloc, words, argument)?;
    let two = command_of(words) == command;
    push_word(alloc, words, "")?;
    Ok(none && one && two && command_of(words).is_none())
}

/// Whether a word and its argument alone are this command.
fn asks_for(
    alloc: Global,
    word: &str,
    argument: &str,
    command: Option<Command<'_>>,
) -> Result<bool, NoMemory> {
    let mut words = Vec::new(alloc);
    ask_for(alloc, &mut words, word, argument, command)
}

#[test]
fn words_are_a_command_or_none(rt: HostRuntime) -> Result<(), Fail> {
    let alloc = rt.alloc();
    let rows: [(&str, &str, Option<Command<'_>>); 12] = [
        (
            "replay",
            "s.csv",
            Some(Command::Replay { session: "s.csv" }),
        ),
        ("made", "1", Some(Command::Made { n: 1 })),
        ("made", "2000", Some(Command::Made { n: 2_000 })),
        ("made", "0", None),
        ("made", "2001", None),
        ("made", "05", None),
        ("made", "", None),
        ("replay", "", None),
        ("play", "s.csv", None),
        ("keys", "t.csv", Some(Command::Keys { file: "t.csv" })),
        ("keys", "", None),
        ("key", "t.csv", None),
    ];
    for (word, argument, command) in rows {
        assert!(rt; asks_for(alloc, word, argument, command)?, "{word}");
    }
    Ok(())
}
