//! Session files, each form of a line and its near misses.
use fill_numbers::number_in;
use fill_script::*;
use fill_text::{List, NoMemory};
use fill_tree::{Constants, Edit, Profile, Settings};
use std::alloc::Global;
use std::test::Fail;

/// Why a session file has no script; none where it has one.
fn refusal(alloc: Global, bytes: &[u8]) -> Option<ScriptError> {
    match Script::read(alloc, bytes) {
        Ok(_script) => None,
        Err(e) => Some(e),
    }
}

/// Whether this is the refusal of the whole session.
fn refusal_is(alloc: Global, bytes: &[u8], expected: Option<ScriptError>) -> bool {
    refusal(alloc, bytes) == expected
}

/// Whether this is the refusal of a session of these bytes and two parts, which are put behind them.
fn joined_is(
    alloc: Global,
    bytes: &mut List<u8>,
    first: &[u8],
    second: &[u8],
    expected: Option<ScriptError>,
) -> Result<bool, NoMemory> {
    bytes.append(first)?;
    bytes.append(second)?;
    Ok(refusal_is(alloc, bytes.as_slice(), expected))
}

/// Whether this is the refusal of a session of two parts.
fn parts_are(
    alloc: Global,
    first: &[u8],
    second: &[u8],
    expected: Option<ScriptError>,
) -> Result<bool, NoMemory> {
    let mut bytes = List::new(alloc);
    joined_is(alloc, &mut bytes, first, second, expected)
}

/// Whether this is the refusal of a session that begins with these lines, before a sheet, inputs and `begin`.
fn opening_is(
    alloc: Global,
    lines: &[u8],
    expected: Option<ScriptError>,
) -> Result<bool, NoMemory> {
    parts_are(
        alloc,
        lines,
        b"\nsheet,s.csv\ninputs,7,9\nbegin\n",
        expected,
    )
}

/// Whether this is the refusal of a session that has this line after `begin`, its fourth line.
fn line_is(alloc: Global, line: &[u8], expected: Option<ScriptError>) -> Result<bool, NoMemory> {
    parts_are(alloc, b"sheet,s.csv\ninputs,7,9\nbegin\n", line, expected)
}

const BAD: Option<ScriptError> = Some(ScriptError::BadRecord { number: 1 });

const BAD_SECOND: Option<ScriptError> = Some(ScriptError::BadRecord { number: 2 });

const AGAIN: Option<ScriptError> = Some(ScriptError::Again { number: 2 });

const BAD_ENTRY: Option<ScriptError> = Some(ScriptError::BadRecord { number: 4 });

#[test]
fn lines_of_the_opening(rt: HostRuntime) -> Result<(), Fail> {
    for (lines, expected) in [
        (b"header".as_slice(), None),
        (b"header,", BAD),
        (b"Header", BAD),
        (b"header\nheader", AGAIN),
        (b"output,1000", None),
        (b"output,0", BAD),
        (b"output,1001", BAD),
        (b"output,01", BAD),
        (b"output,+1", BAD),
        (b"output,1,2", BAD),
        (b"output", BAD),
        (b"output,1\noutput,2", AGAIN),
        (b"table,a,t.csv", None),
        (b"table,a,t.csv\ntable,a,t.csv", None),
        (b"table,,t.csv", BAD),
        (b"table,a,", BAD),
        (b"table,a", BAD),
        (b"table,a,t.csv,1", BAD),
        (b"key,a,1", None),
        (b"key,a,4294967295,1,2", None),
        (b"key,a,4294967296", BAD),
        (b"key,,1", BAD),
        (b"key,a", BAD),
        (b"key,a,0", BAD),
        (b"key,a,1,2,3,4", BAD),
        (b"key,a,1,2,1", BAD),
        (b"depth,0", None),
        (b"depth,2", None),
        (b"depth,3", BAD),
        (b"depth,4", BAD),
        (b"depth", BAD),
        (b"depth,1\ndepth,1", AGAIN),
        (b"depth,1\ndepth,3", BAD_SECOND),
        (b"profile,2\ndepth,3", None),
        (b"profile,1\ndepth,3", BAD_SECOND),
        (b"profile,3", BAD),
        (b"profile,0", BAD),
        (b"profile,2\nprofile,1", AGAIN),
        (b"constants,any", None),
        (b"constants,separators", None),
        (b"constants,none", BAD),
        (b"constants", BAD),
        (b"constants,any\nconstants,any", AGAIN),
        (b"begin,", BAD),
        (b"programs", BAD),
        (b"\"\"", BAD),
        (b"best,1,2", BAD),
        (b"undo", BAD),
        (b"\xff", Some(ScriptError::NotUtf8 { number: 1 })),
        (b"sheet,\xff", Some(ScriptError::NotUtf8 { number: 1 })),
        (
            b"header\nnothing,\xff",
            Some(ScriptError::NotUtf8 { number: 2 }),
        ),
    ] {
        assert!(rt; opening_is(rt.alloc(), lines, expected)?, "{lines:?}");
    }
    Ok(())
}

#[test]
fn sheets_inputs_and_begin(rt: HostRuntime) {
    for (bytes, expected) in [
        (b"".as_slice(), Some(ScriptError::MissingBegin)),
        (b"sheet,s\ninputs,1", Some(ScriptError::MissingBegin)),
        (b"begin", Some(ScriptError::MissingSheet)),
        (b"sheet,s\nbegin", Some(ScriptError::MissingInputs)),
        (b"inputs,1\nbegin\nsheet,s", Some(ScriptError::MissingSheet)),
        (b"sheet,s\ninputs,1\nbegin", None),
        (b"\n\nsheet,s\n\ninputs,8,7,6,5,4,3,2,1\n\nbegin", None),
        (b"sheet,", BAD),
        (b"sheet", BAD),
        (b"sheet,s,t", BAD),
        (b"sheet,s\nsheet,t", AGAIN),
        (b"inputs", BAD),
        (b"inputs,", BAD),
        (b"inputs,0", BAD),
        (b"inputs,1001", BAD),
        (b"inputs,1,2,3,4,5,6,7,8,9", BAD),
        (b"inputs,1,1", BAD),
        (b"inputs,1\ninputs,2", AGAIN),
        (b"inputs,1,2\noutput,2", BAD_SECOND),
        (b"output,2\ninputs,1,2", BAD_SECOND),
        (
            b"inputs,1\noutput,2\noutput,1",
            Some(ScriptError::BadRecord { number: 3 }),
        ),
        (
            b"output,2\ninputs,1\ninputs,2",
            Some(ScriptError::BadRecord { number: 3 }),
        ),
        // of several lines the first that breaks a rule is told
        (
            b"sheet,s\ninputs,1\nbegin\nadd,4294967296,x\n\xff",
            BAD_ENTRY,
        ),
        (b"begin\n\xff", Some(ScriptError::MissingSheet)),
    ] {
        assert!(rt; refusal_is(rt.alloc(), bytes, expected), "{bytes:?}");
    }
}

#[test]
fn lines_after_begin(rt: HostRuntime) -> Result<(), Fail> {
    for (line, expected) in [
        (b"add,0,".as_slice(), None),
        (b"add,4294967295,x", None),
        (b"add,4294967296,x", BAD_ENTRY),
        (b"add,1", BAD_ENTRY),
        (b"add,1,x,y", BAD_ENTRY),
        (b"add,,x", BAD_ENTRY),
        (b"add,1,\xff", Some(ScriptError::NotUtf8 { number: 4 })),
        (b"correct,3,\"a,b\"", None),
        (b"correct,-1,x", BAD_ENTRY),
        (b"retract,3", None),
        (b"retract", BAD_ENTRY),
        (b"retract,3,x", BAD_ENTRY),
        (b"clear", None),
        (b"clear,", BAD_ENTRY),
        (b"programs", None),
        (b"switch", None),
        (b"fill", None),
        (b"count", None),
        (b"count,1", BAD_ENTRY),
        (b"answer,0", None),
        (b"answer,007", BAD_ENTRY),
        (b"answer", BAD_ENTRY),
        (b"best,0,1", None),
        (b"best,1,20", None),
        (b"best,1,0", BAD_ENTRY),
        (b"best,1,21", BAD_ENTRY),
        (b"best,1", BAD_ENTRY),
        (b"best,1,2,3", BAD_ENTRY),
        (b"object,0", None),
        (b"object,01", BAD_ENTRY),
        (b"object,1,x", BAD_ENTRY),
        (b"undo", None),
        (b"undo,1", BAD_ENTRY),
        (b"redo", None),
        (b"redo,", BAD_ENTRY),
        (b"begin", BAD_ENTRY),
        (b"header", BAD_ENTRY),
    ] {
        assert!(rt; line_is(rt.alloc(), line, expected)?, "{line:?}");
    }
    Ok(())
}

/// Whether this is the refusal of a session of these bytes, a sheet, inputs, `begin` and this many lines `clear`.
fn clears_behind(
    alloc: Global,
    bytes: &mut List<u8>,
    count: usize,
    expected: Option<ScriptError>,
) -> Result<bool, NoMemory> {
    bytes.append(b"sheet,sheet.csv\ninputs,1\nbegin\n")?;
    for _ in 0..count {
        bytes.append(b"clear\n")?;
    }
    Ok(refusal_is(alloc, bytes.as_slice(), expected))
}

/// Whether this is the refusal of a session of a sheet, inputs, `begin` and this many lines `clear`.
fn clears_are(
    alloc: Global,
    count: usize,
    expected: Option<ScriptError>,
) -> Result<bool, NoMemory> {
    let mut bytes = List::new(alloc);
    clears_behind(alloc, &mut bytes, count, expected)
}

#[test]
fn the_thousandth_line(rt: HostRuntime) -> Result<(), Fail> {
    let many = Some(ScriptError::TooManyRecords { limit: 1000 });
    assert!(rt; clears_are(rt.alloc(), 997, None)?);
    assert!(rt; clears_are(rt.alloc(), 998, many)?);
    Ok(())
}

/// Whether the line adds the table `t` of `t.csv`, as the first line.
fn adds_table(line: &TableLine) -> bool {
    match line {
        TableLine::Table { number, name, file } => {
            *number == 1 && name.as_str() == "t" && file.as_str() == "t.csv"
        }
        TableLine::Key { .. } => false,
    }
}

/// Whether the line adds a key of two columns to `t`, as the third line.
fn adds_key(line: &TableLine) -> bool {
    match line {
        TableLine::Table { .. } => false,
        TableLine::Key {
            number,
            name,
            columns,
        } => *number == 3 && name.as_str() == "t" && columns.as_slice() == [2, 1].as_slice(),
    }
}

/// Whether the entry gives row 2 the text, as an addition or as a correction.
fn gives(entry: &Entry, correction: bool, expected: &[char]) -> bool {
    match entry {
        Entry::Edit(Edit::Add { row, text }) => {
            !correction && *row == 2 && text.as_slice() == expected
        }
        Entry::Edit(Edit::Correct { row, text }) => {
            correction && *row == 2 && text.as_slice() == expected
        }
        _ => false,
    }
}

/// Whether the entry is the one of this place in the whole script, from 0.
fn is_entry(place: usize, entry: &Entry) -> bool {
    match place {
        0 => gives(entry, false, &['x']),
        1 => gives(entry, true, &[]),
        2 => matches!(entry, Entry::Edit(Edit::Retract { row: 2 })),
        3 => matches!(entry, Entry::Edit(Edit::Clear)),
        4 => matches!(entry, Entry::Programs),
        5 => matches!(entry, Entry::Switch),
        6 => matches!(entry, Entry::Fill),
        7 => matches!(entry, Entry::Count),
        8 => matches!(entry, Entry::Answer { row: 7 }),
        9 => matches!(entry, Entry::Best { branch: 8, k: 20 }),
        10 => matches!(entry, Entry::Object { row: 7 }),
        11 => matches!(entry, Entry::Undo),
        _ => matches!(entry, Entry::Redo),
    }
}

fn are_entries(entries: &[Entry]) -> bool {
    for i in 0..entries.len() {
        if !is_entry(i, &entries[i]) {
            return false;
        }
    }
    entries.len() == 13
}

/// Whether the script has the sheet, the columns and the settings of the whole script.
fn has_settings(script: &Script) -> bool {
    let settings = Settings {
        depth: 3,
        constants: Constants::Separators,
        profile: Profile::SECOND,
    };
    script.sheet.as_str() == "s.csv"
        && script.header
        && script.inputs.as_slice() == [2, 1].as_slice()
        && script.output == Some(3)
        && script.settings == settings
}

fn are_tables(tables: &[TableLine]) -> bool {
    tables.len() == 2 && adds_table(&tables[0]) && adds_key(&tables[1])
}

/// Whether the script has what stands where no line says otherwise.
fn has_defaults(script: &Script) -> bool {
    !script.header
        && script.output == None
        && script.settings.depth == 1
        && script.settings.profile == Profile::FIRST
        && script.settings.constants == Constants::Any
        && script.tables.len() == 0
        && script.entries.len() == 0
}

/// What a script is to have.
#[derive(Clone, Copy)]
enum Wanted {
    /// What all lines of the whole script say.
    Whole,
    /// What stands where no line says otherwise.
    Defaults,
}

/// Whether the script has what it is to have.
fn is_wanted(script: &Script, wanted: Wanted) -> bool {
    match wanted {
        Wanted::Whole => {
            has_settings(script)
                && are_tables(script.tables.as_slice())
                && are_entries(script.entries.as_slice())
        }
        Wanted::Defaults => has_defaults(script),
    }
}

/// Whether a session file has a script with what it is to have.
fn reads_as(alloc: Global, bytes: &[u8], wanted: Wanted) -> bool {
    match Script::read(alloc, bytes) {
        Ok(script) => is_wanted(&script, wanted),
        Err(_) => false,
    }
}

#[test]
fn a_whole_script(rt: HostRuntime) {
    let bytes =
        b"table,t,t.csv\nprofile,2\nkey,t,2,1\nheader\noutput,3\ndepth,3\ninputs,2,1\nconstants,separators\nsheet,s.csv\nbegin\nadd,2,x\ncorrect,2,\nretract,2\nclear\nprograms\nswitch\nfill\ncount\nanswer,7\nbest,8,20\nobject,7\nundo\nredo\n";
    assert!(rt; reads_as(rt.alloc(), bytes, Wanted::Whole));
}

#[test]
fn settings_that_no_line_sets(rt: HostRuntime) {
    let bytes = b"sheet,s.csv\ninputs,1\nbegin\n";
    assert!(rt; reads_as(rt.alloc(), bytes, Wanted::Defaults));
    assert!(rt; number_in(b"0") == Some(0));
}
