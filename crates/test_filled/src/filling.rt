//! Whole runs of `fillcsv`.
use crate::scene::{Scene, empty_scene, status};
use std::alloc::Global;
use std::test::Fail;

/// A run, and what it comes to.
#[derive(Clone, Copy)]
struct Row<'a> {
    /// The bytes of the file `s.csv`.
    sheet: &'a [u8],
    words: &'a [&'a str],
    /// The write that fails, 0 where none does.
    failing: u64,
    status: u8,
    output: &'a [u8],
}

/// Puts the words and the file there, and sets what fails.
fn set(alloc: Global, scene: &mut Scene, row: &Row) -> Result<(), Fail> {
    for word in row.words {
        scene.words.push(String::from_str(alloc, word)?)?;
    }
    scene.folder.cabinet.put("s.csv", row.sheet)?;
    scene.folder.cabinet.put("m.csv", MONTHS)?;
    scene.out.fail_at(row.failing)?;
    Ok(())
}

fn ends_in(alloc: Global, scene: &mut Scene, row: &Row) -> Result<bool, Fail> {
    set(alloc, scene, row)?;
    let status = status(alloc, scene, b"");
    Ok(status == row.status && scene.out.written() == row.output)
}

fn ends(alloc: Global, row: &Row) -> Result<bool, Fail> {
    let mut scene = empty_scene(alloc)?;
    ends_in(alloc, &mut scene, row)
}

const NAMES: &[u8] = b"Name,Last\r\nAda Byron,Byron\r\nMax Planck,\r\nX\r\n";

/// The file `m.csv`: a table of months, whose second column holds no two equal cells either.
const MONTHS: &[u8] = b"01,January\n03,March\n07,July\n";

/// Two rows with equal cells to read: what the first is given, the second is sure to get.
const TWINS: &[u8] = b"Name,Last\nAda Byron,x\nAda Byron,\n";

#[test]
fn sheets_are_filled(rt: HostRuntime) -> Result<(), Fail> {
    let rows = [
        Row {
            sheet: NAMES,
            words: &["s.csv", "--to", "Last", "--state", "--profile", "1"],
            failing: 0,
            status: 0,
            output: b"Name,Last,Last state\nAda Byron,Byron,given\nMax Planck,Planck,doubt\nX,X,doubt\n",
        },
        Row {
            sheet: b"\xef\xbb\xbfa,\xff,a\n",
            words: &["s.csv", "--to", "3", "--from", "1", "--no-header"],
            failing: 0,
            status: 0,
            output: b"\xef\xbb\xbfa,\xff,a\n",
        },
        Row {
            sheet: b"a,x\na,y\n",
            words: &["s.csv", "--to", "2", "--no-header"],
            failing: 0,
            status: 1,
            output: b"a,x\na,y\n",
        },
        Row {
            sheet: NAMES,
            words: &["s.csv"],
            failing: 0,
            status: 2,
            output: b"",
        },
        Row {
            sheet: NAMES,
            words: &["s.csv", "--to", "Last"],
            failing: 2,
            status: 4,
            output: b"Name,Last\n",
        },
    ];
    for row in &rows {
        assert!(rt; ends(rt.alloc(), row)?, "{}", row.status);
    }
    Ok(())
}

/// Whether a run whose read of this number fails ends so: with 3 and no output, with 4 and a part of it, or with all of it where
/// fewer reads are made.
fn ends_within(alloc: Global, row: &Row, call: u64) -> Result<bool, Fail> {
    let mut scene = empty_scene(alloc)?;
    scene.folder.cabinet.fail_at(call)?;
    set(alloc, &mut scene, row)?;
    let status = status(alloc, &mut scene, b"");
    let written = scene.out.written();
    Ok(match status {
        0 => written == row.output,
        3 => written.is_empty(),
        4 => row.output.starts_with(written),
        _ => false,
    })
}

#[test]
fn a_read_may_fail_in_each_pass(rt: HostRuntime) -> Result<(), Fail> {
    let row = Row {
        sheet: NAMES,
        words: &["s.csv", "--to", "Last", "--state", "--profile", "1"],
        failing: 0,
        status: 0,
        output: b"Name,Last,Last state\nAda Byron,Byron,given\nMax Planck,Planck,doubt\nX,X,doubt\n",
    };
    for call in 1..60 {
        assert!(rt; ends_within(rt.alloc(), &row, call)?, "{call}");
    }
    Ok(())
}

#[test]
fn examples_are_typed(rt: HostRuntime) -> Result<(), Fail> {
    let rows = [
        Row {
            sheet: TWINS,
            words: &[
                "s.csv",
                "--to",
                "Last",
                "--example",
                "2=Byron",
                "--state",
                "--strict",
            ],
            failing: 0,
            status: 0,
            output: b"Name,Last,Last state\nAda Byron,Byron,given\nAda Byron,Byron,sure\n",
        },
        Row {
            sheet: TWINS,
            words: &["s.csv", "--to", "Last", "--example", "2=", "--state"],
            failing: 0,
            status: 0,
            output: b"Name,Last,Last state\nAda Byron,,given\nAda Byron,,sure\n",
        },
        Row {
            sheet: b"Ada Byron,x\nAda Byron,\n",
            words: &[
                "s.csv",
                "--to",
                "2",
                "--no-header",
                "--example=1=a=b",
                "--quiet",
            ],
            failing: 0,
            status: 0,
            output: b"Ada Byron,a=b\nAda Byron,a=b\n",
        },
        Row {
            sheet: b"a,x\na,y\n",
            words: &["s.csv", "--to", "2", "--no-header", "--example", "2=x"],
            failing: 0,
            status: 0,
            output: b"a,x\na,x\n",
        },
        Row {
            sheet: b"a,x\na,\n",
            words: &[
                "s.csv",
                "--to",
                "2",
                "--no-header",
                "--example",
                "2=y",
                "--state",
            ],
            failing: 0,
            status: 1,
            output: b"a,x,given\na,y,given\n",
        },
        Row {
            sheet: b"Name,Last\nAda Byron,Byron\nAda Byron,wrong\n",
            words: &[
                "s.csv",
                "--to",
                "Last",
                "--replace",
                "--example",
                "2=Byron",
                "--strict",
            ],
            failing: 0,
            status: 0,
            output: b"Name,Last\nAda Byron,Byron\nAda Byron,Byron\n",
        },
        Row {
            sheet: TWINS,
            words: &["s.csv", "--to", "Last", "--replace", "--state"],
            failing: 0,
            status: 2,
            output: b"",
        },
        Row {
            sheet: TWINS,
            words: &["s.csv", "--to", "Last", "--replace", "--ask", "--strict"],
            failing: 0,
            status: 1,
            output: b"Name,Last\nAda Byron,\nAda Byron,\n",
        },
    ];
    for row in &rows {
        assert!(rt; ends(rt.alloc(), row)?, "{}", row.status);
    }
    Ok(())
}

#[test]
fn columns_are_added(rt: HostRuntime) -> Result<(), Fail> {
    let rows = [
        Row {
            sheet: b"Name\nAda Byron\nAda Byron\n",
            words: &["s.csv", "--new", "Last", "--example", "3=Byron", "--state"],
            failing: 0,
            status: 0,
            output: b"Name,Last,Last state\nAda Byron,Byron,sure\nAda Byron,Byron,given\n",
        },
        Row {
            sheet: b"a,b,c\nu\nu\n",
            words: &["s.csv", "--new", "d", "--from", "a", "--example", "2=v,w"],
            failing: 0,
            status: 0,
            output: b"a,b,c,d\nu,,,\"v,w\"\nu,,,\"v,w\"\n",
        },
        Row {
            sheet: b"Ada Byron\nAda Byron\n",
            words: &[
                "s.csv",
                "--new",
                "Last",
                "--no-header",
                "--example",
                "1=Byron",
            ],
            failing: 0,
            status: 0,
            output: b"Ada Byron,Byron\nAda Byron,Byron\n",
        },
    ];
    for row in &rows {
        assert!(rt; ends(rt.alloc(), row)?, "{}", row.status);
    }
    Ok(())
}

/// Dates, and the month of the first.
const DATES: &[u8] = b"Day,Month\n2012-03-11,March\n1999-07-30,\n";

#[test]
fn months_are_looked_up(rt: HostRuntime) -> Result<(), Fail> {
    let rows = [
        Row {
            sheet: DATES,
            words: &[
                "s.csv",
                "--to",
                "Month",
                "--table",
                "months=m.csv",
                "--key",
                "months:1",
                "--explain",
            ],
            failing: 0,
            status: 0,
            output: b"Day,Month\n2012-03-11,March\n1999-07-30,July\n",
        },
        Row {
            sheet: DATES,
            words: &[
                "s.csv",
                "--to",
                "Month",
                "--table",
                "months=m.csv",
                "--key",
                "months:2",
                "--key",
                "months:1",
                "--depth",
                "3",
                "--profile",
                "1",
                "--example",
                "3=July",
            ],
            failing: 0,
            status: 0,
            output: b"Day,Month\n2012-03-11,March\n1999-07-30,July\n",
        },
    ];
    for row in &rows {
        assert!(rt; ends(rt.alloc(), row)?, "{}", row.status);
    }
    Ok(())
}

/// A run that writes nothing to its output, and what it says.
#[derive(Clone, Copy)]
struct Stop<'a> {
    words: &'a [&'a str],
    status: u8,
    line: &'a [u8],
}

fn stops(alloc: Global, stop: &Stop) -> Result<bool, Fail> {
    let row = Row {
        sheet: TWINS,
        words: stop.words,
        failing: 0,
        status: stop.status,
        output: b"",
    };
    let mut scene = empty_scene(alloc)?;
    let ends = ends_in(alloc, &mut scene, &row)?;
    Ok(ends && scene.err.written() == stop.line)
}

#[test]
fn lines_say_why(rt: HostRuntime) -> Result<(), Fail> {
    let table = [
        Stop {
            words: &["t.csv", "--to", "Last"],
            status: 3,
            line: b"fillcsv: t.csv: cannot be read\n",
        },
        Stop {
            words: &["s.csv", "--to", "First", "--quiet"],
            status: 5,
            line: b"fillcsv: s.csv: no column \"First\"\n",
        },
        Stop {
            words: &["s.csv", "--new", "Last"],
            status: 5,
            line: b"fillcsv: s.csv: column \"Last\" is there already\n",
        },
        Stop {
            words: &[
                "s.csv",
                "--to",
                "Last",
                "--example",
                "2=a",
                "--example",
                "9=b",
            ],
            status: 5,
            line: b"fillcsv: s.csv: row 9: no such row, and --example names it\n",
        },
        Stop {
            words: &["s.csv", "--to", "Last", "--example", "1=a"],
            status: 5,
            line: b"fillcsv: s.csv: row 1: no such row, and --example names it\n",
        },
        Stop {
            words: &["s.csv", "--to", "Last", "--table", "months=t.csv"],
            status: 3,
            line: b"fillcsv: t.csv: cannot be read\n",
        },
        Stop {
            words: &["s.csv", "--to", "Last", "--key", "months:1"],
            status: 5,
            line: b"fillcsv: months: no such table, and --key names it\n",
        },
        Stop {
            words: &[
                "s.csv",
                "--to",
                "Last",
                "--table",
                "months=m.csv",
                "--key",
                "months:1,3",
            ],
            status: 5,
            line: b"fillcsv: months: only 2 columns, and --key names another\n",
        },
        Stop {
            words: &["s.csv", "--to", "2", "--no-header", "--example", "4=a"],
            status: 5,
            line: b"fillcsv: s.csv: row 4: no such row, and --example names it\n",
        },
    ];
    for stop in &table {
        assert!(rt; stops(rt.alloc(), stop)?, "{}", stop.status);
    }
    Ok(())
}

/// What a run says of a sheet that it writes.
fn says(alloc: Global, row: &Row, said: &[u8]) -> Result<bool, Fail> {
    let mut scene = empty_scene(alloc)?;
    let ends = ends_in(alloc, &mut scene, row)?;
    Ok(ends && scene.err.written() == said)
}

/// Sixty-five rows that are all given.
const GIVEN: &[u8] =
    b"u,x\nu,x\nu,x\nu,x\nu,x\nu,x\nu,x\nu,x\nu,x\nu,x\nu,x\nu,x\nu,x\nu,x\nu,x\nu,x\nu,x\nu,x\nu,x\nu,x\nu,x\nu,x\nu,x\nu,x\nu,x\nu,x\nu,x\nu,x\nu,x\nu,x\nu,x\nu,x\nu,x\nu,x\nu,x\nu,x\nu,x\nu,x\nu,x\nu,x\nu,x\nu,x\nu,x\nu,x\nu,x\nu,x\nu,x\nu,x\nu,x\nu,x\nu,x\nu,x\nu,x\nu,x\nu,x\nu,x\nu,x\nu,x\nu,x\nu,x\nu,x\nu,x\nu,x\nu,x\nu,x\n";

#[test]
fn sheets_are_told_of(rt: HostRuntime) -> Result<(), Fail> {
    let many = Row {
        sheet: GIVEN,
        words: &["s.csv", "--to", "2", "--no-header", "--strict"],
        failing: 0,
        status: 0,
        output: GIVEN,
    };
    assert!(rt;
        says(
            rt.alloc(),
            &many,
            b"fillcsv: only the first 64 filled cells are learned from\nfillcsv: 65 given, 0 sure, 0 doubt, 0 none, 0 none doubt\nfillcsv: rule: \"x\"\n"
        )?
    );
    let none = Row {
        sheet: b"A,B\nu,\n",
        words: &["s.csv", "--to", "B"],
        failing: 0,
        status: 0,
        output: b"A,B\nu,\n",
    };
    assert!(rt;
        says(
            rt.alloc(),
            &none,
            b"fillcsv: no cell of the column is filled: nothing to learn from\nfillcsv: 0 given, 0 sure, 0 doubt, 1 none, 0 none doubt\n"
        )?
    );
    let quiet = Row {
        sheet: b"a,x\na,y\n",
        words: &["s.csv", "--to", "2", "--no-header", "--quiet"],
        failing: 0,
        status: 1,
        output: b"a,x\na,y\n",
    };
    assert!(rt; says(rt.alloc(), &quiet, b"")?);
    Ok(())
}
