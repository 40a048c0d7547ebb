//! Runs of the keys of tables.
use super::{Ending, Given, ending_after, ends, plain};
use std::alloc::Global;
use std::test::Fail;

const FILES: &[(&str, &[u8])] = &[
    (
        "prices.csv",
        b"pen,2011,$1\npen,2012,$2\ncup,2011,$5\ncup,2012,$7\n",
    ),
    // A record of 33 empty fields.
    ("wide.csv", b",,,,,,,,,,,,,,,,,,,,,,,,,,,,,,,,\n"),
    ("empty.csv", b""),
    ("bad.csv", b"a,b\nc,\xff\n"),
];

const REPORT: &[u8] = b"key,3\nkey,1,2\n";

/// Whether a run over the file, with reads and writes of seven bytes, ends so.
fn keys_end(alloc: Global, file: &str, ending: Ending) -> Result<bool, Fail> {
    let words = ["keys", file];
    let given = Given {
        read: 7,
        write: 7,
        ..plain(&words, FILES)
    };
    ends(alloc, given, ending)
}

#[test]
fn keys_are_listed(rt: HostRuntime) -> Result<(), Fail> {
    let rows: [(&str, u8, &[u8], &[u8]); 5] = [
        ("prices.csv", 0, REPORT, b""),
        ("empty.csv", 0, b"", b""),
        (
            "wide.csv",
            5,
            b"",
            b"flashfill: wide.csv: more than 32 columns\n",
        ),
        (
            "bad.csv",
            5,
            b"",
            b"flashfill: bad.csv: record 2 is not UTF-8\n",
        ),
        ("gone.csv", 3, b"", b"flashfill: gone.csv: cannot be read\n"),
    ];
    for (file, status, report, line) in rows {
        let ending = Ending {
            status,
            report,
            line,
        };
        assert!(rt; keys_end(rt.alloc(), file, ending)?, "{file}");
    }
    Ok(())
}

/// Whether this many bytes of the keys are written where this write fails.
fn writes_until(alloc: Global, failing_write: u64, written: usize) -> Result<bool, Fail> {
    let given = Given {
        failing_write,
        ..plain(&["keys", "prices.csv"], FILES)
    };
    ends(alloc, given, ending_after(REPORT, written))
}

/// Each write fails in turn: the records have 6 and 8 bytes.
#[test]
fn a_failed_write_leaves_the_front_of_the_keys(rt: HostRuntime) -> Result<(), Fail> {
    for (call, written) in [(1, 0), (2, 6), (3, 14)] {
        assert!(rt; writes_until(rt.alloc(), call, written)?, "{call}");
    }
    Ok(())
}
