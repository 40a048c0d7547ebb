//! Runs of applications.
use super::{Ending, Given, ending_after, ends, ends_at_any_length, plain};
use std::alloc::Global;
use std::test::Fail;

const FILES: &[(&str, &[u8])] = &[
    ("plain.csv", b"sheet,gone.csv\ninputs,1\nbegin\nadd,99,x\n"),
    // A session whose own sheet is not there, and whose entries would be refused.
    (
        "s.csv",
        b"sheet,gone.csv\nheader\ninputs,2\nkey,t,1\nbegin\nadd,99,x\n",
    ),
    // What a session of two branches shows.
    (
        "p.csv",
        b"ok,add,1\nswitch,\nswitch,\"Switch(!Match(1,[Lower],1)&Match(1,[Word],1)=>Concat(Const('k'));else=>Concat(Whole(Col(1))))\"\n",
    ),
    ("wrong.csv", b"switch,Switch(else=>Concat()"),
    (
        "other.csv",
        b"switch,\"Switch(Match(7,[Dot],1)=>Concat();else=>Concat())\"",
    ),
    ("b.csv", b"q\nZ\n\"\"\n"),
];

const REPORT: &[u8] = b"applied,1,q,some\napplied,2,k,some\napplied,3,,none\n";

#[test]
fn programs_are_applied(rt: HostRuntime) -> Result<(), Fail> {
    let rows: [(&[&str], u8, &[u8], &[u8]); 8] = [
        (&["apply", "plain.csv", "p.csv", "b.csv"], 0, REPORT, b""),
        (
            &["apply", "plain.csv", "plain.csv", "b.csv"],
            5,
            b"",
            b"flashfill: plain.csv: no switch\n",
        ),
        (
            &["apply", "plain.csv", "wrong.csv", "gone.csv"],
            5,
            b"",
            b"flashfill: wrong.csv: switch is wrong at byte 21\n",
        ),
        (
            &["apply", "plain.csv", "other.csv", "gone.csv"],
            5,
            b"",
            b"flashfill: other.csv: column 7 is no input\n",
        ),
        (
            &["apply", "s.csv", "p.csv", "b.csv"],
            5,
            b"",
            b"flashfill: p.csv: column 1 is no input\n",
        ),
        (
            &["apply", "plain.csv", "p.csv", "gone.csv"],
            3,
            b"",
            b"flashfill: gone.csv: cannot be read\n",
        ),
        (
            &["apply", "p.csv", "gone.csv", "b.csv"],
            5,
            b"",
            b"flashfill: p.csv: record 1 is not understood\n",
        ),
        (
            &["apply", "plain.csv", "gone.csv", "b.csv"],
            3,
            b"",
            b"flashfill: gone.csv: cannot be read\n",
        ),
    ];
    for (words, status, report, line) in rows {
        let ending = Ending {
            status,
            report,
            line,
        };
        assert!(rt;
            ends_at_any_length(rt.alloc(), plain(words, FILES), ending)?,
            "{words:?}"
        );
    }
    Ok(())
}

/// Whether this many bytes of the records are written where this write fails.
fn writes_until(alloc: Global, failing_write: u64, written: usize) -> Result<bool, Fail> {
    let given = Given {
        failing_write,
        ..plain(&["apply", "plain.csv", "p.csv", "b.csv"], FILES)
    };
    ends(alloc, given, ending_after(REPORT, written))
}

/// Each write fails in turn: the records have 17, 17 and 16 bytes.
#[test]
fn a_failed_write_leaves_the_front_of_the_records(rt: HostRuntime) -> Result<(), Fail> {
    for (call, written) in [(1, 0), (2, 17), (3, 34), (4, 50)] {
        assert!(rt; writes_until(rt.alloc(), call, written)?, "{call}");
    }
    Ok(())
}
