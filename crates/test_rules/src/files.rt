//! Runs of a rule that stands in a file.
use fill_edge::{MemoryCabinet, MemorySink};
use fill_stream::MemorySource;
use fillcsv_rule_runs::{RuleFile, run_rule_file};
use std::alloc::Global;
use std::test::Fail;

/// `Name (City)`, by numbers.
const RULE: &[u8] =
    b"rule,1\ninputs,1,2\noutput,3\nswitch,\"Switch(else=>Concat(Whole(Col(1)),Const(' ('),Whole(Col(2)),Const(')')))\"\n";

/// `Name (City)` with a line that no rule has.
const BAD: &[u8] = b"rule,1\ninputs,1,2\noutput,2\nswitch,\"Switch(else=>Const('x'))\"\n";

/// What stands beside a name in the table `m.csv`.
const LOOKED_UP: &[u8] =
    b"rule,1\ninputs,1\noutput,3\ntable,titles,m.csv\nkey,titles,1\nswitch,\"Switch(else=>Concat(Whole(Select(2,1,1,Whole(Col(1))))))\"\n";

/// A run of the file `rule.csv`, and what it comes to.
#[derive(Clone, Copy)]
struct Row<'a> {
    /// The name of the file with these bytes.
    name: &'a str,
    bytes: &'a [u8],
    /// The file `m.csv`, which is not there where it would be empty.
    table: &'a [u8],
    /// The read of a file that fails, 0 where none does.
    failing: u64,
    quiet: bool,
    status: u8,
    output: &'a [u8],
    line: &'a [u8],
}

/// Whether a run comes to what the row says.
fn runs(alloc: Global, row: &Row) -> Result<bool, Fail> {
    let mut cabinet = MemoryCabinet::new(alloc, 20);
    cabinet.put(row.name, row.bytes)?;
    if !row.table.is_empty() {
        cabinet.put("m.csv", row.table)?;
    }
    cabinet.fail_at(row.failing)?;
    let mut out = MemorySink::new(alloc, 10_000, 7)?;
    let mut err = MemorySink::new(alloc, 10_000, 7)?;
    let file = RuleFile {
        name: "rule.csv",
        quiet: row.quiet,
    };
    let source = MemorySource::new(b"Ada,London\n", 5, 0);
    let ran = run_rule_file(alloc, file, &mut cabinet, source, &mut out, &mut err);
    Ok(ran.status == row.status && out.written() == row.output && err.written() == row.line)
}

#[test]
fn rules_in_files_are_run(rt: HostRuntime) -> Result<(), Fail> {
    let there = Row {
        name: "rule.csv",
        bytes: RULE,
        table: b"",
        failing: 0,
        quiet: false,
        status: 0,
        output: b"Ada,London,Ada (London)\n",
        line: b"fillcsv: 1 rows, 1 filled\n",
    };
    let quiet = Row {
        quiet: true,
        line: b"",
        ..there
    };
    let missing = Row {
        name: "other.csv",
        status: 3,
        output: b"",
        line: b"fillcsv: rule.csv: cannot be read\n",
        ..there
    };
    let failing = Row {
        name: "rule.csv",
        failing: 2,
        ..missing
    };
    let bad = Row {
        bytes: BAD,
        status: 5,
        output: b"",
        line: b"fillcsv: rule.csv: line 3 is not understood\n",
        ..there
    };
    let looked_up = Row {
        bytes: LOOKED_UP,
        table: b"Emmy,Professor\nAda,Countess\n",
        output: b"Ada,London,Countess\n",
        ..there
    };
    let no_table = Row {
        bytes: LOOKED_UP,
        status: 3,
        output: b"",
        line: b"fillcsv: m.csv: cannot be read\n",
        ..there
    };
    let no_key = Row {
        table: b"Ada,Countess\nAda,Analyst\n",
        status: 5,
        line: b"fillcsv: titles: rows 1 and 2 agree in the key\n",
        ..no_table
    };
    for row in [
        there, quiet, missing, failing, bad, looked_up, no_table, no_key,
    ] {
        assert!(rt; runs(rt.alloc(), &row)?);
    }
    Ok(())
}
