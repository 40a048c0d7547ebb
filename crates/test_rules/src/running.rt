//! Runs of a saved rule.
use fill_edge::MemorySink;
use fill_stream::MemorySource;
use fill_tables::Tables;
use fillcsv_rule_runs::{LoadedRule, run_rule};
use fillcsv_rules::{read_rule, rule_text};
use std::alloc::Global;
use std::test::Fail;

/// `Name (City)`, by names.
const NAMED: &[u8] =
    b"rule,1\nheader\ninputs,1,2\noutput,3\nnames,Name,City,Label\nswitch,\"Switch(else=>Concat(Whole(Col(1)),Const(' ('),Whole(Col(2)),Const(')')))\"\n";

/// `Name (City)`, by numbers of columns.
const PLAIN: &[u8] =
    b"rule,1\ninputs,1,2\noutput,3\nswitch,\"Switch(else=>Concat(Whole(Col(1)),Const(' ('),Whole(Col(2)),Const(')')))\"\n";

/// What follows a sign that the third profile alone has, up to one that it lacks.
const SIGNS: &[u8] =
    b"rule,1\ninputs,1\noutput,2\nswitch,\"Switch(else=>Concat(Sub(Col(1),Pos([Equals],[],1),Pos([NonDigit],[End],1))))\"\n";

/// A month by its number, from a table.
const LOOKED_UP: &[u8] =
    b"rule,1\nheader\ninputs,1\noutput,2\nnames,Number,Month\ntable,months,months.csv\nkey,months,1\nkey,months,2,1\nswitch,\"Switch(else=>Concat(Whole(Select(2,1,1,Whole(Col(1))))))\"\n";

/// A run of a rule, and what it comes to.
#[derive(Clone, Copy)]
struct Row<'a> {
    rule: &'a [u8],
    bytes: &'a [u8],
    /// The read and the write that fail, 0 where none does.
    failing: (u64, u64),
    status: u8,
    output: &'a [u8],
    line: &'a [u8],
}

/// Whether a run comes to what the row says.
fn runs(alloc: Global, row: &Row) -> Result<bool, Fail> {
    let mut out = MemorySink::new(alloc, 10_000, 7)?;
    let mut err = MemorySink::new(alloc, 10_000, 7)?;
    out.fail_at(row.failing.1)?;
    let loaded = LoadedRule {
        rule: read_rule(alloc, row.rule)?,
        tables: Tables::new(alloc),
    };
    let source = MemorySource::new(row.bytes, 5, row.failing.0);
    let ran = run_rule(alloc, &loaded, source, false, &mut out, &mut err);
    Ok(ran.status == row.status && out.written() == row.output && err.written() == row.line)
}

#[test]
fn rows_are_filled(rt: HostRuntime) -> Result<(), Fail> {
    let rows: [Row; 6] = [
        // The columns stand elsewhere; a filled cell stays, a short record is filled up, and so is a quoted one.
        Row {
            rule: NAMED,
            bytes: b"\xef\xbb\xbfCity,Id,Label,Name\nLondon,1,,Ada\nErlangen,2,Emmy,Emmy\n\"Cam\"\"b, UK\",3,,\"Al\nan\"\nUlm,4\n",
            failing: (0, 0),
            status: 0,
            output: b"\xef\xbb\xbfCity,Id,Label,Name\nLondon,1,Ada (London),Ada\nErlangen,2,Emmy,Emmy\n\"Cam\"\"b, UK\",3,\"Al\nan (Cam\"\"b, UK)\",\"Al\nan\"\nUlm,4,\n",
            line: b"fillcsv: 4 rows, 2 filled\n",
        },
        // The column is new.
        Row {
            rule: NAMED,
            bytes: b"Name,City\nAda,London\n",
            failing: (0, 0),
            status: 0,
            output: b"Name,City,Label\nAda,London,Ada (London)\n",
            line: b"fillcsv: 1 rows, 1 filled\n",
        },
        Row {
            rule: PLAIN,
            bytes: b"Ada,London\nEmmy,Erlangen,x\n",
            failing: (0, 0),
            status: 0,
            output: b"Ada,London,Ada (London)\nEmmy,Erlangen,x\n",
            line: b"fillcsv: 2 rows, 1 filled\n",
        },
        Row {
            rule: SIGNS,
            bytes: b"a=bc\n",
            failing: (0, 0),
            status: 0,
            output: b"a=bc,bc\n",
            line: b"fillcsv: 1 rows, 1 filled\n",
        },
        Row {
            rule: NAMED,
            bytes: b"Name,Label\nAda,\n",
            failing: (0, 0),
            status: 5,
            output: b"",
            line: b"fillcsv: no column \"City\"\n",
        },
        Row {
            rule: NAMED,
            bytes: b"Name,City,Name\nAda,London,x\n",
            failing: (0, 0),
            status: 5,
            output: b"",
            line: b"fillcsv: more than one column \"Name\"\n",
        },
    ];
    for row in &rows {
        assert!(rt; runs(rt.alloc(), row)?);
    }
    Ok(())
}

#[test]
fn a_run_ends_where_it_must(rt: HostRuntime) -> Result<(), Fail> {
    let rows: [Row; 4] = [
        Row {
            rule: NAMED,
            bytes: b"",
            failing: (0, 0),
            status: 5,
            output: b"",
            line: b"fillcsv: no column \"Name\"\n",
        },
        Row {
            rule: PLAIN,
            bytes: b"Ada,London\nEmmy,\xff\n",
            failing: (0, 0),
            status: 5,
            output: b"Ada,London,Ada (London)\n",
            line: b"fillcsv: record 2, column 2: not UTF-8\n",
        },
        // The reads of the front take three bytes, the others five each.
        Row {
            rule: PLAIN,
            bytes: b"Ada,London\nEmmy,Erlangen\n",
            failing: (7, 0),
            status: 3,
            output: b"Ada,London,Ada (London)\n",
            line: b"fillcsv: the input cannot be read\n",
        },
        Row {
            rule: PLAIN,
            bytes: b"Ada,London\nEmmy,Erlangen\n",
            failing: (0, 3),
            status: 4,
            output: b"Ada,London,Ada",
            line: b"fillcsv: output cannot be written\n",
        },
    ];
    for row in &rows {
        assert!(rt; runs(rt.alloc(), row)?);
    }
    Ok(())
}

#[test]
fn a_rule_is_written_as_it_was_read(rt: HostRuntime) -> Result<(), Fail> {
    for bytes in [NAMED, PLAIN, SIGNS, LOOKED_UP] {
        let rule = read_rule(rt.alloc(), bytes)?;
        let text = rule_text(rt.alloc(), &rule)?;
        assert!(rt; text.as_slice() == bytes);
    }
    Ok(())
}
