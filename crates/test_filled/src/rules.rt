//! Rules that are saved, and run on another sheet.
use crate::scene::{Scene, empty_scene, status};
use std::alloc::Global;
use std::test::Fail;

const PEOPLE: &[u8] = b"Name,City,Label\nAda Lovelace,London,Lovelace (London)\nMax Planck,Kiel,\n";

const RULE: &[u8] =
    b"rule,1\nheader\ninputs,1,2\noutput,3\nnames,Name,City,Label\nswitch,\"Switch(else=>Concat(Sub(Col(1),Pos([Space],[],1),CPos(-1)),Const(' ('),Whole(Col(2)),Const(')')))\"\n";

/// A sheet with these columns at other places, a quote and a line end in its fields, and a label that is there.
const MORE: &[u8] =
    b"\xef\xbb\xbfCity,Label,Id,Name\r\nUlm,,1,Albert Einstein\nBonn,kept,2,A B\n\"X, \"\"Y\"\"\",,\"3\n3\",C D\nKiel,,4\n";

const FILLED: &[u8] =
    b"\xef\xbb\xbfCity,Label,Id,Name\nUlm,Einstein (Ulm),1,Albert Einstein\nBonn,kept,2,A B\n\"X, \"\"Y\"\"\",\"D (X, \"\"Y\"\")\",\"3\n3\",C D\nKiel,,4\n";

const DATES: &[u8] = b"Day,Month\n2012-03-11,March\n1999-07-30,\n";

const MONTHS: &[u8] = b"03,March\n05,May\n07,July\n";

const MONTH_RULE: &[u8] =
    b"rule,1\nheader\ninputs,1\noutput,2\nnames,Day,Month\ntable,months,m.csv\nkey,months,1\nswitch,\"Switch(else=>Concat(Whole(Select(2,1,1,Sub(Col(1),Pos([Hyphen],[],1),Pos([],[Hyphen],-1))))))\"\n";

fn set(alloc: Global, scene: &mut Scene, words: &[&str]) -> Result<(), Fail> {
    for word in words {
        scene.words.push(String::from_str(alloc, word)?)?;
    }
    scene.folder.cabinet.put("people.csv", PEOPLE)?;
    scene.folder.cabinet.put("label.rule", RULE)?;
    scene.folder.cabinet.put("dates.csv", DATES)?;
    scene.folder.cabinet.put("m.csv", MONTHS)?;
    scene.folder.cabinet.put("month.rule", MONTH_RULE)?;
    Ok(())
}

/// A run, and what it comes to.
#[derive(Clone, Copy)]
struct Row<'a> {
    words: &'a [&'a str],
    input: &'a [u8],
    status: u8,
    output: &'a [u8],
    saved: &'a [u8],
    said: &'a [u8],
}

fn ends(alloc: Global, row: &Row) -> Result<bool, Fail> {
    let mut scene = empty_scene(alloc)?;
    set(alloc, &mut scene, row.words)?;
    let status = status(alloc, &mut scene, row.input);
    Ok(
        status == row.status
            && scene.out.written() == row.output
            && scene.folder.store.last() == row.saved
            && scene.err.written() == row.said,
    )
}

#[test]
fn rules_are_saved_and_run(rt: HostRuntime) -> Result<(), Fail> {
    let rows = [
        Row {
            words: &[
                "people.csv",
                "--to",
                "Label",
                "--from",
                "City,Name",
                "--save-rule",
                "a.rule",
                "--quiet",
            ],
            input: b"",
            status: 0,
            output: b"Name,City,Label\nAda Lovelace,London,Lovelace (London)\nMax Planck,Kiel,Planck (Kiel)\n",
            saved: RULE,
            said: b"",
        },
        Row {
            words: &["--rule", "label.rule"],
            input: MORE,
            status: 0,
            output: FILLED,
            saved: b"",
            said: b"fillcsv: 4 rows, 2 filled\n",
        },
        Row {
            words: &[
                "dates.csv",
                "--to",
                "Month",
                "--table",
                "months=m.csv",
                "--key",
                "months:1",
                "--save-rule",
                "a.rule",
                "--quiet",
            ],
            input: b"",
            status: 0,
            output: b"Day,Month\n2012-03-11,March\n1999-07-30,July\n",
            saved: MONTH_RULE,
            said: b"",
        },
        Row {
            words: &["--rule", "month.rule"],
            input: b"Month,Day\n,2021-05-17\n,2021-12-01\n",
            status: 0,
            output: b"Month,Day\nMay,2021-05-17\n,2021-12-01\n",
            saved: b"",
            said: b"fillcsv: 2 rows, 1 filled\n",
        },
        Row {
            words: &[
                "people.csv",
                "--new",
                "Initials",
                "--save-rule",
                "a.rule",
                "--strict",
            ],
            input: b"",
            status: 1,
            output: b"Name,City,Label,Initials\nAda Lovelace,London,Lovelace (London),\nMax Planck,Kiel,,\n",
            saved: b"",
            said: b"fillcsv: no cell of the column is filled: nothing to learn from\nfillcsv: 0 given, 0 sure, 0 doubt, 2 none, 0 none doubt\nfillcsv: no rule to save\n",
        },
        Row {
            words: &["--rule", "label.rule", "--quiet"],
            input: b"City,Id\nUlm,1\n",
            status: 5,
            output: b"",
            saved: b"",
            said: b"fillcsv: no column \"Name\"\n",
        },
        Row {
            words: &["--rule", "people.csv"],
            input: MORE,
            status: 5,
            output: b"",
            saved: b"",
            said: b"fillcsv: people.csv: line 1 is not understood\n",
        },
    ];
    for row in &rows {
        assert!(rt; ends(rt.alloc(), row)?, "{}", row.status);
    }
    Ok(())
}

fn fails(alloc: Global) -> Result<bool, Fail> {
    let mut scene = empty_scene(alloc)?;
    set(
        alloc,
        &mut scene,
        &["people.csv", "--to", "Label", "--save", "a.rule"],
    )?;
    scene.folder.store.fail();
    let status = status(alloc, &mut scene, b"");
    Ok(status == 4 && scene.err.written() == b"fillcsv: a.rule: cannot be written\n".as_slice())
}

#[test]
fn a_rule_that_cannot_be_saved(rt: HostRuntime) -> Result<(), Fail> {
    assert!(rt; fails(rt.alloc())?);
    Ok(())
}
