//! Whole sessions and their reports.
use super::{Ending, Given, PLENTY, ends, plain};
use std::alloc::Global;
use std::test::Fail;

const MONTHS: &[u8] =
    b"01,January\n02,February\n03,March\n04,April\n05,May\n06,June\n07,July\n08,August\n09,September\n10,October\n11,November\n12,December\n";

const PRICES: &[u8] = b"pen,2011,$1\npen,2012,$2\ncup,2011,$5\ncup,2012,$7\n";

/// Three tables, each of which leads on to the next one.
const FIRST: &[u8] = b"p,q\n";

const SECOND: &[u8] = b"q,r\n";

const THIRD: &[u8] = b"r,Monday\n";

/// A sheet, the whole session over it, and its status and report.
type Row = (&'static [u8], &'static str, u8, &'static [u8]);

/// Whether the session of the row ends as it says, with reads and writes of this many bytes.
fn holds(alloc: Global, (sheet, session, status, report): Row, most: usize) -> Result<bool, Fail> {
    let files = [
        ("sheet.csv", sheet),
        ("s.csv", session.as_bytes()),
        ("months.csv", MONTHS),
        ("prices.csv", PRICES),
        ("t1.csv", FIRST),
        ("t2.csv", SECOND),
        ("t3.csv", THIRD),
    ];
    let given = Given {
        read: most,
        write: most,
        ..plain(&["replay", "s.csv"], &files)
    };
    let ending = Ending {
        status,
        report,
        line: b"",
    };
    ends(alloc, given, ending)
}

#[test]
fn one_branch_fills_the_sheet(rt: HostRuntime) -> Result<(), Fail> {
    let rows: [Row; 8] = [
        // The best programs, in order.
        (
            b"John Smith\n",
            "sheet,sheet.csv\ninputs,1\nbegin\nadd,1,Smith\nbest,1,3\n",
            0,
            b"ok,add,1\nbest,1,1,\"Concat(Sub(Col(1),Pos([],[Upper],-1),CPos(-1)))\"\nbest,1,2,\"Concat(Sub(Col(1),Pos([],[Alpha],-1),CPos(-1)))\"\nbest,1,3,\"Concat(Sub(Col(1),Pos([],[Word],-1),CPos(-1)))\"\n",
        ),
        // A pattern that no constant follows.
        (
            b"Ab Cd\nEfgh Ijk\nMn Op\nXy\nBc De Fg\n\"\"\n",
            "sheet,sheet.csv\ninputs,1\nbegin\nadd,1,Cd\nadd,2,Ijk\nprograms\nfill\n",
            0,
            b"ok,add,1\nok,add,2\nbranch,1,else,\"Concat(Sub(Col(1),Pos([],[Upper],-1),CPos(-1)))\"\nrow,1,Cd,given\nrow,2,Ijk,given\nrow,3,Op,sure\nrow,4,Xy,doubt\nrow,5,Fg,doubt\nrow,6,,none\n",
        ),
        // Rows on which all programs agree, and on which one objects.
        (
            b"Ab Cd\nEfgh Ijk\nMn Op\nXy\nBc De Fg\n\"\"\n",
            "sheet,sheet.csv\ninputs,1\nbegin\nadd,1,Cd\nadd,2,Ijk\nobject,3\nobject,4\nobject,5\n",
            0,
            b"ok,add,1\nok,add,2\nobject,3,,,agreed\nobject,4,\"Concat(Sub(Col(1),Pos([Space],[],1),CPos(-1)))\",,none\nobject,5,\"Concat(Sub(Col(1),Pos([Space],[],1),CPos(-1)))\",De Fg,some\n",
        ),
        // Without an example.
        (
            b"Ab Cd\nEfgh Ijk\nMn Op\nXy\nBc De Fg\n\"\"\n",
            "sheet,sheet.csv\ninputs,1\nbegin\nprograms\nswitch\nanswer,1\n",
            0,
            b"switch,\nrow,1,,none\n",
        ),
        // A retracted example.
        (
            b"Ab Cd\nEfgh Ijk\nMn Op\nXy\nBc De Fg\n\"\"\n",
            "sheet,sheet.csv\ninputs,1\nbegin\nadd,1,Cd\nadd,2,Ijk\nretract,1\nprograms\nanswer,1\n",
            0,
            b"ok,add,1\nok,add,2\nok,retract,1\nbranch,1,else,\"Concat(Sub(Col(1),Pos([],[Upper],-1),CPos(-1)))\"\nrow,1,Cd,doubt\n",
        ),
        // No value on a row.
        (
            b"Ab Cd\nEfgh Ijk\nxy zw\n\"\"\n",
            "sheet,sheet.csv\ninputs,1\nbegin\nadd,1,Cd\nadd,2,Ijk\nanswer,3\nanswer,4\n",
            0,
            b"ok,add,1\nok,add,2\nrow,3,,none doubt\nrow,4,,none\n",
        ),
        // A mark at the front of the file.
        (
            b"\xef\xbb\xbf\xc3\xa9t\xc3\xa9 5\n",
            "sheet,sheet.csv\ninputs,1\nbegin\nadd,1,5\nprograms\n",
            0,
            b"ok,add,1\nbranch,1,else,\"Concat(Sub(Col(1),Pos([],[Digits],1),CPos(-1)))\"\n",
        ),
        // A header.
        (
            b"Name,Last\nJohn Smith,Smith\nAda Byron,\n",
            "sheet,sheet.csv\nheader\ninputs,1\noutput,2\nbegin\nprograms\nfill\n",
            0,
            b"ok,add,1\nbranch,1,else,\"Concat(Sub(Col(1),Pos([],[Upper],-1),CPos(-1)))\"\nrow,1,Smith,given\nrow,2,Byron,doubt\n",
        ),
    ];
    for row in rows {
        assert!(rt; holds(rt.alloc(), row, PLENTY)?, "{}", row.1);
    }
    Ok(())
}

#[test]
fn refused_edits_are_told(rt: HostRuntime) -> Result<(), Fail> {
    let rows: [Row; 11] = [
        // No such branch.
        (
            b"John Smith\n",
            "sheet,sheet.csv\ninputs,1\nbegin\nadd,1,\nbest,1,20\nbest,2,1\nbest,0,1\n",
            1,
            b"ok,add,1\nbest,1,1,Concat()\nrefused,best,2,no such branch\nrefused,best,0,no such branch\n",
        ),
        // No row.
        (
            b"",
            "sheet,sheet.csv\ninputs,1\nbegin\nfill\nadd,1,x\nanswer,9\n",
            1,
            b"refused,add,1,no such row\nrefused,answer,9,no such row\n",
        ),
        // No objection without examples.
        (
            b"Ab Cd\nEfgh Ijk\nMn Op\nXy\nBc De Fg\n\"\"\n",
            "sheet,sheet.csv\ninputs,1\nbegin\nobject,1\nobject,9\n",
            1,
            b"object,1,,,agreed\nrefused,object,9,no such row\n",
        ),
        // Edits that are undone and redone.
        (
            b"Ab Cd\nEfgh Ijk\nMn Op\nXy\nBc De Fg\n\"\"\n",
            "sheet,sheet.csv\ninputs,1\nbegin\nadd,1,Cd\nclear\nundo\nprograms\nredo\nredo\n",
            1,
            b"ok,add,1\nok,clear\nok,undo,clear\nbranch,1,else,\"Concat(Sub(Col(1),Pos([],[Upper],-1),CPos(-1)))\"\nok,redo,clear\nrefused,redo,nothing to redo\n",
        ),
        // A refused edit is none to undo.
        (
            b"Ab Cd\nEfgh Ijk\nMn Op\nXy\nBc De Fg\n\"\"\n",
            "sheet,sheet.csv\ninputs,1\nbegin\nadd,1,Cd\nadd,1,X\nundo\nundo\ncount\n",
            1,
            b"ok,add,1\nrefused,add,1,row has an example\nok,undo,add,1\nrefused,undo,nothing to undo\ncount,0,0,0,6,0\n",
        ),
        // The examples of the output column are there from the start.
        (
            b"Ab Cd,Cd\nEfgh Ijk,\n",
            "sheet,sheet.csv\ninputs,1\noutput,2\nbegin\nundo\nadd,2,Ijk\nundo\nprograms\n",
            1,
            b"ok,add,1\nrefused,undo,nothing to undo\nok,add,2\nok,undo,add,2\nbranch,1,else,\"Concat(Sub(Col(1),Pos([],[Upper],-1),CPos(-1)))\"\n",
        ),
        // After an edit there is nothing to redo.
        (
            b"Ab Cd\nEfgh Ijk\n",
            "sheet,sheet.csv\ninputs,1\nbegin\nadd,1,Cd\nundo\nadd,2,Ijk\nredo\nundo\nredo\n",
            1,
            b"ok,add,1\nok,undo,add,1\nok,add,2\nrefused,redo,nothing to redo\nok,undo,add,2\nok,redo,add,2\n",
        ),
        // Rows alike.
        (
            b"ab\nab\n",
            "sheet,sheet.csv\ninputs,1\nbegin\nadd,1,a\nadd,2,b\nprograms\n",
            1,
            b"ok,add,1\nrefused,add,2,no guard for branch 1\nbranch,1,else,\"Concat(Sub(Col(1),CPos(0),CPos(1)))\"\n",
        ),
        // Constants of separators.
        (
            b"Smith\n",
            "sheet,sheet.csv\ninputs,1\nconstants,separators\nbegin\nadd,1,Mr Smith\nprograms\nfill\n",
            1,
            b"refused,add,1,no program for row 1\nrow,1,,none\n",
        ),
        // Examples that are there or not.
        (
            b"Ab Cd\nEfgh Ijk\nMn Op\nXy\nBc De Fg\n\"\"\n",
            "sheet,sheet.csv\ninputs,1\nbegin\nadd,1,Cd\ncorrect,1,Cd\ncorrect,3,Op\nadd,1,X\nretract,3\n",
            1,
            b"ok,add,1\nok,correct,1\nrefused,correct,3,row has no example\nrefused,add,1,row has an example\nrefused,retract,3,row has no example\n",
        ),
        // Nine branches.
        (
            b"-\n.\n;\n:\n/\n_\n@\n#\n&\n",
            "sheet,sheet.csv\ninputs,1\nbegin\nadd,1,a\nadd,2,b\nadd,3,c\nadd,4,d\nadd,5,e\nadd,6,f\nadd,7,g\nadd,8,h\nadd,9,i\n",
            1,
            b"ok,add,1\nok,add,2\nok,add,3\nok,add,4\nok,add,5\nok,add,6\nok,add,7\nok,add,8\nrefused,add,9,too many branches at row 9\n",
        ),
    ];
    for row in rows {
        assert!(rt; holds(rt.alloc(), row, PLENTY)?, "{}", row.1);
    }
    Ok(())
}

#[test]
fn branches_have_guards(rt: HostRuntime) -> Result<(), Fail> {
    let rows: [Row; 4] = [
        // An empty text.
        (
            b"a\n1\n",
            "sheet,sheet.csv\ninputs,1\nbegin\nadd,1,a\nadd,2,\nprograms\nanswer,2\n",
            0,
            b"ok,add,1\nok,add,2\nbranch,1,\"!Match(1,[Digits],1)\",Concat(Whole(Col(1)))\nbranch,2,else,Concat()\nrow,2,,given\n",
        ),
        // A corrected example.
        (
            b"k\n12\nA-\n",
            "sheet,sheet.csv\ninputs,1\nbegin\nadd,1,k\nadd,2,12\nadd,3,k\nprograms\nswitch\ncorrect,2,k\nprograms\n",
            0,
            b"ok,add,1\nok,add,2\nok,add,3\nbranch,1,\"!Match(1,[Upper],1)\",Concat(Whole(Col(1)))\nbranch,2,else,Concat(Const('k'))\nswitch,\"Switch(!Match(1,[Upper],1)=>Concat(Whole(Col(1)));else=>Concat(Const('k')))\"\nok,correct,2\nbranch,1,else,Concat(Const('k'))\n",
        ),
        // Two input columns.
        (
            b"m,\np,\n,p\n,q\n",
            "sheet,sheet.csv\ninputs,1,2\nbegin\nadd,1,m\nadd,2,p\nadd,3,p\nadd,4,q\nprograms\nretract,1\nclear\nprograms\n",
            1,
            b"ok,add,1\nok,add,2\nok,add,3\nok,add,4\nbranch,1,\"Match(1,[Lower],1)\",Concat(Whole(Col(1)))\nbranch,2,else,Concat(Whole(Col(2)))\nrefused,retract,1,no guard for branch 1\nok,clear\n",
        ),
        // A usual sheet.
        (
            b"Ada Byron,ada@lyra.org,555-0101,London,Byron (London)\nMax Planck,max.p@quanta.de,555-0102,Kiel,\nLise Meitner,lise@fission.at,555-0103,Wien,Meitner Wien\nEmmy A Noether,emmy.n@ring.de,555-0104,Erlangen,\nCarl Gauss,carl@curve.de,555-0105,Kiel,\nAda Byron,ada@lyra.org,555-0101,London,\n",
            "sheet,sheet.csv\ninputs,1,2,3,4\noutput,5\nbegin\nadd,3,Meitner (Wien)\nprograms\nfill\ncount\n",
            1,
            b"ok,add,1\nrefused,add,3,no guard for branch 1\nok,add,3\nbranch,1,else,\"Concat(Sub(Col(1),Pos([],[Upper],-1),CPos(-1)),Const(' ('),Whole(Col(4)),Const(')'))\"\nrow,1,Byron (London),given\nrow,2,Planck (Kiel),doubt\nrow,3,Meitner (Wien),given\nrow,4,Noether (Erlangen),doubt\nrow,5,Gauss (Kiel),doubt\nrow,6,Byron (London),sure\ncount,2,1,3,0,0\n",
        ),
    ];
    for row in rows {
        assert!(rt; holds(rt.alloc(), row, PLENTY)?, "{}", row.1);
    }
    Ok(())
}

#[test]
fn tables_are_looked_up(rt: HostRuntime) -> Result<(), Fail> {
    let rows: [Row; 3] = [
        // A month by its number.
        (
            b"2012-03-11\n1999-07-30\n",
            "sheet,sheet.csv\ninputs,1\ntable,months,months.csv\nkey,months,1\nbegin\nadd,1,March\nprograms\nanswer,2\n",
            0,
            b"ok,add,1\nbranch,1,else,\"Concat(Whole(Select(2,1,1,Sub(Col(1),Pos([Hyphen],[],1),Pos([],[Hyphen],-1)))))\"\nrow,2,July,doubt\n",
        ),
        // Without lookups.
        (
            b"2012-03-11\n1999-07-30\n",
            "sheet,sheet.csv\ninputs,1\ntable,months,months.csv\nkey,months,1\ndepth,0\nbegin\nadd,1,March\nprograms\nanswer,2\n",
            0,
            b"ok,add,1\nbranch,1,else,Concat(Const('March'))\nrow,2,March,sure\n",
        ),
        // A price by two cells.
        (
            b"pen\ncup\n",
            "sheet,sheet.csv\ninputs,1\ntable,prices,prices.csv\nkey,prices,1,2\nbegin\nadd,1,$2\nprograms\nadd,2,$7\nprograms\ncorrect,2,$5\n",
            1,
            b"ok,add,1\nbranch,1,else,Concat(Const('$2'))\nok,add,2\nbranch,1,else,\"Concat(Whole(Select(3,1,1,Whole(Col(1)),Const('2012'))))\"\nrefused,correct,2,no guard for branch 1\n",
        ),
    ];
    for row in rows {
        assert!(rt; holds(rt.alloc(), row, PLENTY)?, "{}", row.1);
        assert!(rt; holds(rt.alloc(), row, 1)?, "{}", row.1);
    }
    Ok(())
}

#[test]
fn profiles_differ_in_tokens_depth_and_placing(rt: HostRuntime) -> Result<(), Fail> {
    let rows: [Row; 6] = [
        // A token that the first profile has not, and the same session under the first.
        (
            b"+a b\n #cc d\n",
            "sheet,sheet.csv\ninputs,1\nprofile,2\nbegin\nadd,1,+a\nadd,2,#cc\nprograms\n",
            0,
            b"ok,add,1\nok,add,2\nbranch,1,else,\"Concat(Sub(Col(1),Pos([],[NonSpace],1),Pos([],[Space],-1)))\"\n",
        ),
        (
            b"+a b\n #cc d\n",
            "sheet,sheet.csv\ninputs,1\nprofile,1\nbegin\nadd,1,+a\nadd,2,#cc\nprograms\n",
            0,
            b"ok,add,1\nok,add,2\nbranch,1,\"!Match(1,[Space],2)\",\"Concat(Sub(Col(1),CPos(0),Pos([],[Space],1)))\"\nbranch,2,else,\"Concat(Sub(Col(1),Pos([],[Hash],1),Pos([],[Space],-1)))\"\n",
        ),
        // Three lookups one in another, and two at most.
        (
            b"p\n",
            "sheet,sheet.csv\ninputs,1\nprofile,2\ndepth,3\ntable,a,t1.csv\nkey,a,1\ntable,b,t2.csv\nkey,b,1\ntable,c,t3.csv\nkey,c,1\nbegin\nadd,1,Monday\nprograms\n",
            0,
            b"ok,add,1\nbranch,1,else,\"Concat(Whole(Select(2,3,1,Whole(Select(2,2,1,Whole(Select(2,1,1,Whole(Col(1)))))))))\"\n",
        ),
        (
            b"p\n",
            "sheet,sheet.csv\ninputs,1\nprofile,2\ndepth,2\ntable,a,t1.csv\nkey,a,1\ntable,b,t2.csv\nkey,b,1\ntable,c,t3.csv\nkey,c,1\nbegin\nadd,1,Monday\nprograms\n",
            0,
            b"ok,add,1\nbranch,1,else,Concat(Const('Monday'))\n",
        ),
        // An example in the branch where it weighs least, and in the first that takes it.
        (
            b"A-\nk\nz\n",
            "sheet,sheet.csv\ninputs,1\nprofile,2\nbegin\nadd,1,z\nadd,2,k\nadd,3,z\nprograms\n",
            0,
            b"ok,add,1\nok,add,2\nok,add,3\nbranch,1,\"Match(1,[Upper],1)\",Concat(Const('z'))\nbranch,2,else,Concat(Whole(Col(1)))\n",
        ),
        (
            b"A-\nk\nz\n",
            "sheet,sheet.csv\ninputs,1\nprofile,1\nbegin\nadd,1,z\nadd,2,k\nadd,3,z\nprograms\n",
            1,
            b"ok,add,1\nok,add,2\nrefused,add,3,no guard for branch 1\nbranch,1,\"Match(1,[Upper],1)\",Concat(Const('z'))\nbranch,2,else,Concat(Whole(Col(1)))\n",
        ),
    ];
    for row in rows {
        assert!(rt; holds(rt.alloc(), row, PLENTY)?, "{}", row.1);
    }
    Ok(())
}

#[test]
fn a_generated_session_is_filled(rt: HostRuntime) -> Result<(), Fail> {
    let ending = Ending {
        status: 0,
        report: b"ok,add,1\nok,add,2\nbranch,1,else,\"Concat(Sub(Col(1),Pos([],[Upper],-1),CPos(-1)))\"\ncount,2,448,50,0,0\n",
        line: b"",
    };
    assert!(rt; ends(rt.alloc(), plain(&["made", "500"], &[]), ending)?);
    Ok(())
}
