//! Saved programs: which one a report has, why it has none, and what it gives.
ghost use Rattle.std.specs.Prelude.{All, Contains};
ghost use Rattle.fill_tree.specs.Switch.{switch_tree};
ghost use Rattle.fill_apply.specs.Saved.{columns_read};

use fill_apply::{ApplyError, apply_record, open_switch};
use fill_print::print_switch;
use fill_sheet::Sheet;
use fill_tables::Tables;
use fill_text::List;
use fill_tree::Switch;
use std::alloc::Global;
use std::test::Fail;

/// Whether the program is spelled so.
fn is_spelled(alloc: Global, switch: &Switch, text: &[u8]) -> Result<bool, ApplyError> {
    let spelled = print_switch(alloc, switch)?;
    Ok(spelled.as_slice() == text)
}

/// Whether the program that a report saves for these inputs is spelled so.
fn opens_as(alloc: Global, report: &[u8], inputs: &[u32], text: &[u8]) -> Result<bool, ApplyError> {
    let switch = open_switch(alloc, report, inputs)?;
    is_spelled(alloc, &switch, text)
}

/// The last record of two fields counts, wherever it stands and whatever stands around it.
#[test]
fn the_last_program_is_opened(rt: HostRuntime) -> Result<(), Fail> {
    let reports: [&[u8]; 4] = [
        b"switch,Switch(else=>Concat())\n",
        b"ok,add,1\nswitch,nothing\nswitch,Switch(else=>Concat())\nswitch,Switch(,3\nrow,1,,none\n",
        b"switch,\n\"switch\",\"Switch(else=>Concat())\"",
        b"\xef\xbb\xbfswitch,Switch(else=>Concat())\nswitch\n",
    ];
    for report in reports {
        assert!(rt; opens_as(rt.alloc(), report, &[1], b"Switch(else=>Concat())")?);
    }
    Ok(())
}

/// Why a report has no program for the inputs 1 and 3; none where it has one.
fn refusal(alloc: Global, report: &[u8]) -> Option<ApplyError> {
    match open_switch(alloc, report, &[3, 1]) {
        Ok(_) => None,
        Err(e) => Some(e),
    }
}

#[test]
fn refusals_come_in_their_order(rt: HostRuntime) -> Result<(), Fail> {
    let reports: [(&[u8], Option<ApplyError>); 10] = [
        (b"", Some(ApplyError::NoSwitch)),
        (b"ok,add,1\nswitch\n", Some(ApplyError::NoSwitch)),
        (
            b"switch,Switch(else=>Concat())\nswitch,\n",
            Some(ApplyError::NoSwitch),
        ),
        (
            b"switch,Switch(else=>Concat()",
            Some(ApplyError::BadSwitch { at: 21 }),
        ),
        (
            b"switch,\"Switch(Match(2,[Digits],1)=>Concat();else=>Concat()\"",
            Some(ApplyError::BadSwitch { at: 51 }),
        ),
        (
            b"switch,\"Switch(Match(1,[Equals],1)=>Concat();else=>Concat())\"",
            Some(ApplyError::BadSwitch { at: 17 }),
        ),
        (
            b"switch,\"Switch(Match(3,[Dot],1)&Match(2,[Dot],1)=>Concat();Match(4,[Dot],1)=>Concat();else=>Concat())\"",
            Some(ApplyError::NoInput { column: 2 }),
        ),
        (
            b"switch,\"Switch(Match(4,[Dot],1)&Match(2,[Dot],1)=>Concat();else=>Concat())\"",
            Some(ApplyError::NoInput { column: 4 }),
        ),
        (
            b"switch,\"Switch(Match(3,[Dot],1)&Match(1,[Dot],1)=>Concat();else=>Concat(Whole(Col(2))))\"",
            None,
        ),
        (b"switch,Switch(else=>Concat(Whole(Col(9))))", None),
    ];
    for (report, wanted) in reports {
        assert!(rt; refusal(rt.alloc(), report) == wanted, "{report:?}");
    }
    Ok(())
}

/// Puts the records of all rows of the sheet at the end, and tells whether these are there then.
fn puts(
    alloc: Global,
    to: &mut List<u8>,
    switch: &Switch,
    sheet: &Sheet,
    tables: &Tables,
    records: &[u8],
) -> Result<bool, ApplyError>
    requires { let s = switch_tree switch.now in let rows = sheet.now in All (Contains rows.inputs) (columns_read s.cases) }
{
    for above in 0..sheet.rows() {
        apply_record(alloc, to, switch, above + 1, sheet, tables)?;
    }
    Ok(to.as_slice() == records)
}

/// Whether the program that a report saves gives these records for all rows of the sheet.
fn applies(
    alloc: Global,
    to: &mut List<u8>,
    report: &[u8],
    sheet: &Sheet,
    tables: &Tables,
    records: &[u8],
) -> Result<bool, ApplyError> {
    let switch = open_switch(alloc, report, sheet.inputs())?;
    puts(alloc, to, &switch, sheet, tables, records)
}

/// Whether a report's program gives these records for the rows of a sheet of one column.
fn gives(alloc: Global, report: &[u8], cells: &[u8], records: &[u8]) -> Result<bool, ApplyError> {
    let Ok(sheet) = Sheet::read(alloc, cells, false, &[1], None) else {
        return Err(ApplyError::NoMemory);
    };
    let tables = Tables::new(alloc);
    let mut to = List::new(alloc);
    applies(alloc, &mut to, report, &sheet, &tables, records)
}

#[test]
fn rows_have_their_values(rt: HostRuntime) -> Result<(), Fail> {
    let rows: [(&[u8], &[u8], &[u8]); 4] = [
        (
            b"switch,\"Switch(!Match(1,[Lower],1)=>Concat(Const('k'));else=>Concat(Whole(Col(1))))\"\n",
            "q\nZ\n\"\"\n\"é,\"\n".as_bytes(),
            "applied,1,q,some\napplied,2,k,some\napplied,3,k,some\napplied,4,\"é,\",some\n".as_bytes(),
        ),
        (
            b"switch,Switch(else=>Concat(Whole(Col(1))))\n",
            b"q\n\"\"\n",
            b"applied,1,q,some\napplied,2,,none\n",
        ),
        (
            b"switch,Switch(else=>Concat())\n",
            b"q\n",
            b"applied,1,,some\n",
        ),
        (
            b"switch,Switch(else=>Concat(Whole(Col(2))))\n",
            b"q\n",
            b"applied,1,,none\n",
        ),
    ];
    for (report, cells, records) in rows {
        assert!(rt; gives(rt.alloc(), report, cells, records)?, "{report:?}");
    }
    Ok(())
}
