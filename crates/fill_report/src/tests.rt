//! What no clause says: the words of the format, and records as a sink gets them.
use crate::best::no_branch_record;
use crate::edits::{ok_record, refused_record};
use crate::queries::no_row_record;
use fill_edge::MemorySink;
use fill_output::Record;
use fill_session::EditError;
use fill_text::{NoMemory, Text};
use fill_tree::Edit;
use std::alloc::Global;
use std::test::Fail;

/// The record of an edit, made or refused.
fn edited(alloc: Global, edit: &Edit, refused: Option<EditError>) -> Result<Record, NoMemory> {
    match refused {
        Some(reason) => refused_record(alloc, edit, &reason),
        None => ok_record(alloc, edit),
    }
}

/// Whether the record is written so.
fn is_written(alloc: Global, record: &Record, expected: &[u8]) -> Result<bool, NoMemory> {
    let mut sink = MemorySink::new(alloc, 100, 7)?;
    let _ = record.write(&mut sink);
    Ok(sink.written() == expected)
}

#[test]
fn edits_have_their_records(rt: HostRuntime) -> Result<(), Fail> {
    let alloc = rt.alloc();
    let add = Edit::Add {
        row: 3,
        text: Text::new(alloc),
    };
    let made = edited(alloc, &add, None)?;
    assert!(rt; is_written(alloc, &made, b"ok,add,3\n")?);
    let refused = edited(alloc, &add, Some(EditError::HasExample))?;
    assert!(rt; is_written(alloc, &refused, b"refused,add,3,row has an example\n")?);
    let cleared = edited(alloc, &Edit::Clear, None)?;
    assert!(rt; is_written(alloc, &cleared, b"ok,clear\n")?);
    Ok(())
}

#[test]
fn records_are_those_of_csv(rt: HostRuntime) -> Result<(), Fail> {
    let alloc = rt.alloc();
    let missing = no_row_record(alloc, b"answer", 0)?;
    assert!(rt; is_written(alloc, &missing, b"refused,answer,0,no such row\n")?);
    let absent = no_branch_record(alloc, 2)?;
    assert!(rt; is_written(alloc, &absent, b"refused,best,2,no such branch\n")?);
    let row = Record::of(alloc, b"row")?
        .with_number(7)?
        .with(b"a,b")?
        .with(b"none doubt")?;
    assert!(rt; is_written(alloc, &row, b"row,7,\"a,b\",none doubt\n")?);
    Ok(())
}
