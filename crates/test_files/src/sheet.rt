ghost use Rattle.fill_sheet.specs.Columns.{AreInputs, IsOutput};

use fill_sheet::*;
use fill_text::{List, NoMemory, Text};
use std::alloc::Global;
use std::test::Fail;

/// Whether a text has these characters.
fn is(text: &Text, expected: &str) -> bool {
    let mut i = 0;
    for c in expected.chars() {
        if i >= text.len() || text.at(i) != c {
            return false;
        }
        i += 1;
    }
    i == text.len()
}

/// Whether the cells of a row are these, in the order of the inputs.
fn has_cells(sheet: &Sheet, row: u32, expected: &[&str]) -> bool {
    if row < 1 || row > sheet.rows() || sheet.inputs().len() != expected.len() {
        return false;
    }
    for (i, column) in sheet.inputs().iter().enumerate() {
        if !is(sheet.cell(row, *column), expected[i]) {
            return false;
        }
    }
    true
}

/// Whether a row is given this text, or none.
fn has_given(sheet: &Sheet, row: u32, expected: Option<&str>) -> bool {
    if row < 1 || row > sheet.rows() {
        return false;
    }
    match (sheet.given(row), expected) {
        (Some(text), Some(expected)) => is(text, expected),
        (None, None) => true,
        _ => false,
    }
}

/// Why a file gives no sheet; none where it gives one.
fn refusal(
    alloc: Global,
    bytes: &[u8],
    header: bool,
    inputs: &[u32],
    output: Option<u32>,
) -> Option<SheetError>
    requires inputs { AreInputs inputs.now }
    requires output { IsOutput inputs.now output }
{
    Sheet::read(alloc, bytes, header, inputs, output).err()
}

#[test]
fn the_first_bad_field_refuses(rt: HostRuntime) {
    let alloc = rt.alloc();
    let alone = SheetError::NotUtf8 {
        number: 2,
        column: 1,
    };
    assert!(rt; refusal(alloc, b"a\n\xff\n", false, &[1], None) == Some(alone));
    let bytes = b"\xff,\xff,\xff\na,\xff,\xff,\xff\n\xff";
    let first = SheetError::NotUtf8 {
        number: 2,
        column: 3,
    };
    assert!(rt; refusal(alloc, bytes, true, &[4], Some(3)) == Some(first));
}

/// What a sheet is to be.
#[derive(Clone, Copy)]
enum Asked {
    /// Two rows of two input columns, under a header.
    Header,
    /// Two rows of one input column, and nothing given.
    Bare,
    /// So many rows.
    Rows(u32),
}

/// Whether the sheet has two rows of the input columns 1 and 4, and a text given to the first one alone.
fn has_two_inputs(sheet: &Sheet) -> bool {
    sheet.rows() == 2
        && sheet.inputs() == [1, 4].as_slice()
        && has_cells(sheet, 1, &["Smith, John", ""])
        && has_given(sheet, 1, Some("Smith"))
        && has_cells(sheet, 2, &["\u{c9}tienne", ""])
        && has_given(sheet, 2, None)
}

/// Whether the sheet has two rows of one input column, and nothing given to the second one.
fn has_one_input(sheet: &Sheet) -> bool {
    sheet.rows() == 2
        && has_cells(sheet, 1, &["1"])
        && has_cells(sheet, 2, &["2"])
        && has_given(sheet, 2, None)
}

/// Whether the sheet is as it is to be.
fn is_so(sheet: &Sheet, asked: Asked) -> bool {
    match asked {
        Asked::Header => has_two_inputs(sheet),
        Asked::Bare => has_one_input(sheet),
        Asked::Rows(rows) => sheet.rows() == rows,
    }
}

/// Whether a file gives a sheet that is as it is to be.
fn gives(
    alloc: Global,
    bytes: &[u8],
    header: bool,
    inputs: &[u32],
    output: Option<u32>,
    asked: Asked,
) -> bool
    requires inputs { AreInputs inputs.now }
    requires output { IsOutput inputs.now output }
{
    match Sheet::read(alloc, bytes, header, inputs, output) {
        Ok(sheet) => is_so(&sheet, asked),
        Err(_) => false,
    }
}

#[test]
fn a_sheet_with_a_header(rt: HostRuntime) {
    let bytes = b"\xef\xbb\xbfName,\xff,Last\r\n\"Smith, John\",\xff,Smith\r\n\xc3\x89tienne,,";
    assert!(rt; gives(rt.alloc(), bytes, true, &[4, 1], Some(3), Asked::Header));
}

#[test]
fn a_sheet_without_a_header(rt: HostRuntime) {
    let bytes = b"\xef\xbb\xbf1,one\n2,two\n";
    assert!(rt; gives(rt.alloc(), bytes, false, &[1], None, Asked::Bare));
    assert!(rt; gives(rt.alloc(), b"", true, &[1], None, Asked::Rows(0)));
}

/// Whether 20000 records of one field are a sheet, and one more of no UTF-8 is too many.
fn takes_20000_records(alloc: Global, bytes: &mut List<u8>) -> Result<bool, NoMemory> {
    for _ in 0..20000 {
        bytes.append(b"a\n")?;
    }
    if !gives(
        alloc,
        bytes.as_slice(),
        false,
        &[1],
        None,
        Asked::Rows(20000),
    ) {
        return Ok(false);
    }
    bytes.append(b"\xff")?;
    let many = SheetError::TooManyRows { limit: 20000 };
    Ok(refusal(alloc, bytes.as_slice(), true, &[1], None) == Some(many))
}

/// Whether 20000 records are a sheet and one more is too many, from an empty list on.
fn takes_at_most_20000(alloc: Global) -> Result<bool, NoMemory> {
    let mut bytes = List::new(alloc);
    takes_20000_records(alloc, &mut bytes)
}

#[test]
fn a_sheet_has_at_most_20000_records(rt: HostRuntime) -> Result<(), Fail> {
    assert!(rt; takes_at_most_20000(rt.alloc())?);
    Ok(())
}

/// A list of these bytes.
fn list(alloc: Global, bytes: &[u8]) -> Result<List<u8>, NoMemory> {
    Ok(List::from_vec(bytes.to_vec(alloc)?))
}

/// Puts two fields at the end of the fields.
fn put_two(
    alloc: Global,
    fields: &mut List<List<u8>>,
    first: &[u8],
    second: &[u8],
) -> Result<(), NoMemory> {
    fields.push(list(alloc, first)?)?;
    fields.push(list(alloc, second)?)
}

/// Writes an `x` and a record of two fields into empty lists, and tells whether this is written.
fn writes(
    alloc: Global,
    to: &mut List<u8>,
    fields: &mut List<List<u8>>,
    first: &[u8],
    second: &[u8],
    record: &[u8],
) -> Result<bool, NoMemory> {
    to.append(b"x")?;
    put_two(alloc, fields, first, second)?;
    if fields.len() != 2 {
        return Ok(false);
    }
    put_record(alloc, to, fields)?;
    Ok(to.as_slice() == record)
}

/// Whether a record of two fields is written as this, after an `x`.
fn is_written(alloc: Global, first: &[u8], second: &[u8], record: &[u8]) -> Result<bool, NoMemory> {
    let mut to = List::new(alloc);
    let mut fields = List::new(alloc);
    writes(alloc, &mut to, &mut fields, first, second, record)
}

#[test]
fn records_of_reports(rt: HostRuntime) -> Result<(), Fail> {
    assert!(rt; is_written(rt.alloc(), b"a,b", b"c", b"x\"a,b\",c\n")?);
    assert!(rt; is_written(rt.alloc(), b"", b"\"\n", b"x,\"\"\"\n\"\n")?);
    Ok(())
}
