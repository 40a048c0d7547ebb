//! The least guards of small sheets, worked by hand.
ghost use Rattle.std.specs.Prelude.{◌↔◌, IsTrue, All};
ghost use Rattle.fill_guard.specs.Read.{IsRowOf};

use Token::{Digits, Lower, NonAlpha, Start, Upper};
use fill_guard::guard;
use fill_sheet::Sheet;
use fill_tokens::{Seq, Token};
use fill_tree::{Constants, Guard, Literal, Profile, Settings};
use std::alloc::Global;
use std::test::Fail;

const SETTINGS: Settings = Settings {
    depth: 2,
    constants: Constants::Any,
    profile: Profile::FIRST,
};

const SECOND: Settings = Settings {
    depth: 3,
    constants: Constants::Any,
    profile: Profile::SECOND,
};

/// Whether the column has the token at least once, or where negated has not.
fn literal(negated: bool, column: u32, token: Token) -> Literal {
    Literal {
        negated,
        column,
        seq: Seq::one(token),
        least: 1,
    }
}

fn are_same(a: &Literal, b: &Literal) -> bool {
    a.negated == b.negated && a.column == b.column && a.seq == b.seq && a.least == b.least
}

fn one(first: Literal) -> Option<Guard> {
    Some(Guard {
        first,
        second: None,
    })
}

fn two(first: Literal, second: Literal) -> Option<Guard> {
    Some(Guard {
        first,
        second: Some(second),
    })
}

fn are_same_guards(a: &Guard, b: &Guard) -> bool {
    are_same(&a.first, &b.first)
        && match (&a.second, &b.second) {
            (None, None) => true,
            (Some(a), Some(b)) => are_same(a, b),
            _ => false,
        }
}

fn are_rows(rows: &[u32], sheet: &Sheet) -> bool
    ensures { IsTrue result ↔ All (IsRowOf sheet.now) rows.now }
{
    let last = sheet.rows();
    for row in rows {
        if *row < 1 {
            return false;
        }
        if *row > last {
            return false;
        }
    }
    true
}

/// Whether this is the least guard that tells the rows apart under the first profile.
fn gives(
    alloc: Global,
    sheet: &Sheet,
    inside: &[u32],
    outside: &[u32],
    expected: Option<Guard>,
) -> Result<bool, Fail> {
    gives_under(alloc, false, sheet, inside, outside, expected)
}

/// Whether it is under the first profile, or under the second one.
fn gives_under(
    alloc: Global,
    second: bool,
    sheet: &Sheet,
    inside: &[u32],
    outside: &[u32],
    expected: Option<Guard>,
) -> Result<bool, Fail> {
    let settings = if second { SECOND } else { SETTINGS };
    if !are_rows(inside, sheet) {
        return Ok(false);
    }
    if !are_rows(outside, sheet) {
        return Ok(false);
    }
    if outside.len() > 64 {
        return Ok(false);
    }
    Ok(
        match (guard(alloc, sheet, inside, outside, &settings)?, &expected) {
            (None, None) => true,
            (Some(made), Some(expected)) => are_same_guards(&made, expected),
            _ => false,
        },
    )
}

/// Whether it is over a sheet of these cells, of one input column.
fn one_column_gives(
    alloc: Global,
    cells: &[u8],
    inside: &[u32],
    outside: &[u32],
    expected: Option<Guard>,
) -> Result<bool, Fail> {
    let sheet = Sheet::read(alloc, cells, false, &[1], None)?;
    gives(alloc, &sheet, inside, outside, expected)
}

/// Whether it is over a sheet of these cells, of two input columns.
fn two_columns_give(
    alloc: Global,
    cells: &[u8],
    inside: &[u32],
    outside: &[u32],
    expected: Option<Guard>,
) -> Result<bool, Fail> {
    let sheet = Sheet::read(alloc, cells, false, &[1, 2], None)?;
    gives(alloc, &sheet, inside, outside, expected)
}

#[test]
fn one_literal_in_one_column(rt: HostRuntime) -> Result<(), Fail> {
    let alloc = rt.alloc();
    assert!(rt; one_column_gives(alloc, b"ab\nab\n", &[1], &[2], None)?);
    let negated = one(literal(true, 1, Digits));
    assert!(rt; one_column_gives(alloc, b"a\n1\n", &[1], &[2], negated)?);
    let start = one(literal(false, 1, Start));
    assert!(rt; one_column_gives(alloc, b"a\n1\n", &[1], &[], start)?);
    let upper = one(literal(true, 1, Upper));
    assert!(rt; one_column_gives(alloc, b"k\n12\nA-\n", &[1, 2], &[3], upper)?);
    Ok(())
}

#[test]
fn literals_in_two_columns(rt: HostRuntime) -> Result<(), Fail> {
    let alloc = rt.alloc();
    let lower = one(literal(false, 1, Lower));
    assert!(rt; two_columns_give(alloc, b"m,\np,\n,p\n,q\n", &[1, 2], &[3, 4], lower)?);
    // Each other row shares a cell with the first one, so a literal tells at most one of them from it.
    let both = two(literal(false, 1, Digits), literal(false, 2, Digits));
    assert!(rt; two_columns_give(alloc, b"1,1\na,1\n1,a\n", &[1], &[2, 3], both)?);
    Ok(())
}

/// Whether this is the least guard that tells three pieces from two, under the first profile or under the second one.
fn third_piece_gives(alloc: Global, second: bool, expected: Option<Guard>) -> Result<bool, Fail> {
    let sheet = Sheet::read(alloc, b"a!a!a!a\na!a!a\n", false, &[1], None)?;
    gives_under(alloc, second, &sheet, &[1], &[2], expected)
}

#[test]
fn a_guard_that_only_the_second_profile_has(rt: HostRuntime) -> Result<(), Fail> {
    assert!(rt; third_piece_gives(rt.alloc(), false, None)?);
    let thrice = Literal {
        least: 3,
        ..literal(false, 1, NonAlpha)
    };
    assert!(rt; third_piece_gives(rt.alloc(), true, one(thrice))?);
    Ok(())
}
