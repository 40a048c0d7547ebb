//! Which programs are in the grammar, over a sheet and two tables.
ghost use Rattle.std.specs.Prelude.{◌≤◌};

use crate::notation::only;
use fill_sheet::Sheet;
use fill_tables::Tables;
use fill_tree::*;
use std::alloc::Global;
use std::test::Fail;

/// Adds prices by item and year, and items by letter.
fn add_tables(tables: &mut Tables) -> Result<(), Fail> {
    tables.add_table("prices", b"pen,2011,1\npen,2012,2\ncup,2011,5\n")?;
    tables.add_key("prices", &[1, 2])?;
    tables.add_table("items", b"p,pen\nc,cup\n")?;
    tables.add_key("items", &[1])?;
    Ok(())
}

/// What programs are in the grammar of.
#[derive(Clone, Copy)]
struct Given<'a> {
    sheet: &'a Sheet,
    tables: &'a Tables,
}

/// Whether the program is in the grammar under the first profile, with lookups of this depth.
fn is_in(p: &Program, depth: u8, constants: Constants, given: Given) -> bool
    requires { depth ≤ 2 }
{
    let settings = Settings {
        depth,
        constants,
        profile: Profile::FIRST,
    };
    in_grammar(p, &settings, given.sheet, given.tables)
}

/// The least depth from 0 to 2 with which the program is in the grammar, or 3.
fn least_depth(p: &Program, given: Given) -> u8 {
    for depth in 0..3 {
        if is_in(p, depth, Constants::Any, given) {
            return depth;
        }
    }
    3
}

const SECOND: Settings = Settings {
    depth: 3,
    constants: Constants::Any,
    profile: Profile::SECOND,
};

/// Whether the program is in the second profile's grammar, and not in the first one's.
fn second_has(p: &Program, given: Given) -> bool {
    in_grammar(p, &SECOND, given.sheet, given.tables) && !is_in(p, 2, Constants::Any, given)
}

/// What is said of a program.
#[derive(Clone, Copy)]
enum Said {
    /// This is the least depth from 0 to 2 with which it is in the grammar, or 3.
    Depth(u8),
    /// With any constants, and with those of separators alone, it is in the grammar just where these say.
    Constants(bool, bool),
    /// Only the second profile has it.
    Second,
}

fn is_so(p: &Program, given: Given, said: Said) -> bool {
    match said {
        Said::Depth(depth) => least_depth(p, given) == depth,
        Said::Constants(any, separators) => {
            is_in(p, 2, Constants::Any, given) == any
                && is_in(p, 2, Constants::Separators, given) == separators
        }
        Said::Second => second_has(p, given),
    }
}

/// Adds the tables, and reads the program of the atoms.
fn holds_over(
    alloc: Global,
    sheet: &Sheet,
    tables: &mut Tables,
    atoms: &str,
    said: Said,
) -> Result<bool, Fail> {
    add_tables(tables)?;
    let program = only(alloc, atoms)?;
    Ok(is_so(&program.last, Given { sheet, tables }, said))
}

fn holds_on(alloc: Global, sheet: &Sheet, atoms: &str, said: Said) -> Result<bool, Fail> {
    let mut tables = Tables::new(alloc);
    holds_over(alloc, sheet, &mut tables, atoms, said)
}

/// Whether this holds over a sheet whose only input is its first column.
fn holds(alloc: Global, atoms: &str, said: Said) -> Result<bool, Fail> {
    let sheet = Sheet::read(alloc, b"pen,2012\n", false, &[1], None)?;
    holds_on(alloc, &sheet, atoms, said)
}

#[test]
fn numbers_and_depths_of_lookups(rt: HostRuntime) -> Result<(), Fail> {
    for (atoms, depth) in [
        ("Whole(Col(1))", 0),
        ("Whole(Col(2))", 3),
        ("Whole(Select(3,1,1,Whole(Col(1)),Const('2012')))", 1),
        ("Whole(Select(3,1,1,Whole(Col(1)),Const('')))", 1),
        ("Whole(Select(3,1,1,Whole(Col(1))))", 3),
        // A column of the key, columns, tables and keys that are not there.
        ("Whole(Select(1,1,1,Whole(Col(1)),Const('2012')))", 3),
        ("Whole(Select(2,1,1,Whole(Col(1)),Const('2012')))", 3),
        ("Whole(Select(4,1,1,Whole(Col(1)),Const('2012')))", 3),
        ("Whole(Select(3,3,1,Whole(Col(1)),Const('2012')))", 3),
        ("Whole(Select(3,1,2,Whole(Col(1)),Const('2012')))", 3),
        (
            "Whole(Select(3,1,1,Whole(Select(2,2,1,Whole(Col(1)))),Const('2012')))",
            2,
        ),
    ] {
        assert!(rt; holds(rt.alloc(), atoms, Said::Depth(depth))?, "{atoms}");
    }
    Ok(())
}

#[test]
fn constants_of_programs(rt: HostRuntime) -> Result<(), Fail> {
    for (atoms, any, separators) in [
        ("", true, true),
        ("Const(' (')", true, true),
        ("Const('(a')", true, false),
        (
            "Whole(Select(3,1,1,Whole(Col(1)),Const('2012')))",
            true,
            true,
        ),
        ("Sub(Col(1),CPos(0),Pos([],[Upper],-1))", true, true),
    ] {
        assert!(rt;
            holds(rt.alloc(), atoms, Said::Constants(any, separators))?,
            "{atoms}"
        );
    }
    Ok(())
}

#[test]
fn what_only_the_second_profile_has(rt: HostRuntime) -> Result<(), Fail> {
    for atoms in [
        "Sub(Col(1),Pos([],[NonSpace],1),CPos(-1))",
        "Whole(Select(2,2,1,Sub(Col(1),Pos([],[NonSpace],1),CPos(-1))))",
        "Whole(Select(2,2,1,Whole(Select(2,2,1,Whole(Select(2,2,1,Whole(Col(1))))))))",
    ] {
        assert!(rt; holds(rt.alloc(), atoms, Said::Second)?, "{atoms}");
    }
    Ok(())
}
