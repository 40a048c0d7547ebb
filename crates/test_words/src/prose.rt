//! Rules in plain English.
use fill_text::{List, Text};
use fill_tokens::{Place, Seq, Token};
use fill_tree::{Atom, Case, Guard, Literal, Program, Select, Source, Switch};
use fillcsv_prose::{Named, Names, rule_lines};
use std::alloc::{AllocError, Global};
use std::test::Fail;

fn constant(alloc: Global, text: &str) -> Result<Atom, Fail> {
    Ok(Atom::Const(Text::from_utf8(alloc, text.as_bytes())?))
}

/// `Name from the last capital on, " (", City, ")"`.
fn label(alloc: Global) -> Result<Program, Fail> {
    let mut atoms = List::new(alloc);
    let last_capital = Place::Pos(Seq::empty(), Seq::one(Token::Upper), -1);
    atoms.push(Atom::Sub(Source::Col(1), last_capital, Place::CPos(-1)))?;
    atoms.push(constant(alloc, " (\"\n")?)?;
    atoms.push(Atom::Whole(Source::Col(2)))?;
    Ok(Program { atoms })
}

/// Pieces of a cell, each told in another way.
fn pieces(alloc: Global) -> Result<Program, Fail> {
    let none = Seq::empty();
    let digits = Seq::one(Token::Digits);
    let space = Seq::one(Token::Space);
    let block = Seq::two(Token::Space, Token::NonSpace);
    let mut atoms = List::new(alloc);
    for (start, end) in [
        (Place::Pos(none, digits, 1), Place::Pos(digits, none, 1)),
        (Place::Pos(space, none, -2), Place::Pos(block, none, -2)),
        (Place::CPos(0), Place::CPos(1)),
        (Place::CPos(-4), Place::CPos(-1)),
        (Place::CPos(0), Place::Pos(none, Seq::one(Token::Hyphen), 1)),
        (Place::Pos(Seq::one(Token::At), none, 1), Place::CPos(-1)),
    ] {
        atoms.push(Atom::Sub(Source::Col(1), start, end))?;
    }
    Ok(Program { atoms })
}

/// A month by its number, from a table.
fn month(alloc: Global) -> Result<Program, Fail> {
    let start = Place::Pos(Seq::one(Token::Hyphen), Seq::empty(), 1);
    let end = Place::Pos(
        Seq::one(Token::Digits),
        Seq::two(Token::Hyphen, Token::Word),
        -4,
    );
    let mut conditions = List::new(alloc);
    conditions.push(Atom::Sub(Source::Col(3), start, end))?;
    let select = Select {
        column: 2,
        table: 1,
        key: 1,
        conditions,
    };
    let mut atoms = List::new(alloc);
    atoms.push(Atom::Whole(Source::Select(Box::new(alloc, select)?)))?;
    Ok(Program { atoms })
}

fn literal(negated: bool, least: u8) -> Literal {
    Literal {
        negated,
        column: 2,
        seq: Seq::two(Token::Start, Token::At),
        least,
    }
}

fn named(alloc: Global, number: u32, name: &str) -> Result<Named, AllocError> {
    Ok(Named {
        number,
        name: String::from_str(alloc, name)?,
    })
}

/// The lines of a rule, one below the other.
fn lines_of(alloc: Global, switch: &Switch) -> Result<String, Fail> {
    let columns = [named(alloc, 1, "Name")?, named(alloc, 2, "City")?];
    let tables = [named(alloc, 1, "months")?];
    let names = Names {
        columns: &columns,
        tables: &tables,
    };
    let mut text = String::new(alloc);
    for line in &rule_lines(alloc, switch, names)? {
        text.push_str(line.as_str())?;
        text.push_str("\n")?;
    }
    Ok(text)
}

#[test]
fn rules_are_read_as_english(rt: HostRuntime) -> Result<(), Fail> {
    let alloc = rt.alloc();
    let one = Switch {
        cases: List::new(alloc),
        last: label(alloc)?,
    };
    assert_eq!(rt;
        lines_of(alloc, &one)?.as_str(),
        "Name from the last capital on, \" (\\\"\\n\", City\n"
    );
    let pieces = Switch {
        cases: List::new(alloc),
        last: pieces(alloc)?,
    };
    assert_eq!(rt;
        lines_of(alloc, &pieces)?.as_str(),
        "the first number of Name, the block without spaces right after the second to last space of Name, the first character of Name, the last 3 characters of Name, Name before the first \"-\", Name after the first \"@\"\n"
    );
    let mut cases = List::new(alloc);
    cases.push(Case {
        guard: Guard {
            first: literal(false, 1),
            second: Some(literal(true, 2)),
        },
        program: month(alloc)?,
    })?;
    let two = Switch {
        cases,
        last: Program {
            atoms: List::new(alloc),
        },
    };
    assert_eq!(rt;
        lines_of(alloc, &two)?.as_str(),
        "where City begins with \"@\" and City has fewer than 2 of start then \"@\": column 2 of months where key 1 is (from after the first \"-\" to before the 4th to last \"-\" then word right after number of column 3)\nelse: nothing\n"
    );
    Ok(())
}
