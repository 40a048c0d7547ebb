mod reading;

use fill_print::{print_guard, print_program, print_switch};
use fill_text::{List, NoMemory, Text};
use fill_tokens::{Place, Seq, Token};
use fill_tree::{Atom, Case, Guard, Literal, Program, Select, Source, Switch};
use std::alloc::Global;
use std::test::Fail;

fn put_conditions(alloc: Global, conditions: &mut List<Atom>) -> Result<(), NoMemory> {
    conditions.push(Atom::Whole(Source::Col(2)))?;
    conditions.push(Atom::Const(Text::new(alloc)))
}

/// The lookup `Select(3,1,2,Whole(Col(2)),Const(''))`.
fn select(alloc: Global) -> Result<Select, NoMemory> {
    let mut conditions = List::new(alloc);
    put_conditions(alloc, &mut conditions)?;
    Ok(Select {
        column: 3,
        table: 1,
        key: 2,
        conditions,
    })
}

/// A piece of what is looked up.
fn piece(alloc: Global) -> Result<Atom, Fail> {
    let select = Box::new(alloc, select(alloc)?)?;
    let left = Place::Pos(Seq::two(Token::Lower, Token::Dot), Seq::empty(), -2);
    Ok(Atom::Sub(Source::Select(select), left, Place::CPos(-1)))
}

fn constant(alloc: Global, characters: &str) -> Result<Atom, Fail> {
    Ok(Atom::Const(Text::from_utf8(alloc, characters.as_bytes())?))
}

fn no_atoms(alloc: Global) -> Program {
    Program {
        atoms: List::new(alloc),
    }
}

fn one_atom(alloc: Global, atom: Atom) -> Result<Program, NoMemory> {
    let mut atoms = List::new(alloc);
    atoms.push(atom)?;
    Ok(Program { atoms })
}

/// The program of the piece and of a constant with an apostrophe and a backslash.
fn two_atoms(alloc: Global) -> Result<Program, Fail> {
    let mut program = one_atom(alloc, piece(alloc)?)?;
    program.atoms.push(constant(alloc, "é'\\")?)?;
    Ok(program)
}

/// Whether the program is spelled so.
fn program_is(alloc: Global, program: &Program, expected: &str) -> Result<bool, NoMemory> {
    let spelled = print_program(alloc, program)?;
    Ok(spelled.as_slice() == expected.as_bytes())
}

/// Whether the program of no atoms is.
fn empty_is(alloc: Global, expected: &str) -> Result<bool, Fail> {
    let empty = no_atoms(alloc);
    Ok(program_is(alloc, &empty, expected)?)
}

/// Whether that of two is.
fn long_is(alloc: Global, expected: &str) -> Result<bool, Fail> {
    let long = two_atoms(alloc)?;
    Ok(program_is(alloc, &long, expected)?)
}

#[test]
fn programs_are_spelled(rt: HostRuntime) -> Result<(), Fail> {
    assert!(rt; empty_is(rt.alloc(), "Concat()")?);
    let expected =
        "Concat(Sub(Select(3,1,2,Whole(Col(2)),Const('')),Pos([Lower Dot],[],-2),CPos(-1)),Const('é\\'\\\\'))";
    assert!(rt; long_is(rt.alloc(), expected)?);
    Ok(())
}

fn literal(negated: bool, column: u32, seq: Seq, least: u8) -> Literal {
    Literal {
        negated,
        column,
        seq,
        least,
    }
}

/// The guard of one literal.
fn alone() -> Guard {
    Guard {
        first: literal(true, 1, Seq::one(Token::Upper), 1),
        second: None,
    }
}

/// The guard of two literals.
fn both() -> Guard {
    Guard {
        first: literal(false, 1, Seq::one(Token::Digits), 2),
        second: Some(literal(true, 12, Seq::two(Token::Start, Token::Upper), 3)),
    }
}

/// Whether the guard is spelled so.
fn guard_is(alloc: Global, guard: &Guard, expected: &str) -> Result<bool, NoMemory> {
    let spelled = print_guard(alloc, guard)?;
    Ok(spelled.as_slice() == expected.as_bytes())
}

#[test]
fn guards_are_spelled(rt: HostRuntime) -> Result<(), Fail> {
    assert!(rt; guard_is(rt.alloc(), &alone(), "!Match(1,[Upper],1)")?);
    let expected = "Match(1,[Digits],2)&!Match(12,[Start Upper],3)";
    assert!(rt; guard_is(rt.alloc(), &both(), expected)?);
    Ok(())
}

fn no_cases(alloc: Global) -> Switch {
    Switch {
        cases: List::new(alloc),
        last: no_atoms(alloc),
    }
}

/// The case of the guard of one literal, and the first column as its program.
fn case(alloc: Global) -> Result<Case, NoMemory> {
    let program = one_atom(alloc, Atom::Whole(Source::Col(1)))?;
    Ok(Case {
        guard: alone(),
        program,
    })
}

/// The conditional program of that case.
fn one_case(alloc: Global) -> Result<Switch, Fail> {
    let mut cases = List::new(alloc);
    cases.push(case(alloc)?)?;
    let last = one_atom(alloc, constant(alloc, "k")?)?;
    Ok(Switch { cases, last })
}

/// Whether the conditional program is spelled so.
fn switch_is(alloc: Global, switch: &Switch, expected: &str) -> Result<bool, NoMemory> {
    let spelled = print_switch(alloc, switch)?;
    Ok(spelled.as_slice() == expected.as_bytes())
}

/// Whether that of one case is.
fn one_case_is(alloc: Global, expected: &str) -> Result<bool, Fail> {
    let switch = one_case(alloc)?;
    Ok(switch_is(alloc, &switch, expected)?)
}

/// Whether that of none is.
fn last_is(alloc: Global, expected: &str) -> Result<bool, Fail> {
    let last = no_cases(alloc);
    Ok(switch_is(alloc, &last, expected)?)
}

#[test]
fn switches_are_spelled(rt: HostRuntime) -> Result<(), Fail> {
    let expected = "Switch(!Match(1,[Upper],1)=>Concat(Whole(Col(1)));else=>Concat(Const('k')))";
    assert!(rt; one_case_is(rt.alloc(), expected)?);
    assert!(rt; last_is(rt.alloc(), "Switch(else=>Concat())")?);
    Ok(())
}
