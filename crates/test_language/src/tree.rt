//! Costs, order and copies of trees. Programs are written in the notation.
mod grammar;

use crate::notation::only;
use fill_print::{Notation, read_switch};
use fill_text::{List, Text};
use fill_tree::*;
use std::alloc::Global;
use std::cmp::Ordering;
use std::test::Fail;

/// Puts down programs from the first to the last, each with its cost.
fn put_programs(alloc: Global, programs: &mut List<(Switch, u64)>) -> Result<(), Fail> {
    for (atoms, cost) in [
        ("", 0),
        ("Sub(Col(1),Pos([],[Upper],-1),CPos(-1))", 16),
        ("Sub(Col(1),Pos([Space],[],1),CPos(-1))", 16),
        ("Sub(Col(1),CPos(0),CPos(1))", 22),
        ("Const('a')", 27),
        ("Const('$2')", 28),
        (
            "Whole(Select(2,1,1,Sub(Col(1),Pos([Hyphen],[],1),Pos([],[Hyphen],-1))))",
            31,
        ),
        ("Whole(Select(3,1,1,Whole(Col(1)),Const('2012')))", 34),
        (
            "Whole(Select(2,3,1,Whole(Select(2,2,1,Whole(Select(2,1,1,Whole(Col(1))))))))",
            43,
        ),
        ("Const('March')", 75),
        ("Const('Monday')", 87),
    ] {
        programs.push((only(alloc, atoms)?, cost))?;
    }
    Ok(())
}

/// Whether both have costs, and the first is before the second.
fn is_before(p: &Program, q: &Program) -> bool {
    match (p.cost(&Prices::FIRST), q.cost(&Prices::FIRST)) {
        (Some(_), Some(_)) => p.before(q, &Prices::FIRST),
        _ => false,
    }
}

/// Whether the program at this place is before those that follow it, and before no others.
fn stands_at(programs: &[(Switch, u64)], place: usize, p: &Program) -> bool {
    for (i, (q, _)) in programs.iter().enumerate() {
        if is_before(p, &q.last) != (place < i) {
            return false;
        }
    }
    true
}

/// The first place of a program that has another cost or does not belong there.
fn wrong_place(programs: &[(Switch, u64)]) -> Option<usize> {
    for (i, (p, cost)) in programs.iter().enumerate() {
        if p.last.cost(&Prices::FIRST) != Some(*cost) || !stands_at(programs, i, &p.last) {
            return Some(i);
        }
    }
    None
}

/// Whether a copy of the program equals it and has this cost.
fn is_copied(alloc: Global, p: &Program, cost: u64) -> Result<bool, Fail> {
    let copied = p.copy(alloc)?;
    Ok(copied.compare(p) == Ordering::Equal && copied.cost(&Prices::FIRST) == Some(cost))
}

/// The first place of a program that is not copied so.
fn wrong_copy(alloc: Global, programs: &[(Switch, u64)]) -> Result<Option<usize>, Fail> {
    for (i, (p, cost)) in programs.iter().enumerate() {
        if !is_copied(alloc, &p.last, *cost)? {
            return Ok(Some(i));
        }
    }
    Ok(None)
}

/// The first wrong place and the first wrong copy of the programs, which the empty list is for.
fn wrong_in(
    alloc: Global,
    programs: &mut List<(Switch, u64)>,
) -> Result<(Option<usize>, Option<usize>), Fail> {
    put_programs(alloc, programs)?;
    let place = wrong_place(programs.as_slice());
    Ok((place, wrong_copy(alloc, programs.as_slice())?))
}

fn wrong(alloc: Global) -> Result<(Option<usize>, Option<usize>), Fail> {
    let mut programs = List::new(alloc);
    wrong_in(alloc, &mut programs)
}

#[test]
fn costs_and_order_and_copies_of_programs(rt: HostRuntime) -> Result<(), Fail> {
    assert_eq!(rt; wrong(rt.alloc())?, (None, None));
    Ok(())
}

/// Whether copies of a column and of the atom that is the whole of it equal them.
fn column_is_copied(alloc: Global, column: u32) -> Result<bool, Fail> {
    let source = Source::Col(column);
    let copied = source.copy(alloc)?;
    let atom = Atom::Whole(source);
    let other = atom.copy(alloc)?;
    Ok(
        copied.cost(&Prices::FIRST) == Some(0)
            && Source::Col(7).compare(&copied) == Ordering::Greater
            && other.compare(&atom) == Ordering::Equal
            && other.cost(&Prices::FIRST) == atom.cost(&Prices::FIRST),
    )
}

#[test]
fn copies_of_parts_are_equal(rt: HostRuntime) -> Result<(), Fail> {
    assert!(rt; column_is_copied(rt.alloc(), 1)?);
    Ok(())
}

/// Whether the only case is of a negated literal, and of a program of this cost.
fn is_only_case(cases: &[Case], cost: u64) -> bool {
    for case in cases {
        if !case.guard.first.negated || case.program.cost(&Prices::FIRST) != Some(cost) {
            return false;
        }
    }
    cases.len() == 1
}

/// Whether the switch has one case, of this cost, and the last program of the other.
fn is_like(copied: &Switch, switch: &Switch, cost: u64) -> bool {
    copied.last.compare(&switch.last) == Ordering::Equal
        && is_only_case(copied.cases.as_slice(), cost)
}

/// Whether a copy of the switch has its one case, of this cost, and its last program.
fn switch_is_copied(alloc: Global, spelled: &[u8], cost: u64) -> Result<bool, Fail> {
    let switch = read_switch(alloc, spelled, Notation::All)?;
    let copied = switch.copy(alloc)?;
    Ok(is_like(&copied, &switch, cost))
}

#[test]
fn copies_of_switches_are_equal(rt: HostRuntime) -> Result<(), Fail> {
    let spelled = b"Switch(!Match(1,[Upper],1)=>Concat(Const('March'));else=>Concat(Const('k')))";
    assert!(rt; switch_is_copied(rt.alloc(), spelled, 75)?);
    Ok(())
}

/// Whether a copy of an example has its row and its text.
fn example_is_copied(alloc: Global) -> Result<bool, Fail> {
    let text = Text::from_utf8(alloc, b"k")?;
    let example = Example { row: 1, text };
    let copied = example.copy(alloc)?;
    Ok(copied.row == example.row && copied.text.same(&example.text))
}

/// Whether a copy of an edit adds an example to the first row.
fn edit_is_copied(alloc: Global) -> Result<bool, Fail> {
    let text = Text::from_utf8(alloc, b"k")?;
    let edit = Edit::Add { row: 1, text };
    let copied = edit.copy(alloc)?;
    Ok(matches!(copied, Edit::Add { row: 1, .. }))
}

#[test]
fn copies_of_examples_and_edits_are_equal(rt: HostRuntime) -> Result<(), Fail> {
    assert!(rt; example_is_copied(rt.alloc())?);
    assert!(rt; edit_is_copied(rt.alloc())?);
    Ok(())
}
