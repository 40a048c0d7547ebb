//! Rows of conditions of a lookup.
ghost use Rattle.std.specs.Prelude.{[], IfOk, OnOk};
ghost use Rattle.fill_tree.specs.Meaning.{atom_tree};
ghost use Rattle.fill_arena.specs.Contents.{SomeIn};
ghost use Rattle.fill_object.specs.Kinds.{rows_on};
ghost use Rattle.fill_object.specs.Leasts.{Gains};
ghost use Rattle.fill_object.specs.Rows.{AreRows, IsFixed, IsFront, IsLonger};
ghost use Rattle.fill_object.specs.declared.row.OnRow.{OnRow as Row};

use crate::valued::ValuedAtom;
use fill_text::{NoMemory, Text};
use fill_tree::{Atom, Program};
use std::alloc::Global;

/// The row without conditions.
pub(crate) fn no_conditions(alloc: Global) -> Result<Vec<Program>, NoMemory>
    ensures { IfOk result (λ rows. (on : Row) → AreRows on [] rows.items) }
{
    let mut rows = Vec::new(alloc);
    rows.push(Program::empty(alloc))?;
    Ok(rows)
}

/// Puts the condition before each of the rows.
fn put_before(
    alloc: Global,
    condition: &Atom,
    rests: &[Program],
    fronts: &mut Vec<Program>,
) -> Result<(), NoMemory>
    ensures { OnOk result ((on : Row) → Gains (rows_on on) (IsFront (atom_tree condition.now) rests.now) fronts.old.items fronts.new.items) }
{
    for rest in rests {
        fronts.push(rest.with_first(alloc, condition)?)?;
    }
    Ok(())
}

/// Puts the constant, if there is one, before each of the rows.
fn put_constant(
    alloc: Global,
    constant: &Option<Text>,
    rests: &[Program],
    fronts: &mut Vec<Program>,
) -> Result<(), NoMemory>
    ensures { OnOk result ((on : Row) → Gains (rows_on on) (IsFixed constant.now rests.now) fronts.old.items fronts.new.items) }
{
    match constant {
        Some(text) => {
            let condition = Atom::Const(text.copy()?);
            put_before(alloc, &condition, rests, fronts)
        }
        None => Ok(()),
    }
}

/// Puts each of the parts before each of the rows.
fn put_parts(
    alloc: Global,
    parts: &[ValuedAtom],
    rests: &[Program],
    fronts: &mut Vec<Program>,
) -> Result<(), NoMemory>
    ensures { OnOk result ((on : Row) → Gains (rows_on on) (λ y. SomeIn (λ x. IsFront (atom_tree x.atom) rests.now y) parts.now) fronts.old.items fronts.new.items) }
{
    for part in parts {
        put_before(alloc, &part.atom, rests, fronts)?;
    }
    Ok(())
}

/// The rows with one condition more at the front: the constant, or one of the parts.
pub(crate) fn put_in_front(
    alloc: Global,
    constant: &Option<Text>,
    parts: &[ValuedAtom],
    rests: &[Program],
) -> Result<Vec<Program>, NoMemory>
    ensures { IfOk result (λ fronts. (on : Row) → Gains (rows_on on) (IsLonger constant.now parts.now rests.now) [] fronts.items) }
{
    let mut fronts = Vec::new(alloc);
    put_constant(alloc, constant, rests, &mut fronts)?;
    put_parts(alloc, parts, rests, &mut fronts)?;
    Ok(fronts)
}
