//! The least atoms of sets, constants among them, by their texts on the row.
ghost use Rattle.std.specs.Prelude.{IfOk, OnOk};
ghost use Rattle.fill_arena.specs.Contents.{IsAtomSet, SomeIn};
ghost use Rattle.fill_arena.specs.Stands.{AtomStands, ConstantFits};
ghost use Rattle.fill_object.specs.Kinds.{atoms_on};
ghost use Rattle.fill_object.specs.Memo.{IsMemoOf, IsOnRow};
ghost use Rattle.fill_object.specs.Leasts.{AreLeasts, Gains};

use crate::atoms::put_atom;
use crate::memo::Memo;
use crate::row::OnRow;
use crate::sets::scan_parts;
use crate::valued::ValuedAtom;
use fill_arena::{AtomItem, AtomSet};
use fill_text::NoMemory;
use fill_tree::Atom;
use std::rc::Rc;

/// Puts the constant that an item stands for, if it is one.
fn put_constant(
    on: &OnRow<'_>,
    item: &AtomItem,
    rivals: &mut Vec<ValuedAtom>,
) -> Result<(), NoMemory>
    requires { IsOnRow on.now }
    ensures { OnOk result (Gains (atoms_on on.now) (ConstantFits on.now.arena.now item.now) rivals.old.items rivals.new.items) }
{
    match item {
        AtomItem::Const(text) => put_atom(on, Atom::Const(text.copy()?), rivals),
        _ => Ok(()),
    }
}

/// Puts the constants among some items.
fn put_constants(
    on: &OnRow<'_>,
    items: &[AtomItem],
    rivals: &mut Vec<ValuedAtom>,
) -> Result<(), NoMemory>
    requires { IsOnRow on.now }
    ensures { OnOk result (Gains (atoms_on on.now) (λ a. SomeIn (λ i. ConstantFits on.now.arena.now i a) items.now) rivals.old.items rivals.new.items) }
{
    for item in items {
        put_constant(on, item, rivals)?;
    }
    Ok(())
}

/// The least atoms of a set, by their texts.
pub(crate) fn atoms_of(
    on: &OnRow<'_>,
    memo: &mut Memo,
    s: AtomSet,
) -> Result<Rc<Vec<ValuedAtom>>, NoMemory>
    requires set { IsAtomSet on.now.arena.now s }
    requires row { IsOnRow on.now }
    requires memo { IsMemoOf on.now memo.old }
    ensures memo { OnOk result (IsMemoOf on.now memo.new) }
    ensures least { IfOk result (λ leasts. AreLeasts (atoms_on on.now) (AtomStands on.now.arena.now s) leasts.value.items) }
{
    if let Some(leasts) = memo.atoms(s) {
        return Ok(leasts.clone()?);
    }
    let leasts = Rc::new(on.alloc, scan_atoms(on, memo, s)?)?;
    memo.keep_atoms(s, leasts.clone()?)?;
    Ok(leasts)
}

fn scan_atoms(on: &OnRow<'_>, memo: &mut Memo, s: AtomSet) -> Result<Vec<ValuedAtom>, NoMemory>
    requires set { IsAtomSet on.now.arena.now s }
    requires row { IsOnRow on.now }
    requires memo { IsMemoOf on.now memo.old }
    ensures memo { OnOk result (IsMemoOf on.now memo.new) }
    ensures least { IfOk result (λ rivals. AreLeasts (atoms_on on.now) (AtomStands on.now.arena.now s) rivals.items) }
{
    let mut rivals = scan_parts(on, memo, s)?;
    put_constants(on, on.arena.atoms(s), &mut rivals)?;
    Ok(rivals)
}
