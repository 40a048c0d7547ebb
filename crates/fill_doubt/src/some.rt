//! Some answers of a set of atoms, for which no more positions are carried over than two answers take.
ghost use Rattle.std.specs.Prelude.{ℕ, List as Items, Option, Some, IfOk, IfSome, OnOk, MatchOption};
ghost use Rattle.fill_arena.specs.Contents.{EachIn, IsAtomSet, SomeIn};
ghost use Rattle.fill_eval.specs.Piece.{IsWithin, piece_text};
ghost use Rattle.fill_doubt.specs.Answers.{PiecesHave};
ghost use Rattle.fill_doubt.specs.Memo.{IsMemoOf, AtomAnswers, ConstantItemAnswers, IsOnRow};

use crate::answers::Pieces;
use crate::memo::Memo;
use crate::row::OnRow;
use crate::sets::{atoms_of, put_part};
use fill_arena::{AtomItem, AtomSet};
use fill_eval::Piece;
use fill_text::NoMemory;

/// Answers of atoms of the set that are no constants.
pub(crate) fn some_of<'a>(
    on: &OnRow<'a>,
    memo: &mut Memo<'a>,
    s: AtomSet,
) -> Result<Pieces<'a>, NoMemory>
    requires set { IsAtomSet on.now.arena.now s }
    requires row { IsOnRow on.now }
    requires memo { IsMemoOf on.now memo.old }
    ensures memo { OnOk result (IsMemoOf on.now memo.new) }
    ensures within { IfOk result (λ found. EachIn IsWithin found.pieces.items) }
    ensures sound { IfOk result (λ found. (o : Option (Items ℕ)) → PiecesHave found o → AtomAnswers on.now s o) }
{
    let arena = on.arena;
    arena.keeps_made();
    let items = arena.atoms(s);
    let mut found = Pieces::new(on.alloc);
    for item in items {
        if found.are_several() {
            return Ok(found);
        }
        put_part(on, memo, s, item, true, &mut found)?;
    }
    Ok(found)
}

/// A text of the set, if one of its atoms has one. That of a constant takes no look at other atoms.
pub(crate) fn first_piece<'a>(
    on: &OnRow<'a>,
    memo: &mut Memo<'a>,
    s: AtomSet,
) -> Result<Option<Piece<'a>>, NoMemory>
    requires set { IsAtomSet on.now.arena.now s }
    requires row { IsOnRow on.now }
    requires memo { IsMemoOf on.now memo.old }
    ensures memo { OnOk result (IsMemoOf on.now memo.new) }
    ensures first { IfOk result (λ o. MatchOption o ((t : Items ℕ) → ¬ (AtomAnswers on.now s (Some t))) (λ piece. IsWithin piece × AtomAnswers on.now s (Some (piece_text piece)))) }
{
    if let Some(piece) = first_constant(on.arena.atoms(s)) {
        return Ok(Some(piece));
    }
    let some = some_of(on, memo, s)?;
    if let Some(piece) = some.first() {
        return Ok(Some(piece));
    }
    let found = atoms_of(on, memo, s)?;
    Ok(found.first())
}

/// The first constant that is not empty.
fn first_constant<'a>(items: &'a [AtomItem]) -> Option<Piece<'a>>
    ensures { IfSome result (λ piece. IsWithin piece × SomeIn (λ i. ConstantItemAnswers i (Some (piece_text piece))) items.now) }
{
    for item in items {
        if let Some(piece) = constant_of(item) {
            return Some(piece);
        }
    }
    None
}

fn constant_of<'a>(item: &'a AtomItem) -> Option<Piece<'a>>
    ensures { IfSome result (λ piece. IsWithin piece × ConstantItemAnswers item.now (Some (piece_text piece))) }
{
    match item {
        AtomItem::Const(text) => Piece::whole(text).filled(),
        _ => None,
    }
}
