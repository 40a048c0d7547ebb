//! The positions that the places of a set have in a text, and the pieces between two sets' positions.
ghost use Rattle.std.specs.Prelude.{◌≡◌, ◌↔◌, ◌≤◌, ℕ, Some, IsTrue, OnOk, length};
ghost use Rattle.fill_arena.specs.Contents.{EachIn, IsPlaceSet};
ghost use Rattle.fill_eval.specs.Piece.{IsWithin};
ghost use Rattle.fill_doubt.specs.Answers.{AreBetween, AreBetweenFrom, Gains, Lack, PiecesHave, PositionsHave, between};
ghost use Rattle.fill_doubt.specs.Memo.{IsMemoOf};
ghost use Rattle.fill_doubt.specs.Numbered.{IsNumber};
ghost use Rattle.fill_doubt.specs.Placed.{ArePlaced};
ghost use Rattle.fill_doubt.specs.Read.{IsReadIn};
ghost use Rattle.fill_doubt.specs.Shapes.{IsReadAt, IsShapeOf, KeepsReads, ShapesStand};

use crate::answers::{Pieces, Positions};
use crate::carry::{carry, put_asked};
use crate::memo::Memo;
use crate::numbered::Numbered;
use crate::read::Read;
use crate::row::OnRow;
use crate::shaped::Shaped;
use crate::shapes::Shapes;
use crate::spots::Spots;
use fill_arena::PlaceSet;
use fill_eval::Piece;
use fill_shapes::laws::values_are_stretched;
use fill_text::{NoMemory, Text};

/// The positions that the places of two sets have in the text, those of the left set and those of the right one: two answers
/// where few will do, and else all of them. What they take is found once for all texts of a shape; of a long text each place
/// is asked, and nothing is kept.
pub(crate) fn find_positions<'a>(
    on: &OnRow<'a>,
    memo: &mut Memo<'a>,
    text: &Numbered<'a>,
    lefts: PlaceSet,
    rights: PlaceSet,
    few: bool,
) -> Result<(), NoMemory>
    requires lefts { IsPlaceSet on.now.arena.now lefts }
    requires rights { IsPlaceSet on.now.arena.now rights }
    requires number { IsNumber memo.old.texts.items text.now.text.now text.now.number }
    requires memo { IsMemoOf on.now memo.old }
    ensures memo { OnOk result (IsMemoOf on.now memo.new) }
    ensures texts { memo.new.texts ≡ memo.old.texts }
    ensures lefts { OnOk result (ArePlaced on.now.arena.now lefts text.now.text.now few memo.new.lefts) }
    ensures rights { OnOk result (ArePlaced on.now.arena.now rights text.now.text.now few memo.new.rights) }
{
    let Some(n) = text.number else {
        long_positions(on, lefts, text.text, few, &mut memo.lefts)?;
        return long_positions(on, rights, text.text, few, &mut memo.rights);
    };
    let shaped = &memo.texts[n];
    shape_positions(on, lefts, few, shaped, &mut memo.shapes, &mut memo.lefts)?;
    shape_positions(on, rights, few, shaped, &mut memo.shapes, &mut memo.rights)
}

/// The positions in a long text, by asking one place after the other.
fn long_positions(
    on: &OnRow<'_>,
    s: PlaceSet,
    text: &Text,
    few: bool,
    found: &mut Positions,
) -> Result<(), NoMemory>
    requires set { IsPlaceSet on.now.arena.now s }
    ensures { OnOk result (ArePlaced on.now.arena.now s text.now few found.new) }
{
    found.clear();
    put_asked(found, on.arena.places(s), text, few)
}

fn shape_positions(
    on: &OnRow<'_>,
    s: PlaceSet,
    few: bool,
    shaped: &Shaped,
    shapes: &mut Shapes,
    found: &mut Positions,
) -> Result<(), NoMemory>
    requires set { IsPlaceSet on.now.arena.now s }
    requires shape { IsShapeOf shaped.now }
    requires there { IsReadAt shapes.old shaped.now.shape.text shaped.now.number }
    requires stand { ShapesStand on.now.arena.now shapes.old }
    ensures stand { OnOk result (ShapesStand on.now.arena.now shapes.new) }
    ensures there { OnOk result (KeepsReads shapes.old shapes.new) }
    ensures found { OnOk result (ArePlaced on.now.arena.now s shaped.now.text.now few found.new) }
{
    let n = shaped.number;
    read_positions(on, s, few, shaped, &mut shapes.reads[n], found)
}

fn read_positions(
    on: &OnRow<'_>,
    s: PlaceSet,
    few: bool,
    shaped: &Shaped,
    read: &mut Read,
    found: &mut Positions,
) -> Result<(), NoMemory>
    requires set { IsPlaceSet on.now.arena.now s }
    requires shape { IsShapeOf shaped.now }
    requires text { read.old.text ≡ shaped.now.shape.text }
    requires read { IsReadIn on.now.arena.now read.old }
    ensures read { OnOk result (IsReadIn on.now.arena.now read.new) }
    ensures text { read.new.text ≡ read.old.text }
    ensures found { OnOk result (ArePlaced on.now.arena.now s shaped.now.text.now few found.new) }
{
    values_are_stretched();
    if let Some(spots) = read.spots_of(s) {
        return carry(spots, shaped, few, found);
    }
    let spots = Spots::of(on.alloc, on.arena, s, &read.text, &mut read.cuts)?;
    carry(&spots, shaped, few, found)?;
    read.keep(s, spots)
}

/// Whether a left place without a value goes with some right one, or the other way round.
fn lack(lefts: &Positions, rights: &Positions) -> bool
    ensures { IsTrue result ↔ Lack (PositionsHave lefts.now) (PositionsHave rights.now) }
{
    if lefts.none {
        return rights.is_some();
    }
    if rights.none {
        return lefts.is_some();
    }
    false
}

/// The pieces of the text from a left position to a right one.
pub(crate) fn put_between<'a>(
    found: &mut Pieces<'a>,
    text: &'a Text,
    lefts: &Positions,
    rights: &Positions,
) -> Result<(), NoMemory>
    requires within { EachIn IsWithin found.old.pieces.items }
    requires ends { (b : ℕ) → PositionsHave rights.now (Some b) → b ≤ length text.now }
    ensures within { EachIn IsWithin found.new.pieces.items }
    ensures gains { OnOk result (Gains (PiecesHave found.old) (PiecesHave found.new) (AreBetween text.now (PositionsHave lefts.now) (PositionsHave rights.now))) }
{
    found.put_none(lack(lefts, rights));
    for i in 0..lefts.positions.len() {
        put_from(found, text, lefts.positions[i], rights)?;
    }
    Ok(())
}

/// The pieces from one position.
fn put_from<'a>(
    found: &mut Pieces<'a>,
    text: &'a Text,
    from: usize,
    rights: &Positions,
) -> Result<(), NoMemory>
    requires within { EachIn IsWithin found.old.pieces.items }
    requires ends { (b : ℕ) → PositionsHave rights.now (Some b) → b ≤ length text.now }
    ensures within { EachIn IsWithin found.new.pieces.items }
    ensures gains { OnOk result (Gains (PiecesHave found.old) (PiecesHave found.new) (AreBetweenFrom text.now from rights.now.positions.items)) }
{
    for i in 0..rights.positions.len() {
        put_piece(found, text, from, rights.positions[i])?;
    }
    Ok(())
}

/// The piece between two positions, if the first one stands before the second one.
fn put_piece<'a>(
    found: &mut Pieces<'a>,
    text: &'a Text,
    from: usize,
    to: usize,
) -> Result<(), NoMemory>
    requires within { EachIn IsWithin found.old.pieces.items }
    requires end { to ≤ length text.now }
    ensures within { EachIn IsWithin found.new.pieces.items }
    ensures gains { OnOk result (Gains (PiecesHave found.old) (PiecesHave found.new) (λ o. o ≡ between text.now (Some from) (Some to))) }
{
    if from < to {
        found.put(&Piece { text, from, to })
    } else {
        found.none = true;
        Ok(())
    }
}
