//! The atoms that give a piece of the example's text.
ghost use Rattle.std.specs.Prelude.{◌≡◌, IfOk, OnOk};
ghost use Rattle.fill_arena.specs.Contents.{Extends};
ghost use Rattle.fill_sources.specs.Gives.{IsOnRow};
ghost use Rattle.fill_sources.specs.Sets.{AreRowTexts, texts_of};
ghost use Rattle.fill_build.specs.Pieces.{AreConstants, AreItemsOf, IsPiece, IsWithin, piece_rest, piece_text};
ghost use Rattle.fill_build.specs.Hits.{AreHits};

use crate::hits::Hit;
use crate::piece::Piece;
use fill_arena::{Arena, AtomItem};
use fill_sources::{OnRow, RowTexts};
use fill_text::{List, NoMemory};
use std::alloc::Global;

/// The items of exactly the atoms that give the piece on the row.
pub(crate) fn piece_atoms<'a>(
    alloc: Global,
    on: &OnRow<'a>,
    row_texts: &mut RowTexts<'a>,
    arena: &mut Arena,
    piece: &Piece<'_>,
    hits: &[Hit],
) -> Result<List<AtomItem>, NoMemory>
    requires on { IsOnRow on.now }
    requires row_texts { AreRowTexts on.now arena.old row_texts.old }
    requires piece { IsPiece on.now.settings.constants piece.now }
    requires hits { AreHits (texts_of row_texts.old) (piece_rest piece.now) piece.now.width hits.now }
    ensures items { IfOk result (AreItemsOf on.now arena.new (piece_text piece.now)) }
    ensures row_texts { OnOk result (AreRowTexts on.now arena.new row_texts.new) }
    ensures texts { texts_of row_texts.new ≡ texts_of row_texts.old }
    ensures extends { Extends arena.old arena.new }
{
    let mut items = piece_constants(alloc, piece, hits.len())?;
    for i in 0..hits.len() {
        let spot = hits[i].spot();
        row_texts.put_readers(alloc, on, arena, spot, piece.width, &mut items)?;
    }
    Ok(items)
}

/// The constant, where the piece may be one, in a list with room for it and for one item of each hit. The set will have at most
/// this many items, and one more for each hit that is a whole text. An arena keeps a set's list with the room that it was given.
fn piece_constants(
    alloc: Global,
    piece: &Piece<'_>,
    hits: usize,
) -> Result<List<AtomItem>, NoMemory>
    requires { IsWithin piece.now }
    ensures { IfOk result (AreConstants piece.now) }
{
    piece.text.keeps_scalars();
    let mut items = List::with_capacity(alloc, room_for(piece.constant, hits))?;
    if piece.constant {
        items.push(AtomItem::Const(piece.text.piece(piece.from, piece.from + piece.width)?))?;
    }
    Ok(items)
}

/// An item for each hit, and one for the constant, where there is one.
fn room_for(constant: bool, hits: usize) -> usize {
    if constant {
        hits.saturating_add(1)
    } else {
        hits
    }
}
