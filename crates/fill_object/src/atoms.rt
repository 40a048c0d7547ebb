//! Atoms that are made of sources, with their texts on the row.
ghost use Rattle.std.specs.Prelude.{◌≡◌, [], OnOk};
ghost use Rattle.fill_tree.specs.Meaning.{atom_tree, source_tree};
ghost use Rattle.fill_arena.specs.Contents.{IsPlaceSet};
ghost use Rattle.fill_arena.specs.Stands.{SourceStands, PartFits};
ghost use Rattle.fill_object.specs.Kinds.{atoms_on, sources_on};
ghost use Rattle.fill_object.specs.Memo.{IsMemoOf, IsOnRow};
ghost use Rattle.fill_object.specs.Leasts.{AreLeasts, Gains};
ghost use Rattle.fill_object.specs.Pieces.{IsPieceBetweenSpots, IsPieceOf, IsPieceTo, text_or_empty};

use crate::memo::Memo;
use crate::rivals::take;
use crate::row::OnRow;
use crate::valued::{Spot, ValuedAtom, ValuedSource};
use fill_arena::{AtomItem, PlaceSet};
use fill_eval::atom_value;
use fill_text::{NoMemory, Text};
use fill_tokens::Place;
use fill_tree::{Atom, Source};
use std::alloc::Global;

/// Puts an atom, with its text.
pub(crate) fn put_atom(
    on: &OnRow<'_>,
    atom: Atom,
    rivals: &mut Vec<ValuedAtom>,
) -> Result<(), NoMemory>
    requires { IsOnRow on.now }
    ensures { OnOk result (Gains (atoms_on on.now) (λ a. a ≡ atom_tree atom) rivals.old.items rivals.new.items) }
{
    let text = atom_value(on.alloc, &atom, on.row, on.sheet, on.tables)?;
    take(on.prices, rivals, ValuedAtom { atom, text })
}

/// Puts the wholes of sources that serve for all of a set.
pub(crate) fn put_wholes(
    on: &OnRow<'_>,
    sources: &[ValuedSource],
    rivals: &mut Vec<ValuedAtom>,
) -> Result<(), NoMemory>
    requires { IsOnRow on.now }
    ensures { OnOk result ((s : _) → AreLeasts (sources_on on.now) (SourceStands on.now.arena.now s) sources.now →
        Gains (atoms_on on.now) (PartFits on.now.arena.now (AtomItem.Whole s)) rivals.old.items rivals.new.items) }
{
    for source in sources {
        let copied = source.source.copy(on.alloc)?;
        put_atom(on, Atom::Whole(copied), rivals)?;
    }
    Ok(())
}

/// Puts the pieces of sources that serve for all of a set, between places of two sets.
pub(crate) fn put_pieces(
    on: &OnRow<'_>,
    memo: &mut Memo,
    sources: &[ValuedSource],
    lefts: PlaceSet,
    rights: PlaceSet,
    rivals: &mut Vec<ValuedAtom>,
) -> Result<(), NoMemory>
    requires lefts { IsPlaceSet on.now.arena.now lefts }
    requires rights { IsPlaceSet on.now.arena.now rights }
    requires row { IsOnRow on.now }
    requires sources { (s : _) × AreLeasts (sources_on on.now) (SourceStands on.now.arena.now s) sources.now }
    requires memo { IsMemoOf on.now memo.old }
    ensures memo { OnOk result (IsMemoOf on.now memo.new) }
    ensures gains { OnOk result ((s : _) → AreLeasts (sources_on on.now) (SourceStands on.now.arena.now s) sources.now →
        Gains (atoms_on on.now) (PartFits on.now.arena.now (AtomItem.Sub s lefts rights)) rivals.old.items rivals.new.items) }
{
    for source in sources {
        put_pieces_of(on, memo, source, lefts, rights, rivals)?;
    }
    Ok(())
}

/// The text that is there, or the empty one, in which no piece lies.
fn text_or<'a>(text: &'a Option<Text>, empty: &'a Text) -> &'a Text
    requires { empty.now ≡ [] }
    ensures { result.now ≡ text_or_empty text.now }
{
    match text {
        Some(text) => text,
        None => empty,
    }
}

/// Puts the pieces of one source. Where it has no text none of them has, whatever the places are.
fn put_pieces_of(
    on: &OnRow<'_>,
    memo: &mut Memo,
    source: &ValuedSource,
    lefts: PlaceSet,
    rights: PlaceSet,
    rivals: &mut Vec<ValuedAtom>,
) -> Result<(), NoMemory>
    requires lefts { IsPlaceSet on.now.arena.now lefts }
    requires rights { IsPlaceSet on.now.arena.now rights }
    requires row { IsOnRow on.now }
    requires source { (sources_on on.now).Right source.now }
    requires memo { IsMemoOf on.now memo.old }
    ensures memo { OnOk result (IsMemoOf on.now memo.new) }
    ensures gains { OnOk result (Gains (atoms_on on.now) (IsPieceOf on.now.arena.now (source_tree source.now.source) lefts rights) rivals.old.items rivals.new.items) }
{
    let empty = Text::new(on.alloc);
    let text = text_or(&source.text, &empty);
    let from = memo.spots.of(on.alloc, on.prices, on.arena, lefts, text)?;
    let to = memo.spots.of(on.alloc, on.prices, on.arena, rights, text)?;
    put_between(on, &source.source, from.as_slice(), to.as_slice(), rivals)
}

/// Puts the pieces of a source from each of some places to each of others.
fn put_between(
    on: &OnRow<'_>,
    source: &Source,
    lefts: &[Spot],
    rights: &[Spot],
    rivals: &mut Vec<ValuedAtom>,
) -> Result<(), NoMemory>
    requires { IsOnRow on.now }
    ensures { OnOk result (Gains (atoms_on on.now) (IsPieceBetweenSpots (source_tree source.now) lefts.now rights.now) rivals.old.items rivals.new.items) }
{
    for left in lefts {
        put_from(on, source, &left.place, rights, rivals)?;
    }
    Ok(())
}

/// Puts the pieces of a source from a place to each of others.
fn put_from(
    on: &OnRow<'_>,
    source: &Source,
    left: &Place,
    rights: &[Spot],
    rivals: &mut Vec<ValuedAtom>,
) -> Result<(), NoMemory>
    requires { IsOnRow on.now }
    ensures { OnOk result (Gains (atoms_on on.now) (IsPieceTo (source_tree source.now) left.now rights.now) rivals.old.items rivals.new.items) }
{
    for right in rights {
        let copied = source.copy(on.alloc)?;
        put_atom(on, Atom::Sub(copied, *left, right.place), rivals)?;
    }
    Ok(())
}
