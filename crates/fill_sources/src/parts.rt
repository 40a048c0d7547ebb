//! The atoms that are no constants and give a text: whole known texts, and pieces of them between places.
//!
//! The sources of a depth are made of parts of the depth before, so the way down ends.
ghost use Rattle.std.specs.Prelude.{◌≡◌, ℕ, ◌+◌, ◌<◌, ◌≤◌, List as Listed, [], Some, slice_get, IfOk, OnOk};
ghost use Rattle.fill_arena.specs.Contents.{EachIn, Extends};
ghost use Rattle.fill_arena.specs.declared.entry.Entry.{Entry};
ghost use Rattle.fill_sources.specs.Gives.{AreSourcesOf, at_depth};
ghost use Rattle.fill_sources.specs.Origins.{texts_in};
ghost use Rattle.fill_sources.specs.Readers.{AddsAtoms, AreAtomsOf, IsOldAtom, IsReadable, ReadsAny, ReadsBetween, ReadsSpot, ReadsWhole};
ghost use Rattle.fill_sources.specs.Sets.{IsLook, IsPartMade, IsRight, Lasts};
ghost use Rattle.fill_sources.specs.declared.row.OnRow.{OnRow as Row};

use crate::memo::Memo;
use crate::places::places_at;
use crate::row::Look;
use crate::sources::sources_at;
use crate::spots::{Spot, spots_of};
use crate::texts::Texts;
use fill_arena::{Arena, AtomItem, AtomSet, SourceSet};
use fill_text::{List, NoMemory, Text};

/// Puts the sources' whole text, if it has exactly this many characters.
fn put_whole(
    texts: &Texts<'_>,
    sources: SourceSet,
    h: Spot,
    width: usize,
    items: &mut List<AtomItem>,
) -> Result<(), NoMemory>
    requires within { IsReadable (texts_in texts.now) h width }
    ensures adds { OnOk result ((on : Row) (c : Listed Entry) (t : Listed ℕ) → slice_get (texts_in texts.now) h.text ≡ Some t → Lasts c (λ d. AreSourcesOf on d t sources) →
        AddsAtoms c items.old items.new (ReadsWhole on (texts_in texts.now) h width)) }
{
    if texts.named[h.text].text.len() != width {
        return Ok(());
    }
    items.push(AtomItem::Whole(sources))
}

/// Puts the pieces of the sources' text between the places at the two ends, where both ends have some.
fn put_between(
    look: &Look<'_, '_>,
    memo: &mut Memo<'_>,
    arena: &mut Arena,
    sources: SourceSet,
    h: Spot,
    width: usize,
    items: &mut List<AtomItem>,
) -> Result<(), NoMemory>
    requires row { IsLook look.now }
    requires memo { IsRight look.now.on.now (texts_in look.now.texts.now) arena.old memo.old }
    requires within { IsReadable (texts_in look.now.texts.now) h width }
    ensures adds { OnOk result ((e : ℕ) (t : Listed ℕ) → slice_get (texts_in look.now.texts.now) h.text ≡ Some t → Lasts arena.old (λ d. AreSourcesOf (at_depth look.now.on.now e) d t sources) →
        AddsAtoms arena.new items.old items.new (ReadsBetween (at_depth look.now.on.now e) (texts_in look.now.texts.now) h width)) }
    ensures memo { OnOk result (IsRight look.now.on.now (texts_in look.now.texts.now) arena.new memo.new) }
    ensures extends { Extends arena.old arena.new }
{
    // The end fits a number, since a text's length does.
    let _long = look.texts.named[h.text].text.len();
    let end = Spot {
        text: h.text,
        at: h.at + width,
    };
    let Some(left) = places_at(look, memo, arena, h)? else {
        return Ok(());
    };
    let Some(right) = places_at(look, memo, arena, end)? else {
        return Ok(());
    };
    items.push(AtomItem::Sub(sources, left, right))
}

/// Puts what reads this many characters at the spot.
#[cycle(sources)]
pub(crate) fn put_readers<'a>(
    look: &Look<'_, 'a>,
    memo: &mut Memo<'a>,
    arena: &mut Arena,
    depth: u8,
    h: Spot,
    width: usize,
    items: &mut List<AtomItem>,
) -> Result<(), NoMemory>
    requires row { IsLook look.now }
    requires depth { depth ≤ look.now.on.now.settings.depth }
    requires memo { IsRight look.now.on.now (texts_in look.now.texts.now) arena.old memo.old }
    requires within { IsReadable (texts_in look.now.texts.now) h width }
    ensures adds { OnOk result (AddsAtoms arena.new items.old items.new (ReadsSpot (at_depth look.now.on.now depth) (texts_in look.now.texts.now) h width)) }
    ensures memo { OnOk result (IsRight look.now.on.now (texts_in look.now.texts.now) arena.new memo.new) }
    ensures extends { Extends arena.old arena.new }
{
    let Some(sources) = sources_at(look, memo, arena, depth, h.text)? else {
        return Ok(());
    };
    put_whole(look.texts, sources, h, width, items)?;
    put_between(look, memo, arena, sources, h, width, items)
}

/// The items of the parts, no deeper than that, which give the text.
#[cycle(sources)]
fn part_items<'a>(
    look: &Look<'_, 'a>,
    memo: &mut Memo<'a>,
    arena: &mut Arena,
    depth: u8,
    w: &'a Text,
) -> Result<List<AtomItem>, NoMemory>
    requires row { IsLook look.now }
    requires depth { depth ≤ look.now.on.now.settings.depth }
    requires memo { IsRight look.now.on.now (texts_in look.now.texts.now) arena.old memo.old }
    ensures items { IfOk result (λ items. AddsAtoms arena.new [] items (ReadsAny (at_depth look.now.on.now depth) (texts_in look.now.texts.now) w.now)) }
    ensures memo { OnOk result (IsRight look.now.on.now (texts_in look.now.texts.now) arena.new memo.new) }
    ensures extends { Extends arena.old arena.new }
{
    let found = spots_of(look.alloc, look.texts, w)?;
    let spots = found.as_slice();
    let mut items = List::new(look.alloc);
    for i in 0..spots.len() {
        put_readers(look, memo, arena, depth, spots[i], w.len(), &mut items)?;
    }
    Ok(items)
}

/// The set of these items; none where there is none.
fn atom_set(arena: &mut Arena, items: List<AtomItem>) -> Result<Option<AtomSet>, NoMemory>
    requires { EachIn (IsOldAtom arena.old) items }
    ensures made { IfOk result (AreAtomsOf arena.old arena.new items) }
    ensures extends { Extends arena.old arena.new }
{
    if items.len() == 0 {
        return Ok(None);
    }
    Ok(Some(arena.intern_atoms(items)?))
}

/// The set of the parts, no deeper than that, which give the text; none where there is none.
#[cycle(sources)]
pub(crate) fn parts_at<'a>(
    look: &Look<'_, 'a>,
    memo: &mut Memo<'a>,
    arena: &mut Arena,
    depth: u8,
    w: &'a Text,
) -> Result<Option<AtomSet>, NoMemory>
    requires row { IsLook look.now }
    requires depth { depth ≤ look.now.on.now.settings.depth }
    requires memo { IsRight look.now.on.now (texts_in look.now.texts.now) arena.old memo.old }
    ensures made { IfOk result (IsPartMade look.now.on.now arena.new (w.now, depth)) }
    ensures memo { OnOk result (IsRight look.now.on.now (texts_in look.now.texts.now) arena.new memo.new) }
    ensures extends { Extends arena.old arena.new }
{
    if w.len() == 0 {
        return Ok(None);
    }
    if let Some(made) = memo.part(w, depth) {
        return Ok(made);
    }
    let items = part_items(look, memo, arena, depth, w)?;
    let made = atom_set(arena, items)?;
    memo.keep_part(w, depth, &made)?;
    Ok(made)
}
