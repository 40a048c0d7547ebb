//! The texts that are known on a row.
ghost use Rattle.std.specs.Prelude.{◌≡◌, ◌<◌, List as Listed, length, Some, slice_get, IfOk, OnOk};
ghost use Rattle.fill_arena.specs.Contents.{Extends};
ghost use Rattle.fill_arena.specs.declared.entry.Entry.{Entry};
ghost use Rattle.fill_sources.specs.Gives.{IsOnRow};
ghost use Rattle.fill_sources.specs.Found.{AreFound, AreRecalled, PlacesStand};
ghost use Rattle.fill_sources.specs.Origins.{texts_in};
ghost use Rattle.fill_sources.specs.Readers.{AddsAtoms, IsReadable, ReadsSpot};
ghost use Rattle.fill_sources.specs.Sets.{AreRowTexts, texts_of};

use crate::found::find_texts;
use crate::memo::{Memo, TextPlaces};
use crate::memory::PlaceMemory;
use crate::parts::put_readers;
use crate::row::{Look, OnRow};
use crate::spots::Spot;
use crate::texts::Texts;
use fill_arena::{Arena, AtomItem};
use fill_text::{List, NoMemory, Text};
use fill_tokens::TokenSet;
use std::alloc::Global;

/// What earlier rows found of the positions of these texts.
fn recall_places(
    alloc: Global,
    texts: &Texts<'_>,
    token_set: TokenSet,
    memory: &PlaceMemory,
) -> Result<Vec<TextPlaces>, NoMemory>
    ensures { IfOk result (λ places. (c : Listed Entry) → PlacesStand c memory.now → AreRecalled token_set c (texts_in texts.now) places.items) }
{
    let named = texts.named.as_slice();
    let mut places = Vec::with_capacity(alloc, named.len())?;
    for k in 0..named.len() {
        let found = memory.recall(alloc, named[k].text, token_set)?;
        places.push(TextPlaces {
            found,
            is_new: false,
        })?;
    }
    Ok(places)
}

/// Keeps what was found of the positions of the text, where this row found some of it.
fn keep_text(
    alloc: Global,
    text: &Text,
    token_set: TokenSet,
    places: &TextPlaces,
    memory: &mut PlaceMemory,
)
    ensures { (c : Listed Entry) → AreFound token_set c text.now places.now.found.items → PlacesStand c memory.old → PlacesStand c memory.new }
{
    if places.is_new {
        memory.keep(alloc, text, token_set, places.found.as_slice());
    }
}

/// The texts that sources of the grammar give on one row, and the sets that were made for them so far.
#[derive(Drop)]
pub struct RowTexts<'a> {
    texts: Texts<'a>,
    memo: Memo<'a>,
}

impl<'a> RowTexts<'a> {
    /// Finds the texts, and what earlier rows found of them. It makes no set.
    pub fn new(
        alloc: Global,
        on: &OnRow<'a>,
        memory: &PlaceMemory,
    ) -> Result<RowTexts<'a>, NoMemory>
        requires { IsOnRow on.now }
        ensures { IfOk result (λ row_texts. (c : Listed Entry) → PlacesStand c memory.now → AreRowTexts on.now c row_texts) }
    {
        let texts = find_texts(alloc, on)?;
        let places = recall_places(alloc, &texts, on.settings.profile.tokens, memory)?;
        Ok(RowTexts {
            texts,
            memo: Memo::new(alloc, places),
        })
    }

    /// Keeps the sets of places that were made for this row.
    pub fn keep_places(&self, alloc: Global, on: &OnRow<'a>, memory: &mut PlaceMemory)
        ensures { (c : Listed Entry) → AreRowTexts on.now c self.now → PlacesStand c memory.old → PlacesStand c memory.new }
    {
        let named = self.texts.named.as_slice();
        let places = self.memo.places.as_slice();
        for k in 0..places.len().min(named.len()) {
            keep_text(
                alloc,
                named[k].text,
                on.settings.profile.tokens,
                &places[k],
                memory,
            );
        }
    }

    /// How many texts are known.
    pub fn len(&self) -> usize
        ensures { result ≡ length (texts_of self.now) }
    {
        self.texts.named.as_slice().len()
    }

    /// The text of a number, counted from 0.
    pub fn text(&self, k: usize) -> &'a Text
        requires { k < length (texts_of self.now) }
        ensures { slice_get (texts_of self.now) k ≡ Some result.now }
    {
        self.texts.named[k].text
    }

    /// Puts the items of exactly the atoms that read this many characters at the spot: whole texts of sources, and pieces of
    /// them between places.
    pub fn put_readers(
        &mut self,
        alloc: Global,
        on: &OnRow<'a>,
        arena: &mut Arena,
        spot: Spot,
        width: usize,
        items: &mut List<AtomItem>,
    ) -> Result<(), NoMemory>
        requires on { IsOnRow on.now }
        requires row_texts { AreRowTexts on.now arena.old self.old }
        requires within { IsReadable (texts_of self.old) spot width }
        ensures adds { OnOk result (AddsAtoms arena.new items.old items.new (ReadsSpot on.now (texts_of self.old) spot width)) }
        ensures row_texts { OnOk result (AreRowTexts on.now arena.new self.new) }
        ensures texts { texts_of self.new ≡ texts_of self.old }
        ensures extends { Extends arena.old arena.new }
    {
        let look = Look {
            alloc,
            on,
            texts: &self.texts,
        };
        put_readers(
            &look,
            &mut self.memo,
            arena,
            on.settings.depth,
            spot,
            width,
            items,
        )
    }
}
