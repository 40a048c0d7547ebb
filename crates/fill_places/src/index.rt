//! All places of one position of a text, and of each.
ghost use Rattle.std.specs.Prelude.{◌≡◌, ◌≤◌, length, IfOk};
ghost use Rattle.fill_tokens.specs.Place.{place_cmp};
ghost use Rattle.fill_tokens.specs.Value.{HasValue};
ghost use Rattle.fill_tokens.specs.TokenSet.{IsPlaceOf};
ghost use Rattle.fill_text.specs.Lists.{Lists};

use crate::entry::Entry;
use crate::lefts::lefts;
use crate::list::list_places;
use crate::rights::rights;
use fill_spans::Spans;
use fill_text::{List, NoMemory, Text};
use fill_tokens::{Place, TokenSet};
use std::alloc::Global;
use std::marker::Model;

/// A text that was read once, to list the places of each of its positions by the tokens of one set. Contracts see it as
/// the text and the set.
///
/// It keeps each sequence of up to three tokens of the set that ends or begins somewhere in the text, with a flag for each position.
#[derive(Drop)]
pub struct PlaceIndex {
    alloc: Global,
    text: Text,
    token_set: TokenSet,
    lefts: Vec<Entry>,
    rights: Vec<Entry>,
}

impl Model for PlaceIndex {
    ghost use Rattle.fill_places.specs.Index.{IndexView};
    ghost use Rattle.fill_places.specs.Entries.{AreLefts, AreRights};

    ghost Value = { IndexView };

    ghost view = { λ index. record { text = index.text; token_set = index.token_set } };

    ghost invariant = { λ index. AreLefts index.token_set index.text index.lefts.items
        × AreRights index.token_set index.text index.rights.items };
}

impl PlaceIndex {
    /// Reads the text.
    pub fn new(alloc: Global, t: &Text, token_set: TokenSet) -> Result<PlaceIndex, NoMemory>
        ensures { IfOk result (λ index. index ≡ record { text = t.now; token_set = token_set }) }
    {
        let text = t.copy()?;
        let spans = Spans::new(alloc, &text, token_set)?;
        let lefts = lefts(alloc, &spans, &text, token_set)?;
        let rights = rights(alloc, &spans, &text, token_set)?;
        Ok(PlaceIndex {
            alloc,
            text,
            token_set,
            lefts,
            rights,
        })
    }

    /// All places of the grammar by tokens of the set whose value in the text is `k`, in their order and each once.
    pub fn places_at(&self, k: usize) -> Result<List<Place>, NoMemory>
        requires { k ≤ length self.now.text }
        ensures { IfOk result (Lists place_cmp (λ p. IsPlaceOf self.now.token_set p × HasValue p self.now.text k)) }
    {
        list_places(
            self.alloc,
            &self.lefts,
            &self.rights,
            &self.text,
            k,
            self.token_set,
        )
    }
}

/// All places of the grammar by tokens of the set whose value in the text is `k`, in their order and each once.
///
/// For more than one position of a text [`PlaceIndex`] reads it once.
pub fn places_of(
    alloc: Global,
    t: &Text,
    k: usize,
    token_set: TokenSet,
) -> Result<List<Place>, NoMemory>
    requires { k ≤ length t.now }
    ensures { IfOk result (Lists place_cmp (λ p. IsPlaceOf token_set p × HasValue p t.now k)) }
{
    let index = PlaceIndex::new(alloc, t, token_set)?;
    index.places_at(k)
}
