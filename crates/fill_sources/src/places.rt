//! The places of the positions of known texts.
ghost use Rattle.std.specs.Prelude.{◌≡◌, ℕ, List as Listed, AllPairs, Some, slice_get, IfOk, OnOk};
ghost use Rattle.std.specs.declared.cmp.Ordering.TheVariants.{Less};
ghost use Rattle.fill_tokens.specs.Place.{place_cmp};
ghost use Rattle.fill_tokens.specs.TokenSet.{IsPlaceOf};
ghost use Rattle.fill_tokens.specs.Value.{HasValue};
ghost use Rattle.fill_text.specs.Lists.{Lists};
ghost use Rattle.fill_arena.specs.Contents.{Extends};
ghost use Rattle.fill_arena.specs.declared.entry.Entry.{Entry};
ghost use Rattle.fill_sources.specs.Gives.{ArePlacesAt};
ghost use Rattle.fill_sources.specs.Origins.{texts_in};
ghost use Rattle.fill_sources.specs.Readers.{IsReadable};
ghost use Rattle.fill_sources.specs.Sets.{IsLook, IsPlaceMade, IsRight, Lasts};
ghost use Rattle.fill_sources.specs.declared.row.OnRow.{OnRow as Row};

use crate::memo::Memo;
use crate::row::{Look, OnRow};
use crate::spots::Spot;
use fill_arena::{Arena, PlaceSet};
use fill_places::PlaceIndex;
use fill_text::{List, NoMemory};
use fill_tokens::Place;

/// The places of the spot's text whose value is its position. The text is read once.
fn list_places(look: &Look<'_, '_>, memo: &mut Memo<'_>, h: Spot) -> Result<List<Place>, NoMemory>
    requires row { IsLook look.now }
    requires memo { (c : Listed Entry) × IsRight look.now.on.now (texts_in look.now.texts.now) c memo.old }
    requires within { IsReadable (texts_in look.now.texts.now) h 0 }
    ensures places { IfOk result (λ places. (v : Listed ℕ) → slice_get (texts_in look.now.texts.now) h.text ≡ Some v →
        Lists place_cmp (λ p. IsPlaceOf look.now.on.now.settings.profile.tokens p × HasValue p v h.at) places) }
    ensures memo { OnOk result ((c : Listed Entry) → IsRight look.now.on.now (texts_in look.now.texts.now) c memo.old → IsRight look.now.on.now (texts_in look.now.texts.now) c memo.new) }
{
    if let Some(index) = memo.index(h.text) {
        return index.places_at(h.at);
    }
    let text = look.texts.named[h.text].text;
    let index = PlaceIndex::new(look.alloc, text, look.on.settings.profile.tokens)?;
    let places = index.places_at(h.at)?;
    memo.keep_index(h.text, index)?;
    Ok(places)
}

/// The set of these places; none where there is none.
fn place_set(arena: &mut Arena, places: &[Place]) -> Result<Option<PlaceSet>, NoMemory>
    requires rising { AllPairs (λ p q. place_cmp p q ≡ Less) places.now }
    ensures made { IfOk result (λ made. (on : Row) (v : Listed ℕ) (k : ℕ) → Lists place_cmp (λ p. IsPlaceOf on.settings.profile.tokens p × HasValue p v k) places.now →
        Lasts arena.new (λ d. ArePlacesAt on d v k made)) }
    ensures extends { Extends arena.old arena.new }
{
    if places.is_empty() {
        return Ok(None);
    }
    Ok(Some(arena.intern_places(places)?))
}

/// The set of the places whose value in the spot's text is its position; none where no place has it.
pub(crate) fn places_at(
    look: &Look<'_, '_>,
    memo: &mut Memo<'_>,
    arena: &mut Arena,
    h: Spot,
) -> Result<Option<PlaceSet>, NoMemory>
    requires row { IsLook look.now }
    requires memo { IsRight look.now.on.now (texts_in look.now.texts.now) arena.old memo.old }
    requires within { IsReadable (texts_in look.now.texts.now) h 0 }
    ensures made { IfOk result (IsPlaceMade look.now.on.now (texts_in look.now.texts.now) arena.new (h.text, h.at)) }
    ensures memo { OnOk result (IsRight look.now.on.now (texts_in look.now.texts.now) arena.new memo.new) }
    ensures extends { Extends arena.old arena.new }
{
    if let Some(made) = memo.place(h.text, h.at) {
        return Ok(made);
    }
    let places = list_places(look, memo, h)?;
    let made = place_set(arena, places.as_slice())?;
    let positions = look.texts.named[h.text].text.len() + 1;
    memo.keep_place(look.alloc, h.text, h.at, positions, &made)?;
    Ok(made)
}
