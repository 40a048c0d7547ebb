//! The least places of sets, by their values in texts.
ghost use Rattle.std.specs.Prelude.{◌≡◌, List as Items, IfOk, IfSome, IsTrue, OnOk};
ghost use Rattle.fill_tokens.specs.declared.prices.Prices.{Prices as Table};
ghost use Rattle.fill_arena.specs.Contents.{In, IsPlaceSet};
ghost use Rattle.fill_arena.specs.Stands.{PlaceStands};
ghost use Rattle.fill_arena.specs.declared.entry.Entry.{Entry};
ghost use Rattle.fill_object.specs.Kinds.{spots_in};
ghost use Rattle.fill_object.specs.Leasts.{AreLeasts};
ghost use Rattle.fill_object.specs.Spots.{AreSpotted};

use crate::rivals::take;
use crate::valued::Spot;
use fill_arena::{Arena, PlaceSet};
use fill_text::{NoMemory, Text};
use fill_tokens::{Place, Prices, place_value};
use std::alloc::Global;
use std::rc::Rc;

/// What was found of a set of places in one text.
#[derive(Drop)]
pub(crate) struct Spotted {
    set: PlaceSet,
    text: Text,
    spots: Rc<Vec<Spot>>,
}

/// What was found of sets of places. A row has few texts, and a graph few sets of places.
#[derive(Drop)]
pub(crate) struct Spots {
    readings: Vec<Spotted>,
}

impl Spotted {
    fn is_of(&self, s: PlaceSet, text: &Text) -> bool
        ensures set { IsTrue result → self.now.set ≡ s }
        ensures text { IsTrue result → self.now.text ≡ text.now }
    {
        if self.set != s {
            return false;
        }
        self.text.same(text)
    }
}

impl Spots {
    pub fn new(alloc: Global) -> Spots
        ensures { (prices : Table) (c : Items Entry) → AreSpotted prices c result }
    {
        Spots {
            readings: Vec::new(alloc),
        }
    }

    /// The spots of a set in a text, if they were found already.
    fn recall(&self, s: PlaceSet, text: &Text) -> Option<&Rc<Vec<Spot>>>
        ensures { (prices : Table) (c : Items Entry) → AreSpotted prices c self.now →
            IfSome result (λ spots. AreLeasts (spots_in prices text.now) (PlaceStands c s) spots.now.value.items) }
    {
        for spotted in self.readings.as_slice() {
            if spotted.is_of(s, text) {
                return Some(&spotted.spots);
            }
        }
        None
    }

    fn keep(&mut self, s: PlaceSet, text: &Text, spots: Rc<Vec<Spot>>) -> Result<(), NoMemory>
        ensures { OnOk result ((prices : Table) (c : Items Entry) → AreSpotted prices c self.old →
            AreLeasts (spots_in prices text.now) (PlaceStands c s) spots.value.items → AreSpotted prices c self.new) }
    {
        self.readings.push(Spotted {
            set: s,
            text: text.copy()?,
            spots,
        })?;
        Ok(())
    }

    /// The least places of a set, by their values in a text.
    pub fn of(
        &mut self,
        alloc: Global,
        prices: &Prices,
        arena: &Arena,
        s: PlaceSet,
        text: &Text,
    ) -> Result<Rc<Vec<Spot>>, NoMemory>
        requires set { IsPlaceSet arena.now s }
        requires memo { AreSpotted prices.now arena.now self.old }
        ensures memo { OnOk result (AreSpotted prices.now arena.now self.new) }
        ensures least { IfOk result (λ spots. AreLeasts (spots_in prices.now text.now) (PlaceStands arena.now s) spots.value.items) }
    {
        if let Some(spots) = self.recall(s, text) {
            return Ok(spots.clone()?);
        }
        let spots = Rc::new(alloc, read_spots(alloc, prices, arena.places(s), text)?)?;
        self.keep(s, text, spots.clone()?)?;
        Ok(spots)
    }
}

/// The least of some places, by their values in a text.
fn read_spots(
    alloc: Global,
    prices: &Prices,
    places: &[Place],
    text: &Text,
) -> Result<Vec<Spot>, NoMemory>
    ensures { IfOk result (λ spots. AreLeasts (spots_in prices.now text.now) (λ p. In p places.now) spots.items) }
{
    let mut spots = Vec::new(alloc);
    for place in places {
        let at = place_value(place, text);
        take(prices, &mut spots, Spot { place: *place, at })?;
    }
    Ok(spots)
}
