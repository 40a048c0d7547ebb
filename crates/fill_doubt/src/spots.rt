//! What is found of a set's places in the shape of a text.
ghost use Rattle.std.specs.Prelude.{◌≡◌, ◌↔◌, ◌<◌, ◌+◌, ℕ, Option, Some, IsTrue, IfOk, OnOk};
ghost use Rattle.fill_arena.specs.Contents.{IsPlaceSet};
ghost use Rattle.fill_tokens.specs.Value.{HasValue};
ghost use Rattle.fill_tokens.specs.declared.place.Place.{Place as Listed};
ghost use Rattle.fill_tree.specs.Value.{IsValue};
ghost use Rattle.fill_doubt.specs.Answers.{Gains, PositionsHave};
ghost use Rattle.fill_doubt.specs.Cuts.{AreCutsOf};
ghost use Rattle.fill_doubt.specs.Spots.{AreSpotsOf, IsShaped, OthersHave};

use crate::answers::Positions;
use crate::cuts::Cuts;
use fill_arena::{Arena, PlaceSet};
use fill_text::{NoMemory, Text};
use fill_tokens::Place;
use std::alloc::Global;

/// The positions, in the text of a shape, of those places of a set that lie between sequences, and the set's other
/// places: those are asked of each text of the shape.
#[derive(Drop)]
pub(crate) struct Spots {
    pub(crate) shaped: Positions,
    pub(crate) others: Vec<Place>,
}

impl Spots {
    fn new(alloc: Global) -> Spots
        ensures shaped { (o : Option ℕ) → ¬ (PositionsHave result.shaped o) }
        ensures others { (o : Option Listed) → ¬ (OthersHave result o) }
    {
        Spots {
            shaped: Positions::new(alloc),
            others: Vec::new(alloc),
        }
    }

    pub(crate) fn of(
        alloc: Global,
        arena: &Arena,
        s: PlaceSet,
        w: &Text,
        cuts: &mut Cuts,
    ) -> Result<Spots, NoMemory>
        requires set { IsPlaceSet arena.now s }
        requires cuts { AreCutsOf w.now cuts.old }
        ensures cuts { OnOk result (AreCutsOf w.now cuts.new) }
        ensures spots { IfOk result (AreSpotsOf arena.now s w.now) }
    {
        let mut found = Spots::new(alloc);
        let places = arena.places(s);
        for i in 0..places.len() {
            found.put(alloc, &places[i], w, cuts)?;
        }
        Ok(found)
    }

    fn put(
        &mut self,
        alloc: Global,
        place: &Place,
        w: &Text,
        cuts: &mut Cuts,
    ) -> Result<(), NoMemory>
        requires { AreCutsOf w.now cuts.old }
        ensures cuts { OnOk result (AreCutsOf w.now cuts.new) }
        ensures shaped { OnOk result (Gains (PositionsHave self.old.shaped) (PositionsHave self.new.shaped) (λ o. IsShaped place.now × IsValue (HasValue place.now w.now) o)) }
        ensures others { OnOk result (Gains (OthersHave self.old) (OthersHave self.new) (λ o. (o ≡ Some place.now) × ¬ (IsShaped place.now))) }
    {
        if is_shaped(place) {
            let value = cuts.value_of(alloc, place, w)?;
            return self.shaped.put_answer(value);
        }
        match self.others.push(*place) {
            Ok(()) => Ok(()),
            Err(_) => Err(NoMemory),
        }
    }
}

/// Whether the place lies between sequences that are not both empty.
fn is_shaped(place: &Place) -> bool
    ensures { IsTrue result ↔ IsShaped place.now }
{
    match place {
        Place::CPos(_) => false,
        Place::Pos(left, right, _) => left.len() + right.len() > 0,
    }
}
