//! What was found in the shape of a text, carried over to the text.
ghost use Rattle.std.specs.Prelude.{◌≡◌, ◌⊎◌, ◌<◌, ℕ, Option, false, length, slice_get, OnOk};
ghost use Rattle.fill_arena.specs.Contents.{EachIn, SomeIn};
ghost use Rattle.fill_tokens.specs.Value.{HasValue};
ghost use Rattle.fill_tree.specs.Value.{IsValue};
ghost use Rattle.fill_doubt.specs.Answers.{Gains, GainsSome, PositionsHave};
ghost use Rattle.fill_doubt.specs.Shapes.{AreAsked, AreCarried};

use crate::answers::Positions;
use crate::shaped::Shaped;
use crate::spots::Spots;
use fill_text::{NoMemory, Text};
use fill_tokens::{Place, place_value};

/// The positions of the set's places in the text, and nothing else: two answers where few will do, and else all of them.
pub(crate) fn carry(
    spots: &Spots,
    shaped: &Shaped,
    few: bool,
    found: &mut Positions,
) -> Result<(), NoMemory>
    requires { EachIn (λ i. i < length shaped.now.shape.bounds.items) spots.now.shaped.positions.items }
    ensures sound { OnOk result ((o : Option ℕ) → PositionsHave found.new o →
        AreCarried shaped.now.shape.bounds.items (PositionsHave spots.now.shaped) o ⊎ AreAsked shaped.now.text.now spots.now.others.items o) }
    ensures all { OnOk result (few ≡ false → (o : Option ℕ) →
        AreCarried shaped.now.shape.bounds.items (PositionsHave spots.now.shaped) o ⊎ AreAsked shaped.now.text.now spots.now.others.items o → PositionsHave found.new o) }
{
    found.clear();
    found.put_none(spots.shaped.none);
    let positions = spots.shaped.positions.as_slice();
    put_bounds(found, positions, shaped.shape.bounds.as_slice(), few)?;
    put_asked(found, spots.others.as_slice(), shaped.text, few)
}

fn may_stop(few: bool, found: &Positions) -> bool
    ensures { few ≡ false → result ≡ false }
{
    few && found.are_several()
}

/// Puts what the positions are in the text.
fn put_bounds(
    found: &mut Positions,
    positions: &[usize],
    bounds: &[usize],
    few: bool,
) -> Result<(), NoMemory>
    requires { EachIn (λ i. i < length bounds.now) positions.now }
    ensures some { OnOk result (GainsSome (PositionsHave found.old) (PositionsHave found.new) (λ o. SomeIn (λ i. o ≡ slice_get bounds.now i) positions.now)) }
    ensures all { OnOk result (few ≡ false → Gains (PositionsHave found.old) (PositionsHave found.new) (λ o. SomeIn (λ i. o ≡ slice_get bounds.now i) positions.now)) }
{
    for i in 0..positions.len() {
        if may_stop(few, found) {
            return Ok(());
        }
        put_bound(found, bounds, positions[i])?;
    }
    Ok(())
}

fn put_bound(found: &mut Positions, bounds: &[usize], i: usize) -> Result<(), NoMemory>
    requires { i < length bounds.now }
    ensures { OnOk result (Gains (PositionsHave found.old) (PositionsHave found.new) (λ o. o ≡ slice_get bounds.now i)) }
{
    found.put(bounds[i])
}

/// Puts the values of the places in the text.
pub(crate) fn put_asked(
    found: &mut Positions,
    places: &[Place],
    text: &Text,
    few: bool,
) -> Result<(), NoMemory>
    ensures some { OnOk result (GainsSome (PositionsHave found.old) (PositionsHave found.new) (AreAsked text.now places.now)) }
    ensures all { OnOk result (few ≡ false → Gains (PositionsHave found.old) (PositionsHave found.new) (AreAsked text.now places.now)) }
{
    for i in 0..places.len() {
        if may_stop(few, found) {
            return Ok(());
        }
        put_value(found, &places[i], text)?;
    }
    Ok(())
}

fn put_value(found: &mut Positions, place: &Place, text: &Text) -> Result<(), NoMemory>
    ensures { OnOk result (Gains (PositionsHave found.old) (PositionsHave found.new) (IsValue (HasValue place.now text.now))) }
{
    found.put_answer(place_value(place, text))
}
