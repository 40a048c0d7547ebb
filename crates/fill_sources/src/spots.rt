//! Where characters stand in the known texts.
ghost use Rattle.std.specs.Prelude.{◌↔◌, ◌<◌, IfOk, OnOk};
ghost use Rattle.fill_arena.specs.Contents.{In};
ghost use Rattle.fill_sources.specs.Origins.{texts_in};
ghost use Rattle.fill_sources.specs.Readers.{GainsSpots, StandsAt, StandsIn};
ghost use Rattle.fill_sources.specs.declared.spots.Spot.{Spot as Where};

use crate::texts::Texts;
use fill_text::{List, NoMemory, Text};
use std::alloc::Global;

/// A position of a known text.
#[derive(Clone, Copy)]
pub struct Spot {
    /// The number of the text.
    pub text: usize,
    pub at: usize,
}

/// Puts the spots of the text of a number at which the characters stand.
fn put_spots(text: &Text, k: usize, w: &Text, spots: &mut List<Spot>) -> Result<(), NoMemory>
    ensures { OnOk result (GainsSpots spots.old spots.new (StandsIn text.now k w.now)) }
{
    let long = text.len();
    let width = w.len();
    if long < width {
        return Ok(());
    }
    for at in 0..long - width + 1 {
        if !text.piece_is(at, at + width, w) {
            continue;
        }
        spots.push(Spot { text: k, at })?;
    }
    Ok(())
}

/// All spots of known texts at which the characters stand.
pub(crate) fn spots_of(alloc: Global, texts: &Texts<'_>, w: &Text) -> Result<List<Spot>, NoMemory>
    ensures { IfOk result (λ spots. (h : Where) → In h spots ↔ StandsAt (texts_in texts.now) w.now h) }
{
    let mut spots = List::new(alloc);
    let named = texts.named.as_slice();
    for k in 0..named.len() {
        put_spots(named[k].text, k, w, &mut spots)?;
    }
    Ok(spots)
}
