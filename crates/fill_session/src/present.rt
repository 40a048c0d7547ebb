//! What is present in a session.
ghost use Rattle.std.specs.Prelude.{◌≡◌, []};
ghost use Rattle.fill_space.specs.Spaces.{SpacesData};
ghost use Rattle.fill_session.specs.Branches.{rule_of_profile};
ghost use Rattle.fill_session.specs.State.{IsHeld};

use crate::branch::Branch;
use fill_space::Spaces;
use fill_split::{Folds, Placing};
use fill_text::List;
use fill_tree::{Example, Settings};
use std::alloc::Global;

/// The examples that are present, and what follows from them. An accepted edit replaces all of it.
#[derive(Drop)]
pub(crate) struct Present {
    pub(crate) examples: List<Example>,
    pub(crate) folds: Folds<Spaces>,
    pub(crate) branches: List<Branch>,
}

impl Present {
    /// No examples. Takes no memory.
    pub(crate) fn none(alloc: Global, settings: &Settings) -> Present
        ensures none { result.examples ≡ [] }
        ensures held { (s : SpacesData) → s.ground.settings ≡ settings.now → IsHeld s result.examples result.folds result.branches }
    {
        let rule = rule_of(settings);
        Present {
            examples: List::new(alloc),
            folds: Folds::new(alloc, rule),
            branches: List::new(alloc),
        }
    }
}

/// By which rule the profile places examples.
fn rule_of(settings: &Settings) -> Placing
    ensures { result ≡ rule_of_profile settings.now.profile }
{
    match settings.profile.placing {
        fill_tree::Placing::FirstFit => Placing::First,
        fill_tree::Placing::LeastCost => Placing::Lightest,
    }
}
