//! Parts of trees that are no trees themselves.
ghost use Rattle.fill_tokens.specs.Place.{place_cmp};
ghost use Rattle.fill_tokens.proofs.PlaceLaws.{exact_places, place_total};

use crate::costed::{Composite, Ordered};
use fill_text::NoMemory;
use fill_tokens::Place;
use std::alloc::Global;
use std::cmp::Ordering;

/// The two places between which a piece lies.
#[derive(Clone, Copy, Debug)]
pub(crate) struct Bounds {
    pub left: Place,
    pub right: Place,
}

/// The numbers of a lookup.
#[derive(Clone, Copy, Debug)]
pub(crate) struct Target {
    pub column: u32,
    pub table: u32,
    pub key: u32,
}

/// That the whole text of a source is taken.
#[derive(Clone, Copy, Debug)]
pub(crate) struct WholeText;

impl Ordered for Place {
    ghost order = { place_cmp };

    fn compare(&self, other: &Place) -> Ordering {
        Place::compare(self, other)
    }

    ghost total = { place_total };

    ghost exact = { exact_places };
}

impl Ordered for Bounds {
    ghost use Rattle.fill_best.specs.Parts.{bounds_cmp, bounds_total, exact_bounds};

    ghost order = { bounds_cmp };

    fn compare(&self, other: &Bounds) -> Ordering {
        let left = Place::compare(&self.left, &other.left);
        left.then(Place::compare(&self.right, &other.right))
    }

    ghost total = { bounds_total };

    ghost exact = { exact_bounds };
}

impl Ordered for Target {
    ghost use Rattle.fill_best.specs.Parts.{exact_targets, target_cmp, target_total};

    ghost order = { target_cmp };

    fn compare(&self, other: &Target) -> Ordering {
        let table = self.table.cmp(&other.table);
        let key = self.key.cmp(&other.key);
        self.column.cmp(&other.column).then(table.then(key))
    }

    ghost total = { target_total };

    ghost exact = { exact_targets };
}

impl Ordered for WholeText {
    ghost use Rattle.fill_best.specs.Parts.{exact_whole, whole_cmp, whole_total};

    ghost order = { whole_cmp };

    fn compare(&self, _other: &WholeText) -> Ordering {
        Ordering::Equal
    }

    ghost total = { whole_total };

    ghost exact = { exact_whole };
}

impl Composite<Place, Place> for Bounds {
    ghost use Rattle.std.specs.Prelude.{refl};
    ghost use Rattle.fill_best.specs.Parts.{bounds_of};

    ghost composite = { bounds_of };

    fn make(_alloc: Global, first: &Place, second: &Place) -> Result<Bounds, NoMemory> {
        Ok(Bounds {
            left: *first,
            right: *second,
        })
    }

    ghost by_parts = { λ a b c d. refl };
}
