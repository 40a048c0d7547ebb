//! Places and trees with their values.
ghost use Rattle.std.specs.Prelude.{◌≡◌, IsTrue, Some};
ghost use Rattle.std.specs.declared.cmp.Ordering.{Ordering as Outcome};
ghost use Rattle.fill_text.specs.Orders.{AtMost};
ghost use Rattle.fill_tree.specs.Meaning.{atom_tree, source_tree};
ghost use Rattle.fill_tree.specs.Order.{atom_rank, place_rank, source_rank};

use crate::rivals::Rival;
use fill_text::Text;
use fill_tokens::{Place, Prices};
use fill_tree::{Atom, Source};
use std::cmp::Ordering;

/// A place, and its value in a text.
#[derive(Drop)]
pub(crate) struct Spot {
    pub place: Place,
    pub at: Option<usize>,
}

/// A source, and its text on a row.
#[derive(Drop)]
pub(crate) struct ValuedSource {
    pub source: Source,
    pub text: Option<Text>,
}

/// An atom, and its text on a row.
#[derive(Drop)]
pub(crate) struct ValuedAtom {
    pub atom: Atom,
    pub text: Option<Text>,
}

/// Whether both are the same text, or none.
fn is_same(one: &Option<Text>, other: &Option<Text>) -> bool
    ensures { IsTrue result → one.now ≡ other.now }
{
    match (one, other) {
        (None, None) => true,
        (Some(one), Some(other)) => one.same(other),
        _ => false,
    }
}

/// Whether the place is at most the other one, by the cost and then in order.
fn is_place_at_most(prices: &Prices, a: &Place, b: &Place) -> bool
    ensures { IsTrue result → AtMost (place_rank prices.now a.now b.now) }
{
    a.cost(prices).cmp(&b.cost(prices)).then(a.compare(b)) != Ordering::Greater
}

/// Whether the order is known, and is not `Greater`.
fn is_at_most(order: Option<Ordering>) -> bool
    ensures { IsTrue result → (o : Outcome) × (order ≡ Some o) × AtMost o }
{
    match order {
        Some(order) => order != Ordering::Greater,
        None => false,
    }
}

impl Rival for Spot {
    ghost use Rattle.std.specs.Prelude.{◌≡◌};
    ghost use Rattle.fill_text.specs.Orders.{AtMost};
    ghost use Rattle.fill_tree.specs.Order.{place_rank};

    ghost serving = { λ prices x y. AtMost (place_rank prices x.place y.place) × (x.at ≡ y.at) };

    fn serves(&self, other: &Spot, prices: &Prices) -> bool {
        if self.at != other.at {
            return false;
        }
        is_place_at_most(prices, &self.place, &other.place)
    }
}

impl Rival for ValuedSource {
    ghost use Rattle.std.specs.Prelude.{◌≡◌};
    ghost use Rattle.fill_text.specs.Orders.{AtMost};
    ghost use Rattle.fill_tree.specs.Meaning.{source_tree};
    ghost use Rattle.fill_tree.specs.Order.{source_rank};

    ghost serving = { λ prices x y. AtMost (source_rank prices (source_tree x.source) (source_tree y.source)) × (x.text ≡ y.text) };

    fn serves(&self, other: &ValuedSource, prices: &Prices) -> bool {
        if !is_same(&self.text, &other.text) {
            return false;
        }
        is_at_most(self.source.rank(&other.source, prices))
    }
}

impl Rival for ValuedAtom {
    ghost use Rattle.std.specs.Prelude.{◌≡◌};
    ghost use Rattle.fill_text.specs.Orders.{AtMost};
    ghost use Rattle.fill_tree.specs.Meaning.{atom_tree};
    ghost use Rattle.fill_tree.specs.Order.{atom_rank};

    ghost serving = { λ prices x y. AtMost (atom_rank prices (atom_tree x.atom) (atom_tree y.atom)) × (x.text ≡ y.text) };

    fn serves(&self, other: &ValuedAtom, prices: &Prices) -> bool {
        if !is_same(&self.text, &other.text) {
            return false;
        }
        is_at_most(self.atom.rank(&other.atom, prices))
    }
}
