//! What is kept with its cost, and what is made of two parts.
ghost use Rattle.std.specs.Prelude.{◌≡◌, IfOk};
ghost use Rattle.std.specs.Cmp.{IsTotalOrder};
ghost use Rattle.std.specs.declared.cmp.Ordering.{Ordering as Outcome};
ghost use Rattle.std.specs.declared.cmp.Ordering.TheVariants.{Equal};
ghost use Rattle.std.specs.Ordering.{ordering_then};

use fill_text::NoMemory;
use std::alloc::Global;
use std::cmp::Ordering;

/// What is in order among those that cost the same.
pub(crate) trait Ordered: Drop {
    ghost order: { Self → Self → Outcome };

    /// The order of two.
    fn compare(&self, other: &Self) -> Ordering
        ensures { result ≡ order self.now other.now };

    ghost total: { IsTotalOrder order };

    ghost exact: { (x y : Self) → order x y ≡ Equal → x ≡ y };
}

/// What is made of two parts, and compared by the one and then by the other.
pub(crate) trait Composite<A: Ordered, B: Ordered>: Ordered {
    ghost composite: { A → B → Self };

    /// What the two parts make.
    fn make(alloc: Global, first: &A, second: &B) -> Result<Self, NoMemory>
        ensures { IfOk result (λ it. it ≡ composite first.now second.now) };

    ghost by_parts: { (a b : A) (c d : B) → Self.order (composite a c) (composite b d) ≡ ordering_then (A.order a b) (B.order c d) };
}

/// An item and what it costs.
#[derive(Drop)]
pub(crate) struct Costed<T> {
    pub cost: u64,
    pub item: T,
}
