//! Names of slices, and marks of pools.
ghost use Rattle.std.specs.Prelude.{◌≡◌};

use std::marker::Model;

/// Names a slice of a pool, by how many slices stand before it.
#[derive(Clone, Copy, Debug, PartialEq, Eq)]
pub struct Span {
    number: usize,
}

impl Model for Span {
    ghost use Rattle.std.specs.Prelude.{ℕ};

    ghost Value = { ℕ };

    ghost view = { λ s. s.number };

    ghost inverse = { λ n. record { number = n } };
}

impl Span {
    pub(crate) fn at(number: usize) -> Span
        ensures { result ≡ number }
    {
        Span { number }
    }

    pub(crate) fn index(self) -> usize
        ensures { result ≡ self }
    {
        self.number
    }
}

/// How many slices a pool had at some time.
#[derive(Clone, Copy, Debug, PartialEq, Eq)]
pub struct PoolMark {
    count: usize,
}

impl Model for PoolMark {
    ghost use Rattle.std.specs.Prelude.{ℕ};

    ghost Value = { ℕ };

    ghost view = { λ m. m.count };

    ghost inverse = { λ n. record { count = n } };
}

impl PoolMark {
    pub(crate) fn at(count: usize) -> PoolMark
        ensures { result ≡ count }
    {
        PoolMark { count }
    }

    pub(crate) fn count(self) -> usize
        ensures { result ≡ self }
    {
        self.count
    }
}
