//! Numbers of sets and graphs.
//!
//! Each kind has a type of its own, so that a number of one kind is not taken for one of another.
ghost use Rattle.std.specs.Prelude.{◌≡◌, ◌↔◌, ◌<◌, IsTrue};

use std::marker::Model;

/// The number of a set of places in an arena.
#[derive(Clone, Copy, Debug, PartialEq, Eq, PartialOrd, Ord, Hash)]
pub struct PlaceSet {
    number: usize,
}

impl Model for PlaceSet {
    ghost use Rattle.std.specs.Prelude.{ℕ};

    ghost Value = { ℕ };

    ghost view = { λ s. s.number };

    ghost inverse = { λ n. record { number = n } };
}

impl PlaceSet {
    pub(crate) fn at(number: usize) -> PlaceSet
        ensures { result ≡ number }
    {
        PlaceSet { number }
    }

    /// The number itself, by which tables may be kept of sets.
    pub fn index(self) -> usize
        ensures { result ≡ self }
    {
        self.number
    }
}

/// The number of a set of sources in an arena.
#[derive(Clone, Copy, Debug, PartialEq, Eq, PartialOrd, Ord, Hash)]
pub struct SourceSet {
    number: usize,
}

impl Model for SourceSet {
    ghost use Rattle.std.specs.Prelude.{ℕ};

    ghost Value = { ℕ };

    ghost view = { λ s. s.number };

    ghost inverse = { λ n. record { number = n } };
}

impl SourceSet {
    pub(crate) fn at(number: usize) -> SourceSet
        ensures { result ≡ number }
    {
        SourceSet { number }
    }

    /// The number itself, by which tables may be kept of sets.
    pub fn index(self) -> usize
        ensures { result ≡ self }
    {
        self.number
    }
}

/// The number of a set of atoms in an arena.
#[derive(Clone, Copy, Debug, PartialEq, Eq, PartialOrd, Ord, Hash)]
pub struct AtomSet {
    number: usize,
}

impl Model for AtomSet {
    ghost use Rattle.std.specs.Prelude.{ℕ};

    ghost Value = { ℕ };

    ghost view = { λ s. s.number };

    ghost inverse = { λ n. record { number = n } };
}

impl AtomSet {
    pub(crate) fn at(number: usize) -> AtomSet
        ensures { result ≡ number }
    {
        AtomSet { number }
    }

    /// The number itself, by which tables may be kept of sets.
    pub fn index(self) -> usize
        ensures { result ≡ self }
    {
        self.number
    }
}

/// The number of a graph in an arena.
#[derive(Clone, Copy, Debug, PartialEq, Eq, PartialOrd, Ord, Hash)]
pub struct GraphId {
    number: usize,
}

impl Model for GraphId {
    ghost use Rattle.std.specs.Prelude.{ℕ};

    ghost Value = { ℕ };

    ghost view = { λ s. s.number };

    ghost inverse = { λ n. record { number = n } };
}

impl GraphId {
    pub(crate) fn at(number: usize) -> GraphId
        ensures { result ≡ number }
    {
        GraphId { number }
    }

    /// Whether the graph was there when the mark was taken, so that a cut to the mark leaves it.
    pub fn is_before(self, mark: Mark) -> bool
        ensures { IsTrue result ↔ self < mark }
    {
        self.number < mark.count
    }

    pub(crate) fn index(self) -> usize
        ensures { result ≡ self }
    {
        self.number
    }
}

/// How many sets and graphs an arena had at some time.
#[derive(Clone, Copy, Debug, PartialEq, Eq)]
pub struct Mark {
    count: usize,
}

impl Model for Mark {
    ghost use Rattle.std.specs.Prelude.{ℕ};

    ghost Value = { ℕ };

    ghost view = { λ m. m.count };

    ghost inverse = { λ n. record { count = n } };
}

impl Mark {
    pub(crate) fn at(count: usize) -> Mark
        ensures { result ≡ count }
    {
        Mark { count }
    }

    pub(crate) fn count(self) -> usize
        ensures { result ≡ self }
    {
        self.count
    }
}
