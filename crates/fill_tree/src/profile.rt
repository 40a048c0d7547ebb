//! Profiles: what a session's language has, what its programs cost, and how its examples are placed.
use fill_tokens::{Prices, TokenSet};

/// Which branch an example joins, of those that it shares a program with.
#[derive(Clone, Copy, Debug, PartialEq, Eq)]
pub enum Placing {
    /// The first one.
    FirstFit,
    /// The one whose program then costs least, and of several the first.
    LeastCost,
}

/// A profile, as plain data.
#[derive(Clone, Copy, Debug, PartialEq, Eq)]
pub struct Profile {
    /// The tokens that places and guards are made of.
    pub tokens: TokenSet,
    /// What the parts of a program cost.
    pub prices: Prices,
    /// Which branch an example joins.
    pub placing: Placing,
    /// How many lookups may stand inside each other at most.
    pub depth: u8,
}

impl Profile {
    /// 26 tokens, and at most two lookups inside each other.
    pub const FIRST: Profile = Profile {
        tokens: TokenSet::FIRST,
        prices: Prices::FIRST,
        placing: Placing::FirstFit,
        depth: 2,
    };

    /// Also the runs of characters that are not space, not digits and not letters, and three lookups inside each other.
    pub const SECOND: Profile = Profile {
        tokens: TokenSet::SECOND,
        prices: Prices::FIRST,
        placing: Placing::LeastCost,
        depth: 3,
    };

    /// More signs, fewer runs of negated classes, and prices by which fewer examples are needed.
    pub const THIRD: Profile = Profile {
        tokens: TokenSet::THIRD,
        prices: Prices::THIRD,
        placing: Placing::FirstFit,
        depth: 3,
    };
}
