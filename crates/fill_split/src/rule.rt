//! The rule by which items are placed.

/// Which of the branches that fit together with an item it goes to.
#[derive(Clone, Copy, Debug, PartialEq, Eq)]
pub enum Placing {
    /// The first one.
    First,
    /// The one that weighs least with the item, and of several the first.
    Lightest,
}
