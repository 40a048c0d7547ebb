//! Changes of a list of items, and why one is refused.
ghost use Rattle.std.specs.Prelude.{◌≡◌};
ghost use Rattle.fill_split.specs.Changes.{taken_out};

use thiserror::Error;

/// A change of a list of items at one place.
#[derive(Drop)]
pub enum Change<I> {
    /// The item is put in before the item that stands there, or at the end.
    Insert(I),
    /// The item stands in place of the one there.
    Replace(I),
    /// The item there is taken out.
    Remove,
}

/// Why a change of a list of items was refused; `item` is a place in the changed list, from 0.
#[derive(Clone, Copy, Debug, PartialEq, Eq, Error)]
pub enum FoldError {
    /// The item does not fit alone.
    #[error("item {item} does not fit")]
    Alone { item: usize },
    /// The item would open a ninth branch.
    #[error("item {item} would open a ninth branch")]
    Ninth { item: usize },
    /// Out of memory.
    #[error("out of memory")]
    NoMemory,
}

/// How many items a change takes out.
pub fn taken<I>(change: &Change<I>) -> usize
    ensures { result ≡ taken_out change.now }
{
    match change {
        Change::Insert(_item) => 0,
        Change::Replace(_item) => 1,
        Change::Remove => 1,
    }
}
