//! Branches of items under a rule, kept by a maker of joined values, and rebuilt from the first changed item on.
//!
//! Each item goes to a branch that fits together with it, the first or the lightest, and else opens a branch: the grouping
//! of Gulwani, "Automating String Processing in Spreadsheets using Input-Output Examples" (POPL 2011), section 4.4, with
//! the items in their own order.
#![tactic(auto)]

mod change;
mod find;
mod folds;
mod laws;
mod maker;
mod place;
mod prefix;
mod regroup;
mod renew;
mod rule;
mod singles;

pub use change::{Change, FoldError};
pub use folds::{Fold, Folds};
pub use laws::{folds_stay, limits_are_as_specified, placed_once, renewed_folds_stand};
pub use maker::Maker;
pub use place::MOST_BRANCHES;
pub use rule::Placing;
