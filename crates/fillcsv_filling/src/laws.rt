//! The numbers of this crate's limits. The call does nothing: what it tells is its clauses.
ghost use Rattle.std.specs.Prelude.{◌≡◌};

use crate::reading::MOST_LONG_RECORDS;

/// How much a long sheet may have.
pub fn limits_are_as_specified()
    ensures { MOST_LONG_RECORDS ≡ 16777216 }
{}
