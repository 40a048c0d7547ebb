//! The numbers of this crate's limits. The call does nothing: what it tells is its clauses.
ghost use Rattle.std.specs.Prelude.{◌≡◌};

use crate::outside::{LARGEST_FILE, LAST_PLACE};

/// How large files may be.
pub fn limits_are_as_specified()
    ensures kept { LARGEST_FILE ≡ 16777216 }
    ensures read { LAST_PLACE ≡ 1099511627776 }
{}
