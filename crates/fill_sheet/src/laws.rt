//! The numbers of this crate's limits. The call does nothing: what it tells is its clauses.
ghost use Rattle.std.specs.Prelude.{◌≡◌};

use crate::columns::{LAST_COLUMN, MOST_INPUTS};
use crate::sheet::{MOST_RECORDS, MOST_ROWS};

/// How much a sheet may have.
pub fn limits_are_as_specified()
    ensures inputs { MOST_INPUTS ≡ 8 }
    ensures column { LAST_COLUMN ≡ 1000 }
    ensures records { MOST_RECORDS ≡ 20000 }
    ensures rows { MOST_ROWS ≡ 16777216 }
{}
