//! The numbers of this crate's limits. The call does nothing: what it tells is its clauses.
ghost use Rattle.std.specs.Prelude.{◌≡◌};

use crate::reading::{MOST_FIELDS, MOST_TABLE_ROWS};
use crate::table::MOST_KEYS;
use crate::tables::MOST_TABLES;

/// How much tables may have.
pub fn limits_are_as_specified()
    ensures rows { MOST_TABLE_ROWS ≡ 2000 }
    ensures fields { MOST_FIELDS ≡ 1000 }
    ensures keys { MOST_KEYS ≡ 4 }
    ensures tables { MOST_TABLES ≡ 8 }
{}
