//! On which cells a literal holds, by the counts of matches of its sequence in them.
ghost use Rattle.std.specs.Prelude.{◌≤◌, ◌↔◌, length, All, IsTrue};
ghost use Rattle.fill_guard.specs.Read.{Passes};
ghost use Rattle.fill_guard.specs.Candidate.{IsMask};

use fill_tree::{Literal, MOST_EXAMPLES};

/// Whether the literal holds on a cell with `count` matches.
fn passes(l: &Literal, count: usize) -> bool
    ensures { IsTrue result ↔ Passes l.now count }
{
    (count >= l.least as usize) != l.negated
}

/// Whether the literal holds on all of the cells.
pub fn passes_all(l: &Literal, counts: &[usize]) -> bool
    ensures { IsTrue result ↔ All (Passes l.now) counts.now }
{
    for count in counts {
        if !passes(l, *count) {
            return false;
        }
    }
    true
}

/// The cells on which the literal holds, as the bits of a number.
pub fn mask(l: &Literal, counts: &[usize]) -> u64
    requires { length counts.now ≤ MOST_EXAMPLES }
    ensures { IsMask (Passes l.now) counts.now result }
{
    let mut mask = 0;
    for i in 0..counts.len() {
        if passes(l, counts[i]) {
            mask |= 1 << i;
        }
    }
    mask
}
