//! The least guard of the literals that are kept.
ghost use Rattle.std.specs.Prelude.{ℕ, List, ◌≤◌, ◌<◌, ◌+◌, length, All, IfOk, MatchOption, IsTrue, ◌↔◌};
ghost use Rattle.fill_text.specs.Data.{SheetData};
ghost use Rattle.fill_tree.specs.Grammar.{AreSettings};
ghost use Rattle.fill_tree.specs.Separate.{Separates, IsLeastGuard};
ghost use Rattle.fill_tree.specs.declared.user.Settings.{Settings};
ghost use Rattle.fill_tree.specs.declared.guard.Guard.{Guard};
ghost use Rattle.fill_guard.specs.Read.{IsRowOf};
ghost use Rattle.fill_guard.specs.Least.{AreCandidates, AreApart, NoneAlone, IsFirstAlone, NonePartner, IsPartner, NonePair, IsFirstPair};

use crate::candidates::{Candidate, candidate_literals};
use fill_sheet::Sheet;
use fill_text::NoMemory;
use fill_tree::{Guard, Literal, MOST_EXAMPLES, Settings};
use std::alloc::Global;

/// The first literal that holds on no row outside.
fn first_alone(candidates: &[Candidate]) -> Option<Literal>
    ensures { MatchOption result (NoneAlone candidates.now (length candidates.now)) (IsFirstAlone candidates.now) }
{
    for i in 0..candidates.len() {
        if candidates[i].outside == 0 {
            return Some(candidates[i].literal);
        }
    }
    None
}

/// Whether the two literals hold together on no row outside.
fn are_apart(candidates: &[Candidate], i: usize, j: usize) -> bool
    requires first { i < length candidates.now }
    requires second { j < length candidates.now }
    ensures { IsTrue result ↔ AreApart candidates.now i j }
{
    candidates[i].outside & candidates[j].outside == 0
}

/// The place of the first later literal that the one at the place is apart from.
fn partner(candidates: &[Candidate], i: usize) -> Option<usize>
    requires { i < length candidates.now }
    ensures { MatchOption result (NonePartner candidates.now i (length candidates.now))
        (λ j. (j < length candidates.now) × IsPartner candidates.now i j) }
{
    for j in i + 1..candidates.len() {
        if are_apart(candidates, i, j) {
            return Some(j);
        }
    }
    None
}

/// The first two literals that hold together on no row outside.
fn first_pair(candidates: &[Candidate]) -> Option<Guard>
    ensures { MatchOption result (NonePair candidates.now (length candidates.now)) (IsFirstPair candidates.now) }
{
    for i in 0..candidates.len() {
        if let Some(j) = partner(candidates, i) {
            return Some(Guard {
                first: candidates[i].literal,
                second: Some(candidates[j].literal),
            });
        }
    }
    None
}

/// The least guard of the literals.
fn least(candidates: &[Candidate]) -> Option<Guard>
    ensures { (settings : Settings) (sheet : SheetData) (inside outside : List ℕ) → AreCandidates settings sheet inside outside candidates.now →
        MatchOption result ((g : Guard) → ¬ (Separates settings sheet inside outside g)) (IsLeastGuard settings sheet inside outside) }
{
    match first_alone(candidates) {
        Some(first) => Some(Guard {
            first,
            second: None,
        }),
        None => first_pair(candidates),
    }
}

/// The least guard of the settings' grammar that holds on all rows inside and on no row outside; none exactly where no
/// guard does.
pub fn guard(
    alloc: Global,
    sheet: &Sheet,
    inside: &[u32],
    outside: &[u32],
    settings: &Settings,
) -> Result<Option<Guard>, NoMemory>
    requires settings { AreSettings settings.now }
    requires few { length outside.now ≤ MOST_EXAMPLES }
    requires inside { All (IsRowOf sheet.now) inside.now }
    requires outside { All (IsRowOf sheet.now) outside.now }
    ensures { IfOk result (λ made. MatchOption made
        ((g : Guard) → ¬ (Separates settings.now sheet.now inside.now outside.now g))
        (IsLeastGuard settings.now sheet.now inside.now outside.now)) }
{
    let candidates = candidate_literals(alloc, sheet, inside, outside, settings)?;
    Ok(least(&candidates))
}
