//! The literals that can stand in the least guard: of those that hold on all rows inside, the first one for each set of
//! rows outside.
//!
//! Where two literals hold on the same rows outside, the earlier one in place of the later one makes an earlier guard that
//! tells the rows apart as well. And from the first literal on that holds on no row outside no other one is needed.
ghost use Rattle.std.specs.Prelude.{◌≡◌, ◌<◌, ◌≤◌, ◌+◌, ◌++◌, ◌∷◌, [], length, All, Contains, IfOk, OnOk, IsTrue, ◌↔◌};
ghost use Rattle.fill_tokens.specs.Place.{seq_cmp};
ghost use Rattle.fill_text.specs.Lists.{Lists};
ghost use Rattle.fill_tree.specs.Separate.{IsTested};
ghost use Rattle.fill_guard.specs.Read.{IsRowOf};
ghost use Rattle.fill_guard.specs.Candidate.{KeepsCounted, KeepsRead, Keeps, OnlyLiteral, OfLeast, OfSigns, OfColumn};
ghost use Rattle.fill_guard.specs.Least.{AreCandidates};
ghost use Rattle.fill_guard.specs.declared.candidates.Candidate.{Candidate};

use crate::mask::{mask, passes_all};
use crate::pieces::Pieces;
use crate::read::{counts, read_cells};
use crate::sequences::sequences;
use fill_sheet::Sheet;
use fill_text::NoMemory;
use fill_tokens::{Seq, TokenSet};
use fill_tree::{Literal, MOST_EXAMPLES, Settings};
use std::alloc::Global;

/// A literal that holds on all rows inside, and on which rows outside it does: those whose bit is set.
#[derive(Clone, Copy, Debug)]
pub struct Candidate {
    pub literal: Literal,
    pub outside: u64,
}

/// The set of no row outside: a literal that has it makes a guard alone, so that no later literal is needed.
const NO_ROWS: u64 = 0;

/// Whether a literal with this set of rows outside is kept.
fn has_set(candidates: &[Candidate], outside: u64) -> bool
    ensures { IsTrue result ↔ ((k : Candidate) × Contains candidates.now k × (k.outside ≡ outside)) }
{
    for i in 0..candidates.len() {
        if candidates[i].outside == outside {
            return true;
        }
    }
    false
}

fn put(candidates: &mut Vec<Candidate>, l: &Literal, outside: u64) -> Result<(), NoMemory>
    ensures { OnOk result (candidates.new.items ≡ candidates.old.items ++ (record { literal = l.now; outside = outside }) ∷ []) }
{
    candidates.push(Candidate {
        literal: *l,
        outside,
    })?;
    Ok(())
}

/// Keeps the literal, where it holds on all rows inside and is the first one for its set of rows outside.
fn keep_literal(
    candidates: &mut Vec<Candidate>,
    l: &Literal,
    inside: &[usize],
    outside: &[usize],
) -> Result<(), NoMemory>
    requires least { l.now.least ≤ 3 }
    requires few { length outside.now ≤ MOST_EXAMPLES }
    ensures { OnOk result (KeepsCounted l.now.column l.now.seq inside.now outside.now candidates.old.items candidates.new.items
        (OnlyLiteral l.now)) }
{
    if !passes_all(l, inside) {
        return Ok(());
    }
    let set = mask(l, outside);
    if has_set(candidates, set) {
        return Ok(());
    }
    put(candidates, l, set)
}

/// The plain literal and the negated one.
fn keep_signs(
    candidates: &mut Vec<Candidate>,
    column: u32,
    seq: &Seq,
    least: u8,
    inside: &[usize],
    outside: &[usize],
) -> Result<(), NoMemory>
    requires least { least ≤ 3 }
    requires few { length outside.now ≤ MOST_EXAMPLES }
    ensures { OnOk result (KeepsCounted column seq.now inside.now outside.now candidates.old.items candidates.new.items
        (OfSigns column seq.now least)) }
{
    let plain = Literal {
        negated: false,
        column,
        seq: *seq,
        least,
    };
    keep_literal(candidates, &plain, inside, outside)?;
    let negated = Literal {
        negated: true,
        column,
        seq: *seq,
        least,
    };
    keep_literal(candidates, &negated, inside, outside)
}

/// The literals of a sequence, by the counts of its matches.
fn keep_leasts(
    candidates: &mut Vec<Candidate>,
    column: u32,
    seq: &Seq,
    inside: &[usize],
    outside: &[usize],
) -> Result<(), NoMemory>
    requires few { length outside.now ≤ MOST_EXAMPLES }
    ensures { OnOk result (KeepsCounted column seq.now inside.now outside.now candidates.old.items candidates.new.items
        (OfLeast column seq.now 4)) }
{
    for least in 1..4 {
        keep_signs(candidates, column, seq, least, inside, outside)?;
    }
    Ok(())
}

/// The literals of a sequence, where none is kept yet that makes a guard alone.
fn keep_sequence(
    alloc: Global,
    candidates: &mut Vec<Candidate>,
    column: u32,
    seq: &Seq,
    inside: &[Pieces],
    outside: &[Pieces],
) -> Result<(), NoMemory>
    requires some { 0 < length seq.now }
    requires short { length seq.now ≤ 2 }
    requires few { length outside.now ≤ MOST_EXAMPLES }
    ensures { OnOk result (KeepsRead column inside.now outside.now candidates.old.items candidates.new.items
        (OfLeast column seq.now 4)) }
{
    if has_set(candidates, NO_ROWS) {
        return Ok(());
    }
    let inside = counts(alloc, inside, seq)?;
    let outside = counts(alloc, outside, seq)?;
    keep_leasts(candidates, column, seq, &inside, &outside)
}

/// The literals of all sequences.
fn keep_sequences(
    alloc: Global,
    candidates: &mut Vec<Candidate>,
    column: u32,
    seqs: &[Seq],
    token_set: TokenSet,
    inside: &[Pieces],
    outside: &[Pieces],
) -> Result<(), NoMemory>
    requires seqs { Lists seq_cmp (IsTested token_set) seqs.now }
    requires few { length outside.now ≤ MOST_EXAMPLES }
    ensures { OnOk result (KeepsRead column inside.now outside.now candidates.old.items candidates.new.items (OfColumn token_set column)) }
{
    let _set = token_set;
    for i in 0..seqs.len() {
        keep_sequence(alloc, candidates, column, &seqs[i], inside, outside)?;
    }
    Ok(())
}

/// The literals of a column, where none is kept yet that makes a guard alone.
fn keep_column(
    alloc: Global,
    candidates: &mut Vec<Candidate>,
    sheet: &Sheet,
    column: u32,
    seqs: &[Seq],
    token_set: TokenSet,
    inside: &[u32],
    outside: &[u32],
) -> Result<(), NoMemory>
    requires input { Contains sheet.now.inputs column }
    requires seqs { Lists seq_cmp (IsTested token_set) seqs.now }
    requires inside { All (IsRowOf sheet.now) inside.now }
    requires outside { All (IsRowOf sheet.now) outside.now }
    requires few { length outside.now ≤ MOST_EXAMPLES }
    ensures { OnOk result (Keeps sheet.now inside.now outside.now candidates.old.items candidates.new.items (OfColumn token_set column)) }
{
    if has_set(candidates, NO_ROWS) {
        return Ok(());
    }
    let inside = read_cells(alloc, sheet, column, inside)?;
    let outside = read_cells(alloc, sheet, column, outside)?;
    keep_sequences(
        alloc, candidates, column, seqs, token_set, &inside, &outside,
    )
}

/// The literals of all input columns that can stand in the least guard under the settings, in order.
pub fn candidate_literals(
    alloc: Global,
    sheet: &Sheet,
    inside: &[u32],
    outside: &[u32],
    settings: &Settings,
) -> Result<Vec<Candidate>, NoMemory>
    requires inside { All (IsRowOf sheet.now) inside.now }
    requires outside { All (IsRowOf sheet.now) outside.now }
    requires few { length outside.now ≤ MOST_EXAMPLES }
    ensures { IfOk result (λ candidates. AreCandidates settings.now sheet.now inside.now outside.now candidates.items) }
{
    let _rows = sheet.rows();
    let token_set = settings.profile.tokens;
    let seqs = sequences(alloc, token_set)?;
    let inputs = sheet.inputs();
    let mut candidates = Vec::new(alloc);
    for i in 0..inputs.len() {
        keep_column(
            alloc,
            &mut candidates,
            sheet,
            inputs[i],
            &seqs,
            token_set,
            inside,
            outside,
        )?;
    }
    Ok(candidates)
}
