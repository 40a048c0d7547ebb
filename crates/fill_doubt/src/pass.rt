//! Whether all programs answer with the text that one of them has.
ghost use Rattle.std.specs.Prelude.{◌≡◌, ◌+◌, ◌-◌, ◌<◌, ◌≤◌, ◌↔◌, ◌++◌, ℕ, List as Items, None, Some, length, drop, false, IsTrue, IfOk, OnOk, MatchBool, MatchOption};
ghost use Rattle.fill_arena.specs.Contents.{EachIn, In, IsAtomSet, SomeIn};
ghost use Rattle.fill_arena.specs.declared.entry.Edge.{Edge as Listed};
ghost use Rattle.fill_eval.specs.Piece.{IsWithin};
ghost use Rattle.fill_doubt.specs.Answers.{PiecesHave};
ghost use Rattle.fill_doubt.specs.Memo.{AreEdgesOn, IsMemoOf, EdgeAnswers, IsOnRow};
ghost use Rattle.fill_doubt.specs.Walks.{Agrees, AreLaid, Clashes, Differs, EdgeAgrees, EdgeClashes, IsAt, KeepsLengths, Reads};
ghost use Rattle.fill_doubt.specs.declared.row.OnRow.{OnRow};

use crate::answers::Pieces;
use crate::memo::Memo;
use crate::row::OnRow;
use crate::sets::atoms_of;
use crate::some::{first_piece, some_of};
use fill_arena::Edge;
use fill_text::{NoMemory, Text};
use std::alloc::Global;

/// What one program answers: the first edge from each node, and the first text on it. None where an edge on the way has
/// no text.
pub(crate) fn one_answer<'a>(
    on: &OnRow<'a>,
    memo: &mut Memo<'a>,
    nodes: usize,
    edges: &[Edge],
) -> Result<Option<Text>, NoMemory>
    requires edges { AreEdgesOn on.now nodes edges.now }
    requires row { IsOnRow on.now }
    requires memo { IsMemoOf on.now memo.old }
    ensures memo { OnOk result (IsMemoOf on.now memo.new) }
    ensures answer { IfOk result (λ o. MatchOption o (SomeIn (λ e. EdgeAnswers on.now e None) edges.now) (λ text. Reads (EdgeAnswers on.now) edges.now 0 (nodes - 1) (Some text))) }
{
    let mut text = Text::new(on.alloc);
    let mut at = 0;
    for i in 0..edges.len() {
        let e = &edges[i];
        if e.from != at {
            continue;
        }
        if !append_first(on, memo, e, &mut text)? {
            return Ok(None);
        }
        at = e.to;
    }
    Ok(Some(text))
}

/// Puts a text of the edge at the end, if it has one.
fn append_first<'a>(
    on: &OnRow<'a>,
    memo: &mut Memo<'a>,
    e: &Edge,
    text: &mut Text,
) -> Result<bool, NoMemory>
    requires atoms { IsAtomSet on.now.arena.now e.now.atoms }
    requires row { IsOnRow on.now }
    requires memo { IsMemoOf on.now memo.old }
    ensures memo { OnOk result (IsMemoOf on.now memo.new) }
    ensures appended { IfOk result (λ b. MatchBool b ((t : Items ℕ) × EdgeAnswers on.now e.now (Some t) × (text.new ≡ text.old ++ t)) ((t : Items ℕ) → ¬ (EdgeAnswers on.now e.now (Some t)))) }
{
    match first_piece(on, memo, e.atoms)? {
        Some(first) => {
            text.append_piece(first.text, first.from, first.to)?;
            Ok(true)
        }
        None => Ok(false),
    }
}

/// Whether some program answers otherwise than with the text.
pub(crate) fn differs<'a>(
    on: &OnRow<'a>,
    memo: &mut Memo<'a>,
    nodes: usize,
    edges: &[Edge],
    text: &[char],
) -> Result<bool, NoMemory>
    requires edges { AreEdgesOn on.now nodes edges.now }
    requires row { IsOnRow on.now }
    requires memo { IsMemoOf on.now memo.old }
    requires one { Reads (EdgeAnswers on.now) edges.now 0 (nodes - 1) (Some text.now) }
    ensures memo { OnOk result (IsMemoOf on.now memo.new) }
    ensures answer { IfOk result (λ b. IsTrue b ↔ Differs (EdgeAnswers on.now) edges.now (nodes - 1)) }
{
    let mut lengths = first_length(on.alloc, nodes)?;
    for i in 0..edges.len() {
        if !follow_edge(on, memo, lengths.as_mut_slice(), &edges[i], text)? {
            return Ok(true);
        }
    }
    Ok(false)
}

/// Lengths for nodes, of which node 0 alone has one.
fn first_length(alloc: Global, nodes: usize) -> Result<Vec<Option<usize>>, NoMemory>
    requires { 0 < nodes }
    ensures long { IfOk result (λ lengths. length lengths.items ≡ nodes) }
    ensures first { IfOk result (λ lengths. IsAt lengths.items 0 0) }
    ensures others { IfOk result (λ lengths. (n a : ℕ) → IsAt lengths.items n a → (n ≡ 0) × (a ≡ 0)) }
{
    let none: Option<usize> = None;
    match vec![in alloc; none; nodes] {
        Ok(mut lengths) => {
            lengths[0] = Some(0);
            Ok(lengths)
        }
        Err(_) => Err(NoMemory),
    }
}

/// Notes where the edge's texts end. False where one of its atoms has no value or does not stand in the text there.
fn follow_edge<'a>(
    on: &OnRow<'a>,
    memo: &mut Memo<'a>,
    lengths: &mut [Option<usize>],
    e: &Edge,
    text: &[char],
) -> Result<bool, NoMemory>
    requires atoms { IsAtomSet on.now.arena.now e.now.atoms }
    requires row { IsOnRow on.now }
    requires memo { IsMemoOf on.now memo.old }
    requires from { (a : ℕ) × IsAt lengths.old e.now.from a }
    requires to { e.now.to < length lengths.old }
    requires laid { (edges : Items Listed) × In e.now edges × AreLaid (EdgeAnswers on.now) edges text.now lengths.old }
    ensures memo { OnOk result (IsMemoOf on.now memo.new) }
    ensures keeps { KeepsLengths lengths.old lengths.new }
    ensures laid { (edges : Items Listed) → In e.now edges → AreLaid (EdgeAnswers on.now) edges text.now lengths.old → AreLaid (EdgeAnswers on.now) edges text.now lengths.new }
    ensures says { IfOk result (λ b. MatchBool b (EdgeAgrees (EdgeAnswers on.now) text.now lengths.new e.now) (EdgeClashes (EdgeAnswers on.now) text.now lengths.new e.now)) }
{
    if !follow_some(on, memo, lengths, e, text)? {
        return Ok(false);
    }
    follow_all(on, memo, lengths, e, text)
}

/// Looks at some of the edge's texts.
fn follow_some<'a>(
    on: &OnRow<'a>,
    memo: &mut Memo<'a>,
    lengths: &mut [Option<usize>],
    e: &Edge,
    text: &[char],
) -> Result<bool, NoMemory>
    requires atoms { IsAtomSet on.now.arena.now e.now.atoms }
    requires row { IsOnRow on.now }
    requires memo { IsMemoOf on.now memo.old }
    requires from { (a : ℕ) × IsAt lengths.old e.now.from a }
    requires to { e.now.to < length lengths.old }
    requires laid { (edges : Items Listed) × In e.now edges × AreLaid (EdgeAnswers on.now) edges text.now lengths.old }
    ensures memo { OnOk result (IsMemoOf on.now memo.new) }
    ensures keeps { KeepsLengths lengths.old lengths.new }
    ensures laid { (edges : Items Listed) → In e.now edges → AreLaid (EdgeAnswers on.now) edges text.now lengths.old → AreLaid (EdgeAnswers on.now) edges text.now lengths.new }
    ensures says { IfOk result (λ b. b ≡ false → EdgeClashes (EdgeAnswers on.now) text.now lengths.new e.now) }
{
    let found = some_of(on, memo, e.atoms)?;
    if found.none {
        return Ok(false);
    }
    Ok(follow_pieces(lengths, e.from, e.to, &found, text))
}

/// Looks at all of them.
fn follow_all<'a>(
    on: &OnRow<'a>,
    memo: &mut Memo<'a>,
    lengths: &mut [Option<usize>],
    e: &Edge,
    text: &[char],
) -> Result<bool, NoMemory>
    requires atoms { IsAtomSet on.now.arena.now e.now.atoms }
    requires row { IsOnRow on.now }
    requires memo { IsMemoOf on.now memo.old }
    requires from { (a : ℕ) × IsAt lengths.old e.now.from a }
    requires to { e.now.to < length lengths.old }
    requires laid { (edges : Items Listed) × In e.now edges × AreLaid (EdgeAnswers on.now) edges text.now lengths.old }
    ensures memo { OnOk result (IsMemoOf on.now memo.new) }
    ensures keeps { KeepsLengths lengths.old lengths.new }
    ensures laid { (edges : Items Listed) → In e.now edges → AreLaid (EdgeAnswers on.now) edges text.now lengths.old → AreLaid (EdgeAnswers on.now) edges text.now lengths.new }
    ensures says { IfOk result (λ b. MatchBool b (EdgeAgrees (EdgeAnswers on.now) text.now lengths.new e.now) (EdgeClashes (EdgeAnswers on.now) text.now lengths.new e.now)) }
{
    let found = atoms_of(on, memo, e.atoms)?;
    if found.none {
        return Ok(false);
    }
    Ok(follow_pieces(lengths, e.from, e.to, &found, text))
}

/// Notes where the pieces end, unless one does not stand in the text between the nodes.
fn follow_pieces(
    lengths: &mut [Option<usize>],
    from: usize,
    to: usize,
    found: &Pieces,
    text: &[char],
) -> bool
    requires within { EachIn IsWithin found.now.pieces.items }
    requires from { (a : ℕ) × IsAt lengths.old from a }
    requires to { to < length lengths.old }
    requires short { (n a : ℕ) → IsAt lengths.old n a → a ≤ length text.now }
    ensures keeps { KeepsLengths lengths.old lengths.new }
    ensures laid { (on : OnRow) (edges : Items Listed) (e : Listed) → In e edges → e.from ≡ from → e.to ≡ to → ((t : Items ℕ) → PiecesHave found.now (Some t) → EdgeAnswers on e (Some t)) →
        AreLaid (EdgeAnswers on) edges text.now lengths.old → AreLaid (EdgeAnswers on) edges text.now lengths.new }
    ensures says { MatchBool result ((t : Items ℕ) → PiecesHave found.now (Some t) → Agrees text.now lengths.new from to t)
        ((t : Items ℕ) × PiecesHave found.now (Some t) × Clashes text.now lengths.new from to t) }
{
    for i in 0..found.pieces.len() {
        if !follow_piece(lengths, from, to, found.pieces[i].as_slice(), text) {
            return false;
        }
    }
    true
}

/// Notes where the piece ends, unless it does not stand in the text between the nodes.
fn follow_piece(
    lengths: &mut [Option<usize>],
    from: usize,
    to: usize,
    piece: &[char],
    text: &[char],
) -> bool
    requires from { (a : ℕ) × IsAt lengths.old from a }
    requires to { to < length lengths.old }
    requires short { (n a : ℕ) → IsAt lengths.old n a → a ≤ length text.now }
    ensures keeps { KeepsLengths lengths.old lengths.new }
    ensures short { (n a : ℕ) → IsAt lengths.new n a → a ≤ length text.now }
    ensures laid { (on : OnRow) (edges : Items Listed) (e : Listed) → In e edges → e.from ≡ from → e.to ≡ to → EdgeAnswers on e (Some piece.now) →
        AreLaid (EdgeAnswers on) edges text.now lengths.old → AreLaid (EdgeAnswers on) edges text.now lengths.new }
    ensures says { MatchBool result (Agrees text.now lengths.new from to piece.now) (Clashes text.now lengths.new from to piece.now) }
{
    let Some(start) = lengths[from] else {
        return false;
    };
    if !has_piece(text, start, piece) {
        return false;
    }
    let end = start + piece.len();
    match lengths[to] {
        Some(memo) => memo == end,
        None => {
            lengths[to] = Some(end);
            true
        }
    }
}

/// Whether the piece stands in the text there.
fn has_piece(text: &[char], start: usize, piece: &[char]) -> bool
    requires { start ≤ length text.now }
    ensures { IsTrue result ↔ ((rest : Items ℕ) × (drop start text.now ≡ piece.now ++ rest)) }
{
    let (_, rest) = text.split_at(start);
    rest.starts_with(piece)
}
