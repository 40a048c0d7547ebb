//! Whether a program has a value.
ghost use Rattle.std.specs.Prelude.{◌≡◌, ◌-◌, ◌<◌, ◌↔◌, ℕ, List as Items, Some, length, IsTrue, IfOk, OnOk};
ghost use Rattle.fill_arena.specs.Contents.{IsAtomSet};
ghost use Rattle.fill_doubt.specs.Memo.{AreEdgesOn, IsMemoOf, EdgeAnswers, IsOnRow};
ghost use Rattle.fill_doubt.specs.Walks.{Follows, IsMarked, Reads};

use crate::memo::Memo;
use crate::row::OnRow;
use crate::some::first_piece;
use fill_arena::Edge;
use fill_text::NoMemory;
use std::alloc::Global;

/// Whether some walk from the first node to the last one has a value on each of its edges.
pub(crate) fn has_value<'a>(
    on: &OnRow<'a>,
    memo: &mut Memo<'a>,
    nodes: usize,
    edges: &[Edge],
) -> Result<bool, NoMemory>
    requires edges { AreEdgesOn on.now nodes edges.now }
    requires row { IsOnRow on.now }
    requires memo { IsMemoOf on.now memo.old }
    ensures memo { OnOk result (IsMemoOf on.now memo.new) }
    ensures answer { IfOk result (λ b. IsTrue b ↔ ((t : Items ℕ) × Reads (EdgeAnswers on.now) edges.now 0 (nodes - 1) (Some t))) }
{
    let mut marks = first_mark(on.alloc, nodes)?;
    for i in 0..edges.len() {
        follow(on, memo, marks.as_mut_slice(), &edges[i])?;
    }
    Ok(marks[nodes - 1])
}

/// Marks of nodes, of which node 0 alone is marked.
fn first_mark(alloc: Global, nodes: usize) -> Result<Vec<bool>, NoMemory>
    requires { 0 < nodes }
    ensures long { IfOk result (λ marks. length marks.items ≡ nodes) }
    ensures first { IfOk result (λ marks. IsMarked marks.items 0) }
    ensures others { IfOk result (λ marks. (n : ℕ) → IsMarked marks.items n → n ≡ 0) }
{
    match vec![in alloc; false; nodes] {
        Ok(mut marks) => {
            marks[0] = true;
            Ok(marks)
        }
        Err(_) => Err(NoMemory),
    }
}

/// Marks the node that the edge leads to, if that which it comes from is marked and one of its atoms has a value.
fn follow<'a>(
    on: &OnRow<'a>,
    memo: &mut Memo<'a>,
    marks: &mut [bool],
    e: &Edge,
) -> Result<(), NoMemory>
    requires atoms { IsAtomSet on.now.arena.now e.now.atoms }
    requires from { e.now.from < length marks.old }
    requires to { e.now.to < length marks.old }
    requires row { IsOnRow on.now }
    requires memo { IsMemoOf on.now memo.old }
    ensures memo { OnOk result (IsMemoOf on.now memo.new) }
    ensures follows { OnOk result (Follows (EdgeAnswers on.now) e.now marks.old marks.new) }
{
    if !marks[e.from] {
        return Ok(());
    }
    if marks[e.to] {
        return Ok(());
    }
    match first_piece(on, memo, e.atoms)? {
        Some(_) => {
            marks[e.to] = true;
            Ok(())
        }
        None => Ok(()),
    }
}
