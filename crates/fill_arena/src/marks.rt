//! Marks of what listed graphs name, directly or through others.
ghost use Rattle.std.specs.Prelude.{◌≡◌, ℕ, ◌<◌, fold, flat_map, length, IfOk};
ghost use Rattle.fill_arena.specs.Contents.{EachIn, IsGraph};
ghost use Rattle.fill_arena.specs.Copied.{AreNamed, IsClosure, IsMarked, Spreads, marked};
ghost use Rattle.fill_arena.specs.Entries.{entry_of};
ghost use Rattle.fill_arena.specs.Named.{atom_names, condition_names, edge_names, entry_names, source_names};

use crate::arena::Arena;
use crate::entries::Content;
use crate::entry::{AtomItem, ConditionItem, Edge, SourceItem};
use crate::numbers::GraphId;
use fill_text::NoMemory;
use std::alloc::Global;

/// Marks of the listed graphs and of what they name, and of nothing else.
pub(crate) fn named_marks(
    alloc: Global,
    arena: &Arena,
    live: &[GraphId],
) -> Result<Vec<bool>, NoMemory>
    requires { EachIn (IsGraph arena.now) live.now }
    ensures { IfOk result (λ marks. AreNamed arena.now live.now marks.items) }
{
    let mut marks = vec![in alloc; false; arena.mark().count()]?;
    mark_named(arena, live, marks.as_mut_slice());
    Ok(marks)
}

/// Marks the listed graphs and what they name, where nothing is marked yet.
fn mark_named(arena: &Arena, live: &[GraphId], marks: &mut [bool])
    requires live { EachIn (IsGraph arena.now) live.now }
    requires long { length marks.old ≡ length arena.now }
    requires none { (n : ℕ) → ¬ (IsMarked marks.old n) }
    ensures { AreNamed arena.now live.now marks.new }
{
    mark_graphs(live, marks);
    close(arena, marks);
}

/// Marks the graphs.
fn mark_graphs(live: &[GraphId], marks: &mut [bool])
    requires { EachIn (λ g. g < length marks.old) live.now }
    ensures { marks.new ≡ fold marked marks.old live.now }
{
    for i in 0..live.len() {
        marks[live[i].index()] = true;
    }
}

/// Marks what marked numbers name, directly or through others.
///
/// What an entry names is older than it, so one pass from the last number down finds it all.
fn close(arena: &Arena, marks: &mut [bool])
    requires { length marks.old ≡ length arena.now }
    ensures { IsClosure arena.now marks.old marks.new }
{
    arena.keeps_made();
    let mut i = marks.len();
    while i > 0 {
        i -= 1;
        spread(arena, i, marks);
    }
}

/// Marks what the entry of the number names, if the number is marked.
fn spread(arena: &Arena, number: usize, marks: &mut [bool])
    requires long { length marks.old ≡ length arena.now }
    requires within { number < length arena.now }
    ensures { Spreads arena.now number marks.old marks.new }
{
    if !marks[number] {
        return;
    }
    arena.keeps_made();
    mark_entry(arena.entry(number), marks);
}

/// Marks what the entry names.
fn mark_entry(content: Content<'_>, marks: &mut [bool])
    requires { EachIn (λ n. n < length marks.old) (entry_names (entry_of content)) }
    ensures { marks.new ≡ fold marked marks.old (entry_names (entry_of content.entry)) }
{
    match content {
        Content::Places(_) => {}
        Content::Sources(items) => mark_sources(items, marks),
        Content::Atoms(items) => mark_atoms(items, marks),
        Content::Graph(_, edges) => mark_edges(edges.as_slice(), marks),
    }
}

fn mark_sources(items: &[SourceItem], marks: &mut [bool])
    requires { EachIn (λ n. n < length marks.old) (flat_map source_names items.now) }
    ensures { marks.new ≡ fold marked marks.old (flat_map source_names items.now) }
{
    for item in items {
        mark_source(item, marks);
    }
}

fn mark_source(item: &SourceItem, marks: &mut [bool])
    requires { EachIn (λ n. n < length marks.old) (source_names item.now) }
    ensures { marks.new ≡ fold marked marks.old (source_names item.now) }
{
    match item {
        SourceItem::Col(_) => {}
        SourceItem::Select(listed) => mark_conditions(listed.conditions.as_slice(), marks),
    }
}

fn mark_conditions(items: &[ConditionItem], marks: &mut [bool])
    requires { EachIn (λ n. n < length marks.old) (flat_map condition_names items.now) }
    ensures { marks.new ≡ fold marked marks.old (flat_map condition_names items.now) }
{
    for item in items {
        mark_condition(item, marks);
    }
}

fn mark_condition(item: &ConditionItem, marks: &mut [bool])
    requires { EachIn (λ n. n < length marks.old) (condition_names item.now) }
    ensures { marks.new ≡ fold marked marks.old (condition_names item.now) }
{
    if let Some(atoms) = item.atoms {
        marks[atoms.index()] = true;
    }
}

fn mark_atoms(items: &[AtomItem], marks: &mut [bool])
    requires { EachIn (λ n. n < length marks.old) (flat_map atom_names items.now) }
    ensures { marks.new ≡ fold marked marks.old (flat_map atom_names items.now) }
{
    for item in items {
        mark_atom(item, marks);
    }
}

fn mark_atom(item: &AtomItem, marks: &mut [bool])
    requires { EachIn (λ n. n < length marks.old) (atom_names item.now) }
    ensures { marks.new ≡ fold marked marks.old (atom_names item.now) }
{
    match item {
        AtomItem::Const(_) => {}
        AtomItem::Whole(sources) => marks[sources.index()] = true,
        AtomItem::Sub(sources, lefts, rights) => {
            marks[sources.index()] = true;
            marks[lefts.index()] = true;
            marks[rights.index()] = true;
        }
    }
}

fn mark_edges(edges: &[Edge], marks: &mut [bool])
    requires { EachIn (λ n. n < length marks.old) (flat_map edge_names edges.now) }
    ensures { marks.new ≡ fold marked marks.old (flat_map edge_names edges.now) }
{
    for i in 0..edges.len() {
        marks[edges[i].atoms.index()] = true;
    }
}
