//! Entries with new numbers in place of those that they name.
ghost use Rattle.std.specs.Prelude.{◌≡◌, flat_map, IfOk};
ghost use Rattle.std.specs.List.{AllZip};
ghost use Rattle.fill_arena.specs.Contents.{EachIn};
ghost use Rattle.fill_arena.specs.Copied.{AtomBecomes, ConditionBecomes, EdgeBecomes, EntryBecomes, HasNew, OptionBecomes, SourceBecomes, Takes};
ghost use Rattle.fill_arena.specs.Entries.{entry_of};
ghost use Rattle.fill_arena.specs.Named.{atom_names, condition_names, edge_names, entry_names, option_names, source_names};

use crate::entries::Content;
use crate::entry::{AtomItem, ConditionItem, Edge, Entry, SelectItem, SourceItem};
use crate::numbers::{AtomSet, GraphId, PlaceSet, SourceSet};
use fill_text::{List, NoMemory, Text};
use fill_tokens::Place;
use std::alloc::Global;

/// A copy of the entry that names the numbers which the table has for those that the entry names.
pub(crate) fn renumber_entry(
    alloc: Global,
    table: &[Option<usize>],
    content: Content<'_>,
) -> Result<Entry, NoMemory>
    requires { EachIn (HasNew table.now) (entry_names (entry_of content)) }
    ensures { IfOk result (λ made. EntryBecomes (Takes table.now) (entry_of content.entry) made) }
{
    match content {
        Content::Places(places) => Ok(Entry::Places(copy_places(alloc, places)?)),
        Content::Sources(items) => {
            let made = renumber_sources(alloc, table, items)?;
            Ok(Entry::Sources(made))
        }
        Content::Atoms(items) => Ok(Entry::Atoms(renumber_atoms(alloc, table, items)?)),
        Content::Graph(nodes, edges) => {
            let made = renumber_edges(alloc, table, edges.as_slice())?;
            Ok(Entry::Graph(nodes, made))
        }
    }
}

/// Gives each listed graph its new number.
pub(crate) fn renumber_graphs(table: &[Option<usize>], live: &mut [GraphId])
    requires { EachIn (HasNew table.now) live.old }
    ensures { AllZip (Takes table.now) live.old live.new }
{
    for i in 0..live.len() {
        live[i] = GraphId::at(new_number(table, live[i].index()));
    }
}

/// The number that the table has for an old one.
fn new_number(table: &[Option<usize>], number: usize) -> usize
    requires { HasNew table.now number }
    ensures { Takes table.now number result }
{
    match table[number] {
        Some(new) => new,
        None => unreachable!(),
    }
}

fn copy_places(alloc: Global, places: &[Place]) -> Result<List<Place>, NoMemory>
    ensures { IfOk result (λ made. made ≡ places.now) }
{
    let mut made = List::new(alloc);
    made.append(places)?;
    Ok(made)
}

fn renumber_sources(
    alloc: Global,
    table: &[Option<usize>],
    items: &[SourceItem],
) -> Result<List<SourceItem>, NoMemory>
    requires { EachIn (HasNew table.now) (flat_map source_names items.now) }
    ensures { IfOk result (λ made. AllZip (SourceBecomes (Takes table.now)) items.now made) }
{
    let mut made = List::with_capacity(alloc, items.len())?;
    for item in items {
        made.push(renumber_source(alloc, table, item)?)?;
    }
    Ok(made)
}

fn renumber_source(
    alloc: Global,
    table: &[Option<usize>],
    item: &SourceItem,
) -> Result<SourceItem, NoMemory>
    requires { EachIn (HasNew table.now) (source_names item.now) }
    ensures { IfOk result (λ made. SourceBecomes (Takes table.now) item.now made) }
{
    match item {
        SourceItem::Col(column) => Ok(SourceItem::Col(*column)),
        SourceItem::Select(listed) => {
            let conditions = renumber_conditions(alloc, table, listed.conditions.as_slice())?;
            Ok(SourceItem::Select(SelectItem {
                column: listed.column,
                table: listed.table,
                key: listed.key,
                conditions,
            }))
        }
    }
}

fn renumber_conditions(
    alloc: Global,
    table: &[Option<usize>],
    items: &[ConditionItem],
) -> Result<List<ConditionItem>, NoMemory>
    requires { EachIn (HasNew table.now) (flat_map condition_names items.now) }
    ensures { IfOk result (λ made. AllZip (ConditionBecomes (Takes table.now)) items.now made) }
{
    let mut made = List::with_capacity(alloc, items.len())?;
    for item in items {
        made.push(renumber_condition(table, item)?)?;
    }
    Ok(made)
}

fn renumber_condition(
    table: &[Option<usize>],
    item: &ConditionItem,
) -> Result<ConditionItem, NoMemory>
    requires { EachIn (HasNew table.now) (condition_names item.now) }
    ensures { IfOk result (λ made. ConditionBecomes (Takes table.now) item.now made) }
{
    Ok(ConditionItem {
        constant: copy_constant(&item.constant)?,
        atoms: renumber_option(table, item.atoms),
    })
}

fn copy_constant(constant: &Option<Text>) -> Result<Option<Text>, NoMemory>
    ensures { IfOk result (λ made. made ≡ constant.now) }
{
    match constant {
        None => Ok(None),
        Some(text) => Ok(Some(text.copy()?)),
    }
}

fn renumber_option(table: &[Option<usize>], number: Option<AtomSet>) -> Option<AtomSet>
    requires { EachIn (HasNew table.now) (option_names number) }
    ensures { OptionBecomes (Takes table.now) number result }
{
    match number {
        None => None,
        Some(atoms) => Some(AtomSet::at(new_number(table, atoms.index()))),
    }
}

fn renumber_atoms(
    alloc: Global,
    table: &[Option<usize>],
    items: &[AtomItem],
) -> Result<List<AtomItem>, NoMemory>
    requires { EachIn (HasNew table.now) (flat_map atom_names items.now) }
    ensures { IfOk result (λ made. AllZip (AtomBecomes (Takes table.now)) items.now made) }
{
    let mut made = List::with_capacity(alloc, items.len())?;
    for item in items {
        made.push(renumber_atom(table, item)?)?;
    }
    Ok(made)
}

fn renumber_atom(table: &[Option<usize>], item: &AtomItem) -> Result<AtomItem, NoMemory>
    requires { EachIn (HasNew table.now) (atom_names item.now) }
    ensures { IfOk result (λ made. AtomBecomes (Takes table.now) item.now made) }
{
    match item {
        AtomItem::Const(text) => Ok(AtomItem::Const(text.copy()?)),
        AtomItem::Whole(sources) => {
            let made = SourceSet::at(new_number(table, sources.index()));
            Ok(AtomItem::Whole(made))
        }
        AtomItem::Sub(sources, lefts, rights) => Ok(AtomItem::Sub(
            SourceSet::at(new_number(table, sources.index())),
            PlaceSet::at(new_number(table, lefts.index())),
            PlaceSet::at(new_number(table, rights.index())),
        )),
    }
}

fn renumber_edges(
    alloc: Global,
    table: &[Option<usize>],
    edges: &[Edge],
) -> Result<List<Edge>, NoMemory>
    requires { EachIn (HasNew table.now) (flat_map edge_names edges.now) }
    ensures { IfOk result (λ made. AllZip (EdgeBecomes (Takes table.now)) edges.now made) }
{
    let mut made = List::with_capacity(alloc, edges.len())?;
    for i in 0..edges.len() {
        made.push(renumber_edge(table, edges[i]))?;
    }
    Ok(made)
}

fn renumber_edge(table: &[Option<usize>], edge: Edge) -> Edge
    requires { HasNew table.now edge.atoms }
    ensures { EdgeBecomes (Takes table.now) edge result }
{
    Edge {
        from: edge.from,
        to: edge.to,
        atoms: AtomSet::at(new_number(table, edge.atoms.index())),
    }
}
