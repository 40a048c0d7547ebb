//! What an arena lists under its numbers.
use crate::numbers::{AtomSet, PlaceSet, SourceSet};
use fill_text::{List, Text};
use fill_tokens::Place;

/// A set of conditions of a lookup: the constant, and the atoms of the set that are no constants.
#[derive(Debug, Drop)]
pub struct ConditionItem {
    pub constant: Option<Text>,
    pub atoms: Option<AtomSet>,
}

/// A set of lookups: those with these numbers, and a condition of each item in order, not all of them constants.
#[derive(Debug, Drop)]
pub struct SelectItem {
    pub column: u32,
    pub table: u32,
    pub key: u32,
    pub conditions: List<ConditionItem>,
}

/// A source, or a set of lookups.
#[derive(Debug, Drop)]
pub enum SourceItem {
    /// The cell of an input column.
    Col(u32),
    Select(SelectItem),
}

/// An atom, or a set of atoms: the wholes of a set's sources, or the pieces of them between places of two sets.
#[derive(Debug, Drop)]
pub enum AtomItem {
    Const(Text),
    Whole(SourceSet),
    Sub(SourceSet, PlaceSet, PlaceSet),
}

/// An edge of a graph, from one node to a later one, and the atoms on it.
#[derive(Clone, Copy, Debug)]
pub struct Edge {
    pub from: usize,
    pub to: usize,
    pub atoms: AtomSet,
}

/// What stands under one number: the items of a set, or a graph's nodes and its edges.
#[derive(Debug, Drop)]
pub enum Entry {
    Places(List<Place>),
    Sources(List<SourceItem>),
    Atoms(List<AtomItem>),
    Graph(usize, List<Edge>),
}
