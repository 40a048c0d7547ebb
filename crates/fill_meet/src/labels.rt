//! Numbers of sets.
ghost use Rattle.std.specs.Prelude.{◌≡◌, ℕ, [], ◌∷◌, ◌++◌, IfOk, IfSome, OnOk};
ghost use Rattle.fill_meet.specs.Labels.{AreLabels, IsNumber, IsNumbered};

use fill_arena::{AtomSet, Edge, PlaceSet};
use fill_text::NoMemory;
use std::alloc::Global;
use std::collections::HashMap;

/// The sets of atoms on the edges of a graph, and for each edge the number of its set: its place in their list.
#[derive(Drop)]
pub(crate) struct Labels {
    pub(crate) sets: Vec<AtomSet>,
    pub(crate) table: HashMap<AtomSet, usize>,
    pub(crate) of: Vec<usize>,
}

impl Labels {
    pub(crate) fn new(alloc: Global, edges: &[Edge]) -> Result<Labels, NoMemory>
        ensures { IfOk result (AreLabels edges.now) }
    {
        let of = Vec::with_capacity(alloc, edges.len())?;
        let mut labels = Labels {
            sets: Vec::new(alloc),
            table: HashMap::new(alloc),
            of,
        };
        for k in 0..edges.len() {
            labels.put(edges[k].atoms)?;
        }
        Ok(labels)
    }

    /// Puts the number of one more edge's set at the end.
    fn put(&mut self, s: AtomSet) -> Result<(), NoMemory>
        ensures { OnOk result ((n : ℕ) × (self.new.of.items ≡ self.old.of.items ++ n ∷ []) × IsNumbered self.old.sets.items self.new.sets.items s n) }
    {
        if let Some(number) = self.number(s) {
            self.of.push(number)?;
            return Ok(());
        }
        let number = self.sets.len();
        self.sets.push(s)?;
        note_atoms(&mut self.table, s, number);
        self.of.push(number)?;
        Ok(())
    }

    /// The number of the set, if the table tells it.
    pub(crate) fn number(&self, s: AtomSet) -> Option<usize>
        ensures { IfSome result (IsNumber self.now.sets.items s) }
    {
        let Some(number_there) = self.table.get(&s) else {
            return None;
        };
        let number = *number_there;
        if number >= self.sets.len() {
            return None;
        }
        if self.sets[number] != s {
            return None;
        }
        Some(number)
    }
}

/// Notes the number of the set, if there is memory for it.
fn note_atoms(table: &mut HashMap<AtomSet, usize>, s: AtomSet, number: usize) {
    match table.insert(s, number) {
        Ok(_) => {}
        Err(_) => {}
    }
}

/// Sets of places, each with a number: its place in their list.
#[derive(Drop)]
pub(crate) struct PlaceSets {
    pub(crate) sets: Vec<PlaceSet>,
    pub(crate) table: HashMap<PlaceSet, usize>,
}

impl PlaceSets {
    pub(crate) fn new(alloc: Global) -> PlaceSets
        ensures { result.sets.items ≡ [] }
    {
        PlaceSets {
            sets: Vec::new(alloc),
            table: HashMap::new(alloc),
        }
    }

    /// The number of the set, which is put at the end if the table tells none.
    pub(crate) fn put(&mut self, s: PlaceSet) -> Result<usize, NoMemory>
        ensures { IfOk result (IsNumbered self.old.sets.items self.new.sets.items s) }
    {
        if let Some(number) = self.number(s) {
            return Ok(number);
        }
        let number = self.sets.len();
        self.sets.push(s)?;
        note_places(&mut self.table, s, number);
        Ok(number)
    }

    /// The number of the set, if the table tells it.
    fn number(&self, s: PlaceSet) -> Option<usize>
        ensures { IfSome result (IsNumber self.now.sets.items s) }
    {
        let Some(number_there) = self.table.get(&s) else {
            return None;
        };
        let number = *number_there;
        if number >= self.sets.len() {
            return None;
        }
        if self.sets[number] != s {
            return None;
        }
        Some(number)
    }
}

/// Notes the number of the set, if there is memory for it.
pub(crate) fn note_places(table: &mut HashMap<PlaceSet, usize>, s: PlaceSet, number: usize) {
    match table.insert(s, number) {
        Ok(_) => {}
        Err(_) => {}
    }
}
