//! The arena.
ghost use Rattle.std.specs.Prelude.{◌≡◌, ◌+◌, ◌<◌, ◌≤◌, List, [], ◌∷◌, ◌++◌, Some, slice_get, length, take, IfOk, OnOk, OnErr};
ghost use Rattle.fill_arena.specs.Contents.{Extends, HasEdges, HasNodes, HasSortedEdges, Interns, IsAtomSet, IsGraph, IsPlaceSet, IsSourceSet};
ghost use Rattle.fill_arena.specs.Entries.{EdgesLeadOn, entry_of};
ghost use Rattle.fill_arena.specs.Index.{IsFree};
ghost use Rattle.fill_arena.specs.WellMade.{AreAtoms, AreInOrder, AreSources, IsEntry, IsGraphOf, IsWellMade};

use crate::entries::{Content, Entries};
use crate::entry::{AtomItem, Edge, Entry, SourceItem};
use crate::index::{Found, Index, Slot};
use crate::numbers::{AtomSet, GraphId, Mark, PlaceSet, SourceSet};
use crate::sized::keep_sizes;
use fill_edge::{Ledger, Steps};
use fill_text::{List, NoMemory};
use fill_tokens::Place;
use std::alloc::Global;
use std::marker::Model;

/// Sets and graphs, each under a number that it keeps until a cut takes it away.
#[derive(Debug, Drop)]
pub struct Arena {
    entries: Entries,
    index: Index,
}

impl Model for Arena {
    ghost use Rattle.std.specs.Prelude.{List};
    ghost use Rattle.fill_arena.specs.declared.entry.Entry.{Entry};
    ghost use Rattle.fill_arena.specs.Contents.{AreDistinct};
    ghost use Rattle.fill_arena.specs.Index.{IsIndexed};
    ghost use Rattle.fill_arena.specs.WellMade.{IsWellMade};

    ghost Value = { List Entry };

    ghost view = { λ arena. arena.entries };

    ghost invariant = { λ arena. IsWellMade arena.entries × AreDistinct arena.entries × IsIndexed arena.entries arena.index };
}

impl Arena {
    /// An arena without sets and graphs, which takes no memory.
    pub fn new(alloc: Global) -> Arena
        ensures { result ≡ [] }
    {
        Arena {
            entries: Entries::new(alloc),
            index: Index::new(alloc),
        }
    }

    /// The allocator that the arena was made with.
    pub(crate) fn alloc(&self) -> Global {
        self.entries.alloc()
    }

    /// The number of a set of these places.
    pub fn intern_places(&mut self, places: &[Place]) -> Result<PlaceSet, NoMemory>
        requires { AreInOrder places.now }
        ensures ok { IfOk result (λ s. slice_get self.new s ≡ Some (Entry.Places places.now)) }
        ensures interned { IfOk result (Interns self.old self.new (Entry.Places places.now)) }
        ensures extends { Extends self.old self.new }
        ensures err { OnErr result (self.new ≡ self.old) }
    {
        keep_sizes(places);
        let mut copied = List::new(self.entries.alloc());
        copied.append(places)?;
        Ok(PlaceSet::at(self.intern(Entry::Places(copied))?))
    }

    /// The number of a set of these sources.
    pub fn intern_sources(&mut self, items: List<SourceItem>) -> Result<SourceSet, NoMemory>
        requires { AreSources self.old (length self.old) items }
        ensures ok { IfOk result (λ s. slice_get self.new s ≡ Some (Entry.Sources items)) }
        ensures interned { IfOk result (Interns self.old self.new (Entry.Sources items)) }
        ensures extends { Extends self.old self.new }
        ensures err { OnErr result (self.new ≡ self.old) }
    {
        Ok(SourceSet::at(self.intern(Entry::Sources(items))?))
    }

    /// The number of a set of these atoms.
    pub fn intern_atoms(&mut self, items: List<AtomItem>) -> Result<AtomSet, NoMemory>
        requires { AreAtoms self.old (length self.old) items }
        ensures ok { IfOk result (λ s. slice_get self.new s ≡ Some (Entry.Atoms items)) }
        ensures interned { IfOk result (Interns self.old self.new (Entry.Atoms items)) }
        ensures extends { Extends self.old self.new }
        ensures err { OnErr result (self.new ≡ self.old) }
    {
        Ok(AtomSet::at(self.intern(Entry::Atoms(items))?))
    }

    /// The number of a graph of nodes from 0 on and of these edges, in any order. It takes one step, whatever it answers.
    pub fn intern_graph<L: Ledger>(
        &mut self,
        nodes: usize,
        edges: List<Edge>,
        steps: &mut Steps<L>,
    ) -> Result<GraphId, NoMemory>
        requires { IsGraphOf self.old (length self.old) nodes edges }
        ensures ok { IfOk result (λ g. slice_get self.new g ≡ Some (Entry.Graph nodes edges)) }
        ensures interned { IfOk result (Interns self.old self.new (Entry.Graph nodes edges)) }
        ensures extends { Extends self.old self.new }
        ensures err { OnErr result (self.new ≡ self.old) }
        ensures step { steps.new ≡ steps.old + 1 }
    {
        steps.tick();
        Ok(GraphId::at(self.intern(Entry::Graph(nodes, edges))?))
    }

    /// The number of the entry, which is put at the end if it has none.
    pub(crate) fn intern(&mut self, entry: Entry) -> Result<usize, NoMemory>
        requires { IsEntry self.old (length self.old) entry }
        ensures interned { IfOk result (Interns self.old self.new entry) }
        ensures err { OnErr result (self.new ≡ self.old) }
    {
        match self.index.find(&self.entries, &entry)? {
            Found::Known(number) => Ok(number),
            Found::Free(slot) => push(&mut self.entries, &mut self.index, entry, slot),
        }
    }

    /// What stands under a number.
    pub(crate) fn entry(&self, number: usize) -> Content<'_>
        requires { number < length self.now }
        ensures { slice_get self.now number ≡ Some (entry_of result) }
    {
        self.entries.get(number)
    }

    /// The places of a set, in order.
    pub fn places(&self, s: PlaceSet) -> &[Place]
        requires { IsPlaceSet self.now s }
        ensures { slice_get self.now s ≡ Some (Entry.Places result.now) }
    {
        match self.entries.get(s.index()) {
            Content::Places(places) => places,
            _ => unreachable!(),
        }
    }

    /// The items of a set of sources.
    pub fn sources(&self, s: SourceSet) -> &[SourceItem]
        requires { IsSourceSet self.now s }
        ensures { slice_get self.now s ≡ Some (Entry.Sources result.now) }
    {
        match self.entries.get(s.index()) {
            Content::Sources(items) => items,
            _ => unreachable!(),
        }
    }

    /// The items of a set of atoms.
    pub fn atoms(&self, s: AtomSet) -> &[AtomItem]
        requires { IsAtomSet self.now s }
        ensures { slice_get self.now s ≡ Some (Entry.Atoms result.now) }
    {
        match self.entries.get(s.index()) {
            Content::Atoms(items) => items,
            _ => unreachable!(),
        }
    }

    /// The number of nodes of a graph; they count from 0.
    pub fn nodes(&self, g: GraphId) -> usize
        requires { IsGraph self.now g }
        ensures { HasNodes self.now g result }
    {
        match self.entries.get(g.index()) {
            Content::Graph(nodes, _) => nodes,
            _ => unreachable!(),
        }
    }

    /// The edges of a graph as they were given.
    pub fn edges(&self, g: GraphId) -> &[Edge]
        requires { IsGraph self.now g }
        ensures { HasEdges self.now g result.now }
    {
        match self.entries.get(g.index()) {
            Content::Graph(_, edges) => edges.as_slice(),
            _ => unreachable!(),
        }
    }

    /// The edges of a graph in a topological order: those into a node stand before those out of it.
    pub fn sorted_edges(&self, g: GraphId) -> &[Edge]
        requires { IsGraph self.now g }
        ensures { HasSortedEdges self.now g result.now }
    {
        match self.entries.get(g.index()) {
            Content::Graph(_, edges) => edges.sorted(),
            _ => unreachable!(),
        }
    }

    /// A mark to cut back to.
    pub fn mark(&self) -> Mark
        ensures { result ≡ length self.now }
    {
        Mark::at(self.entries.len())
    }

    /// Takes away what came after the mark, whose arena began as this one.
    pub fn cut(&mut self, mark: Mark)
        requires { mark ≤ length self.old }
        ensures cut { self.new ≡ take mark self.old }
        ensures extends { Extends self.new self.old }
    {
        let count = mark.count();
        self.entries.cut(count);
        self.index.cut(count);
    }

    /// What an arena keeps: each of its sets and graphs is well made. It does nothing.
    pub fn keeps_made(&self)
        ensures { IsWellMade self.now }
    {
        let _kept = &self.entries;
    }

    /// How many sets and graphs there are.
    pub fn size(&self) -> u128
        ensures { result ≡ length self.now }
    {
        self.entries.len() as u128
    }
}

/// Puts an entry at the end, with its slot, and gives its number.
fn push(
    entries: &mut Entries,
    index: &mut Index,
    entry: Entry,
    slot: Slot,
) -> Result<usize, NoMemory>
    requires free { IsFree entries.old index.old entry slot }
    requires onward { EdgesLeadOn entry }
    ensures number { IfOk result (λ n. n ≡ length entries.old) }
    ensures entries { OnOk result (entries.new ≡ entries.old ++ entry ∷ []) }
    ensures slots { OnOk result (index.new ≡ index.old ++ slot ∷ []) }
    ensures entries_err { OnErr result (entries.new ≡ entries.old) }
    ensures slots_err { OnErr result (index.new ≡ index.old) }
{
    let number = entries.len();
    if entries.push(entry).is_err() {
        return Err(NoMemory);
    }
    if let Err(e) = index.push(slot) {
        entries.cut(number);
        return Err(e);
    }
    Ok(number)
}
