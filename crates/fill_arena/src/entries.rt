//! The sets and graphs of an arena under their numbers.
ghost use Rattle.std.specs.Prelude.{◌≡◌, ℕ, ◌<◌, ◌≤◌, [], ◌∷◌, ◌++◌, length, take, slice_get, Some, OnOk, OnErr, MatchResult};
ghost use Rattle.std.specs.Option.{unwrap_or};
ghost use Rattle.fill_arena.specs.declared.entry.Entry.{Entry as Listed};
ghost use Rattle.fill_arena.specs.Entries.{AreInPool, EdgesLeadOn, IsItems, entry_at, entry_of};

use crate::entry::{AtomItem, Entry, SourceItem};
use crate::order::Edges;
use fill_pool::{Pool, PoolMark, Span};
use fill_text::{List, NoMemory};
use fill_tokens::Place;
use std::alloc::Global;
use std::marker::Model;
use std::slice;

/// What stands under one number, lent.
#[derive(Clone, Copy)]
pub(crate) enum Content<'a> {
    Places(&'a [Place]),
    Sources(&'a [SourceItem]),
    Atoms(&'a [AtomItem]),
    Graph(usize, &'a Edges),
}

/// What is kept under one number. A set of places is kept as its slice of the pool, and with it what the pool had
/// before; a set of one atom, as most of them are, without a list. The edges of a graph are boxed, since there are few graphs
/// and millions of sets.
#[derive(Debug, Drop)]
enum Stored {
    Places(Span, PoolMark),
    Sources(List<SourceItem>),
    Atom(AtomItem),
    Atoms(List<AtomItem>),
    Graph(usize, Box<Edges>),
}

/// Sets and graphs in the order of their numbers. The sets of places are the slices of one pool.
#[derive(Debug, Drop)]
pub(crate) struct Entries {
    stored: Vec<Stored>,
    places: Pool<Place>,
}

impl Model for Entries {
    ghost use Rattle.std.specs.Prelude.{List, map, length};
    ghost use Rattle.fill_arena.specs.declared.entry.Entry.{Entry};
    ghost use Rattle.fill_arena.specs.Entries.{AreInPool, entry_at};

    ghost Value = { List Entry };

    ghost view = { λ e. map (entry_at e.places) e.stored.items };

    ghost invariant = { λ e. AreInPool 0 e.stored.items (length e.places) };
}

impl Entries {
    /// None, which takes no memory.
    pub(crate) fn new(alloc: Global) -> Entries
        ensures { result ≡ [] }
    {
        Entries {
            stored: Vec::new(alloc),
            places: Pool::new(alloc),
        }
    }

    /// The allocator that they were made with.
    pub(crate) fn alloc(&self) -> Global {
        *self.stored.allocator()
    }

    /// How many there are.
    pub(crate) fn len(&self) -> usize
        ensures { result ≡ length self.now }
    {
        self.stored.len()
    }

    /// What stands under a number.
    pub(crate) fn get(&self, number: usize) -> Content<'_>
        requires { number < length self.now }
        ensures { slice_get self.now number ≡ Some (entry_of result) }
    {
        match &self.stored[number] {
            Stored::Places(span, _) => Content::Places(self.places.slice(*span)),
            Stored::Sources(items) => Content::Sources(items.as_slice()),
            Stored::Atom(item) => Content::Atoms(slice::from_ref(item)),
            Stored::Atoms(items) => Content::Atoms(items.as_slice()),
            Stored::Graph(nodes, edges) => Content::Graph(*nodes, edges),
        }
    }

    /// Puts an entry at the end.
    pub(crate) fn push(&mut self, entry: Entry) -> Result<(), NoMemory>
        requires { EdgesLeadOn entry }
        ensures ok { OnOk result (self.new ≡ self.old ++ entry ∷ []) }
        ensures err { OnErr result (self.new ≡ self.old) }
    {
        match entry {
            Entry::Places(places) => self.push_places(places.as_slice()),
            Entry::Sources(items) => self.push_items(Stored::Sources(items)),
            Entry::Atoms(items) => self.push_atoms(items),
            Entry::Graph(nodes, edges) => {
                let edges = Edges::new(self.alloc(), nodes, edges)?;
                let boxed = Box::new(self.alloc(), edges)?;
                self.push_items(Stored::Graph(nodes, boxed))
            }
        }
    }

    /// Puts a set of places at the end.
    fn push_places(&mut self, places: &[Place]) -> Result<(), NoMemory>
        ensures ok { OnOk result (self.new ≡ self.old ++ Listed.Places places.now ∷ []) }
        ensures err { OnErr result (self.new ≡ self.old) }
    {
        self.stored.reserve(1)?;
        let before = self.places.mark();
        let span = self.places.append(places)?;
        self.stored.push_reserved(Stored::Places(span, before));
        Ok(())
    }

    /// Puts a set of atoms at the end.
    fn push_atoms(&mut self, items: List<AtomItem>) -> Result<(), NoMemory>
        ensures ok { OnOk result (self.new ≡ self.old ++ Listed.Atoms items ∷ []) }
        ensures err { OnErr result (self.new ≡ self.old) }
    {
        match sole(items) {
            Ok(item) => self.push_items(Stored::Atom(item)),
            Err(items) => self.push_items(Stored::Atoms(items)),
        }
    }

    /// Puts an entry of another kind at the end.
    fn push_items(&mut self, stored: Stored) -> Result<(), NoMemory>
        requires { IsItems stored }
        ensures ok { OnOk result (self.new ≡ self.old ++ entry_at [] stored ∷ []) }
        ensures err { OnErr result (self.new ≡ self.old) }
    {
        self.stored.push(stored)?;
        Ok(())
    }

    /// Takes away all but the first ones, with their places.
    pub(crate) fn cut(&mut self, count: usize)
        requires { count ≤ length self.old }
        ensures { self.new ≡ take count self.old }
    {
        let end = first_mark(self.stored.as_slice(), count);
        self.stored.truncate(count);
        if let Some(mark) = end {
            self.places.cut(mark);
        }
    }
}

/// The atom of a list of one, or the list where it has another number of them.
fn sole(items: List<AtomItem>) -> Result<AtomItem, List<AtomItem>>
    ensures { MatchResult result (λ item. items ≡ item ∷ []) (λ list. list ≡ items) }
{
    let mut all = items.into_vec();
    if all.len() == 1 {
        if let Some(item) = all.pop() {
            return Ok(item);
        }
    }
    Err(List::from_vec(all))
}

/// What the pool had before the first set of places from a number on, if there is one.
fn first_mark(stored: &[Stored], from: usize) -> Option<PoolMark>
    requires { from ≤ length stored.now }
    ensures { (n : ℕ) → AreInPool 0 stored.now n → AreInPool 0 (take from stored.now) (unwrap_or result n) }
{
    for i in from..stored.len() {
        if let Stored::Places(_, before) = &stored[i] {
            return Some(*before);
        }
    }
    None
}
