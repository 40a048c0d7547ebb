//! What was found of sets already, so that each is looked at once.
ghost use Rattle.std.specs.Prelude.{◌≡◌, List as Items, IfOk, IfSome, OnOk, Some, option_copied};
ghost use Rattle.std.specs.Bool.{nat_eq};
ghost use Rattle.std.specs.HashMap.{get};
ghost use Rattle.fill_tokens.specs.declared.prices.Prices.{Prices};
ghost use Rattle.fill_tree.specs.Meaning.{atom_tree, source_tree};
ghost use Rattle.fill_arena.specs.Stands.{AtomStands, PlaceStands, SourceStands, PartStands};
ghost use Rattle.fill_arena.specs.declared.entry.Entry.{Entry};
ghost use Rattle.fill_rank.specs.Memo.{IsMemoOf};
ghost use Rattle.fill_arena.specs.Best.{IsBest, IsBestOf};
ghost use Rattle.fill_tree.specs.Order.{atom_rank, place_rank, source_rank};

use crate::bounds::Bounds;
use fill_arena::{AtomSet, PlaceSet, SourceSet};
use fill_text::NoMemory;
use fill_tokens::Place;
use fill_tree::{Atom, Source};
use std::alloc::Global;
use std::collections::HashMap;

/// The best of sets: of a set of atoms the best, and the best that is no constant, if any.
#[derive(Drop)]
pub(crate) struct Memo {
    places: HashMap<PlaceSet, Place>,
    sources: HashMap<SourceSet, Source>,
    parts: HashMap<AtomSet, Option<Atom>>,
    atoms: HashMap<AtomSet, Atom>,
    pub bounds: Bounds,
}

impl Memo {
    /// Nothing was found yet, of a graph of so many edges.
    pub fn new(alloc: Global, edges: usize) -> Result<Memo, NoMemory>
        ensures { IfOk result (λ memo. (prices : Prices) (c : Items Entry) → IsMemoOf prices c memo) }
    {
        Ok(Memo {
            places: HashMap::new(alloc),
            sources: HashMap::new(alloc),
            parts: HashMap::new(alloc),
            atoms: HashMap::new(alloc),
            bounds: Bounds::new(alloc, edges)?,
        })
    }

    pub fn place(&self, s: PlaceSet) -> Option<Place>
        ensures right { (prices : Prices) (c : Items Entry) → IsMemoOf prices c self.now → IfSome result (λ p. IsBest (place_rank prices) (PlaceStands c s) p) }
        ensures found { result ≡ get nat_eq self.now.places s }
    {
        self.places.get(&s).copied()
    }

    pub fn source(&self, s: SourceSet) -> Option<&Source>
        ensures right { (prices : Prices) (c : Items Entry) → IsMemoOf prices c self.now → IfSome result (λ x. IsBest (source_rank prices) (SourceStands c s) (source_tree x.now)) }
        ensures found { option_copied result ≡ get nat_eq self.now.sources s }
    {
        self.sources.get(&s)
    }

    pub fn part(&self, s: AtomSet) -> Option<&Option<Atom>>
        ensures right { (prices : Prices) (c : Items Entry) → IsMemoOf prices c self.now → IfSome result (λ o. IsBestOf atom_tree (atom_rank prices) (PartStands c s) o.now) }
        ensures found { option_copied result ≡ get nat_eq self.now.parts s }
    {
        self.parts.get(&s)
    }

    pub fn atom(&self, s: AtomSet) -> Option<&Atom>
        ensures right { (prices : Prices) (c : Items Entry) → IsMemoOf prices c self.now → IfSome result (λ a. IsBest (atom_rank prices) (AtomStands c s) (atom_tree a.now)) }
        ensures found { option_copied result ≡ get nat_eq self.now.atoms s }
    {
        self.atoms.get(&s)
    }

    pub fn keep_place(&mut self, s: PlaceSet, p: &Place) -> Result<(), NoMemory>
        ensures kept { OnOk result ((prices : Prices) (c : Items Entry) → IsMemoOf prices c self.old → IsBest (place_rank prices) (PlaceStands c s) p.now → IsMemoOf prices c self.new) }
        ensures there { OnOk result (get nat_eq self.new.places s ≡ Some p.now) }
    {
        match self.places.insert(s, *p) {
            Ok(_) => Ok(()),
            Err(_) => Err(NoMemory),
        }
    }

    pub fn keep_source(&mut self, s: SourceSet, x: Source) -> Result<(), NoMemory>
        ensures kept { OnOk result ((prices : Prices) (c : Items Entry) → IsMemoOf prices c self.old → IsBest (source_rank prices) (SourceStands c s) (source_tree x) → IsMemoOf prices c self.new) }
        ensures there { OnOk result (get nat_eq self.new.sources s ≡ Some x) }
    {
        match self.sources.insert(s, x) {
            Ok(_) => Ok(()),
            Err(_) => Err(NoMemory),
        }
    }

    pub fn keep_part(&mut self, s: AtomSet, o: Option<Atom>) -> Result<(), NoMemory>
        ensures kept { OnOk result ((prices : Prices) (c : Items Entry) → IsMemoOf prices c self.old → IsBestOf atom_tree (atom_rank prices) (PartStands c s) o → IsMemoOf prices c self.new) }
        ensures there { OnOk result (get nat_eq self.new.parts s ≡ Some o) }
    {
        match self.parts.insert(s, o) {
            Ok(_) => Ok(()),
            Err(_) => Err(NoMemory),
        }
    }

    pub fn keep_atom(&mut self, s: AtomSet, a: Atom) -> Result<(), NoMemory>
        ensures kept { OnOk result ((prices : Prices) (c : Items Entry) → IsMemoOf prices c self.old → IsBest (atom_rank prices) (AtomStands c s) (atom_tree a) → IsMemoOf prices c self.new) }
        ensures there { OnOk result (get nat_eq self.new.atoms s ≡ Some a) }
    {
        match self.atoms.insert(s, a) {
            Ok(_) => Ok(()),
            Err(_) => Err(NoMemory),
        }
    }
}
