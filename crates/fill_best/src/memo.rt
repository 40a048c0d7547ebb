//! What was found of sets already, so that each is looked at once.
ghost use Rattle.std.specs.Prelude.{ℕ, List as Items, IfSome, OnOk};
ghost use Rattle.fill_tokens.specs.Place.{place_cmp};
ghost use Rattle.fill_tokens.specs.Prices.{place_cost};
ghost use Rattle.fill_tokens.specs.declared.prices.Prices.{Prices};
ghost use Rattle.fill_tree.specs.Cost.{atom_cost, source_cost};
ghost use Rattle.fill_tree.specs.Order.{atom_cmp, source_cmp};
ghost use Rattle.fill_arena.specs.Stands.{AtomStands, PlaceStands, SourceStands, PartStands};
ghost use Rattle.fill_arena.specs.declared.entry.Entry.{Entry};
ghost use Rattle.fill_best.specs.Cheapest.{AreCheapest};
ghost use Rattle.fill_best.specs.Memo.{IsMemoOf};

use crate::costed::Costed;
use crate::plain::{PlainAtom, PlainSource};
use fill_arena::{AtomSet, PlaceSet, SourceSet};
use fill_text::NoMemory;
use fill_tokens::Place;
use std::alloc::Global;
use std::collections::HashMap;
use std::rc::Rc;

/// The first of a set, with what they cost. They are shared, not copied.
pub(crate) type Shortlist<T> = Rc<Vec<Costed<T>>>;

/// The first of sets: of places, of sources, of the atoms that are no constants, and of all atoms.
#[derive(Drop)]
pub(crate) struct Memo {
    places: HashMap<PlaceSet, Shortlist<Place>>,
    sources: HashMap<SourceSet, Shortlist<PlainSource>>,
    parts: HashMap<AtomSet, Shortlist<PlainAtom>>,
    atoms: HashMap<AtomSet, Shortlist<PlainAtom>>,
}

impl Memo {
    pub fn new(alloc: Global) -> Memo
        ensures { (prices : Prices) (c : Items Entry) (k : ℕ) → IsMemoOf prices c k result }
    {
        Memo {
            places: HashMap::new(alloc),
            sources: HashMap::new(alloc),
            parts: HashMap::new(alloc),
            atoms: HashMap::new(alloc),
        }
    }

    pub fn places(&self, s: PlaceSet) -> Option<&Shortlist<Place>>
        ensures { (prices : Prices) (c : Items Entry) (k : ℕ) → IsMemoOf prices c k self.now →
            IfSome result (λ o. AreCheapest (place_cost prices) place_cmp (PlaceStands c s) k o.now.value.items) }
    {
        self.places.get(&s)
    }

    pub fn sources(&self, s: SourceSet) -> Option<&Shortlist<PlainSource>>
        ensures { (prices : Prices) (c : Items Entry) (k : ℕ) → IsMemoOf prices c k self.now →
            IfSome result (λ o. AreCheapest (source_cost prices) source_cmp (SourceStands c s) k o.now.value.items) }
    {
        self.sources.get(&s)
    }

    pub fn parts(&self, s: AtomSet) -> Option<&Shortlist<PlainAtom>>
        ensures { (prices : Prices) (c : Items Entry) (k : ℕ) → IsMemoOf prices c k self.now →
            IfSome result (λ o. AreCheapest (atom_cost prices) atom_cmp (PartStands c s) k o.now.value.items) }
    {
        self.parts.get(&s)
    }

    pub fn atoms(&self, s: AtomSet) -> Option<&Shortlist<PlainAtom>>
        ensures { (prices : Prices) (c : Items Entry) (k : ℕ) → IsMemoOf prices c k self.now →
            IfSome result (λ o. AreCheapest (atom_cost prices) atom_cmp (AtomStands c s) k o.now.value.items) }
    {
        self.atoms.get(&s)
    }

    pub fn keep_places(&mut self, s: PlaceSet, shortlist: Shortlist<Place>) -> Result<(), NoMemory>
        ensures { OnOk result ((prices : Prices) (c : Items Entry) (k : ℕ) → IsMemoOf prices c k self.old →
            AreCheapest (place_cost prices) place_cmp (PlaceStands c s) k shortlist.value.items → IsMemoOf prices c k self.new) }
    {
        match self.places.insert(s, shortlist) {
            Ok(_) => Ok(()),
            Err(_) => Err(NoMemory),
        }
    }

    pub fn keep_sources(
        &mut self,
        s: SourceSet,
        shortlist: Shortlist<PlainSource>,
    ) -> Result<(), NoMemory>
        ensures { OnOk result ((prices : Prices) (c : Items Entry) (k : ℕ) → IsMemoOf prices c k self.old →
            AreCheapest (source_cost prices) source_cmp (SourceStands c s) k shortlist.value.items → IsMemoOf prices c k self.new) }
    {
        match self.sources.insert(s, shortlist) {
            Ok(_) => Ok(()),
            Err(_) => Err(NoMemory),
        }
    }

    pub fn keep_parts(
        &mut self,
        s: AtomSet,
        shortlist: Shortlist<PlainAtom>,
    ) -> Result<(), NoMemory>
        ensures { OnOk result ((prices : Prices) (c : Items Entry) (k : ℕ) → IsMemoOf prices c k self.old →
            AreCheapest (atom_cost prices) atom_cmp (PartStands c s) k shortlist.value.items → IsMemoOf prices c k self.new) }
    {
        match self.parts.insert(s, shortlist) {
            Ok(_) => Ok(()),
            Err(_) => Err(NoMemory),
        }
    }

    pub fn keep_atoms(
        &mut self,
        s: AtomSet,
        shortlist: Shortlist<PlainAtom>,
    ) -> Result<(), NoMemory>
        ensures { OnOk result ((prices : Prices) (c : Items Entry) (k : ℕ) → IsMemoOf prices c k self.old →
            AreCheapest (atom_cost prices) atom_cmp (AtomStands c s) k shortlist.value.items → IsMemoOf prices c k self.new) }
    {
        match self.atoms.insert(s, shortlist) {
            Ok(_) => Ok(()),
            Err(_) => Err(NoMemory),
        }
    }
}
