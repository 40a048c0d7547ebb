//! What was found of sets already, so that each is looked at once.
ghost use Rattle.std.specs.Prelude.{IfSome, OnOk};
ghost use Rattle.fill_arena.specs.Stands.{AtomStands, SourceStands, PartStands};
ghost use Rattle.fill_object.specs.Kinds.{atoms_on, sources_on};
ghost use Rattle.fill_object.specs.Memo.{IsMemoOf};
ghost use Rattle.fill_object.specs.Leasts.{AreLeasts};
ghost use Rattle.fill_object.specs.declared.row.OnRow.{OnRow as Row};

use crate::spots::Spots;
use crate::valued::{ValuedAtom, ValuedSource};
use fill_arena::{AtomSet, SourceSet};
use fill_text::NoMemory;
use std::alloc::Global;
use std::collections::HashMap;
use std::rc::Rc;

/// The least of sets by their values on the row: of sources, of the atoms that are no constants, of all atoms, and of
/// places in texts.
#[derive(Drop)]
pub(crate) struct Memo {
    sources: HashMap<SourceSet, Rc<Vec<ValuedSource>>>,
    parts: HashMap<AtomSet, Rc<Vec<ValuedAtom>>>,
    atoms: HashMap<AtomSet, Rc<Vec<ValuedAtom>>>,
    pub spots: Spots,
}

impl Memo {
    pub fn new(alloc: Global) -> Memo
        ensures { (on : Row) → IsMemoOf on result }
    {
        Memo {
            sources: HashMap::new(alloc),
            parts: HashMap::new(alloc),
            atoms: HashMap::new(alloc),
            spots: Spots::new(alloc),
        }
    }

    pub fn sources(&self, s: SourceSet) -> Option<&Rc<Vec<ValuedSource>>>
        ensures { (on : Row) → IsMemoOf on self.now →
            IfSome result (λ o. AreLeasts (sources_on on) (SourceStands on.arena.now s) o.now.value.items) }
    {
        self.sources.get(&s)
    }

    pub fn parts(&self, s: AtomSet) -> Option<&Rc<Vec<ValuedAtom>>>
        ensures { (on : Row) → IsMemoOf on self.now →
            IfSome result (λ o. AreLeasts (atoms_on on) (PartStands on.arena.now s) o.now.value.items) }
    {
        self.parts.get(&s)
    }

    pub fn atoms(&self, s: AtomSet) -> Option<&Rc<Vec<ValuedAtom>>>
        ensures { (on : Row) → IsMemoOf on self.now →
            IfSome result (λ o. AreLeasts (atoms_on on) (AtomStands on.arena.now s) o.now.value.items) }
    {
        self.atoms.get(&s)
    }

    pub fn keep_sources(
        &mut self,
        s: SourceSet,
        leasts: Rc<Vec<ValuedSource>>,
    ) -> Result<(), NoMemory>
        ensures { OnOk result ((on : Row) → IsMemoOf on self.old →
            AreLeasts (sources_on on) (SourceStands on.arena.now s) leasts.value.items → IsMemoOf on self.new) }
    {
        match self.sources.insert(s, leasts) {
            Ok(_) => Ok(()),
            Err(_) => Err(NoMemory),
        }
    }

    pub fn keep_parts(&mut self, s: AtomSet, leasts: Rc<Vec<ValuedAtom>>) -> Result<(), NoMemory>
        ensures { OnOk result ((on : Row) → IsMemoOf on self.old →
            AreLeasts (atoms_on on) (PartStands on.arena.now s) leasts.value.items → IsMemoOf on self.new) }
    {
        match self.parts.insert(s, leasts) {
            Ok(_) => Ok(()),
            Err(_) => Err(NoMemory),
        }
    }

    pub fn keep_atoms(&mut self, s: AtomSet, leasts: Rc<Vec<ValuedAtom>>) -> Result<(), NoMemory>
        ensures { OnOk result ((on : Row) → IsMemoOf on self.old →
            AreLeasts (atoms_on on) (AtomStands on.arena.now s) leasts.value.items → IsMemoOf on self.new) }
    {
        match self.atoms.insert(s, leasts) {
            Ok(_) => Ok(()),
            Err(_) => Err(NoMemory),
        }
    }
}
