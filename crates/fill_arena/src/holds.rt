//! Which trees stand in sets and graphs.
ghost use Rattle.std.specs.Prelude.{◌≡◌, ℕ, ◌+◌, ◌<◌, ◌≤◌, ◌↔◌, length, drop, map, IsTrue, Some, slice_get};
ghost use Rattle.fill_tree.specs.Meaning.{atom_tree, program_tree, select_tree, source_tree};
ghost use Rattle.fill_tree.specs.Tree.{atoms_of};
ghost use Rattle.fill_arena.specs.Contents.{EachIn, In, IsAtomSet, IsGraph, IsPlaceSet, IsSourceSet};
ghost use Rattle.fill_arena.specs.Stands.{AtomFits, AtomStands, ConditionFits, ConditionsFit, PlaceStands, ProgramStands, SourceFits, SourceStands, Walks};
ghost use Rattle.fill_arena.specs.WellMade.{IsAtomItem, IsConditionItem, IsSourceItem};

use crate::arena::Arena;
use crate::entry::{AtomItem, ConditionItem, Edge, SelectItem, SourceItem};
use crate::numbers::{AtomSet, GraphId, PlaceSet, SourceSet};
use fill_tokens::Place;
use fill_tree::{Atom, Program, Select, Source, has_part};

impl Arena {
    /// Whether the program stands in the graph.
    ///
    /// It goes along the edges on which the next atom stands, and back where none leads on. So where an atom leads from
    /// a node along one edge at most, it looks at all edges once for each atom.
    pub fn holds(&self, g: GraphId, p: &Program) -> bool
        requires { IsGraph self.now g }
        ensures { IsTrue result ↔ ProgramStands self.now g (program_tree p.now) }
    {
        self.keeps_made();
        let last = self.nodes(g) - 1;
        walks(self, self.edges(g), last, p.atoms.as_slice(), 0, 0)
    }
}

/// Whether a walk from a node to the last one has the atoms from the next one on.
#[cycle(walks)]
fn walks(arena: &Arena, edges: &[Edge], last: usize, atoms: &[Atom], next: usize, at: usize) -> bool
    requires sets { EachIn (λ e. IsAtomSet arena.now e.atoms) edges.now }
    requires within { next ≤ length atoms.now }
    ensures { IsTrue result ↔ Walks (atoms_of (map atom_tree (drop next atoms.now))) arena.now edges.now last at }
{
    if next == atoms.len() {
        return at == last;
    }
    for i in 0..edges.len() {
        if leads(arena, edges, last, atoms, next, at, i) {
            return true;
        }
    }
    false
}

/// Whether such a walk begins with this edge.
#[cycle(walks)]
fn leads(
    arena: &Arena,
    edges: &[Edge],
    last: usize,
    atoms: &[Atom],
    next: usize,
    at: usize,
    i: usize,
) -> bool
    requires sets { EachIn (λ e. IsAtomSet arena.now e.atoms) edges.now }
    requires within { next < length atoms.now }
    requires edge { i < length edges.now }
    ensures { (e : Edge) (a : Atom) → slice_get edges.now i ≡ Some e → slice_get atoms.now next ≡ Some a → IsTrue result ↔
        ((e.from ≡ at) × AtomStands arena.now e.atoms (atom_tree a) × Walks (atoms_of (map atom_tree (drop (next + 1) atoms.now))) arena.now edges.now last e.to) }
{
    let edge = edges[i];
    if edge.from != at {
        return false;
    }
    if !atom_stands(arena, edge.atoms, &atoms[next]) {
        return false;
    }
    walks(arena, edges, last, atoms, next + 1, edge.to)
}

/// Whether the atom stands in the set.
#[cycle(holds)]
fn atom_stands(arena: &Arena, s: AtomSet, atom: &Atom) -> bool
    requires { IsAtomSet arena.now s }
    ensures { IsTrue result ↔ AtomStands arena.now s (atom_tree atom.now) }
{
    arena.keeps_made();
    let items = arena.atoms(s);
    for item in items {
        if atom_fits(arena, item, atom) {
            return true;
        }
    }
    false
}

/// Whether the item stands for the atom.
#[cycle(holds)]
fn atom_fits(arena: &Arena, item: &AtomItem, atom: &Atom) -> bool
    requires { (n : ℕ) × IsAtomItem arena.now n item.now }
    ensures { IsTrue result ↔ AtomFits (atom_tree atom.now) arena.now item.now }
{
    match (item, atom) {
        (AtomItem::Const(listed), Atom::Const(text)) => listed.same(text),
        (AtomItem::Whole(sources), Atom::Whole(source)) => source_stands(arena, *sources, source),
        (AtomItem::Sub(sources, lefts, rights), Atom::Sub(source, left, right)) => {
            if !place_stands(arena, *lefts, left) {
                return false;
            }
            if !place_stands(arena, *rights, right) {
                return false;
            }
            source_stands(arena, *sources, source)
        }
        _ => false,
    }
}

/// Whether the place stands in the set.
fn place_stands(arena: &Arena, s: PlaceSet, place: &Place) -> bool
    requires { IsPlaceSet arena.now s }
    ensures { IsTrue result ↔ PlaceStands arena.now s place.now }
{
    arena.keeps_made();
    has_place(arena.places(s), place)
}

/// Whether places in order have this one.
fn has_place(places: &[Place], place: &Place) -> bool
    ensures { IsTrue result ↔ In place.now places.now }
{
    for i in 0..places.len() {
        if places[i].same(place) {
            return true;
        }
    }
    false
}

/// Whether the source stands in the set.
#[cycle(holds)]
fn source_stands(arena: &Arena, s: SourceSet, source: &Source) -> bool
    requires { IsSourceSet arena.now s }
    ensures { IsTrue result ↔ SourceStands arena.now s (source_tree source.now) }
{
    arena.keeps_made();
    let items = arena.sources(s);
    for item in items {
        if source_fits(arena, item, source) {
            return true;
        }
    }
    false
}

/// Whether the item stands for the source.
#[cycle(holds)]
fn source_fits(arena: &Arena, item: &SourceItem, source: &Source) -> bool
    requires { (n : ℕ) × IsSourceItem arena.now n item.now }
    ensures { IsTrue result ↔ SourceFits (source_tree source.now) arena.now item.now }
{
    match (item, source) {
        (SourceItem::Col(listed), Source::Col(column)) => *listed == *column,
        (SourceItem::Select(listed), Source::Select(select)) => select_fits(arena, listed, select),
        _ => false,
    }
}

/// Whether the item stands for the lookup.
#[cycle(holds)]
fn select_fits(arena: &Arena, item: &SelectItem, select: &Select) -> bool
    requires { (n : ℕ) × IsSourceItem arena.now n (SourceItem.Select item.now) }
    ensures { IsTrue result ↔ SourceFits (select_tree select.now) arena.now (SourceItem.Select item.now) }
{
    if item.column != select.column || item.table != select.table || item.key != select.key {
        return false;
    }
    let conditions = select.conditions.as_slice();
    if !has_part(conditions) {
        return false;
    }
    conditions_fit(arena, item.conditions.as_slice(), conditions)
}

/// Whether each condition stands in its item.
#[cycle(holds)]
fn conditions_fit(arena: &Arena, items: &[ConditionItem], conditions: &[Atom]) -> bool
    requires { (n : ℕ) × EachIn (IsConditionItem arena.now n) items.now }
    ensures { IsTrue result ↔ ConditionsFit (atoms_of (map atom_tree conditions.now)) arena.now items.now }
{
    if items.len() != conditions.len() {
        return false;
    }
    for i in 0..conditions.len() {
        if !condition_fits(arena, &items[i], &conditions[i]) {
            return false;
        }
    }
    true
}

/// Whether the condition stands in the item.
#[cycle(holds)]
fn condition_fits(arena: &Arena, item: &ConditionItem, atom: &Atom) -> bool
    requires { (n : ℕ) × IsConditionItem arena.now n item.now }
    ensures { IsTrue result ↔ ConditionFits (atom_tree atom.now) arena.now item.now (AtomFits (atom_tree atom.now) arena.now) }
{
    if let Atom::Const(text) = atom {
        return match &item.constant {
            Some(constant) => constant.same(text),
            None => false,
        };
    }
    match item.atoms {
        Some(atoms) => atom_stands(arena, atoms, atom),
        None => false,
    }
}
