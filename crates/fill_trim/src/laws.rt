//! Laws of the definitions that the contracts of this crate cite.
//!
//! Each function does nothing: what it tells is its clause, which holds for all graphs, arenas and programs.
ghost use Rattle.std.specs.Prelude.{◌↔◌, ℕ, ◌-◌, List};
ghost use Rattle.fill_tree.specs.Tree.{Atoms};
ghost use Rattle.fill_arena.specs.Stands.{Walks};
ghost use Rattle.fill_arena.specs.declared.entry.Edge.{Edge};
ghost use Rattle.fill_arena.specs.declared.entry.Entry.{Entry};
ghost use Rattle.fill_trim.specs.Trim.{HasWalk, IsTrimmed};
ghost use Rattle.fill_trim.specs.declared.trim.Trimmed.{Trimmed};

/// Where the walks between two nodes have the same sets, they have the same programs in every arena; so a trimmed graph
/// has the programs of the graph that it is made of.
pub fn same_walks_have_the_same_programs()
    ensures walks { (xs ys : List Edge) (from to at last : ℕ) → ((sets : List ℕ) → HasWalk sets xs from to ↔ HasWalk sets ys at last) →
        (c : List Entry) (p : Atoms) → Walks p c xs to from ↔ Walks p c ys last at }
    ensures trimmed { (nodes : ℕ) (edges : List Edge) (t : Trimmed) → IsTrimmed nodes edges t →
        (c : List Entry) (p : Atoms) → Walks p c t.edges (t.nodes - 1) 0 ↔ Walks p c edges (nodes - 1) 0 }
{}
