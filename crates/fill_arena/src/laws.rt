//! Laws of the definitions that the contracts of this crate cite.
//!
//! Each function does nothing: what it tells is its clauses, which hold for all arenas, trees and numbers.
ghost use Rattle.std.specs.Prelude.{◌≡◌, ◌↔◌, ◌≤◌, ◌<◌, ◌^◌, ℕ, List, length, take};
ghost use Rattle.fill_tokens.specs.Prices.{ArePrices};
ghost use Rattle.fill_tokens.specs.declared.place.Place.{Place};
ghost use Rattle.fill_tokens.specs.declared.prices.Prices.{Prices};
ghost use Rattle.fill_tree.specs.Cost.{atom_cost, conditions_cost, program_cost, source_cost};
ghost use Rattle.fill_tree.specs.Tree.{SourceTree, AtomTree, Atoms};
ghost use Rattle.fill_arena.specs.Contents.{EachIn, Extends, HasEdges, IsAtomSet, IsGraph, IsPlaceSet, IsSourceSet};
ghost use Rattle.fill_arena.specs.Stands.{AtomStands, ConditionsFit, PlaceStands, ProgramStands, SourceStands, Walks};
ghost use Rattle.fill_arena.specs.WellMade.{IsConditionItem, IsWellMade};
ghost use Rattle.fill_arena.specs.declared.entry.ConditionItem.{ConditionItem};
ghost use Rattle.fill_arena.specs.declared.entry.Edge.{Edge};
ghost use Rattle.fill_arena.specs.declared.entry.Entry.{Entry};

/// A number stands for the same in every arena that extends its own: as the arena grows, and in the longer one that is
/// then cut back.
pub fn numbers_stand_for_the_same()
    ensures places { (c d : List Entry) → IsWellMade c → Extends c d → (s : ℕ) (p : Place) → IsPlaceSet c s → PlaceStands c s p ↔ PlaceStands d s p }
    ensures sources { (c d : List Entry) → IsWellMade c → Extends c d → (s : ℕ) (x : SourceTree) → IsSourceSet c s → SourceStands c s x ↔ SourceStands d s x }
    ensures atoms { (c d : List Entry) → IsWellMade c → Extends c d → (s : ℕ) (a : AtomTree) → IsAtomSet c s → AtomStands c s a ↔ AtomStands d s a }
    ensures programs { (c d : List Entry) → IsWellMade c → Extends c d → (g : ℕ) (p : Atoms) → IsGraph c g → ProgramStands c g p ↔ ProgramStands d g p }
{}

/// An arena extends itself and what it was extended from, and the front of one that extends it is the arena itself.
#[tactic(auto, using(crate::proofs::Lists::extends_same, crate::proofs::Lists::extends_on, crate::proofs::Lists::extends_front))]
pub fn arenas_extend()
    ensures same { (c : List Entry) → Extends c c }
    ensures on { (c d e : List Entry) → Extends c d → Extends d e → Extends c e }
    ensures front { (c d : List Entry) → Extends c d → take (length c) d ≡ c }
{}

/// Something stands in every set, and some program in every graph.
pub fn something_stands()
    ensures places { (c : List Entry) → IsWellMade c → (s : ℕ) → IsPlaceSet c s → (p : Place) × PlaceStands c s p }
    ensures sources { (c : List Entry) → IsWellMade c → (s : ℕ) → IsSourceSet c s → (x : SourceTree) × SourceStands c s x }
    ensures atoms { (c : List Entry) → IsWellMade c → (s : ℕ) → IsAtomSet c s → (a : AtomTree) × AtomStands c s a }
    ensures programs { (c : List Entry) → IsWellMade c → (g : ℕ) → IsGraph c g → (p : Atoms) × ProgramStands c g p }
{}

/// The cost of what stands in a set or a graph, by any prices of 16 bits, is one of 64 bits: of a source, of an atom, of a
/// row of up to three conditions, of a program, and of what follows a node on a walk.
pub fn costs_are_present()
    ensures sources { (prices : Prices) → ArePrices prices → (c : List Entry) → IsWellMade c → (s : ℕ) (x : SourceTree) →
        SourceStands c s x → source_cost prices x < 2 ^ 64 }
    ensures atoms { (prices : Prices) → ArePrices prices → (c : List Entry) → IsWellMade c → (s : ℕ) (a : AtomTree) →
        AtomStands c s a → atom_cost prices a < 2 ^ 64 }
    ensures conditions { (prices : Prices) → ArePrices prices → (c : List Entry) → IsWellMade c → (n : ℕ) (items : List ConditionItem) (row : Atoms) →
        EachIn (IsConditionItem c n) items → length items ≤ 3 → ConditionsFit row c items → conditions_cost prices row < 2 ^ 64 }
    ensures programs { (prices : Prices) → ArePrices prices → (c : List Entry) → IsWellMade c → (g : ℕ) (p : Atoms) →
        ProgramStands c g p → program_cost prices p < 2 ^ 64 }
    ensures rests { (prices : Prices) → ArePrices prices → (c : List Entry) → IsWellMade c → (g : ℕ) (edges : List Edge) (last at : ℕ) (p : Atoms) →
        HasEdges c g edges → Walks p c edges last at → program_cost prices p < 2 ^ 64 }
{}
