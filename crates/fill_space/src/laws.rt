//! Laws of the definitions that the contracts of this crate cite.
//!
//! Each function does nothing: what it tells is its clauses, which hold for all arenas, numbers and lists of examples.
ghost use Rattle.std.specs.Prelude.{◌≡◌, ◌↔◌, ◌≤◌, ℕ, List, Option};
ghost use Rattle.fill_tree.specs.Tree.{Atoms};
ghost use Rattle.fill_tree.specs.declared.user.Example.{Example};
ghost use Rattle.fill_arena.specs.Contents.{Extends, IsGraph};
ghost use Rattle.fill_arena.specs.WellMade.{IsWellMade};
ghost use Rattle.fill_space.specs.Best.{AreBestOn, BeginsWithChosen};
ghost use Rattle.fill_space.specs.Ground.{Ground, ExplainsOn, FitsOn, WeighsOn};
ghost use Rattle.fill_space.specs.Objector.{ObjectionIs, ObjectionTree};
ghost use Rattle.fill_space.specs.Spaces.{SpacesData, SpaceStands};

/// What a space stands for fits, and lists that one space stands for are explained by the same programs.
pub fn spaces_tell_of_their_ground()
    ensures fits { (s : SpacesData) (k : ℕ) (l : List Example) → SpaceStands s k l → FitsOn s.ground l }
    ensures alike { (s : SpacesData) (k : ℕ) (l m : List Example) → SpaceStands s k l → SpaceStands s k m →
        (p : Atoms) → ExplainsOn s.ground l p ↔ ExplainsOn s.ground m p }
{}

/// A space stands for the same as the arena grows over the same ground, and in the longer one that is then cut back.
pub fn spaces_stand_for_the_same()
    ensures grown { (s t : SpacesData) → t.ground ≡ s.ground → IsWellMade s.arena → Extends s.arena t.arena →
        (k : ℕ) (l : List Example) → SpaceStands s k l → SpaceStands t k l }
    ensures cut { (s t : SpacesData) → t.ground ≡ s.ground → IsWellMade s.arena → Extends s.arena t.arena →
        (k : ℕ) (l : List Example) → IsGraph s.arena k → SpaceStands t k l → SpaceStands s k l }
{}

/// Examples have at most one weight.
pub fn one_weight()
    ensures { (g : Ground) (l : List Example) (v w : ℕ) → WeighsOn g l v → WeighsOn g l w → v ≡ w }
{}

/// Examples have at most one list of best programs of each length. Where some program explains them, it begins with the chosen one.
pub fn best_programs_are_one()
    ensures one { (g : Ground) (l : List Example) (k : ℕ) (ps qs : List Atoms) → AreBestOn g l k ps → AreBestOn g l k qs → ps ≡ qs }
    ensures chosen { (g : Ground) (l : List Example) (k : ℕ) (ps : List Atoms) → 1 ≤ k → FitsOn g l → AreBestOn g l k ps → BeginsWithChosen g l ps }
{}

/// There is at most one objection to what was said of a row.
pub fn objections_are_one()
    ensures { (g : Ground) (l : List Example) (row : ℕ) (said : Option (List ℕ)) (a b : Option ObjectionTree) →
        ObjectionIs g l row said a → ObjectionIs g l row said b → a ≡ b }
{}
