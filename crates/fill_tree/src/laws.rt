//! Laws of the definitions that the contracts of this crate cite.
//!
//! Each function does nothing: what it tells is its clauses, which hold for all plain trees.
ghost use Rattle.std.specs.Prelude.{◌≡◌, ◌≢◌, ◌↔◌, ◌++◌, ◌∷◌, [], ℕ, List, false};
ghost use Rattle.std.specs.Cmp.{IsTotalOrder};
ghost use Rattle.std.specs.declared.cmp.Ordering.TheVariants.{Equal};
ghost use Rattle.fill_text.specs.Classes.{is_separator};
ghost use Rattle.fill_text.specs.Data.{SheetData, TableData};
ghost use Rattle.fill_tokens.specs.declared.prices.Prices.{Prices};
ghost use Rattle.fill_tokens.specs.declared.prices.TheConstants.Prices as price;
ghost use Rattle.fill_tokens.specs.declared.token_set.TheConstants.TokenSet as token_set;
ghost use Rattle.fill_tree.specs.Tree.{SourceTree, AtomTree, Atoms, constant, end, more};
ghost use Rattle.fill_tree.specs.Cost.{program_cost};
ghost use Rattle.fill_tree.specs.declared.profile.TheConstants.Profile as profile;
ghost use Rattle.fill_tree.specs.Order.{source_cmp, atom_cmp, atoms_cmp, program_cmp, Before, NotAfter, OneIsBefore};
ghost use Rattle.fill_tree.specs.Chosen.{Explains, IsChosen};
ghost use Rattle.fill_tables.specs.Keys.{KeysDistinguish};
ghost use Rattle.fill_tree.specs.Switch.{SwitchTree};
ghost use Rattle.fill_tree.specs.Guard.{Takes, SwitchIs};
ghost use Rattle.fill_tree.specs.Value.{SourceIs, AtomIs, ConditionIs, ProgramIs};
ghost use Rattle.fill_tree.specs.declared.user.Settings.{Settings};
ghost use Rattle.fill_tree.specs.declared.user.Example.{Example};

use crate::profile::Placing;
use crate::user::{MOST_CHARACTERS, MOST_EXAMPLES, MOST_PROGRAMS};

/// Sources are in a total order, and only equal sources are alike in it.
#[tactic(auto, using(crate::proofs::TreeOrder::source_total, crate::proofs::TreeOrder::exact_sources))]
pub fn sources_are_ordered()
    ensures total { IsTotalOrder source_cmp }
    ensures exact { (a : SourceTree) → (b : SourceTree) → source_cmp a b ≡ Equal → a ≡ b }
{}

/// Atoms are in a total order, and only equal atoms are alike in it.
#[tactic(auto, using(crate::proofs::TreeOrder::atom_total, crate::proofs::TreeOrder::exact_atoms))]
pub fn atoms_are_ordered()
    ensures total { IsTotalOrder atom_cmp }
    ensures exact { (a : AtomTree) → (b : AtomTree) → atom_cmp a b ≡ Equal → a ≡ b }
{}

/// Programs are in a total order by their atoms, and only equal programs are alike in it.
#[tactic(auto, using(crate::proofs::TreeOrder::atoms_total, crate::proofs::TreeOrder::exact_atom_lists))]
pub fn programs_are_ordered()
    ensures total { IsTotalOrder atoms_cmp }
    ensures exact { (p : Atoms) → (q : Atoms) → atoms_cmp p q ≡ Equal → p ≡ q }
{}

/// So are they by their cost, by any prices, and then their atoms.
#[tactic(auto, using(crate::proofs::ProgramOrder::program_total, crate::proofs::ProgramOrder::exact_programs))]
pub fn programs_are_ordered_by_cost()
    ensures total { (prices : Prices) → IsTotalOrder (program_cmp prices) }
    ensures exact { (prices : Prices) → (p : Atoms) → (q : Atoms) → program_cmp prices p q ≡ Equal → p ≡ q }
{}

/// A letter or digit as a program costs 27 by the first two profiles, and 55 by the third.
#[tactic(auto, using(crate::proofs::Examples::letter_by_first, crate::proofs::Examples::letter_by_second, crate::proofs::Examples::letter_by_third))]
pub fn letters_have_their_cost()
    ensures first { (c : ℕ) → is_separator c ≡ false → (let p = profile.FIRST in program_cost p.prices (more (constant (c ∷ [])) end)) ≡ 27 }
    ensures second { (c : ℕ) → is_separator c ≡ false → (let p = profile.SECOND in program_cost p.prices (more (constant (c ∷ [])) end)) ≡ 27 }
    ensures third { (c : ℕ) → is_separator c ≡ false → (let p = profile.THIRD in program_cost p.prices (more (constant (c ∷ [])) end)) ≡ 55 }
{}

/// What each profile is: its tokens, its prices, how its examples are placed, and how deep its lookups may stand.
pub fn profiles_are_as_specified()
    ensures first { profile.FIRST ≡ record {
      tokens = token_set.FIRST;
      prices = price.FIRST;
      placing = Placing.FirstFit;
      depth = 2;
    } }
    ensures second { profile.SECOND ≡ record {
      tokens = token_set.SECOND;
      prices = price.FIRST;
      placing = Placing.LeastCost;
      depth = 3;
    } }
    ensures third { profile.THIRD ≡ record {
      tokens = token_set.THIRD;
      prices = price.THIRD;
      placing = Placing.FirstFit;
      depth = 3;
    } }
{}

/// How much users may give and ask for.
pub fn limits_are_as_specified()
    ensures examples { MOST_EXAMPLES ≡ 64 }
    ensures characters { MOST_CHARACTERS ≡ 100 }
    ensures programs { MOST_PROGRAMS ≡ 20 }
{}

/// Of two different programs exactly one is before the other.
#[tactic(auto, using(crate::proofs::ProgramOrder::one_is_before))]
pub fn one_is_before()
    ensures { (prices : Prices) → (p : Atoms) → (q : Atoms) → p ≢ q → OneIsBefore prices p q }
{}

/// A program with an earlier first atom, or with the same one and an earlier rest, is earlier. So the least of programs
/// whose first atoms and rests are free of each other is the least first atom before the least rest.
pub fn earlier_parts_make_earlier_programs()
    ensures head { (prices : Prices) → (a : AtomTree) → (b : AtomTree) → (p : Atoms) → (q : Atoms) →
        Before prices (more a end) (more b end) → NotAfter prices p q → Before prices (more a p) (more b q) }
    ensures tail { (prices : Prices) → (a : AtomTree) → (b : AtomTree) → (p : Atoms) → (q : Atoms) →
        NotAfter prices (more a end) (more b end) → Before prices p q → Before prices (more a p) (more b q) }
    ensures both { (prices : Prices) → (a : AtomTree) → (b : AtomTree) → (p : Atoms) → (q : Atoms) →
        NotAfter prices (more a end) (more b end) → NotAfter prices p q → NotAfter prices (more a p) (more b q) }
    ensures head_back { (prices : Prices) → (a : AtomTree) → (b : AtomTree) → (p : Atoms) →
        NotAfter prices (more a p) (more b p) → NotAfter prices (more a end) (more b end) }
    ensures tail_back { (prices : Prices) → (a : AtomTree) → (p : Atoms) → (q : Atoms) → NotAfter prices (more a p) (more a q) → NotAfter prices p q }
{}

/// A program explains two lists of examples together exactly where it explains each of them.
pub fn lists_are_explained_together()
    ensures { (settings : Settings) → (sheet : SheetData) → (tables : List TableData) → (examples : List Example) →
        (others : List Example) → (p : Atoms) → Explains settings sheet tables (examples ++ others) p
        ↔ (Explains settings sheet tables examples p × Explains settings sheet tables others p) }
{}

/// At most one program is chosen for examples.
pub fn one_is_chosen()
    ensures { (settings : Settings) → (sheet : SheetData) → (tables : List TableData) → (examples : List Example) →
        (p : Atoms) → (q : Atoms) →
        IsChosen settings sheet tables examples p → IsChosen settings sheet tables examples q → p ≡ q }
{}

/// A row takes exactly one program of a conditional program.
pub fn one_program_is_taken()
    ensures some { (sheet : SheetData) → (row : ℕ) → (s : SwitchTree) → (p : Atoms) × Takes sheet row s p }
    ensures one { (sheet : SheetData) → (row : ℕ) → (s : SwitchTree) → (p : Atoms) → (q : Atoms) →
        Takes sheet row s p → Takes sheet row s q → p ≡ q }
{}

/// A tree or a conditional program has at most one value on a row, where the keys of the tables distinguish their rows.
pub fn values_are_unique()
    ensures sources { (sheet : SheetData) → (tables : List TableData) → KeysDistinguish tables → (row : ℕ) → (s : SourceTree) →
        (v : List ℕ) → (w : List ℕ) → SourceIs sheet tables row s v → SourceIs sheet tables row s w → v ≡ w }
    ensures atoms { (sheet : SheetData) → (tables : List TableData) → KeysDistinguish tables → (row : ℕ) → (a : AtomTree) →
        (v : List ℕ) → (w : List ℕ) → AtomIs sheet tables row a v → AtomIs sheet tables row a w → v ≡ w }
    ensures conditions { (sheet : SheetData) → (tables : List TableData) → KeysDistinguish tables → (row : ℕ) → (a : AtomTree) →
        (v : List ℕ) → (w : List ℕ) → ConditionIs sheet tables row a v → ConditionIs sheet tables row a w → v ≡ w }
    ensures programs { (sheet : SheetData) → (tables : List TableData) → KeysDistinguish tables → (row : ℕ) → (p : Atoms) →
        (v : List ℕ) → (w : List ℕ) → ProgramIs sheet tables row p v → ProgramIs sheet tables row p w → v ≡ w }
    ensures switches { (sheet : SheetData) → (tables : List TableData) → KeysDistinguish tables → (row : ℕ) → (s : SwitchTree) →
        (v : List ℕ) → (w : List ℕ) → SwitchIs sheet tables row s v → SwitchIs sheet tables row s w → v ≡ w }
{}
