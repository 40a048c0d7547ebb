//! Laws of the definitions that the contracts of this crate cite.
//!
//! Each function does nothing: what it tells is its clauses, which hold for all plain literals and guards.
ghost use Rattle.std.specs.Prelude.{◌≡◌};
ghost use Rattle.std.specs.Ordering.{ordering_reverse};
ghost use Rattle.std.specs.Cmp.{IsTotalOrder};
ghost use Rattle.std.specs.declared.cmp.Ordering.TheVariants.{Equal};
ghost use Rattle.fill_tree.specs.Separate.{literal_cmp, guard_cmp};
ghost use Rattle.fill_tree.specs.declared.guard.Literal.{Literal};
ghost use Rattle.fill_tree.specs.declared.guard.Guard.{Guard};

/// Literals are in a total order, and only equal literals are alike in it.
#[tactic(auto, using(crate::proofs::GuardOrder::literal_total, crate::proofs::GuardOrder::literal_antisymm))]
pub fn literals_are_ordered()
    ensures antisymmetric { (a b : Literal) → literal_cmp a b ≡ ordering_reverse (literal_cmp b a) }
    ensures total { IsTotalOrder literal_cmp }
    ensures exact { (a b : Literal) → literal_cmp a b ≡ Equal → a ≡ b }
{}

/// Guards are in a total order, and only equal guards are alike in it.
#[tactic(auto, using(crate::proofs::GuardOrder::guard_total, crate::proofs::GuardOrder::guard_antisymm))]
pub fn guards_are_ordered()
    ensures antisymmetric { (a b : Guard) → guard_cmp a b ≡ ordering_reverse (guard_cmp b a) }
    ensures total { IsTotalOrder guard_cmp }
    ensures exact { (a b : Guard) → guard_cmp a b ≡ Equal → a ≡ b }
{}
