//! The branches of a list of items.
ghost use Rattle.std.specs.Prelude.{◌≡◌, ℕ, ◌+◌, ◌*◌, ◌≤◌, List as Listed, [], drop, length, IfOk, IfErr, OnOk, OnErr};
ghost use Rattle.std.specs.List.{All};
ghost use Rattle.fill_split.specs.Keeping.{Keeps, KeepsMarks};
ghost use Rattle.fill_split.specs.Standing.{FoldsStand, AllStay, rule_of, branches_of, kept_of};
ghost use Rattle.fill_split.specs.Renewal.{IsRenewed};
ghost use Rattle.fill_split.specs.Changes.{changed, IsPlace, IsAllowed};
ghost use Rattle.fill_split.specs.Refusals.{Refuses, Unplaceable};

use crate::change::{Change, FoldError};
use crate::maker::Maker;
use crate::place::MOST_BRANCHES;
use crate::regroup::regroup;
use crate::renew::renew_branches;
use crate::rule::Placing;
use fill_edge::{Ledger, Steps};
use fill_text::List;
use std::alloc::Global;

/// A branch: the places of its items in the list of items, and what stands for them.
#[derive(Drop)]
pub struct Fold<K> {
    pub items: List<usize>,
    pub kept: K,
    // where that value stands among all kept values
    pub(crate) place: usize,
}

/// The branches of a list of items under a rule, and for each item what tells how it came to its branch, from which the
/// branches of each prefix follow.
#[derive(Drop)]
pub struct Folds<M: Maker> {
    pub(crate) rule: Placing,
    // two for each item: what stands for it alone, and what stood for its branch when it had come there
    pub(crate) kept: Vec<M::Kept>,
    // the branch of each item
    pub(crate) places: List<usize>,
    pub(crate) branches: Vec<Fold<M::Kept>>,
}

impl<M: Maker> Folds<M> {
    /// The branches of no items, from now on under this rule. Takes no memory.
    pub fn new(alloc: Global, rule: Placing) -> Folds<M>
        ensures rule { rule_of result ≡ rule }
        ensures stands { (maker : M) → FoldsStand M.Maker maker [] result }
    {
        Folds {
            rule,
            kept: Vec::new(alloc),
            places: List::new(alloc),
            branches: Vec::new(alloc),
        }
    }

    /// The branches of the changed list of items. The items before the change come to their branches without a step of the
    /// maker. After a refusal the maker is cut back.
    pub fn refold<L: Ledger>(
        &self,
        maker: &mut M,
        at: usize,
        change: Change<M::Item>,
        steps: &mut Steps<L>,
    ) -> Result<Folds<M>, FoldError>
        requires stands { (items : Listed M.Item) × FoldsStand M.Maker maker.old items self.now × IsPlace change at (length items) }
        requires allowed { IsAllowed (M.allowed (M.base maker.old)) change }
        ensures base { M.base maker.new ≡ M.base maker.old }
        ensures older { Keeps (M.stands maker.old) (M.stands maker.new) }
        ensures marks { KeepsMarks (M.valid maker.old) (M.valid maker.new) (M.marked maker.old) (M.marked maker.new) }
        ensures others { AllStay M.Maker maker.old maker.new }
        ensures cut { OnErr result (Keeps (M.stands maker.new) (M.stands maker.old)) }
        ensures cost { (items : Listed M.Item) → FoldsStand M.Maker maker.old items self.now →
            steps.new ≤ steps.old + (1 + MOST_BRANCHES * length (drop at (changed change at items))) }
        ensures rule { IfOk result (λ folds. rule_of folds ≡ rule_of self.now) }
        ensures folds { IfOk result (λ folds. (items : Listed M.Item) → FoldsStand M.Maker maker.old items self.now →
            FoldsStand M.Maker maker.new (changed change at items) folds) }
        ensures placed { OnOk result ((items : Listed M.Item) → FoldsStand M.Maker maker.old items self.now →
            (j : ℕ) → Unplaceable (rule_of self.now) (M.fits (M.base maker.old)) (M.weight (M.base maker.old)) (changed change at items) j → ⊥) }
        ensures refused { IfErr result (λ error. (items : Listed M.Item) → FoldsStand M.Maker maker.old items self.now →
            Refuses (rule_of self.now) (M.fits (M.base maker.old)) (M.weight (M.base maker.old)) (changed change at items) at error) }
    {
        let mark = maker.mark();
        match regroup(maker, self, at, &change, steps) {
            Ok(folds) => Ok(folds),
            Err(refusal) => {
                maker.cut(mark);
                Err(refusal)
            }
        }
    }

    /// The branches in order.
    pub fn branches(&self) -> &[Fold<M::Kept>]
        ensures { result.now ≡ branches_of self.now }
    {
        self.branches.as_slice()
    }

    /// All kept values, in an order of their own. Takes no memory.
    pub fn kept(&self) -> &[M::Kept]
        ensures kept { result.now ≡ kept_of self.now }
        ensures live { (maker : M) (items : Listed M.Item) → FoldsStand M.Maker maker items self.now →
            All (λ k. (l : Listed M.Item) × M.stands maker k l) result.now }
    {
        self.kept.as_slice()
    }

    /// Puts these values in place of those that `kept` gives, place by place. Takes no memory.
    pub fn renew(&mut self, kept: &[M::Kept])
        requires { length kept.now ≡ length (kept_of self.old) }
        ensures { IsRenewed self.old kept.now self.new }
    {
        self.kept.copy_from_slice(kept);
        renew_branches(&mut self.branches, kept);
    }

    /// The branches of no items from now on, under the same rule. Takes no memory.
    pub fn clear(&mut self)
        ensures rule { rule_of self.new ≡ rule_of self.old }
        ensures stands { (maker : M) → FoldsStand M.Maker maker [] self.new }
    {
        let alloc = *self.branches.allocator();
        self.kept.clear();
        self.places = List::new(alloc);
        self.branches.clear();
    }
}
