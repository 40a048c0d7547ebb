//! What a maker of joined values promises.
ghost use Rattle.std.specs.Prelude.{◌≡◌, ℕ, ◌+◌, List, [], ◌∷◌, ◌++◌, IfOk, OnErr, MatchOption};
ghost use Rattle.fill_split.specs.Keeping.{Keeps, KeepsMarks};

use fill_edge::{Ledger, Steps};
use fill_text::NoMemory;

/// A maker of values that stand for lists of items: one for each item, and one for two lists joined.
///
/// What a maker's meanings rest on, its base, no call changes. A value may stand for several lists, and what is said of a
/// value is said of each of them.
pub trait Maker {
    type Item: Drop;

    type Kept: Copy;

    type Mark: Copy;

    /// What the meanings rest on. Only contracts use it.
    type Base;

    ghost base: { Self → Self.Base };

    // a list of items that one value can stand for
    ghost fits: { Self.Base → List Self.Item → Type 0 };

    // a list of items and what it weighs
    ghost weight: { Self.Base → List Self.Item → ℕ → Type 0 };

    // an item that may be asked for
    ghost allowed: { Self.Base → Self.Item → Type 0 };

    // a kept value is live and stands for a list of items
    ghost stands: { Self → Self.Kept → List Self.Item → Type 0 };

    // what stood when the mark was taken, where the mark is valid
    ghost marked: { Self → Self.Mark → Self.Kept → List Self.Item → Type 0 };

    // a mark of this maker that is not void
    ghost valid: { Self → Self.Mark → Type 0 };

    // the first mark was taken no later than the second
    ghost no_later: { Self.Mark → Self.Mark → Type 0 };

    /// What stands for one item. None exactly where the item does not fit alone.
    fn first<L: Ledger>(
        &mut self,
        item: &Self::Item,
        steps: &mut Steps<L>,
    ) -> Result<Option<Self::Kept>, NoMemory>
        requires { allowed (base self.old) item.now }
        ensures step { steps.new ≡ steps.old + 1 }
        ensures base { base self.new ≡ base self.old }
        ensures older { Keeps (stands self.old) (stands self.new) }
        ensures marks { KeepsMarks (valid self.old) (valid self.new) (marked self.old) (marked self.new) }
        ensures err { OnErr result (self.new ≡ self.old) }
        ensures one { IfOk result (λ made. MatchOption made
            (fits (base self.old) (item.now ∷ []) → ⊥)
            (λ kept. stands self.new kept (item.now ∷ []))) };

    /// What stands for the items of the first value followed by those of the second. None exactly where they do not fit together.
    fn join<L: Ledger>(
        &mut self,
        kept: Self::Kept,
        one: Self::Kept,
        steps: &mut Steps<L>,
    ) -> Result<Option<Self::Kept>, NoMemory>
        requires kept { (l : List Self.Item) × stands self.old kept l }
        requires one { (l : List Self.Item) × stands self.old one l }
        ensures step { steps.new ≡ steps.old + 1 }
        ensures base { base self.new ≡ base self.old }
        ensures older { Keeps (stands self.old) (stands self.new) }
        ensures marks { KeepsMarks (valid self.old) (valid self.new) (marked self.old) (marked self.new) }
        ensures err { OnErr result (self.new ≡ self.old) }
        ensures both { IfOk result (λ made. (k l : List Self.Item) → stands self.old kept k → stands self.old one l →
            MatchOption made
            (fits (base self.old) (k ++ l) → ⊥)
            (λ joined. stands self.new joined (k ++ l))) };

    /// A mark of what stands now.
    fn mark(&self) -> Self::Mark
        ensures valid { valid self.now result }
        ensures stands { Keeps (stands self.now) (marked self.now result) }
        ensures only { Keeps (marked self.now result) (stands self.now) }
        ensures latest { (m : Self.Mark) → valid self.now m → no_later m result };

    /// Leaves what stood at the mark, and nothing else.
    fn cut(&mut self, mark: Self::Mark)
        requires { valid self.old mark }
        ensures base { base self.new ≡ base self.old }
        ensures stands { Keeps (marked self.old mark) (stands self.new) }
        ensures only { Keeps (stands self.new) (marked self.old mark) }
        ensures marks { (m : Self.Mark) → no_later m mark → valid self.old m → valid self.new m }
        ensures marked { (m : Self.Mark) → no_later m mark → valid self.old m → Keeps (marked self.old m) (marked self.new m) }
        ensures only_marked { (m : Self.Mark) → no_later m mark → valid self.old m → Keeps (marked self.new m) (marked self.old m) };

    /// The weight of the items that the value stands for. It takes no step. A maker may keep weights, so that none is found
    /// twice.
    fn weight(&mut self, kept: Self::Kept) -> Result<u64, NoMemory>
        requires { (l : List Self.Item) × stands self.old kept l }
        ensures same { self.new ≡ self.old }
        ensures weight { IfOk result (λ w. (l : List Self.Item) → stands self.old kept l → weight (base self.old) l w) };

    // what a value stands for fits
    ghost stands_fit: { (m : Self) (k : Self.Kept) (l : List Self.Item) → stands m k l → fits (base m) l };

    // a list has at most one weight
    ghost one_weight: { (b : Self.Base) (l : List Self.Item) (v w : ℕ) → weight b l v → weight b l w → v ≡ w };
}
