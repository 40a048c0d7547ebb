//! Spaces of lists of examples: one for each example, and one for two lists joined.
ghost use Rattle.std.specs.Prelude.{◌≤◌, length};
ghost use Rattle.fill_space.specs.Ground.{FitsOn, WeighsOn, MayStand};
ghost use Rattle.fill_space.specs.Spaces.{SpaceStands, first_spaces};
ghost use Rattle.fill_space.specs.Weights.{one_weight};

use crate::built::build_once;
use crate::carried::{Renaming, carry_built, carry_met, carry_weights};
use crate::ground::Ground;
use crate::met::meet_once;
use crate::space::Space;
use crate::spaces::Spaces;
use crate::weights::weigh_once;
use fill_arena::Mark;
use fill_edge::{Ledger, Steps};
use fill_split::Maker;
use fill_text::NoMemory;
use fill_tree::Example;

impl Maker for Spaces {
    type Item = Example;

    type Kept = Space;

    type Mark = Mark;

    type Base = Ground;

    ghost base = { λ s. s.ground };

    ghost fits = { λ g l. FitsOn g l };

    ghost weight = { λ g l n. WeighsOn g l n };

    ghost allowed = { λ g e. MayStand g e };

    ghost stands = { λ s k l. SpaceStands s k l };

    ghost marked = { λ s m k l. SpaceStands (first_spaces m s) k l };

    ghost valid = { λ s m. m ≤ length s.arena };

    ghost no_later = { λ m n. m ≤ n };

    fn first<L: Ledger>(
        &mut self,
        item: &Example,
        steps: &mut Steps<L>,
    ) -> Result<Option<Space>, NoMemory> {
        self.arena.keeps_made();
        Space::of_made(build_once(
            self.alloc,
            &mut self.arena,
            &mut self.built,
            &self.ground,
            item,
            steps,
        ))
    }

    fn join<L: Ledger>(
        &mut self,
        kept: Space,
        one: Space,
        steps: &mut Steps<L>,
    ) -> Result<Option<Space>, NoMemory> {
        self.arena.keeps_made();
        Space::of_made(meet_once(
            self.alloc,
            &mut self.arena,
            &mut self.met,
            kept.graph(),
            one.graph(),
            steps,
        ))
    }

    fn mark(&self) -> Mark {
        self.arena.mark()
    }

    fn cut(&mut self, mark: Mark) {
        self.arena.cut(mark);
        self.arena.keeps_made();
        let renaming = Renaming::Cut(mark);
        self.met = carry_met(self.alloc, &self.met, &renaming);
        self.built = carry_built(self.alloc, &self.built, &renaming);
        self.weights = carry_weights(self.alloc, &self.weights, &renaming);
    }

    fn weight(&mut self, kept: Space) -> Result<u64, NoMemory> {
        weigh_once(
            self.alloc,
            &self.ground.settings.profile.prices,
            &self.arena,
            &mut self.weights,
            kept.graph(),
        )
    }

    ghost stands_fit = { λ s k l stands. stands.some };

    ghost one_weight = { one_weight };
}
