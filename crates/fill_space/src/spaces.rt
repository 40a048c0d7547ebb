//! Spaces, and what is asked of each.
ghost use Rattle.std.specs.Prelude.{◌≡◌, ◌↔◌, ◌<◌, ◌≤◌, ◌^◌, ℕ, List as Listed, length, map, option_copied, option_map, IfOk, IfSome, IsTrue, OnErr, OnOk};
ghost use Rattle.std.specs.List.{AllZip};
ghost use Rattle.fill_arena.specs.Contents.{EachIn};
ghost use Rattle.fill_arena.specs.Named.{IsNamed};
ghost use Rattle.fill_tree.specs.Cost.{program_cost};
ghost use Rattle.fill_tree.specs.Grammar.{AreSettings};
ghost use Rattle.fill_tree.specs.Meaning.{program_tree};
ghost use Rattle.fill_tree.specs.Tree.{Atoms};
ghost use Rattle.fill_tree.specs.declared.user.Example.{Example};
ghost use Rattle.fill_doubt.specs.Shapes.{ShapesStand};
ghost use Rattle.fill_space.specs.Best.{AreBestOn};
ghost use Rattle.fill_space.specs.Doubt.{IsDoubtful};
ghost use Rattle.fill_space.specs.Ground.{ChosenOn, ExplainsOn};
ghost use Rattle.fill_space.specs.Objector.{ObjectionIs, ObjectionWithin, objection_tree};
ghost use Rattle.fill_space.specs.Spaces.{GuideStands, SpaceStands, Succeeds, no_spaces};

use crate::built::Built;
use crate::carried::{Renaming, carry_built, carry_met, carry_weights, known_copies};
use crate::ground::Ground;
use crate::met::Met;
use crate::space::{Space, graphs_of, put_graphs};
use crate::weights::Weights;
use fill_arena::laws::costs_are_present;
use fill_arena::{Arena, GraphId};
use fill_doubt::Shapes;
use fill_object::{Guide, Objection, OnRow};
use fill_sheet::Sheet;
use fill_tables::Tables;
use fill_text::{List, NoMemory, Text};
use fill_tree::{MOST_PROGRAMS, Program, Settings};
use std::alloc::Global;
use std::marker::Model;

/// What programs are learned over, and the spaces that were learned.
#[derive(Drop)]
pub struct Spaces {
    pub(crate) alloc: Global,
    pub(crate) ground: Ground,
    pub(crate) arena: Arena,
    pub(crate) met: Met,
    pub(crate) built: Built,
    pub(crate) weights: Weights,
}

impl Model for Spaces {
    ghost use Rattle.fill_tree.specs.Grammar.{AreSettings};
    ghost use Rattle.fill_space.specs.Built.{AreBuilt};
    ghost use Rattle.fill_space.specs.Met.{AreTold};
    ghost use Rattle.fill_space.specs.Spaces.{SpacesData, spaces_over};
    ghost use Rattle.fill_space.specs.Weighed.{AreWeighed};

    ghost Value = { SpacesData };

    ghost view = { λ spaces. spaces_over spaces.ground spaces.arena };

    ghost invariant = { λ spaces. AreSettings spaces.ground.settings × AreTold spaces.arena spaces.met × AreBuilt spaces.ground spaces.arena spaces.built × AreWeighed spaces.ground.settings.profile.prices spaces.arena spaces.weights };
}

impl Spaces {
    /// No spaces yet. Takes no memory.
    pub fn new(alloc: Global, sheet: Sheet, tables: Tables, settings: Settings) -> Spaces
        requires { AreSettings settings }
        ensures { result ≡ no_spaces (record { settings = settings; sheet = sheet; tables = tables }) }
    {
        Spaces {
            alloc,
            ground: Ground {
                settings,
                sheet,
                tables,
            },
            arena: Arena::new(alloc),
            met: Met::new(alloc),
            built: Built::new(alloc),
            weights: Weights::new(alloc),
        }
    }

    /// The sheet that programs are learned over.
    pub fn sheet(&self) -> &Sheet
        ensures { result.now ≡ self.now.ground.sheet }
    {
        &self.ground.sheet
    }

    /// The tables that programs are learned over.
    pub fn tables(&self) -> &Tables
        ensures { result.now ≡ self.now.ground.tables }
    {
        &self.ground.tables
    }

    /// The tables, once the spaces are let go.
    pub fn into_tables(self) -> Tables
        ensures { result ≡ self.ground.tables }
    {
        let Spaces { ground, .. } = self;
        let Ground { tables, .. } = ground;
        tables
    }

    /// The bounds of the grammar.
    pub fn settings(&self) -> &Settings
        ensures same { result.now ≡ self.now.ground.settings }
        ensures bounded { AreSettings result.now }
        ensures kept { AreSettings self.now.ground.settings }
    {
        &self.ground.settings
    }

    /// The sets and graphs of all spaces.
    pub fn arena(&self) -> &Arena
        ensures { result.now ≡ self.now.arena }
    {
        &self.arena
    }

    /// What a program costs that explains the examples of a space is a number of 64 bits. The call does nothing: what it
    /// tells is its clause.
    pub fn keep_costs(&self)
        ensures { (k : ℕ) (l : Listed Example) → SpaceStands self.now k l → (p : Atoms) → ExplainsOn self.now.ground l p →
            program_cost self.now.ground.settings.profile.prices p < 2 ^ 64 }
    {
        self.arena.keeps_made();
        self.ground.settings.profile.prices.keep_small();
        costs_are_present();
    }

    /// The graph of a space.
    pub fn graph(&self, s: Space) -> GraphId
        ensures { result ≡ s }
    {
        s.graph()
    }

    /// The chosen program of the examples that the space stands for.
    pub fn least(&self, s: Space) -> Result<Program, NoMemory>
        requires { (l : Listed Example) × SpaceStands self.now s l }
        ensures { IfOk result (λ p. (l : Listed Example) → SpaceStands self.now s l → ChosenOn self.now.ground l (program_tree p)) }
    {
        fill_rank::least(
            self.alloc,
            &self.ground.settings.profile.prices,
            &self.arena,
            s.graph(),
        )
    }

    /// The first `k` programs that explain the examples that the space stands for, by the order of programs; all of them
    /// where they are fewer.
    pub fn best(&self, s: Space, k: u32) -> Result<List<Program>, NoMemory>
        requires stands { (l : Listed Example) × SpaceStands self.now s l }
        requires some { 1 ≤ k }
        requires few { k ≤ MOST_PROGRAMS }
        ensures { IfOk result (λ made. (l : Listed Example) → SpaceStands self.now s l → AreBestOn self.now.ground l k (map program_tree made)) }
    {
        let prices = &self.ground.settings.profile.prices;
        fill_best::best(self.alloc, prices, &self.arena, s.graph(), k)
    }

    /// Of the programs that explain the examples of the space the least one whose answer on a row is not the one that was
    /// said (a text or none), with its value. Rows count from 1.
    pub fn object(
        &self,
        s: Space,
        row: u32,
        said: Option<&Text>,
    ) -> Result<Option<Objection>, NoMemory>
        requires stands { (l : Listed Example) × SpaceStands self.now s l }
        requires first { 1 ≤ row }
        requires last { row ≤ length self.now.ground.sheet.rows }
        ensures objection { let told = option_copied said.entry in IfOk result (λ found. (l : Listed Example) → SpaceStands self.now s l →
            ObjectionIs self.now.ground l row told (option_map objection_tree found)) }
        ensures few { IfOk result (λ found. IfSome found (λ o. program_cost self.now.ground.settings.profile.prices (program_tree o.program) < 2 ^ 64)) }
    {
        let ground = &self.ground;
        fill_object::object(
            self.alloc,
            &ground.settings.profile.prices,
            &self.arena,
            s.graph(),
            row,
            said,
            &ground.sheet,
            &ground.tables,
        )
    }

    /// What leads the search for objections in a space, on any row.
    pub fn guide(&self, s: Space) -> Result<Guide, NoMemory>
        requires { (l : Listed Example) × SpaceStands self.now s l }
        ensures { IfOk result (GuideStands self.now s) }
    {
        let prices = &self.ground.settings.profile.prices;
        fill_object::guide_of(self.alloc, prices, &self.arena, s.graph())
    }

    /// As [`Spaces::object`], if the program costs no more than the limit; none where each program that answers otherwise
    /// costs more. The guide is that of the space.
    pub fn object_within(
        &self,
        guide: &Guide,
        s: Space,
        row: u32,
        said: Option<&Text>,
        limit: u64,
    ) -> Result<Option<Objection>, NoMemory>
        requires stands { (l : Listed Example) × SpaceStands self.now s l }
        requires first { 1 ≤ row }
        requires last { row ≤ length self.now.ground.sheet.rows }
        requires guide { GuideStands self.now s guide.now }
        ensures objection { let told = option_copied said.entry in IfOk result (λ found. (l : Listed Example) → SpaceStands self.now s l →
            ObjectionWithin self.now.ground l row told limit (option_map objection_tree found)) }
        ensures few { IfOk result (λ found. IfSome found (λ o. program_cost self.now.ground.settings.profile.prices (program_tree o.program) < 2 ^ 64)) }
    {
        let ground = &self.ground;
        let on = OnRow {
            alloc: self.alloc,
            prices: &ground.settings.profile.prices,
            arena: &self.arena,
            row,
            sheet: &ground.sheet,
            tables: &ground.tables,
        };
        fill_object::object_within(&on, guide, s.graph(), said, limit)
    }

    /// Whether the program explains the examples that the space stands for.
    pub fn holds(&self, s: Space, p: &Program) -> bool
        requires { (l : Listed Example) × SpaceStands self.now s l }
        ensures { (l : Listed Example) → SpaceStands self.now s l → IsTrue result ↔ ExplainsOn self.now.ground l (program_tree p.now) }
    {
        self.arena.holds(s.graph(), p)
    }

    /// Whether two programs that explain the examples of the space answer differently on a row. Rows count from 1.
    pub fn doubt(&self, s: Space, row: u32) -> Result<bool, NoMemory>
        requires stands { (l : Listed Example) × SpaceStands self.now s l }
        requires first { 1 ≤ row }
        requires last { row ≤ length self.now.ground.sheet.rows }
        ensures { IfOk result (λ b. (l : Listed Example) → SpaceStands self.now s l → IsTrue b ↔ IsDoubtful self.now.ground l row) }
    {
        let mut shapes = Shapes::new(self.alloc);
        self.doubt_with(&mut shapes, s, row)
    }

    /// As [`Spaces::doubt`], with what was found of the shapes of texts before, for any of these spaces and any row.
    pub fn doubt_with(&self, shapes: &mut Shapes, s: Space, row: u32) -> Result<bool, NoMemory>
        requires stands { (l : Listed Example) × SpaceStands self.now s l }
        requires first { 1 ≤ row }
        requires last { row ≤ length self.now.ground.sheet.rows }
        requires shapes { ShapesStand self.now.arena shapes.old }
        ensures shapes { ShapesStand self.now.arena shapes.new }
        ensures flag { IfOk result (λ b. (l : Listed Example) → SpaceStands self.now s l → IsTrue b ↔ IsDoubtful self.now.ground l row) }
    {
        let ground = &self.ground;
        fill_doubt::doubt_with(
            self.alloc,
            shapes,
            &self.arena,
            s.graph(),
            row,
            &ground.sheet,
            &ground.tables,
        )
    }

    /// Forgets all but the listed spaces, and all that none of their graphs names.
    ///
    /// Each listed space is replaced by one that stands for the same examples. Other spaces, and marks that were taken
    /// before, are void. It takes no step, and time that is linear in the sets and graphs so far.
    pub fn compact(&mut self, live: &mut [Space]) -> Result<(), NoMemory>
        requires { EachIn (λ k. (l : Listed Example) × SpaceStands self.old k l) live.old }
        ensures length { length live.new ≡ length live.old }
        ensures ground { self.new.ground ≡ self.old.ground }
        ensures stand { OnOk result (AllZip (Succeeds self.old self.new) live.old live.new) }
        ensures named { OnOk result ((n : ℕ) → n < length self.new.arena → IsNamed self.new.arena live.new n) }
        ensures err { OnErr result (self.new ≡ self.old) }
        ensures live_err { OnErr result (live.new ≡ live.old) }
    {
        let listed = graphs_of(self.alloc, live)?;
        let mut graphs = graphs_of(self.alloc, live)?;
        self.arena = self.arena.copy(graphs.as_mut_slice())?;
        let copies = graphs.as_slice();
        let new_numbers = known_copies(self.alloc, listed.as_slice(), copies);
        let renaming = Renaming::Copied(new_numbers);
        self.met = carry_met(self.alloc, &self.met, &renaming);
        self.built = carry_built(self.alloc, &self.built, &renaming);
        self.weights = carry_weights(self.alloc, &self.weights, &renaming);
        put_graphs(live, copies);
        Ok(())
    }

    /// How many sets and graphs the spaces have.
    pub fn size(&self) -> u128
        ensures { result ≡ length self.now.arena }
    {
        self.arena.size()
    }
}
