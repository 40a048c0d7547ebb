//! Trees that contracts see as plain trees.
ghost use Rattle.std.specs.Prelude.{◌≡◌, ◌≤◌, ◌^◌, IfNone, IfOk, IfSome};
ghost use Rattle.fill_tree.specs.Cost.{atom_cost};
ghost use Rattle.fill_tree.specs.Meaning.{atom_tree, program_tree, source_tree};
ghost use Rattle.fill_tree.specs.Tree.{col, constant, more};

use crate::costed::{Composite, Ordered};
use crate::parts::{Bounds, Target, WholeText};
use fill_text::{NoMemory, Text};
use fill_tree::{Atom, Prices, Program, Select, Source};
use std::alloc::Global;
use std::cmp::Ordering;
use std::marker::Model;

/// A source.
#[derive(Drop)]
pub(crate) struct PlainSource {
    source: Source,
}

impl Model for PlainSource {
    ghost use Rattle.fill_tree.specs.Codes.{coded_source};
    ghost use Rattle.fill_tree.specs.Meaning.{source_tree};
    ghost use Rattle.fill_tree.specs.Tree.{SourceTree};

    ghost Value = { SourceTree };

    ghost coded = { coded_source };

    ghost view = { λ plain. source_tree plain.source };
}

/// An atom.
#[derive(Drop)]
pub(crate) struct PlainAtom {
    atom: Atom,
}

impl Model for PlainAtom {
    ghost use Rattle.fill_tree.specs.Codes.{coded_atom};
    ghost use Rattle.fill_tree.specs.Meaning.{atom_tree};
    ghost use Rattle.fill_tree.specs.Tree.{AtomTree};

    ghost Value = { AtomTree };

    ghost coded = { coded_atom };

    ghost view = { λ plain. atom_tree plain.atom };
}

/// Atoms in order: of a program or its end, or the conditions of a lookup.
#[derive(Drop)]
pub(crate) struct PlainAtoms {
    program: Program,
}

impl Model for PlainAtoms {
    ghost use Rattle.fill_tree.specs.Codes.{coded_atoms};
    ghost use Rattle.fill_tree.specs.Meaning.{program_tree};
    ghost use Rattle.fill_tree.specs.Tree.{Atoms};

    ghost Value = { Atoms };

    ghost coded = { coded_atoms };

    ghost view = { λ plain. program_tree plain.program };
}

impl PlainSource {
    pub fn column(number: u32) -> PlainSource
        ensures { result ≡ col number }
    {
        PlainSource {
            source: Source::Col(number),
        }
    }
}

impl PlainAtom {
    pub fn constant(text: &Text) -> Result<PlainAtom, NoMemory>
        ensures { IfOk result (λ plain. plain ≡ constant text.now) }
    {
        Ok(PlainAtom {
            atom: Atom::Const(text.copy()?),
        })
    }

    pub fn cost(&self, prices: &Prices) -> Option<u64>
        ensures some { IfSome result (λ n. n ≡ atom_cost prices.now self.now) }
        ensures none { IfNone result (2 ^ 64 ≤ atom_cost prices.now self.now) }
    {
        self.atom.cost(prices)
    }
}

impl PlainAtoms {
    ghost use Rattle.fill_tree.specs.Tree.{end};

    pub fn none(alloc: Global) -> PlainAtoms
        ensures { result ≡ end }
    {
        PlainAtoms {
            program: Program::empty(alloc),
        }
    }

    pub fn into_program(self) -> Program
        ensures { program_tree result ≡ self }
    {
        self.program
    }
}

impl Ordered for PlainSource {
    ghost use Rattle.fill_tree.specs.Order.{source_cmp};
    ghost use Rattle.fill_tree.proofs.TreeOrder.{exact_sources, source_total};

    ghost order = { source_cmp };

    fn compare(&self, other: &PlainSource) -> Ordering {
        self.source.compare(&other.source)
    }

    ghost total = { source_total };

    ghost exact = { exact_sources };
}

impl Ordered for PlainAtom {
    ghost use Rattle.fill_tree.specs.Order.{atom_cmp};
    ghost use Rattle.fill_tree.proofs.TreeOrder.{atom_total, exact_atoms};

    ghost order = { atom_cmp };

    fn compare(&self, other: &PlainAtom) -> Ordering {
        self.atom.compare(&other.atom)
    }

    ghost total = { atom_total };

    ghost exact = { exact_atoms };
}

impl Ordered for PlainAtoms {
    ghost use Rattle.fill_tree.specs.Order.{atoms_cmp};
    ghost use Rattle.fill_tree.proofs.TreeOrder.{atoms_total, exact_atom_lists};

    ghost order = { atoms_cmp };

    fn compare(&self, other: &PlainAtoms) -> Ordering {
        self.program.compare(&other.program)
    }

    ghost total = { atoms_total };

    ghost exact = { exact_atom_lists };
}

impl Composite<PlainSource, WholeText> for PlainAtom {
    ghost use Rattle.fill_best.specs.Parts.{whole_by_parts, whole_of};

    ghost composite = { whole_of };

    fn make(
        alloc: Global,
        first: &PlainSource,
        _second: &WholeText,
    ) -> Result<PlainAtom, NoMemory> {
        Ok(PlainAtom {
            atom: Atom::Whole(first.source.copy(alloc)?),
        })
    }

    ghost by_parts = { whole_by_parts };
}

impl Composite<PlainSource, Bounds> for PlainAtom {
    ghost use Rattle.std.specs.Prelude.{refl};
    ghost use Rattle.fill_best.specs.Parts.{piece_of};

    ghost composite = { piece_of };

    fn make(alloc: Global, first: &PlainSource, second: &Bounds) -> Result<PlainAtom, NoMemory> {
        let source = first.source.copy(alloc)?;
        Ok(PlainAtom {
            atom: Atom::Sub(source, second.left, second.right),
        })
    }

    ghost by_parts = { λ a b c d. refl };
}

impl Composite<Target, PlainAtoms> for PlainSource {
    ghost use Rattle.fill_best.specs.Parts.{lookup_by_parts, lookup_of};

    ghost composite = { lookup_of };

    fn make(alloc: Global, first: &Target, second: &PlainAtoms) -> Result<PlainSource, NoMemory> {
        let program = second.program.copy(alloc)?;
        let select = Select {
            column: first.column,
            table: first.table,
            key: first.key,
            conditions: program.atoms,
        };
        Ok(PlainSource {
            source: Source::Select(Box::new(alloc, select)?),
        })
    }

    ghost by_parts = { lookup_by_parts };
}

impl Composite<PlainAtom, PlainAtoms> for PlainAtoms {
    ghost use Rattle.std.specs.Prelude.{refl};
    ghost use Rattle.fill_tree.specs.Tree.{more};

    ghost composite = { more };

    fn make(alloc: Global, first: &PlainAtom, second: &PlainAtoms) -> Result<PlainAtoms, NoMemory> {
        Ok(PlainAtoms {
            program: second.program.with_first(alloc, &first.atom)?,
        })
    }

    ghost by_parts = { λ a b c d. refl };
}
