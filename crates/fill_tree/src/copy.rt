//! Copies: equal trees of their own memory.
ghost use Rattle.std.specs.Prelude.{◌≡◌, IfOk, map};
ghost use Rattle.fill_tree.specs.Meaning.{source_tree, select_tree, atom_tree, program_tree};
ghost use Rattle.fill_tree.specs.Switch.{case_tree, switch_tree};
ghost use Rattle.fill_tree.specs.Tree.{more};

use crate::guard::{Case, Switch};
use crate::tree::{Atom, Program, Select, Source};
use crate::user::{Edit, Example};
use fill_text::{List, NoMemory};
use std::alloc::Global;

impl Source {
    /// An equal source.
    #[cycle(copy)]
    pub fn copy(&self, alloc: Global) -> Result<Source, NoMemory>
        ensures { IfOk result (λ copied. source_tree copied ≡ source_tree self.now) }
    {
        match self {
            Source::Col(column) => Ok(Source::Col(*column)),
            Source::Select(select) => {
                let select = select.copy(alloc)?;
                Ok(Source::Select(Box::new(alloc, select)?))
            }
        }
    }
}

impl Select {
    /// An equal lookup.
    #[cycle(copy)]
    pub fn copy(&self, alloc: Global) -> Result<Select, NoMemory>
        ensures { IfOk result (λ copied. select_tree copied ≡ select_tree self.now) }
    {
        let conditions = copy_atoms(alloc, self.conditions.as_slice())?;
        Ok(Select {
            column: self.column,
            table: self.table,
            key: self.key,
            conditions,
        })
    }
}

impl Atom {
    /// An equal atom.
    #[cycle(copy)]
    pub fn copy(&self, alloc: Global) -> Result<Atom, NoMemory>
        ensures { IfOk result (λ copied. atom_tree copied ≡ atom_tree self.now) }
    {
        match self {
            Atom::Const(text) => Ok(Atom::Const(text.copy()?)),
            Atom::Whole(source) => Ok(Atom::Whole(source.copy(alloc)?)),
            Atom::Sub(source, left, right) => Ok(Atom::Sub(source.copy(alloc)?, *left, *right)),
        }
    }
}

#[cycle(copy)]
fn copy_atoms(alloc: Global, atoms: &[Atom]) -> Result<List<Atom>, NoMemory>
    ensures { IfOk result (λ copied. map atom_tree copied ≡ map atom_tree atoms.now) }
{
    let mut copied = List::new(alloc);
    for atom in atoms {
        copied.push(atom.copy(alloc)?)?;
    }
    Ok(copied)
}

impl Program {
    /// An equal program.
    pub fn copy(&self, alloc: Global) -> Result<Program, NoMemory>
        ensures { IfOk result (λ copied. program_tree copied ≡ program_tree self.now) }
    {
        Ok(Program {
            atoms: copy_atoms(alloc, self.atoms.as_slice())?,
        })
    }

    /// A program of the atom and then the atoms of this one.
    pub fn with_first(&self, alloc: Global, atom: &Atom) -> Result<Program, NoMemory>
        ensures { IfOk result (λ longer. program_tree longer ≡ more (atom_tree atom.now) (program_tree self.now)) }
    {
        let mut atoms = List::new(alloc);
        atoms.push(atom.copy(alloc)?)?;
        for next in self.atoms.as_slice() {
            atoms.push(next.copy(alloc)?)?;
        }
        Ok(Program { atoms })
    }
}

impl Case {
    /// An equal case.
    pub fn copy(&self, alloc: Global) -> Result<Case, NoMemory>
        ensures { IfOk result (λ copied. case_tree copied ≡ case_tree self.now) }
    {
        Ok(Case {
            guard: self.guard,
            program: self.program.copy(alloc)?,
        })
    }
}

impl Switch {
    /// An equal switch.
    pub fn copy(&self, alloc: Global) -> Result<Switch, NoMemory>
        ensures { IfOk result (λ copied. switch_tree copied ≡ switch_tree self.now) }
    {
        let mut cases = List::new(alloc);
        for case in self.cases.as_slice() {
            cases.push(case.copy(alloc)?)?;
        }
        Ok(Switch {
            cases,
            last: self.last.copy(alloc)?,
        })
    }
}

impl Example {
    /// An equal example.
    pub fn copy(&self, _alloc: Global) -> Result<Example, NoMemory>
        ensures { IfOk result (λ copied. copied ≡ self.now) }
    {
        Ok(Example {
            row: self.row,
            text: self.text.copy()?,
        })
    }
}

impl Edit {
    /// An equal edit.
    pub fn copy(&self, _alloc: Global) -> Result<Edit, NoMemory>
        ensures { IfOk result (λ copied. copied ≡ self.now) }
    {
        match self {
            Edit::Add { row, text } => Ok(Edit::Add {
                row: *row,
                text: text.copy()?,
            }),
            Edit::Correct { row, text } => Ok(Edit::Correct {
                row: *row,
                text: text.copy()?,
            }),
            Edit::Retract { row } => Ok(Edit::Retract { row: *row }),
            Edit::Clear => Ok(Edit::Clear),
        }
    }
}
