//! Programs by their notation.
use fill_print::{Notation, read_switch};
use fill_tree::Switch;
use std::alloc::Global;
use std::test::Fail;

/// The conditional program whose last program, its only one, has these atoms.
pub(crate) fn only(alloc: Global, atoms: &str) -> Result<Switch, Fail> {
    let mut spelled = String::new(alloc);
    write!(spelled, "Switch(else=>Concat({atoms}))")?;
    Ok(read_switch(alloc, spelled.as_bytes(), Notation::All)?)
}
