//! Programs by their notation.
ghost use Rattle.fill_arena.specs.Contents.{IsGraph};

use fill_arena::{Arena, GraphId};
use fill_print::{Notation, read_switch};
use fill_tree::Switch;
use std::alloc::Global;
use std::test::Fail;

/// The conditional program whose last program, its only one, has these atoms.
fn only(alloc: Global, atoms: &str) -> Result<Switch, Fail> {
    let mut spelled = String::new(alloc);
    write!(spelled, "Switch(else=>Concat({atoms}))")?;
    Ok(read_switch(alloc, spelled.as_bytes(), Notation::All)?)
}

/// Whether the program of these atoms stands in the graph.
pub(crate) fn stands(alloc: Global, arena: &Arena, g: GraphId, atoms: &str) -> Result<bool, Fail>
    requires { IsGraph arena.now g }
{
    let program = only(alloc, atoms)?;
    Ok(arena.holds(g, &program.last))
}
