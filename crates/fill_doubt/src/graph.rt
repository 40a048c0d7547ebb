//! Whether a graph's programs differ on a row.
ghost use Rattle.std.specs.Prelude.{◌↔◌, ◌≤◌, length, IsTrue, IfOk, OnOk};
ghost use Rattle.fill_arena.specs.Contents.{IsGraph};
ghost use Rattle.fill_doubt.specs.Gives.{Differ};
ghost use Rattle.fill_doubt.specs.Memo.{IsMemoOf, IsOnRow};
ghost use Rattle.fill_doubt.specs.Shapes.{ShapesStand};

use crate::memo::Memo;
use crate::pass::{differs, one_answer};
use crate::row::OnRow;
use crate::shapes::Shapes;
use crate::valued::has_value;
use fill_arena::{Arena, GraphId};
use fill_sheet::Sheet;
use fill_tables::Tables;
use fill_text::NoMemory;
use std::alloc::Global;
use std::mem;

/// Whether two programs that stand in the graph answer differently on the row; to have no value is an answer of its own.
///
/// It lists no programs. It spells one of them along the edges, and then goes once over the edges in their order, up to the first
/// one with an atom that has no value or another text than the one that was spelled there. Where none can be spelled along
/// the first edges, it looks whether some other program has a value.
pub fn doubt(
    alloc: Global,
    arena: &Arena,
    g: GraphId,
    row: u32,
    sheet: &Sheet,
    tables: &Tables,
) -> Result<bool, NoMemory>
    requires first { 1 ≤ row }
    requires last { row ≤ length sheet.now.rows }
    requires graph { IsGraph arena.now g }
    ensures { IfOk result (λ b. IsTrue b ↔ Differ arena.now sheet.now tables.now row g) }
{
    let mut shapes = Shapes::new(alloc);
    doubt_with(alloc, &mut shapes, arena, g, row, sheet, tables)
}

/// As [`doubt`], with what was found of the shapes of texts for rows before.
///
/// Where memory runs out all that was found is forgotten.
pub fn doubt_with(
    alloc: Global,
    shapes: &mut Shapes,
    arena: &Arena,
    g: GraphId,
    row: u32,
    sheet: &Sheet,
    tables: &Tables,
) -> Result<bool, NoMemory>
    requires first { 1 ≤ row }
    requires last { row ≤ length sheet.now.rows }
    requires graph { IsGraph arena.now g }
    requires shapes { ShapesStand arena.now shapes.old }
    ensures shapes { ShapesStand arena.now shapes.new }
    ensures flag { IfOk result (λ b. IsTrue b ↔ Differ arena.now sheet.now tables.now row g) }
{
    arena.keeps_made();
    tables.keeps_keys();
    let on = OnRow {
        alloc,
        arena,
        row,
        sheet,
        tables,
    };
    shapes.make_room(alloc);
    let mut memo = Memo::new(alloc, mem::replace(shapes, Shapes::new(alloc)));
    let flag = differ_on(&on, &mut memo, g)?;
    *shapes = memo.shapes;
    Ok(flag)
}

fn differ_on<'a>(on: &OnRow<'a>, memo: &mut Memo<'a>, g: GraphId) -> Result<bool, NoMemory>
    requires row { IsOnRow on.now }
    requires graph { IsGraph on.now.arena.now g }
    requires memo { IsMemoOf on.now memo.old }
    ensures memo { OnOk result (IsMemoOf on.now memo.new) }
    ensures flag { IfOk result (λ b. IsTrue b ↔ Differ on.now.arena.now on.now.sheet.now on.now.tables.now on.now.row g) }
{
    let nodes = on.arena.nodes(g);
    let edges = on.arena.sorted_edges(g);
    match one_answer(on, memo, nodes, edges)? {
        Some(text) => differs(on, memo, nodes, edges, text.as_slice()),
        None => has_value(on, memo, nodes, edges),
    }
}
