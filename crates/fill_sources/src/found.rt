//! The texts that sources of the grammar give on a row: its cells, and the cells of the rows of tables that lookups reach.
ghost use Rattle.std.specs.Prelude.{◌≡◌, ◌≤◌, ℕ, Some, length, IfOk, OnOk};
ghost use Rattle.fill_text.specs.Data.{key_at, width_at};
ghost use Rattle.fill_arena.specs.Contents.{EachIn};
ghost use Rattle.fill_reach.specs.Spots.{IsKeyOf};
ghost use Rattle.fill_sources.specs.Gives.{IsOnRow};
ghost use Rattle.fill_sources.specs.Origins.{AreNumbered, AreTexts, Grown, InputsTo, IsFreeIn, IsInput, IsOfRow, RowsTo};

use crate::row::OnRow;
use crate::texts::{Origin, Texts};
use fill_eval::{input_cell, table_cell};
use fill_reach::{ReachedRow, reach};
use fill_text::NoMemory;
use std::alloc::Global;

/// Puts the row's cell in a column, if that is an input.
fn put_input<'a>(
    alloc: Global,
    on: &OnRow<'a>,
    column: u32,
    texts: &mut Texts<'a>,
) -> Result<(), NoMemory>
    requires row { IsOnRow on.now }
    requires texts { AreNumbered texts.old }
    ensures numbered { OnOk result (AreNumbered texts.new) }
    ensures grown { OnOk result (Grown texts.old.named.items texts.new.named.items (IsInput on.now column)) }
{
    let Some(text) = input_cell(on.row, column, on.sheet) else {
        return Ok(());
    };
    texts.put(alloc, text, Origin::Col(column))
}

/// Puts the row's cells in all inputs.
fn put_inputs<'a>(
    alloc: Global,
    on: &OnRow<'a>,
    inputs: &[u32],
    texts: &mut Texts<'a>,
) -> Result<(), NoMemory>
    requires row { IsOnRow on.now }
    requires texts { AreNumbered texts.old }
    ensures numbered { OnOk result (AreNumbered texts.new) }
    ensures grown { OnOk result (Grown texts.old.named.items texts.new.named.items (InputsTo on.now inputs.now (length inputs.now))) }
{
    for i in 0..inputs.len() {
        put_input(alloc, on, inputs[i], texts)?;
    }
    Ok(())
}

/// Puts the cell of a table's row in a column, where that is free of the key.
fn put_free<'a>(
    alloc: Global,
    on: &OnRow<'a>,
    at: &ReachedRow,
    key: &[u32],
    column: u32,
    texts: &mut Texts<'a>,
) -> Result<(), NoMemory>
    requires key { key_at on.now.tables.now at.now.table at.now.key ≡ Some key.now }
    requires first { 1 ≤ column }
    requires last { (width : ℕ) × (width_at on.now.tables.now at.now.table ≡ Some width) × (column ≤ width) }
    requires texts { AreNumbered texts.old }
    ensures numbered { OnOk result (AreNumbered texts.new) }
    ensures grown { OnOk result (Grown texts.old.named.items texts.new.named.items (IsFreeIn on.now.tables.now at.now column)) }
{
    if key.contains(&column) {
        return Ok(());
    }
    let Some(text) = table_cell(at.table, at.row, column, on.tables) else {
        return Ok(());
    };
    texts.put(alloc, text, Origin::Cell(*at, column))
}

/// Puts the free cells of a table's row.
fn put_row<'a>(
    alloc: Global,
    on: &OnRow<'a>,
    at: &ReachedRow,
    texts: &mut Texts<'a>,
) -> Result<(), NoMemory>
    requires key { IsKeyOf on.now.tables.now at.now.table at.now.key }
    requires texts { AreNumbered texts.old }
    ensures numbered { OnOk result (AreNumbered texts.new) }
    ensures grown { OnOk result (Grown texts.old.named.items texts.new.named.items (IsOfRow on.now.tables.now at.now)) }
{
    let key = on.tables.key(at.table, at.key);
    for column in 1..=on.tables.width(at.table) {
        put_free(alloc, on, at, key, column, texts)?;
    }
    Ok(())
}

/// Puts the free cells of all these rows.
fn put_rows<'a>(
    alloc: Global,
    on: &OnRow<'a>,
    rows: &[ReachedRow],
    texts: &mut Texts<'a>,
) -> Result<(), NoMemory>
    requires keys { EachIn (λ r. IsKeyOf on.now.tables.now r.table r.key) rows.now }
    requires texts { AreNumbered texts.old }
    ensures numbered { OnOk result (AreNumbered texts.new) }
    ensures grown { OnOk result (Grown texts.old.named.items texts.new.named.items (RowsTo on.now.tables.now rows.now (length rows.now))) }
{
    for i in 0..rows.len() {
        put_row(alloc, on, &rows[i], texts)?;
    }
    Ok(())
}

/// All texts that sources of the grammar give on the row, with where they come from.
pub(crate) fn find_texts<'a>(alloc: Global, on: &OnRow<'a>) -> Result<Texts<'a>, NoMemory>
    requires { IsOnRow on.now }
    ensures { IfOk result (AreTexts on.now) }
{
    let _tables = on.tables.count();
    let mut texts = Texts::new(alloc);
    put_inputs(alloc, on, on.sheet.inputs(), &mut texts)?;
    let reached = reach(alloc, on.row, on.sheet, on.tables, &on.settings)?;
    put_rows(alloc, on, reached.rows.as_slice(), &mut texts)?;
    Ok(texts)
}
