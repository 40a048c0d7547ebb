//! What lookups find by the texts of their conditions.
//!
//! The texts of two or three conditions can be put together in millions of ways, while a table has few rows. So where a look
//! for each way would take longer, the rows are gone through, each with a look whether its cells are among the texts; and the
//! ways only up to the first that no row has. Since keys distinguish rows, that one comes soon.
ghost use Rattle.std.specs.Prelude.{◌≡◌, ◌↔◌, ◌≤◌, ◌||◌, ◌++◌, ◌∷◌, ℕ, List as Items, [], false, true, Option, Some, None, IsTrue, IfOk, IfSome, OnOk, MatchOption, length, map, option_copied};
ghost use Rattle.fill_text.specs.Data.{key_at};
ghost use Rattle.fill_tables.specs.Keys.{IsKeyedRow};
ghost use Rattle.fill_tree.specs.Value.{IsValue, LooksUp};
ghost use Rattle.fill_doubt.specs.Answers.{Covers, Gains, TextsHave};
ghost use Rattle.fill_doubt.specs.Rows.{AreFound, Find, FindsBy, Fit, IsSought, IsText, RowHas, RowsHave};

use crate::answers::Texts;
use crate::conditions::{Cells, are_few, lacks};
use fill_arena::SelectItem;
use fill_eval::{found_row, table_cell};
use fill_tables::Tables;
use fill_text::{NoMemory, Text};
use std::alloc::Global;

/// What is looked up, and whether it will do to know that some way finds nothing.
#[derive(Clone, Copy)]
pub(crate) struct Look<'k, 'a> {
    pub(crate) alloc: Global,
    pub(crate) item: &'k SelectItem,
    pub(crate) tables: &'a Tables,
    pub(crate) few: bool,
}

/// The cells of the table that the texts of the conditions find, if a condition is no constant.
pub(crate) fn look_up<'a>(
    alloc: Global,
    found: &mut Texts<'a>,
    item: &SelectItem,
    conditions: &[Cells<'a>],
    tables: &'a Tables,
) -> Result<(), NoMemory>
    ensures { OnOk result (Gains (TextsHave found.old) (TextsHave found.new) (AreFound tables.now item.now.column item.now.table item.now.key (RowsHave conditions.now))) }
{
    let look = Look {
        alloc,
        item,
        tables,
        few: !are_few(conditions, row_count(item.table, tables)),
    };
    found.put_none(lacks(conditions));
    put_found(found, &look, conditions)
}

/// How many rows the table has.
fn row_count(table: u32, tables: &Tables) -> usize {
    if table == 0 || table > tables.count() {
        return 0;
    }
    tables.rows(table) as usize
}

/// What is found where each condition has a text.
fn put_found<'a>(
    found: &mut Texts<'a>,
    look: &Look<'_, 'a>,
    conditions: &[Cells<'a>],
) -> Result<(), NoMemory>
    ensures { OnOk result (Gains (TextsHave found.old) (TextsHave found.new) (Find look.now [] false conditions.now)) }
{
    put_ways(found, look, &[], false, conditions)?;
    if !look.few {
        return Ok(());
    }
    put_rows(found, look, conditions)
}

/// Whether it is known already that some way finds nothing, and that will do.
fn is_enough(look: &Look<'_, '_>, found: &Texts<'_>) -> bool
    ensures few { IsTrue result → look.now.few ≡ true }
    ensures none { IsTrue result → found.now.none ≡ true }
{
    if !look.few {
        return false;
    }
    found.none
}

/// What the ways find that begin with these cells.
#[cycle(ways)]
fn put_ways<'a>(
    found: &mut Texts<'a>,
    look: &Look<'_, 'a>,
    cells: &[&'a [char]],
    part: bool,
    conditions: &[Cells<'a>],
) -> Result<(), NoMemory>
    ensures { OnOk result (Covers (IsSought look.now.few) (TextsHave found.old) (TextsHave found.new) (Find look.now (map (λ cell. cell.now) cells.now) part conditions.now)) }
{
    if is_enough(look, found) {
        return Ok(());
    }
    let Some((first, rest)) = conditions.split_first() else {
        return look_up_cells(found, look, cells, part);
    };
    for i in 0..first.cells.len() {
        let next = &first.cells[i];
        put_longer(found, look, cells, next.text, either(part, next.part), rest)?;
    }
    Ok(())
}

/// What the ways find that begin with these cells and one more.
#[cycle(ways)]
fn put_longer<'a>(
    found: &mut Texts<'a>,
    look: &Look<'_, 'a>,
    cells: &[&'a [char]],
    next: &'a [char],
    part: bool,
    conditions: &[Cells<'a>],
) -> Result<(), NoMemory>
    ensures { OnOk result (Covers (IsSought look.now.few) (TextsHave found.old) (TextsHave found.new) (Find look.now (map (λ cell. cell.now) cells.now ++ next.now ∷ []) part conditions.now)) }
{
    let longer = with_last(look.alloc, cells, next)?;
    put_ways(found, look, longer.as_slice(), part, conditions)
}

fn with_last<'a>(
    alloc: Global,
    cells: &[&'a [char]],
    next: &'a [char],
) -> Result<Vec<&'a [char]>, NoMemory>
    ensures { IfOk result (λ made. map (λ cell. cell.now) made.items ≡ map (λ cell. cell.now) cells.now ++ next.now ∷ []) }
{
    let mut made = Vec::with_capacity(alloc, cells.len().saturating_add(1))?;
    made.extend_from_slice(cells)?;
    made.push(next)?;
    Ok(made)
}

fn either(a: bool, b: bool) -> bool
    ensures { result ≡ (a || b) }
{
    a || b
}

/// The cell that the texts find, if a condition is no constant.
fn look_up_cells<'a>(
    found: &mut Texts<'a>,
    look: &Look<'_, 'a>,
    cells: &[&'a [char]],
    part: bool,
) -> Result<(), NoMemory>
    ensures { OnOk result (Gains (TextsHave found.old) (TextsHave found.new) (FindsBy look.now (record { texts = map (λ cell. cell.now) cells.now; part = part }))) }
{
    if !part {
        return Ok(());
    }
    match cell_found(look.item, cells, look.tables) {
        Some(text) => found.put(text),
        None => {
            found.none = true;
            Ok(())
        }
    }
}

/// The cell that a lookup by these texts finds.
fn cell_found<'a>(item: &SelectItem, cells: &[&[char]], tables: &'a Tables) -> Option<&'a Text>
    ensures { IsValue (LooksUp (λ ts. ts ≡ map (λ cell. cell.now) cells.now) tables.now item.now.column item.now.table item.now.key) (option_copied result) }
{
    let row = found_row(item.table, item.key, cells, tables)?;
    table_cell(item.table, row, item.column, tables)
}

/// What the rows of the table have whose cells are among the texts of the conditions.
fn put_rows<'a>(
    found: &mut Texts<'a>,
    look: &Look<'_, 'a>,
    conditions: &[Cells<'a>],
) -> Result<(), NoMemory>
    ensures { OnOk result (Covers IsText (TextsHave found.old) (TextsHave found.new) (Find look.now [] false conditions.now)) }
{
    let Some(key) = key_of(look.item, look.tables) else {
        return Ok(());
    };
    for i in 0..look.tables.rows(look.item.table) {
        put_row(found, look, key, i + 1, conditions)?;
    }
    Ok(())
}

/// The columns of the key, if there is one of these numbers.
fn key_of<'a>(item: &SelectItem, tables: &'a Tables) -> Option<&'a [u32]>
    ensures key { option_copied result ≡ key_at tables.now item.now.table item.now.key }
    ensures table { IfSome result (λ key. (1 ≤ item.now.table) × (item.now.table ≤ length tables.now)) }
{
    let count = tables.count();
    if item.table == 0 || item.table > count {
        return None;
    }
    if item.key == 0 || item.key > tables.keys(item.table) {
        return None;
    }
    Some(tables.key(item.table, item.key))
}

/// What the row has, if its cells are among the texts.
fn put_row<'a>(
    found: &mut Texts<'a>,
    look: &Look<'_, 'a>,
    key: &[u32],
    row: u32,
    conditions: &[Cells<'a>],
) -> Result<(), NoMemory>
    requires key { key_at look.now.tables.now look.now.item.now.table look.now.item.now.key ≡ Some key.now }
    ensures { OnOk result (Covers (RowHas look.now row conditions.now) (TextsHave found.old) (TextsHave found.new) (Find look.now [] false conditions.now)) }
{
    let Some(cells) = cells_at(look, key, row)? else {
        return Ok(());
    };
    if !fit(conditions, cells.as_slice(), false) {
        return Ok(());
    }
    look_up_cells(found, look, cells.as_slice(), true)
}

/// The cells of the row in the columns of the key.
fn cells_at<'a>(
    look: &Look<'_, 'a>,
    key: &[u32],
    row: u32,
) -> Result<Option<Vec<&'a [char]>>, NoMemory>
    requires key { key_at look.now.tables.now look.now.item.now.table look.now.item.now.key ≡ Some key.now }
    ensures { IfOk result (λ made. MatchOption made ((ts : Items (Items ℕ)) → ¬ (IsKeyedRow look.now.tables.now look.now.item.now.table look.now.item.now.key ts row))
        (λ cells. (ts : Items (Items ℕ)) → IsKeyedRow look.now.tables.now look.now.item.now.table look.now.item.now.key ts row → ts ≡ map (λ cell. cell.now) cells.items)) }
{
    let mut cells = Vec::with_capacity(look.alloc, key.len())?;
    for i in 0..key.len() {
        let Some(text) = table_cell(look.item.table, row, key[i], look.tables) else {
            return Ok(None);
        };
        cells.push(text.as_slice())?;
    }
    Ok(Some(cells))
}

/// Whether the cells are among the texts of the conditions, each of its own, and one of the conditions can be no constant.
fn fit(conditions: &[Cells<'_>], cells: &[&[char]], part: bool) -> bool
    ensures { IsTrue result ↔ Fit conditions.now (map (λ cell. cell.now) cells.now) part }
{
    let Some((first, rest)) = conditions.split_first() else {
        return is_last(cells, part);
    };
    let Some((cell, others)) = cells.split_first() else {
        return false;
    };
    if first.has(cell, true) {
        return fit(rest, others, true);
    }
    if !first.has(cell, false) {
        return false;
    }
    fit(rest, others, part)
}

fn is_last(cells: &[&[char]], part: bool) -> bool
    ensures { IsTrue result ↔ Fit [] (map (λ cell. cell.now) cells.now) part }
{
    if cells.len() > 0 {
        return false;
    }
    part
}
