//! The sets of the sources that give a text.
ghost use Rattle.std.specs.Prelude.{◌≡◌, ℕ, ◌<◌, ◌≤◌, List as Listed, [], length, Some, slice_get, IfOk, OnOk};
ghost use Rattle.fill_text.specs.Data.{table_cell_at};
ghost use Rattle.fill_reach.specs.Reach.{IsReached};
ghost use Rattle.fill_reach.specs.Spots.{IsFree};
ghost use Rattle.fill_arena.specs.Contents.{EachIn, Extends};
ghost use Rattle.fill_sources.specs.Gives.{Gives, at_depth};
ghost use Rattle.fill_sources.specs.Origins.{IsOrigin, texts_in};
ghost use Rattle.fill_sources.specs.Readers.{AddsSources, AreSourceItemsOf, IsOldSource};
ghost use Rattle.fill_sources.specs.Sets.{AreConditions, AreKeyCells, IsCondition, IsLook, IsRight, IsSourceMade, Reads};

use crate::memo::Memo;
use crate::parts::parts_at;
use crate::row::Look;
use crate::texts::Origin;
use fill_arena::{Arena, ConditionItem, SelectItem, SourceItem, SourceSet};
use fill_eval::table_cell;
use fill_reach::ReachedRow;
use fill_text::{List, NoMemory, Text};

/// The condition that a key cell is: the cell as a constant, or a part that gives it.
#[cycle(sources)]
fn condition<'a>(
    look: &Look<'_, 'a>,
    memo: &mut Memo<'a>,
    arena: &mut Arena,
    depth: u8,
    cell: &'a Text,
) -> Result<ConditionItem, NoMemory>
    requires row { IsLook look.now }
    requires depth { depth ≤ look.now.on.now.settings.depth }
    requires memo { IsRight look.now.on.now (texts_in look.now.texts.now) arena.old memo.old }
    ensures made { IfOk result (IsCondition (at_depth look.now.on.now depth) arena.new cell.now) }
    ensures memo { OnOk result (IsRight look.now.on.now (texts_in look.now.texts.now) arena.new memo.new) }
    ensures extends { Extends arena.old arena.new }
{
    cell.keeps_scalars();
    let constant = cell.copy()?;
    let atoms = parts_at(look, memo, arena, depth, cell)?;
    Ok(ConditionItem {
        constant: Some(constant),
        atoms,
    })
}

/// The conditions that the cells of a table's row in the columns of the key are.
#[cycle(sources)]
fn conditions<'a>(
    look: &Look<'_, 'a>,
    memo: &mut Memo<'a>,
    arena: &mut Arena,
    depth: u8,
    at: &ReachedRow,
) -> Result<List<ConditionItem>, NoMemory>
    requires row { IsLook look.now }
    requires depth { depth ≤ look.now.on.now.settings.depth }
    requires memo { IsRight look.now.on.now (texts_in look.now.texts.now) arena.old memo.old }
    requires reached { IsReached look.now.on.now.settings look.now.on.now.sheet.now look.now.on.now.tables.now look.now.on.now.row at.now }
    ensures made { IfOk result (λ items. (cells : Listed (Listed ℕ)) × AreKeyCells look.now.on.now.tables.now at.now cells × AreConditions (at_depth look.now.on.now depth) arena.new cells items) }
    ensures memo { OnOk result (IsRight look.now.on.now (texts_in look.now.texts.now) arena.new memo.new) }
    ensures extends { Extends arena.old arena.new }
{
    let tables = look.on.tables;
    let key = tables.key(at.table, at.key);
    let mut items = List::new(look.alloc);
    for i in 0..key.len() {
        let Some(cell) = table_cell(at.table, at.row, key[i], tables) else {
            unreachable!()
        };
        items.push(condition(look, memo, arena, depth, cell)?)?;
    }
    Ok(items)
}

/// Puts the lookups, no deeper than that, of a table's row in a column that is free of the key.
#[cycle(sources)]
fn put_lookups<'a>(
    look: &Look<'_, 'a>,
    memo: &mut Memo<'a>,
    arena: &mut Arena,
    depth: u8,
    at: &ReachedRow,
    column: u32,
    items: &mut List<SourceItem>,
) -> Result<(), NoMemory>
    requires row { IsLook look.now }
    requires depth { depth ≤ look.now.on.now.settings.depth }
    requires memo { IsRight look.now.on.now (texts_in look.now.texts.now) arena.old memo.old }
    requires reached { IsReached look.now.on.now.settings look.now.on.now.sheet.now look.now.on.now.tables.now look.now.on.now.row at.now }
    requires free { IsFree look.now.on.now.tables.now at.now.table at.now.key column }
    ensures adds { OnOk result ((v : Listed ℕ) → table_cell_at look.now.on.now.tables.now at.now.table at.now.row column ≡ Some v →
        AddsSources arena.new items.old items.new (λ x. Reads look.now.on.now (Origin.Cell at.now column) x × Gives (at_depth look.now.on.now depth) v x)) }
    ensures memo { OnOk result (IsRight look.now.on.now (texts_in look.now.texts.now) arena.new memo.new) }
    ensures extends { Extends arena.old arena.new }
{
    if at.depth > depth {
        return Ok(());
    }
    let conditions = conditions(look, memo, arena, depth - 1, at)?;
    items.push(SourceItem::Select(SelectItem {
        column,
        table: at.table,
        key: at.key,
        conditions,
    }))
}

/// Puts the sources, no deeper than that, which read what a text comes from.
#[cycle(sources)]
fn put_origin<'a>(
    look: &Look<'_, 'a>,
    memo: &mut Memo<'a>,
    arena: &mut Arena,
    depth: u8,
    origin: &Origin,
    items: &mut List<SourceItem>,
) -> Result<(), NoMemory>
    requires row { IsLook look.now }
    requires depth { depth ≤ look.now.on.now.settings.depth }
    requires memo { IsRight look.now.on.now (texts_in look.now.texts.now) arena.old memo.old }
    requires origin { (v : Listed ℕ) × IsOrigin look.now.on.now v origin.now }
    ensures adds { OnOk result ((v : Listed ℕ) → IsOrigin look.now.on.now v origin.now →
        AddsSources arena.new items.old items.new (λ x. Reads look.now.on.now origin.now x × Gives (at_depth look.now.on.now depth) v x)) }
    ensures memo { OnOk result (IsRight look.now.on.now (texts_in look.now.texts.now) arena.new memo.new) }
    ensures extends { Extends arena.old arena.new }
{
    match *origin {
        Origin::Col(column) => items.push(SourceItem::Col(column)),
        Origin::Cell(at, column) => put_lookups(look, memo, arena, depth, &at, column, items),
    }
}

/// The items of the sources, no deeper than that, which give the text of the number.
#[cycle(sources)]
fn source_items<'a>(
    look: &Look<'_, 'a>,
    memo: &mut Memo<'a>,
    arena: &mut Arena,
    depth: u8,
    k: usize,
) -> Result<List<SourceItem>, NoMemory>
    requires row { IsLook look.now }
    requires depth { depth ≤ look.now.on.now.settings.depth }
    requires memo { IsRight look.now.on.now (texts_in look.now.texts.now) arena.old memo.old }
    requires within { k < length look.now.texts.now.named.items }
    ensures items { IfOk result (λ items. (v : Listed ℕ) → slice_get (texts_in look.now.texts.now) k ≡ Some v → AddsSources arena.new [] items (Gives (at_depth look.now.on.now depth) v)) }
    ensures memo { OnOk result (IsRight look.now.on.now (texts_in look.now.texts.now) arena.new memo.new) }
    ensures extends { Extends arena.old arena.new }
{
    let origins = look.texts.named[k].origins.as_slice();
    let mut items = List::new(look.alloc);
    for i in 0..origins.len() {
        put_origin(look, memo, arena, depth, &origins[i], &mut items)?;
    }
    Ok(items)
}

/// The set of these items; none where there is none.
fn source_set(arena: &mut Arena, items: List<SourceItem>) -> Result<Option<SourceSet>, NoMemory>
    requires { EachIn (IsOldSource arena.old) items }
    ensures made { IfOk result (AreSourceItemsOf arena.old arena.new items) }
    ensures extends { Extends arena.old arena.new }
{
    if items.len() == 0 {
        return Ok(None);
    }
    Ok(Some(arena.intern_sources(items)?))
}

/// The set of the sources, no deeper than that, which give the text of the number; none where there is none.
#[cycle(sources)]
pub(crate) fn sources_at<'a>(
    look: &Look<'_, 'a>,
    memo: &mut Memo<'a>,
    arena: &mut Arena,
    depth: u8,
    k: usize,
) -> Result<Option<SourceSet>, NoMemory>
    requires row { IsLook look.now }
    requires depth { depth ≤ look.now.on.now.settings.depth }
    requires memo { IsRight look.now.on.now (texts_in look.now.texts.now) arena.old memo.old }
    requires within { k < length look.now.texts.now.named.items }
    ensures made { IfOk result (IsSourceMade look.now.on.now (texts_in look.now.texts.now) arena.new (k, depth)) }
    ensures memo { OnOk result (IsRight look.now.on.now (texts_in look.now.texts.now) arena.new memo.new) }
    ensures extends { Extends arena.old arena.new }
{
    if let Some(made) = memo.source(k, depth) {
        return Ok(made);
    }
    let items = source_items(look, memo, arena, depth, k)?;
    let made = source_set(arena, items)?;
    memo.keep_source(k, depth, &made)?;
    Ok(made)
}
