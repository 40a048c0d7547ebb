//! Columns and lookups, with their texts on the row.
ghost use Rattle.std.specs.Prelude.{◌≡◌, OnOk};
ghost use Rattle.fill_tree.specs.Meaning.{source_tree};
ghost use Rattle.fill_arena.specs.Stands.{SourceFits};
ghost use Rattle.fill_object.specs.Kinds.{sources_on};
ghost use Rattle.fill_object.specs.Memo.{IsOnRow};
ghost use Rattle.fill_object.specs.Leasts.{Gains};
ghost use Rattle.fill_object.specs.Rows.{AreRows, IsSelectBy};

use crate::rivals::take;
use crate::row::OnRow;
use crate::valued::ValuedSource;
use fill_arena::{SelectItem, SourceItem};
use fill_eval::source_value;
use fill_text::NoMemory;
use fill_tree::{Program, Select, Source, has_part};

/// Puts a source, with its text.
fn put_source(
    on: &OnRow<'_>,
    source: Source,
    rivals: &mut Vec<ValuedSource>,
) -> Result<(), NoMemory>
    requires { IsOnRow on.now }
    ensures { OnOk result (Gains (sources_on on.now) (λ x. x ≡ source_tree source) rivals.old.items rivals.new.items) }
{
    let text = source_value(on.alloc, &source, on.row, on.sheet, on.tables)?;
    take(on.prices, rivals, ValuedSource { source, text })
}

/// Puts a column.
pub(crate) fn put_column(
    on: &OnRow<'_>,
    number: u32,
    rivals: &mut Vec<ValuedSource>,
) -> Result<(), NoMemory>
    requires { IsOnRow on.now }
    ensures { OnOk result (Gains (sources_on on.now) (λ x. SourceFits x on.now.arena.now (SourceItem.Col number)) rivals.old.items rivals.new.items) }
{
    put_source(on, Source::Col(number), rivals)
}

/// Puts the lookup by a row of conditions, if one of them is no constant.
fn put_select(
    on: &OnRow<'_>,
    item: &SelectItem,
    row: &Program,
    rivals: &mut Vec<ValuedSource>,
) -> Result<(), NoMemory>
    requires { IsOnRow on.now }
    ensures { OnOk result (Gains (sources_on on.now) (IsSelectBy item.now row.now) rivals.old.items rivals.new.items) }
{
    if !has_part(row.atoms.as_slice()) {
        return Ok(());
    }
    let copied = row.copy(on.alloc)?;
    let select = Select {
        column: item.column,
        table: item.table,
        key: item.key,
        conditions: copied.atoms,
    };
    put_source(on, Source::Select(Box::new(on.alloc, select)?), rivals)
}

/// Puts the lookups by rows of conditions that serve for all of the item.
pub(crate) fn put_selects(
    on: &OnRow<'_>,
    item: &SelectItem,
    rows: &[Program],
    rivals: &mut Vec<ValuedSource>,
) -> Result<(), NoMemory>
    requires row { IsOnRow on.now }
    requires rows { AreRows on.now item.now.conditions rows.now }
    ensures { OnOk result (Gains (sources_on on.now) (λ x. SourceFits x on.now.arena.now (SourceItem.Select item.now)) rivals.old.items rivals.new.items) }
{
    for row in rows {
        put_select(on, item, row, rivals)?;
    }
    Ok(())
}
