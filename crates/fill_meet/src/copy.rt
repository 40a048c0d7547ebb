//! Copies of what sets list.
ghost use Rattle.std.specs.Prelude.{◌≡◌, IfOk};

use fill_arena::{ConditionItem, SelectItem, SourceItem};
use fill_text::{List, NoMemory, Text};
use std::alloc::Global;

/// The items of a set of sources.
pub(crate) fn copy_sources(
    alloc: Global,
    items: &[SourceItem],
) -> Result<List<SourceItem>, NoMemory>
    ensures { IfOk result (λ copied. copied ≡ items.now) }
{
    let mut copied = List::with_capacity(alloc, items.len())?;
    for item in items {
        copied.push(copy_source(alloc, item)?)?;
    }
    Ok(copied)
}

fn copy_source(alloc: Global, item: &SourceItem) -> Result<SourceItem, NoMemory>
    ensures { IfOk result (λ copied. copied ≡ item.now) }
{
    match item {
        SourceItem::Col(column) => Ok(SourceItem::Col(*column)),
        SourceItem::Select(select) => Ok(SourceItem::Select(SelectItem {
            column: select.column,
            table: select.table,
            key: select.key,
            conditions: copy_conditions(alloc, select.conditions.as_slice())?,
        })),
    }
}

fn copy_conditions(
    alloc: Global,
    conditions: &[ConditionItem],
) -> Result<List<ConditionItem>, NoMemory>
    ensures { IfOk result (λ copied. copied ≡ conditions.now) }
{
    let mut copied = List::with_capacity(alloc, conditions.len())?;
    for condition in conditions {
        copied.push(copy_condition(condition)?)?;
    }
    Ok(copied)
}

fn copy_condition(condition: &ConditionItem) -> Result<ConditionItem, NoMemory>
    ensures { IfOk result (λ copied. copied ≡ condition.now) }
{
    let constant = match &condition.constant {
        Some(text) => Some(text.copy()?),
        None => None,
    };
    Ok(ConditionItem {
        constant,
        atoms: condition.atoms,
    })
}
