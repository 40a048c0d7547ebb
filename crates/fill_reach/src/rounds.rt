//! Rounds, one for each depth: a row is reached by a depth where a key cell is a piece of a text that is known by a
//! lesser one, and then its cells in columns that are free of the key are known.
//!
//! A round looks for the cells of the rows that are not reached yet in the texts that the round before made known, so
//! no row is looked for in a text twice; where it made none known, no row is reached any more.
ghost use Rattle.std.specs.Prelude.{◌≤◌, All, Contains, IfOk, length, map};
ghost use Rattle.fill_tables.specs.Tables.{AreTables};
ghost use Rattle.fill_text.specs.Lists.{Lists};
ghost use Rattle.fill_reach.specs.Marks.{AreMarkedAs, IsMarkedAs};
ghost use Rattle.fill_tree.specs.Grammar.{AreSettings};
ghost use Rattle.fill_reach.specs.Reach.{FindsEach, IsReached, reached_cmp};
ghost use Rattle.fill_reach.specs.Spots.{IsSpot, spot_of};

use crate::rows::{ReachedRow, ReachedRows, all_rows, with_depth};
use crate::texts::{keep_scalars, new_texts, touches};
use fill_sheet::Sheet;
use fill_tables::Tables;
use fill_text::NoMemory;
use fill_tree::Settings;
use std::alloc::Global;

/// The rows of tables that the lookups of the grammar pick on the row of the sheet, no deeper than the settings allow.
///
/// So each row that some lookup picks is there, with no more than that lookup's depth.
pub fn reach(
    alloc: Global,
    row: u32,
    sheet: &Sheet,
    tables: &Tables,
    settings: &Settings,
) -> Result<ReachedRows, NoMemory>
    requires first { 1 ≤ row }
    requires last { row ≤ length sheet.now.rows }
    requires settings { AreSettings settings.now }
    ensures listed { IfOk result (λ reached. Lists reached_cmp (IsReached settings.now sheet.now tables.now row) reached.rows) }
    ensures found { IfOk result (λ reached. FindsEach settings.now sheet.now tables.now row reached.rows) }
{
    let mut all = all_rows(alloc, tables)?;
    let rows = all.as_mut_slice();
    for depth in 0..settings.depth {
        let texts = new_texts(alloc, depth, rows, row, sheet, tables)?;
        if texts.is_empty() {
            break;
        }
        mark(rows, depth + 1, &texts, tables);
    }
    Ok(ReachedRows {
        rows: with_depth(alloc, rows)?,
    })
}

/// Gives each row without a depth this one, if a key cell of it is a piece of one of the texts.
fn mark(rows: &mut [ReachedRow], depth: u8, texts: &[&[char]], tables: &Tables)
    requires shape { AreTables tables.now }
    requires spots { All (λ r. IsSpot tables.now (spot_of r)) rows.old }
    ensures { AreMarkedAs tables.now (Contains (map (λ text. text.now) texts.now)) depth rows.old rows.new }
{
    for row in rows.iter_mut() {
        *row = marked(*row, depth, texts, tables);
    }
}

/// The row with this depth, if it has none and a key cell of it is a piece of one of the texts.
fn marked(row: ReachedRow, depth: u8, texts: &[&[char]], tables: &Tables) -> ReachedRow
    requires shape { AreTables tables.now }
    requires spot { IsSpot tables.now (spot_of row) }
    ensures { IsMarkedAs tables.now (Contains (map (λ text. text.now) texts.now)) depth row result }
{
    if row.depth != 0 {
        return row;
    }
    if !touches(row, texts, tables) {
        return row;
    }
    keep_scalars(row, tables);
    ReachedRow { depth, ..row }
}
