//! The graph of an example.
ghost use Rattle.std.specs.Prelude.{◌≡◌, ◌≤◌, ◌+◌, length, IfOk, OnErr, IfNone, MatchOption};
ghost use Rattle.fill_tree.specs.Grammar.{AreSettings};
ghost use Rattle.fill_arena.specs.Contents.{Extends};
ghost use Rattle.fill_sources.specs.Found.{PlacesStand};
ghost use Rattle.fill_build.specs.Build.{IsGraphOfExample, NoneExplains};

use crate::uncut::build_uncut;
use fill_arena::{Arena, GraphId};
use fill_edge::{Ledger, Steps};
use fill_sheet::Sheet;
use fill_sources::{OnRow, PlaceMemory};
use fill_tables::Tables;
use fill_text::{NoMemory, Text};
use fill_tree::{MOST_CHARACTERS, Settings};
use std::alloc::Global;

/// The graph of the programs that explain the example of the row with this text, or none where there are none.
///
/// Where it makes no graph, it leaves the arena as it was. It takes one step, whatever it answers.
pub fn build<L: Ledger>(
    alloc: Global,
    arena: &mut Arena,
    row: u32,
    text: &Text,
    sheet: &Sheet,
    tables: &Tables,
    settings: &Settings,
    steps: &mut Steps<L>,
) -> Result<Option<GraphId>, NoMemory>
    requires first { 1 ≤ row }
    requires last { row ≤ length sheet.now.rows }
    requires short { length text.now ≤ MOST_CHARACTERS }
    requires settings { AreSettings settings.now }
    ensures built { IfOk result (λ made. MatchOption made (NoneExplains settings.now sheet.now tables.now row text.now) (IsGraphOfExample settings.now sheet.now tables.now row text.now arena.new)) }
    ensures none { IfOk result (λ made. IfNone made (arena.new ≡ arena.old)) }
    ensures extends { Extends arena.old arena.new }
    ensures err { OnErr result (arena.new ≡ arena.old) }
    ensures step { steps.new ≡ steps.old + 1 }
{
    let mut memory = PlaceMemory::new(alloc);
    build_with(
        alloc,
        &mut memory,
        arena,
        row,
        text,
        sheet,
        tables,
        settings,
        steps,
    )
}

/// As [`build`], with the sets of places of this arena that were found for earlier examples, on any row of any sheet; those of
/// this row are put to them. Where it makes no graph, all are forgotten.
pub fn build_with<L: Ledger>(
    alloc: Global,
    memory: &mut PlaceMemory,
    arena: &mut Arena,
    row: u32,
    text: &Text,
    sheet: &Sheet,
    tables: &Tables,
    settings: &Settings,
    steps: &mut Steps<L>,
) -> Result<Option<GraphId>, NoMemory>
    requires memory { PlacesStand arena.old memory.old }
    requires first { 1 ≤ row }
    requires last { row ≤ length sheet.now.rows }
    requires short { length text.now ≤ MOST_CHARACTERS }
    requires settings { AreSettings settings.now }
    ensures built { IfOk result (λ made. MatchOption made (NoneExplains settings.now sheet.now tables.now row text.now) (IsGraphOfExample settings.now sheet.now tables.now row text.now arena.new)) }
    ensures none { IfOk result (λ made. IfNone made (arena.new ≡ arena.old)) }
    ensures memory { PlacesStand arena.new memory.new }
    ensures extends { Extends arena.old arena.new }
    ensures err { OnErr result (arena.new ≡ arena.old) }
    ensures step { steps.new ≡ steps.old + 1 }
{
    tables.keeps_keys();
    let on = OnRow {
        row,
        sheet,
        tables,
        settings: *settings,
    };
    let mark = arena.mark();
    match build_uncut(alloc, memory, arena, &on, text, steps) {
        Ok(Some(made)) => Ok(Some(made)),
        Ok(None) => {
            arena.cut(mark);
            *memory = PlaceMemory::new(alloc);
            Ok(None)
        }
        Err(e) => {
            arena.cut(mark);
            *memory = PlaceMemory::new(alloc);
            Err(e)
        }
    }
}
