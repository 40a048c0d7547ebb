//! The graph of an example, with all sets of its row.
ghost use Rattle.std.specs.Prelude.{◌≡◌, ◌≤◌, ◌+◌, length, IfOk, MatchOption};
ghost use Rattle.fill_arena.specs.Contents.{Extends};
ghost use Rattle.fill_sources.specs.Found.{PlacesStand};
ghost use Rattle.fill_sources.specs.Gives.{IsOnRow};
ghost use Rattle.fill_build.specs.Build.{IsGraphOfExample, NoneExplains};
ghost use Rattle.fill_build.specs.Edges.{AreWalks};

use crate::edges::piece_edges;
use fill_arena::{Arena, GraphId};
use fill_edge::{Ledger, Steps};
use fill_sources::{OnRow, PlaceMemory, RowTexts};
use fill_text::{NoMemory, Text};
use fill_tree::MOST_CHARACTERS;
use fill_trim::trim::{Trimmed, trim};
use std::alloc::Global;

/// The graph of the programs that explain the example, or none where there are none; the sets of the row stay in the arena,
/// and those of places in the memory.
pub(crate) fn build_uncut<'a, L: Ledger>(
    alloc: Global,
    memory: &mut PlaceMemory,
    arena: &mut Arena,
    on: &OnRow<'a>,
    text: &Text,
    steps: &mut Steps<L>,
) -> Result<Option<GraphId>, NoMemory>
    requires on { IsOnRow on.now }
    requires memory { PlacesStand arena.old memory.old }
    requires short { length text.now ≤ MOST_CHARACTERS }
    ensures built { IfOk result (λ made. MatchOption made (NoneExplains on.now.settings on.now.sheet.now on.now.tables.now on.now.row text.now) (IsGraphOfExample on.now.settings on.now.sheet.now on.now.tables.now on.now.row text.now arena.new)) }
    ensures memory { PlacesStand arena.new memory.new }
    ensures extends { Extends arena.old arena.new }
    ensures step { steps.new ≡ steps.old + 1 }
{
    match build_walks(alloc, memory, arena, on, text) {
        Ok(Some(walked)) => match arena.intern_graph(walked.nodes, walked.edges, steps) {
            Ok(made) => {
                arena.keeps_made();
                Ok(Some(made))
            }
            Err(e) => Err(e),
        },
        Ok(None) => {
            steps.tick();
            Ok(None)
        }
        Err(e) => {
            steps.tick();
            Err(e)
        }
    }
}

/// The edges of all pieces of the text that something gives, without the nodes that lie on no walk.
fn build_walks<'a>(
    alloc: Global,
    memory: &mut PlaceMemory,
    arena: &mut Arena,
    on: &OnRow<'a>,
    text: &Text,
) -> Result<Option<Trimmed>, NoMemory>
    requires on { IsOnRow on.now }
    requires memory { PlacesStand arena.old memory.old }
    requires short { length text.now ≤ MOST_CHARACTERS }
    ensures walks { IfOk result (λ made. MatchOption made (NoneExplains on.now.settings on.now.sheet.now on.now.tables.now on.now.row text.now) (AreWalks on.now text.now arena.new)) }
    ensures memory { PlacesStand arena.new memory.new }
    ensures extends { Extends arena.old arena.new }
{
    let mut row_texts = match RowTexts::new(alloc, on, memory) {
        Ok(row_texts) => row_texts,
        Err(e) => return Err(e),
    };
    let edges = piece_edges(alloc, on, &mut row_texts, arena, text)?;
    row_texts.keep_places(alloc, on, memory);
    trim(alloc, text.len() + 1, edges.as_slice())
}
