//! The cells of a column on some rows, and the counts of matches in them.
ghost use Rattle.std.specs.Prelude.{◌≤◌, ◌<◌, length, All, Contains, IfOk};
ghost use Rattle.std.specs.List.{AllZip};
ghost use Rattle.fill_guard.specs.Matches.{IsMatchCount};
ghost use Rattle.fill_guard.specs.Read.{AreCells, IsRowOf};

use crate::pieces::Pieces;
use fill_sheet::Sheet;
use fill_text::NoMemory;
use fill_tokens::Seq;
use std::alloc::Global;

/// Reads the cells of the column on the rows.
pub fn read_cells(
    alloc: Global,
    sheet: &Sheet,
    column: u32,
    rows: &[u32],
) -> Result<Vec<Pieces>, NoMemory>
    requires input { Contains sheet.now.inputs column }
    requires rows { All (IsRowOf sheet.now) rows.now }
    ensures { IfOk result (λ cells. AreCells sheet.now column rows.now cells.items) }
{
    let mut cells = Vec::new(alloc);
    for row in rows {
        let pieces = Pieces::new(alloc, sheet.cell(*row, column))?;
        cells.push(pieces)?;
    }
    Ok(cells)
}

/// The number of matches of the sequence in each cell, counted up to three.
pub fn counts(alloc: Global, cells: &[Pieces], seq: &Seq) -> Result<Vec<usize>, NoMemory>
    requires some { 0 < length seq.now }
    requires few { length seq.now ≤ 2 }
    ensures { IfOk result (λ counts. AllZip (IsMatchCount seq.now) cells.now counts.items) }
{
    let mut counts = Vec::new(alloc);
    for cell in cells {
        counts.push(cell.count(seq))?;
    }
    Ok(counts)
}
