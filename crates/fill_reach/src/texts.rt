//! Known texts, and where key cells occur in them.
ghost use Rattle.std.specs.Prelude.{◌≡◌, ◌≤◌, ◌↔◌, IsTrue, All, Contains, IfOk, OnOk, length, map};
ghost use Rattle.fill_tables.specs.Tables.{AreTables};
ghost use Rattle.fill_reach.specs.Marks.{AreTexts, IsNew, IsNewCell};
ghost use Rattle.fill_reach.specs.Spots.{Gains, IsFreeCell, IsInputCell, IsPieceOf, IsPieceOfSome, IsSpot, KeepScalars, Touches, spot_of};

use crate::rows::{ReachedRow, is_free};
use fill_sheet::Sheet;
use fill_tables::Tables;
use fill_text::{NoMemory, Text};
use std::alloc::Global;
use std::collections::BTreeMap;

/// Where texts stand among the texts. It only says where to look, and what is found there is compared. The texts are those of
/// strangers, so they are kept in order: no choice of texts makes it slow to look for one.
type Places<'a> = BTreeMap<&'a [char], usize>;

/// The texts that can be known by a depth and by no lesser one, where the rows have their marks.
pub(crate) fn new_texts<'a>(
    alloc: Global,
    depth: u8,
    rows: &[ReachedRow],
    row: u32,
    sheet: &'a Sheet,
    tables: &'a Tables,
) -> Result<Vec<&'a [char]>, NoMemory>
    requires first { 1 ≤ row }
    requires last { row ≤ length sheet.now.rows }
    requires spots { All (λ r. IsSpot tables.now (spot_of r)) rows.now }
    ensures { IfOk result (λ texts. AreTexts (IsNew sheet.now tables.now row rows.now depth) (map (λ text. text.now) texts.items)) }
{
    let mut texts = Vec::new(alloc);
    let mut places = BTreeMap::new(alloc);
    if depth == 0 {
        push_inputs(&mut texts, &mut places, row, sheet)?;
        return Ok(texts);
    }
    push_cells(&mut texts, &mut places, depth, rows, tables)?;
    Ok(texts)
}

/// Puts the cells of the row's input columns to the texts.
fn push_inputs<'a>(
    texts: &mut Vec<&'a [char]>,
    places: &mut Places<'a>,
    row: u32,
    sheet: &'a Sheet,
) -> Result<(), NoMemory>
    requires first { 1 ≤ row }
    requires last { row ≤ length sheet.now.rows }
    ensures { OnOk result (Gains (map (λ text. text.now) texts.old.items) (map (λ text. text.now) texts.new.items) (IsInputCell sheet.now row)) }
{
    for column in sheet.inputs() {
        push_text(texts, places, sheet.cell(row, *column))?;
    }
    Ok(())
}

/// Puts the cells of the rows of this depth to the texts, those in columns that are free of the key.
fn push_cells<'a>(
    texts: &mut Vec<&'a [char]>,
    places: &mut Places<'a>,
    depth: u8,
    rows: &[ReachedRow],
    tables: &'a Tables,
) -> Result<(), NoMemory>
    requires spots { All (λ r. IsSpot tables.now (spot_of r)) rows.now }
    ensures { OnOk result (Gains (map (λ text. text.now) texts.old.items) (map (λ text. text.now) texts.new.items) (IsNewCell tables.now rows.now depth)) }
{
    for row in rows {
        if row.depth != depth {
            continue;
        }
        push_row(texts, places, *row, tables)?;
    }
    Ok(())
}

/// Puts the cells of a row to the texts, those in columns that are free of the key.
fn push_row<'a>(
    texts: &mut Vec<&'a [char]>,
    places: &mut Places<'a>,
    row: ReachedRow,
    tables: &'a Tables,
) -> Result<(), NoMemory>
    requires spot { IsSpot tables.now (spot_of row) }
    ensures { OnOk result (Gains (map (λ text. text.now) texts.old.items) (map (λ text. text.now) texts.new.items) (IsFreeCell tables.now (spot_of row))) }
{
    for column in 1..=tables.width(row.table) {
        if !is_free(row.table, row.key, column, tables) {
            continue;
        }
        push_text(texts, places, tables.cell(row.table, row.row, column))?;
    }
    Ok(())
}

/// Puts a text to the texts, if it is none of them. One that is so long that no place can name its end is refused like one
/// where memory runs out.
fn push_text<'a>(
    texts: &mut Vec<&'a [char]>,
    places: &mut Places<'a>,
    text: &'a Text,
) -> Result<(), NoMemory>
    ensures { OnOk result (Gains (map (λ text. text.now) texts.old.items) (map (λ text. text.now) texts.new.items) (λ v. v ≡ text.now)) }
{
    if text.len() > i32::MAX as usize {
        return Err(NoMemory);
    }
    if is_there(texts, places, text.as_slice()) {
        return Ok(());
    }
    keep_place(places, text.as_slice(), texts.len())?;
    texts.push(text.as_slice())?;
    Ok(())
}

/// Whether the text is one of the texts, where its place was kept.
fn is_there<'a>(texts: &[&'a [char]], places: &Places<'a>, text: &'a [char]) -> bool
    ensures { IsTrue result → Contains (map (λ text. text.now) texts.now) text.now }
{
    let Some(place) = places.get(&text) else {
        return false;
    };
    let place = *place;
    if place >= texts.len() {
        return false;
    }
    texts[place] == text
}

/// Keeps where the text comes to stand among the texts.
fn keep_place<'a>(places: &mut Places<'a>, text: &'a [char], place: usize) -> Result<(), NoMemory> {
    match places.insert(text, place) {
        Ok(_) => Ok(()),
        Err(_) => Err(NoMemory),
    }
}

/// Whether a key cell of the row is a piece of one of the texts.
pub(crate) fn touches(row: ReachedRow, texts: &[&[char]], tables: &Tables) -> bool
    requires shape { AreTables tables.now }
    requires spot { IsSpot tables.now (spot_of row) }
    ensures { IsTrue result ↔ Touches (Contains (map (λ text. text.now) texts.now)) tables.now (spot_of row) }
{
    for column in tables.key(row.table, row.key) {
        let cell = tables.cell(row.table, row.row, *column);
        if is_piece_of_some(cell, texts) {
            return true;
        }
    }
    false
}

/// What the key cells of the row keep: their characters are Unicode scalar values. It does nothing.
pub(crate) fn keep_scalars(row: ReachedRow, tables: &Tables)
    requires shape { AreTables tables.now }
    requires spot { IsSpot tables.now (spot_of row) }
    ensures { KeepScalars tables.now (spot_of row) }
{
    for column in tables.key(row.table, row.key) {
        tables.cell(row.table, row.row, *column).keeps_scalars();
    }
}

/// Whether the cell is a piece of one of the texts.
fn is_piece_of_some(cell: &Text, texts: &[&[char]]) -> bool
    ensures { IsTrue result ↔ IsPieceOfSome (Contains (map (λ text. text.now) texts.now)) cell.now }
{
    for text in texts {
        if is_piece_of(cell.as_slice(), text) {
            return true;
        }
    }
    false
}

/// Whether the cell has a character and stands somewhere in the text.
fn is_piece_of(cell: &[char], text: &[char]) -> bool
    ensures { IsTrue result ↔ IsPieceOf cell.now text.now }
{
    let size = cell.len();
    if size == 0 || text.len() < size {
        return false;
    }
    for from in 0..=text.len() - size {
        if &text[from..from + size] == cell {
            return true;
        }
    }
    false
}
