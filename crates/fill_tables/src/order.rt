//! The rows of a table in the order of their cells in some columns.
ghost use Rattle.std.specs.Prelude.{◌≡◌, ◌<◌, ◌≤◌, [], length, map, position, Some, None, IfOk, IfErr, OnOk, option_copied, slice_get, slice_index_or};
ghost use Rattle.std.specs.List.Sorted.{IsBinarySearchResult, IsSearchInRange};
ghost use Rattle.fill_text.specs.Data.{nth};
ghost use Rattle.fill_tables.specs.Orders.{IsOrder, cell_cmp, cells_at, cells_cmp};
ghost use Rattle.fill_tables.specs.Rows.{first_clash, has_cells};

use crate::reading::MOST_TABLE_ROWS;
use arrayvec::ArrayVec;
use fill_text::{List, Text};
use std::cmp::Ordering;

/// The cell of a row in a column, from 1.
pub(crate) fn cell_in(row: &[Text], column: u32) -> Option<&Text>
    ensures { option_copied result ≡ nth row.now column }
{
    if column == 0 {
        return None;
    }
    row.get(column as usize - 1)
}

/// The row at a place; one without cells where there is none.
fn row_at(rows: &[List<Text>], place: usize) -> &[Text]
    ensures { result.now ≡ slice_index_or rows.now place [] }
{
    match rows.get(place) {
        Some(row) => row.as_slice(),
        None => &[],
    }
}

/// The order of two cells in a column.
fn compare_cells(row: &[Text], other: &[Text], column: u32) -> Ordering
    ensures { result ≡ cell_cmp (nth row.now column) (nth other.now column) }
{
    match (cell_in(row, column), cell_in(other, column)) {
        (Some(cell), Some(other)) => cell.compare(other),
        (Some(_), None) => Ordering::Greater,
        (None, Some(_)) => Ordering::Less,
        (None, None) => Ordering::Equal,
    }
}

/// The order of a cell in a column and a text's characters.
fn compare_cell(row: &[Text], column: u32, text: &[char]) -> Ordering
    ensures { result ≡ cell_cmp (nth row.now column) (Some text.now) }
{
    match cell_in(row, column) {
        Some(cell) => cell.as_slice().cmp(text),
        None => Ordering::Less,
    }
}

/// The order of two rows by their cells in these columns.
fn compare(columns: &[u32], row: &[Text], other: &[Text]) -> Ordering
    ensures { result ≡ cells_cmp (map (nth row.now) columns.now) (map (nth other.now) columns.now) }
{
    for column in columns {
        let order = compare_cells(row, other, *column);
        if order != Ordering::Equal {
            return order;
        }
    }
    Ordering::Equal
}

/// The characters at a place.
fn characters_at<'v>(cells: &[&'v [char]], place: usize) -> Option<&'v [char]>
    ensures { option_copied result ≡ slice_get (map (λ cell. cell.now) cells.now) place }
{
    cells.get(place).copied()
}

/// The order of a row's cells in these columns and of these cells.
fn compare_with(columns: &[u32], row: &[Text], cells: &[&[char]]) -> Ordering
    ensures { result ≡ cells_cmp (map (nth row.now) columns.now) (map Some (map (λ cell. cell.now) cells.now)) }
{
    for (i, column) in columns.iter().enumerate() {
        let Some(cell) = characters_at(cells, i) else {
            return Ordering::Greater;
        };
        let order = compare_cell(row, *column, cell);
        if order != Ordering::Equal {
            return order;
        }
    }
    columns.len().cmp(&cells.len())
}

/// Where a row is, or belongs, among places in order.
fn search(rows: &[List<Text>], columns: &[u32], order: &[u16], row: &[Text]) -> Result<usize, usize>
    ensures bound { IsSearchInRange result (length order.now) }
    ensures found { IsBinarySearchResult (λ place. cells_cmp (cells_at columns.now rows.now place) (map (nth row.now) columns.now)) order.now result }
{
    order.binary_search_by(|place| compare(columns, row_at(rows, *place as usize), row))
}

/// The places of all rows in the order of their cells in these columns, where no two rows agree. Else the number of the
/// first row that agrees with an earlier one, after that of the row that it agrees with.
pub(crate) fn order_by(
    rows: &[List<Text>],
    columns: &[u32],
) -> Result<ArrayVec<u16, MOST_TABLE_ROWS>, (u32, u32)>
    requires { length rows.now ≤ MOST_TABLE_ROWS }
    ensures order { IfOk result (λ order. IsOrder columns.now rows.now (length rows.now) order.items) }
    ensures apart { OnOk result (first_clash columns.now rows.now ≡ None) }
    ensures clash { IfErr result (λ clash. first_clash columns.now rows.now ≡ Some clash) }
{
    let mut order: ArrayVec<u16, MOST_TABLE_ROWS> = ArrayVec::new();
    for (i, row) in rows.iter().enumerate() {
        match search(rows, columns, order.as_slice(), row.as_slice()) {
            Ok(found) => {
                let earlier = order.as_slice()[found];
                return Err((earlier as u32 + 1, i as u32 + 1));
            }
            Err(place) => order.insert(place, i as u16),
        }
    }
    Ok(order)
}

/// Where a row with these cells is, or belongs, among places in order.
fn search_cells(
    rows: &[List<Text>],
    columns: &[u32],
    order: &[u16],
    cells: &[&[char]],
) -> Result<usize, usize>
    ensures bound { IsSearchInRange result (length order.now) }
    ensures found { IsBinarySearchResult (λ place. cells_cmp (cells_at columns.now rows.now place) (map Some (map (λ cell. cell.now) cells.now))) order.now result }
{
    order.binary_search_by(|place| compare_with(columns, row_at(rows, *place as usize), cells))
}

/// The place of the row with these cells in these columns, by the rows' order.
pub(crate) fn row_with(
    rows: &[List<Text>],
    columns: &[u32],
    order: &[u16],
    cells: &[&[char]],
) -> Option<usize>
    requires { IsOrder columns.now rows.now (length rows.now) order.now }
    ensures { result ≡ position (has_cells columns.now (map (λ cell. cell.now) cells.now)) rows.now }
{
    match search_cells(rows, columns, order, cells) {
        Ok(found) => Some(order[found] as usize),
        Err(_) => None,
    }
}
