//! A row of a sheet.
use fill_text::Text;
use std::marker::Model;

/// A row: its cells in the order of the sheet's inputs, and the text that its output cell gives.
#[derive(Debug, Drop)]
pub(crate) struct Row {
    pub(crate) cells: Vec<Text>,
    pub(crate) given: Option<Text>,
}

impl Model for Row {
    ghost use Rattle.fill_text.specs.Data.{RowData};

    ghost Value = { RowData };

    ghost view = { λ row. record { cells = row.cells.items; given = row.given } };
}
