//! The row that is looked at.
use crate::texts::Texts;
use fill_sheet::Sheet;
use fill_tables::Tables;
use fill_tree::Settings;
use std::alloc::Global;

/// A row of a sheet, with what programs may read there. All of it is lent.
#[derive(Clone, Copy)]
pub struct OnRow<'a> {
    /// The row, from 1.
    pub row: u32,
    pub sheet: &'a Sheet,
    pub tables: &'a Tables,
    pub settings: Settings,
}

/// A row, and the texts that were found there.
#[derive(Clone, Copy)]
pub(crate) struct Look<'k, 'a> {
    pub(crate) alloc: Global,
    pub(crate) on: &'k OnRow<'a>,
    pub(crate) texts: &'k Texts<'a>,
}
