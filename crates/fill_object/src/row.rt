//! The row that is read.
use fill_arena::Arena;
use fill_sheet::Sheet;
use fill_tables::Tables;
use fill_tokens::Prices;
use std::alloc::Global;

/// A row of a sheet, which counts from 1, with the tables, and the arena whose sets and graphs are asked there, by the
/// prices. All of it is lent.
#[derive(Clone, Copy)]
pub struct OnRow<'a> {
    pub alloc: Global,
    pub prices: &'a Prices,
    pub arena: &'a Arena,
    pub row: u32,
    pub sheet: &'a Sheet,
    pub tables: &'a Tables,
}
