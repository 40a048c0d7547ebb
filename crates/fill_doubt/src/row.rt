//! The row that is read.
use fill_arena::Arena;
use fill_sheet::Sheet;
use fill_tables::Tables;
use std::alloc::Global;

/// A row of a sheet, with the tables, and the arena whose sets are asked for their answers there. All of it is lent.
#[derive(Clone, Copy)]
pub(crate) struct OnRow<'a> {
    pub(crate) alloc: Global,
    pub(crate) arena: &'a Arena,
    pub(crate) row: u32,
    pub(crate) sheet: &'a Sheet,
    pub(crate) tables: &'a Tables,
}
