//! What columns and tables are called.
use crate::quotes::put_escaped;
use std::alloc::AllocError;

/// The name of a column or of a table, by its number from 1.
#[derive(Debug, Drop)]
pub struct Named {
    pub number: u32,
    pub name: String,
}

/// The names by which rules speak of columns and tables. What has no name goes by its number.
#[derive(Clone, Copy, Debug)]
pub struct Names<'a> {
    pub columns: &'a [Named],
    pub tables: &'a [Named],
}

impl Names<'_> {
    /// Puts the name of a column of the sheet at the end.
    pub(crate) fn put_column(self, to: &mut String, column: u32) -> Result<(), AllocError> {
        put_name(to, self.columns, "column", column)
    }

    /// Puts the name of a table at the end.
    pub(crate) fn put_table(self, to: &mut String, table: u32) -> Result<(), AllocError> {
        put_name(to, self.tables, "table", table)
    }
}

/// Puts the name of a number at the end, or what it counts and the number.
fn put_name(to: &mut String, names: &[Named], what: &str, number: u32) -> Result<(), AllocError> {
    for named in names {
        if named.number == number && !named.name.is_empty() {
            return put_escaped(to, named.name.as_str());
        }
    }
    to.push_str(what)?;
    to.push_str(" ")?;
    put_number(to, number)
}

/// Puts a number at the end.
pub(crate) fn put_number(to: &mut String, number: u32) -> Result<(), AllocError> {
    let mut buffer = itoa::Buffer::new();
    to.push_str(buffer.format(number))
}
