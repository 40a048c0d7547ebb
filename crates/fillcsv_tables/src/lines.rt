//! The lines that say why a file, a table or a key is refused.
ghost use Rattle.std.specs.Prelude.{◌≡◌, ◌≢◌, IfOk, string_bytes};
ghost use Rattle.fillcsv_tables.specs.Lines.{long_line, lookup_line};

use fill_tables::TableError;
use std::alloc::{AllocError, Global};

/// The line of a file that has more bytes than one may have.
pub(crate) fn long_line(alloc: Global, most: usize, name: &str) -> Result<String, AllocError>
    ensures { IfOk result (λ line. string_bytes line ≡ long_line most name.now) }
{
    format!(in alloc; "fillcsv: {name}: more than {most} bytes\n")
}

/// The line of a table or a key that is not added; it begins with the file of the table, or with the table of the key.
pub(crate) fn lookup_line(
    alloc: Global,
    place: &str,
    error: TableError,
) -> Result<String, AllocError>
    ensures line { IfOk result (λ line. string_bytes line ≡ lookup_line place.now error) }
    ensures memory { IfOk result (λ line. error ≢ TableError.NoMemory) }
{
    match error {
        TableError::TooManyTables { limit } => {
            format!(in alloc; "fillcsv: {place}: more than {limit} tables\n")
        }
        TableError::SameName { first } => {
            format!(in alloc; "fillcsv: {place}: table {first} has the same name\n")
        }
        TableError::TooManyRows { limit } => {
            format!(in alloc; "fillcsv: {place}: more than {limit} records\n")
        }
        TableError::NotUtf8 { number, column } => {
            format!(in alloc; "fillcsv: {place}: record {number}, column {column}: not UTF-8\n")
        }
        TableError::NoSuchTable => {
            format!(in alloc; "fillcsv: {place}: no such table, and --key names it\n")
        }
        TableError::NoSuchColumn { columns } => {
            format!(in alloc; "fillcsv: {place}: only {columns} columns, and --key names another\n")
        }
        TableError::TooManyKeys { limit } => {
            format!(in alloc; "fillcsv: {place}: more than {limit} keys\n")
        }
        TableError::NotAKey { row1, row2 } => {
            format!(in alloc; "fillcsv: {place}: rows {row1} and {row2} agree in the key\n")
        }
        TableError::NoMemory => Err(AllocError),
    }
}
