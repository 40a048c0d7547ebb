//! What is wrong with a file.
use fill_apply::ApplyError;
use fill_script::ScriptError;
use fill_sheet::SheetError;
use fill_tables::TableError;
use std::fmt;

/// What is wrong with a file that is refused. No error in it is out of memory.
#[derive(Clone, Copy, Debug, PartialEq, Eq)]
pub enum Fault {
    /// The file has more than 16,777,216 bytes.
    TooLong,
    /// A session file has no script.
    Script(ScriptError),
    /// The file of a sheet has none.
    Sheet(SheetError),
    /// The file of a table has none.
    Table(TableError),
    /// The `table` or `key` line of a session file, by the number of its record, adds nothing.
    Line { number: u32, error: TableError },
    /// A report has no program.
    Program(ApplyError),
    /// A table has more than 32 columns, too many for its keys to be listed.
    TooWide,
}

impl fmt::Display for Fault {
    ghost use Rattle.std.specs.Prelude.{Some};
    ghost use Rattle.fill_open.specs.Lines.{fault_text};

    ghost output = { λ fault. Some (fault_text fault) };

    fn fmt<W: fmt::Write>(&self, f: &mut fmt::Formatter<W>) -> fmt::Result {
        match self {
            Fault::TooLong => f.write_str("more than 16777216 bytes"),
            Fault::Script(error) => match error {
                ScriptError::TooManyRecords { limit } => write!(f, "more than {limit} records"),
                ScriptError::NotUtf8 { number } => write!(f, "record {number} is not UTF-8"),
                ScriptError::BadRecord { number } => write!(f, "record {number} is not understood"),
                ScriptError::Again { number } => write!(f, "record {number} comes again"),
                ScriptError::MissingSheet => f.write_str("no sheet"),
                ScriptError::MissingInputs => f.write_str("no inputs"),
                ScriptError::MissingBegin => f.write_str("no begin"),
                ScriptError::NoMemory => f.write_str("out of memory"),
            },
            Fault::Sheet(error) => match error {
                SheetError::TooManyRows { limit } => write!(f, "more than {limit} records"),
                SheetError::NotUtf8 { number, .. } => write!(f, "record {number} is not UTF-8"),
                SheetError::NoMemory => f.write_str("out of memory"),
            },
            Fault::Table(error) => write!(f, "{}", TableFault(*error)),
            Fault::Line { number, error } => write!(f, "record {number}: {}", TableFault(*error)),
            Fault::Program(error) => match error {
                ApplyError::NoSwitch => f.write_str("no switch"),
                ApplyError::BadSwitch { at } => write!(f, "switch is wrong at byte {at}"),
                ApplyError::NoInput { column } => write!(f, "column {column} is no input"),
                ApplyError::NoMemory => f.write_str("out of memory"),
            },
            Fault::TooWide => f.write_str("more than 32 columns"),
        }
    }
}

/// Why a table or a key was not added, as lines say it.
#[derive(Clone, Copy)]
struct TableFault(TableError);

impl fmt::Display for TableFault {
    ghost use Rattle.std.specs.Prelude.{Some};
    ghost use Rattle.fill_open.specs.Lines.{table_text};

    ghost output = { λ fault. Some (table_text fault.0) };

    fn fmt<W: fmt::Write>(&self, f: &mut fmt::Formatter<W>) -> fmt::Result {
        match self.0 {
            TableError::TooManyTables { .. } => f.write_str("too many tables"),
            TableError::SameName { .. } => f.write_str("the name is taken"),
            TableError::TooManyRows { limit } => write!(f, "more than {limit} records"),
            TableError::NotUtf8 { number, .. } => write!(f, "record {number} is not UTF-8"),
            TableError::NoSuchTable => f.write_str("no such table"),
            TableError::NoSuchColumn { .. } => f.write_str("no such column"),
            TableError::TooManyKeys { .. } => f.write_str("too many keys"),
            TableError::NotAKey { row1, row2 } => {
                write!(f, "rows {row1} and {row2} agree in the key")
            }
            TableError::NoMemory => f.write_str("out of memory"),
        }
    }
}
