//! Options that do not go together, whatever each of them says.
ghost use Rattle.std.specs.Prelude.{◌≡◌};
ghost use Rattle.std.specs.List.{list_any};
ghost use Rattle.fillcsv_options.specs.Conflicts.{conflicts, is_read, is_table_at, learns_nothing, saves_over};
ghost use Rattle.fillcsv_options.specs.Words.{IsRefusedBy, RefusesConflict, Wrong, data_of, lookup_data};

use crate::{Asked, Lookup, Refusal};
use std::alloc::Global;

/// The refusal of options that do not go together, if there are any.
pub(crate) fn conflict_of(alloc: Global, asked: &Asked) -> Option<Refusal>
    ensures { RefusesConflict (conflicts (data_of asked.now)) result }
{
    if learns_nothing(asked) {
        return Some(Refusal::of_usage(alloc, NOTHING));
    }
    if saves_over(asked) {
        return Some(overwriting(alloc, asked));
    }
    None
}

/// The refusal of a rule that would be written over a file that is read.
fn overwriting(alloc: Global, asked: &Asked) -> Refusal
    ensures { IsRefusedBy Wrong result }
{
    let path = match &asked.save {
        Some(path) => path.as_str(),
        None => "",
    };
    let option = "--save-rule <FILE>";
    let why = "this file is read, and the rule would be written over it";
    Refusal::of_value(alloc, path, option, why)
}

/// Whether the rule would be written over a file that is read.
fn saves_over(asked: &Asked) -> bool
    ensures { result ≡ saves_over (data_of asked.now) }
{
    match &asked.save {
        Some(path) => is_read(asked, path.as_str()),
        None => false,
    }
}

/// Whether the file of a path is read: it is the sheet, or a table.
fn is_read(asked: &Asked, path: &str) -> bool
    ensures { result ≡ is_read (data_of asked.now) path.now }
{
    if asked.file.as_str() == path {
        return true;
    }
    has_table_at(asked.lookups.as_slice(), path)
}

/// Whether one of the tables is read from the file of a path.
fn has_table_at(lookups: &[Lookup], path: &str) -> bool
    ensures { result ≡ list_any (λ lookup. is_table_at path.now (lookup_data lookup)) lookups.now }
{
    lookups.iter().any(|lookup| is_table_at(lookup, path))
}

/// Whether a table is read from the file of a path.
fn is_table_at(lookup: &Lookup, path: &str) -> bool
    ensures { result ≡ is_table_at path.now (lookup_data lookup.now) }
{
    match lookup {
        Lookup::Table { file, .. } => file.as_str() == path,
        Lookup::Key { .. } => false,
    }
}

/// Whether the column is emptied, and there is no example and no reply to learn from.
fn learns_nothing(asked: &Asked) -> bool
    ensures { result ≡ learns_nothing (data_of asked.now) }
{
    match (asked.replace, asked.ask) {
        (true, false) => asked.examples.is_empty(),
        _ => false,
    }
}

/// What is wrong where a column is emptied and nothing is there to learn from.
const NOTHING: &str =
    "error: the argument '--replace' cannot be used without '--example <ROW=TEXT>' or '--ask': there is nothing to learn from

For more information, try '--help'.
";
