//! Lookup tables among the words.
ghost use Rattle.std.specs.Prelude.{◌≡◌, [], IfOk, IfErr, Some, map};
ghost use Rattle.fillcsv_options.specs.Words.{RefusesPart, added, lookup_data, lookups_in, table_in};

use crate::keys::with_keys;
use crate::{Lookup, Refusal};
use std::alloc::Global;

/// The tables of words, and then the keys of others.
pub(crate) fn lookups_of(
    alloc: Global,
    tables: &[&str],
    keys: &[&str],
) -> Result<Vec<Lookup>, Refusal>
    ensures ok { IfOk result (λ lookups. lookups_in (map (λ w. w.now) tables.now) (map (λ w. w.now) keys.now) ≡ Some (map lookup_data lookups.items)) }
    ensures err { IfErr result (RefusesPart (lookups_in (map (λ w. w.now) tables.now) (map (λ w. w.now) keys.now))) }
{
    let tables = tables_of(alloc, tables)?;
    with_keys(alloc, tables, keys)
}

/// The tables of these words.
fn tables_of(alloc: Global, words: &[&str]) -> Result<Vec<Lookup>, Refusal>
    ensures ok { IfOk result (λ tables. added table_in [] (map (λ w. w.now) words.now) ≡ Some (map lookup_data tables.items)) }
    ensures err { IfErr result (RefusesPart (added table_in [] (map (λ w. w.now) words.now))) }
{
    let mut tables = Vec::new(alloc);
    for word in words {
        let table = table_of(alloc, word)?;
        match tables.push(table) {
            Ok(()) => {}
            Err(_) => return Err(Refusal::NoMemory),
        }
    }
    Ok(tables)
}

/// The table of a word, `NAME=FILE`.
fn table_of(alloc: Global, word: &str) -> Result<Lookup, Refusal>
    ensures ok { IfOk result (λ table. table_in word.now ≡ Some (lookup_data table)) }
    ensures err { IfErr result (RefusesPart (table_in word.now)) }
{
    let Some((name, file)) = word.split_once('=') else {
        return Err(Refusal::of_value(
            alloc,
            word,
            "--table <NAME=FILE>",
            "a name and '=' stand in front of the table's file",
        ));
    };
    Ok(Lookup::Table {
        name: String::from_str(alloc, name)?,
        file: String::from_str(alloc, file)?,
    })
}
