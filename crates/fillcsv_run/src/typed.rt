//! Examples among the words, for the rows of a sheet.
ghost use Rattle.std.specs.Prelude.{◌≡◌, IfOk, IfErr, Some, None, map};
ghost use Rattle.fill_opening.specs.Opened.{Passed};
ghost use Rattle.fill_opening.specs.Stops.{Refuses as IsRefusedBy};
ghost use Rattle.fillcsv_options.specs.Words.{data_of, typed_data};
ghost use Rattle.fillcsv_run.specs.Opening.{example_of, examples_in, is_there, missing_row};

use crate::lines::row_line;
use fill_opening::Stop;
use fill_text::{List, NoMemory, Text};
use fill_tree::Example;
use fillcsv_options::{Asked, Typed};
use fillcsv_tables::{Line, refused};
use std::alloc::Global;

/// The texts that the words give for rows of a sheet with `rows` rows, where each row is there.
pub(crate) fn examples_in(
    alloc: Global,
    asked: &Asked,
    rows: u32,
) -> Result<List<Example>, Stop<Line>>
    ensures ready { IfOk result (λ typed. examples_in (data_of asked.now) rows ≡ Passed typed) }
    ensures stopped { IfErr result (IsRefusedBy (examples_in (data_of asked.now) rows)) }
{
    let above = if asked.header { 1 } else { 0 };
    if let Some(row) = missing_row(above, rows, &asked.examples) {
        return Err(refused(row_line(alloc, asked.file.as_str(), row)));
    }
    match examples_of(alloc, above, &asked.examples) {
        Ok(examples) => Ok(examples),
        Err(NoMemory) => Err(Stop::NoMemory),
    }
}

/// The row of the first example whose row is not there.
fn missing_row(above: u32, rows: u32, examples: &[Typed]) -> Option<u32>
    ensures { result ≡ missing_row above rows (map typed_data examples.now) }
{
    for example in examples {
        if !is_there(above, rows, example.row) {
            return Some(example.row);
        }
    }
    None
}

/// Whether a row, by its number in a spreadsheet, is one of `rows` rows below the first `above` records.
fn is_there(above: u32, rows: u32, row: u32) -> bool
    ensures { result ≡ is_there above rows row }
{
    above < row && row - above <= rows
}

/// The examples by the numbers of their rows among the rows.
fn examples_of(alloc: Global, above: u32, words: &[Typed]) -> Result<List<Example>, NoMemory>
    ensures { IfOk result (λ examples. examples ≡ map (example_of above) (map typed_data words.now)) }
{
    let mut examples = List::new(alloc);
    for word in words {
        examples.push(example_of(alloc, above, word)?)?;
    }
    Ok(examples)
}

/// The example of its row among the rows.
fn example_of(alloc: Global, above: u32, word: &Typed) -> Result<Example, NoMemory>
    ensures { IfOk result (λ example. example ≡ example_of above (typed_data word.now)) }
{
    let row = word.row.saturating_sub(above);
    match Text::from_utf8(alloc, word.text.as_bytes()) {
        Ok(text) => Ok(Example { row, text }),
        Err(_) => Err(NoMemory),
    }
}
