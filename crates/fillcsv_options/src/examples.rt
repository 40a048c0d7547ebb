//! Examples among the words.
ghost use Rattle.std.specs.Prelude.{◌≡◌, ◌==◌, IfOk, IfErr, Some, map};
ghost use Rattle.std.specs.List.{list_any};
ghost use Rattle.fillcsv_options.specs.Words.{Parts, RefusesPart, example_in, examples_in, row_in, typed_data, with_example};

use crate::{Refusal, Typed};
use fill_numbers::number_in;
use std::alloc::Global;

/// The option as its refusals name it.
const OPTION: &str = "--example <ROW=TEXT>";

/// The examples of these words.
pub(crate) fn examples_of(alloc: Global, words: &[&str]) -> Result<Vec<Typed>, Refusal>
    ensures ok { IfOk result (λ examples. examples_in (map (λ w. w.now) words.now) ≡ Some (map typed_data examples.items)) }
    ensures err { IfErr result (RefusesPart (examples_in (map (λ w. w.now) words.now))) }
{
    let mut examples = Vec::new(alloc);
    for word in words {
        let example = example_of(alloc, word)?;
        examples = with_example(alloc, examples, example, word)?;
    }
    Ok(examples)
}

/// The examples with one more, that of a word.
fn with_example(
    alloc: Global,
    mut examples: Vec<Typed>,
    example: Typed,
    word: &str,
) -> Result<Vec<Typed>, Refusal>
    ensures ok { IfOk result (λ now. with_example (map typed_data examples.items) (typed_data example) ≡ Some (map typed_data now.items)) }
    ensures err { IfErr result (RefusesPart (with_example (map typed_data examples.items) (typed_data example))) }
{
    if has_row(examples.as_slice(), example.row) {
        return Err(Refusal::of_value(alloc, word, OPTION, "the row has an example already"));
    }
    match examples.push(example) {
        Ok(()) => Ok(examples),
        Err(_) => Err(Refusal::NoMemory),
    }
}

/// Whether there is an example for a row.
fn has_row(examples: &[Typed], row: u32) -> bool
    ensures { result ≡ list_any (λ e. e.row == row) examples.now }
{
    examples.iter().any(|example| example.row == row)
}

/// The example of a word, `ROW=TEXT`.
fn example_of(alloc: Global, word: &str) -> Result<Typed, Refusal>
    ensures ok { IfOk result (λ example. example_in word.now ≡ Some (typed_data example)) }
    ensures err { IfErr result (RefusesPart (example_in word.now)) }
{
    let Some((row, text)) = parts_of(word) else {
        return Err(Refusal::of_value(
            alloc,
            word,
            OPTION,
            "a row's number and '=' stand in front of its text",
        ));
    };
    match String::from_str(alloc, text) {
        Ok(text) => Ok(Typed { row, text }),
        Err(_) => Err(Refusal::NoMemory),
    }
}

/// The row and the text of a word, `ROW=TEXT`.
fn parts_of(word: &str) -> Option<(u32, &str)>
    ensures { Parts (example_in word.now) result }
{
    let (row, text) = word.split_once('=')?;
    let row = row_of(row)?;
    Some((row, text))
}

/// The row of a number: the plain decimal of one that is not 0.
fn row_of(word: &str) -> Option<u32>
    ensures { result ≡ row_in word.now }
{
    match number_in(word.as_bytes()) {
        Some(0) => None,
        number => number,
    }
}
