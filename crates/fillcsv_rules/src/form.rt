//! The form of a rule's file: which lines stand where.
ghost use Rattle.std.specs.Prelude.{◌≡◌, ◌≤◌, IfErr, IfOk, Ok, Some, drop, length, option_and_then};
ghost use Rattle.fill_text.specs.Data.{nth};
ghost use Rattle.fillcsv_rules.specs.File.{form_in, inputs_in, is_first, is_header, named_form, names_in, output_in, plain_form, says};
ghost use Rattle.fillcsv_rules.specs.Form.{IsFormError, IsLineError, form_data};

use crate::lines::{inputs_in, is_first, is_header, names_in, output_in};
use crate::lookups::lookups_from;
use crate::{Names, RuleError};
use fill_records::Record;
use fill_sheet::MOST_INPUTS;
use fill_text::NoMemory;
use fillcsv_options::Lookup;
use std::alloc::Global;

/// What the lines before the conditional program say.
#[derive(Debug, Drop)]
pub(crate) struct Form {
    pub(crate) names: Option<Names>,
    pub(crate) inputs: Vec<u32>,
    pub(crate) output: u32,
    pub(crate) lookups: Vec<Lookup>,
}

/// What the lines of a file say.
pub(crate) fn form_in(alloc: Global, lines: &[Record]) -> Result<Form, RuleError>
    ensures ok { IfOk result (λ form. form_in lines.now ≡ Ok (form_data form)) }
    ensures err { IfErr result (IsFormError (form_in lines.now)) }
{
    if !begins(lines) {
        return Err(RuleError::BadLine { number: 1 });
    }
    if is_headed(lines) {
        named_form(alloc, lines)
    } else {
        plain_form(alloc, lines)
    }
}

/// Whether a file begins as a rule's does.
fn begins(lines: &[Record]) -> bool
    ensures { result ≡ says is_first (nth lines.now 1) }
{
    match lines.first() {
        Some(line) => is_first(line),
        None => false,
    }
}

/// Whether the second line says that the sheet had a header.
fn is_headed(lines: &[Record]) -> bool
    ensures { result ≡ says is_header (nth lines.now 2) }
{
    match lines.get(1) {
        Some(line) => is_header(line),
        None => false,
    }
}

/// The columns that the line of a number says are read.
fn inputs_at(alloc: Global, lines: &[Record], number: usize) -> Result<Vec<u32>, RuleError>
    requires { 1 ≤ number }
    ensures ok { IfOk result (λ inputs. option_and_then inputs_in (nth lines.now number) ≡ Some inputs.items) }
    ensures few { IfOk result (λ inputs. length inputs.items ≤ MOST_INPUTS) }
    ensures err { IfErr result (IsLineError number (option_and_then inputs_in (nth lines.now number))) }
{
    let Some(line) = lines.get(number - 1) else {
        return Err(RuleError::BadLine { number });
    };
    match inputs_in(alloc, line) {
        Ok(Some(inputs)) => Ok(inputs),
        Ok(None) => Err(RuleError::BadLine { number }),
        Err(NoMemory) => Err(RuleError::NoMemory),
    }
}

/// The column that the line of a number says is filled.
fn output_at(lines: &[Record], number: usize, inputs: &[u32]) -> Result<u32, RuleError>
    requires { 1 ≤ number }
    ensures ok { IfOk result (λ output. option_and_then (output_in inputs.now) (nth lines.now number) ≡ Some output) }
    ensures err { IfErr result (IsLineError number (option_and_then (output_in inputs.now) (nth lines.now number))) }
{
    let Some(line) = lines.get(number - 1) else {
        return Err(RuleError::BadLine { number });
    };
    match output_in(inputs, line) {
        Some(output) => Ok(output),
        None => Err(RuleError::BadLine { number }),
    }
}

/// The names that the line of a number has, those of this many inputs and of the output.
fn names_at(
    alloc: Global,
    lines: &[Record],
    number: usize,
    count: usize,
) -> Result<Names, RuleError>
    requires number { 1 ≤ number }
    requires count { count ≤ MOST_INPUTS }
    ensures ok { IfOk result (λ names. option_and_then (names_in count) (nth lines.now number) ≡ Some names) }
    ensures err { IfErr result (IsLineError number (option_and_then (names_in count) (nth lines.now number))) }
{
    let Some(line) = lines.get(number - 1) else {
        return Err(RuleError::BadLine { number });
    };
    match names_in(alloc, count, line) {
        Ok(Some(names)) => Ok(names),
        Ok(None) => Err(RuleError::BadLine { number }),
        Err(NoMemory) => Err(RuleError::NoMemory),
    }
}

/// The lines after the first ones, of this number.
fn lines_after(lines: &[Record], count: usize) -> &[Record]
    ensures { result.now ≡ drop count lines.now }
{
    &lines[count.min(lines.len())..]
}

/// What the lines after the first say, without a header.
fn plain_form(alloc: Global, lines: &[Record]) -> Result<Form, RuleError>
    ensures ok { IfOk result (λ form. plain_form lines.now ≡ Ok (form_data form)) }
    ensures err { IfErr result (IsFormError (plain_form lines.now)) }
{
    let inputs = inputs_at(alloc, lines, 2)?;
    let output = output_at(lines, 3, inputs.as_slice())?;
    let lookups = lookups_from(alloc, 4, lines_after(lines, 3))?;
    Ok(Form {
        names: None,
        inputs,
        output,
        lookups,
    })
}

/// What they say with one.
fn named_form(alloc: Global, lines: &[Record]) -> Result<Form, RuleError>
    ensures ok { IfOk result (λ form. named_form lines.now ≡ Ok (form_data form)) }
    ensures err { IfErr result (IsFormError (named_form lines.now)) }
{
    let inputs = inputs_at(alloc, lines, 3)?;
    let output = output_at(lines, 4, inputs.as_slice())?;
    let names = names_at(alloc, lines, 5, inputs.as_slice().len())?;
    let lookups = lookups_from(alloc, 6, lines_after(lines, 5))?;
    Ok(Form {
        names: Some(names),
        inputs,
        output,
        lookups,
    })
}
