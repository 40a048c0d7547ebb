//! Conditional programs.
ghost use Rattle.std.specs.Prelude.{map, option_map, IfOk, IfErr};
ghost use Rattle.fill_tree.specs.Switch.{SwitchTree, case_tree, switch_tree};
ghost use Rattle.fill_print.specs.Faults.{IsTextOf, ReadsBack, Refuses};
ghost use Rattle.fill_print.specs.Grammar.{NoCase, SomeCase, WholeCase, WholeSwitch};
ghost use Rattle.fill_print.specs.Reading.{Reads};
ghost use Rattle.fill_print.specs.Switches.{CaseStep, Cases};
ghost use Rattle.fill_print.specs.Tokens.{tokens_of};

use crate::notation::Notation;
use crate::read::bytes::{after, first, word};
use crate::read::error::{ReadError, ReadProgramError};
use crate::read::guards::{literal, second};
use crate::read::programs::program;
use fill_text::List;
use fill_tree::{Case, Guard, Switch};
use std::alloc::Global;

fn case(alloc: Global, bytes: &[u8], notation: Notation) -> Result<(Case, &[u8]), ReadError>
    ensures { Reads (λ x. case_tree x.0) (λ x. x.1.now) (WholeCase (tokens_of notation)) bytes.now result }
{
    let (literal, rest) = match literal(bytes, notation) {
        Ok(read) => read,
        Err(e) => return Err(e),
    };
    let (second, rest) = match second(rest, notation) {
        Ok(read) => read,
        Err(e) => return Err(e),
    };
    let (program, rest) = program(alloc, rest, notation)?;
    let rest = word(rest, b";")?;
    let guard = Guard {
        first: literal,
        second,
    };
    Ok((Case { guard, program }, rest))
}

/// No case, and the bytes after `else=>`.
fn no_case(bytes: &[u8]) -> Result<(Option<Case>, &[u8]), ReadError>
    ensures { Reads (λ x. option_map case_tree x.0) (λ x. x.1.now) NoCase bytes.now result }
{
    let rest = word(bytes, b"else=>")?;
    Ok((None, rest))
}

fn some_case(
    alloc: Global,
    bytes: &[u8],
    notation: Notation,
) -> Result<(Option<Case>, &[u8]), ReadError>
    ensures { Reads (λ x. option_map case_tree x.0) (λ x. x.1.now) (SomeCase (tokens_of notation)) bytes.now result }
{
    let (case, rest) = case(alloc, bytes, notation)?;
    Ok((Some(case), rest))
}

/// The next case, or none where the last program comes; at most `room` cases may still come.
fn next_case(
    alloc: Global,
    bytes: &[u8],
    notation: Notation,
    room: u32,
) -> Result<(Option<Case>, &[u8]), ReadError>
    ensures { Reads (λ x. option_map case_tree x.0) (λ x. x.1.now) (CaseStep (tokens_of notation) room) bytes.now result }
{
    if room == 0 {
        return no_case(bytes);
    }
    match after(bytes, b'e') {
        Some(_rest) => no_case(bytes),
        None => some_case(alloc, bytes, notation),
    }
}

/// The cases, and the bytes of the last program on.
fn cases(alloc: Global, bytes: &[u8], notation: Notation) -> Result<(List<Case>, &[u8]), ReadError>
    ensures { Reads (λ x. map case_tree x.0) (λ x. x.1.now) (Cases (tokens_of notation) 7) bytes.now result }
{
    let mut cases = List::new(alloc);
    let mut rest = bytes;
    let mut room = 7;
    loop {
        let (next, after) = next_case(alloc, rest, notation, room)?;
        let Some(case) = next else {
            return Ok((cases, after));
        };
        if cases.push(case).is_err() {
            return Err(ReadError::NoMemory);
        }
        rest = after;
        room -= 1;
    }
}

fn whole_switch(
    alloc: Global,
    bytes: &[u8],
    notation: Notation,
) -> Result<(Switch, &[u8]), ReadError>
    ensures { Reads (λ x. switch_tree x.0) (λ x. x.1.now) (WholeSwitch (tokens_of notation)) bytes.now result }
{
    let rest = word(bytes, b"Switch(")?;
    let (cases, rest) = cases(alloc, rest, notation)?;
    let (last, rest) = program(alloc, rest, notation)?;
    let rest = word(rest, b")")?;
    Ok((Switch { cases, last }, rest))
}

/// The conditional program by tokens of the notation that the bytes spell, as [`crate::print_switch`] prints it.
///
/// It goes no deeper than the lookups may stand inside each other, whatever the bytes.
pub fn read_switch(
    alloc: Global,
    bytes: &[u8],
    notation: Notation,
) -> Result<Switch, ReadProgramError>
    ensures ok { IfOk result (λ s. IsTextOf (tokens_of notation) bytes.now (switch_tree s)) }
    ensures err { IfErr result (λ e. Refuses (tokens_of notation) bytes.now e) }
    ensures back { (s : SwitchTree) → IsTextOf (tokens_of notation) bytes.now s → ReadsBack s result }
{
    match whole_switch(alloc, bytes, notation) {
        Ok((switch, rest)) => match first(rest) {
            None => Ok(switch),
            Some((_byte, _after)) => Err(ReadProgramError::Bad {
                at: bytes.len() - rest.len(),
            }),
        },
        Err(ReadError::NoMemory) => Err(ReadProgramError::NoMemory),
        Err(ReadError::Bad(left)) => Err(ReadProgramError::Bad {
            at: bytes.len() - left,
        }),
    }
}
