//! Programs.
ghost use Rattle.std.specs.Prelude.{true, false, map, option_map};
ghost use Rattle.fill_tree.specs.Meaning.{atom_tree, program_tree};
ghost use Rattle.fill_print.specs.Grammar.{SomeAtom, WholeProgram};
ghost use Rattle.fill_print.specs.Programs.{AtomStep, ProgramAtom, ProgramAtoms, ProgramFront};
ghost use Rattle.fill_print.specs.Reading.{Reads};
ghost use Rattle.fill_print.specs.Tokens.{tokens_of};

use crate::notation::Notation;
use crate::read::bytes::{after, word};
use crate::read::error::ReadError;
use crate::read::sources::{constant, no_atom, part};
use fill_text::List;
use fill_tree::{Atom, Program};
use std::alloc::Global;

/// How many lookups may stand inside each other.
const DEPTH: u32 = 3;

fn program_atom(alloc: Global, bytes: &[u8], notation: Notation) -> Result<(Atom, &[u8]), ReadError>
    ensures { Reads (λ x. atom_tree x.0) (λ x. x.1.now) (ProgramAtom (tokens_of notation)) bytes.now result }
{
    match after(bytes, b'C') {
        Some(_rest) => constant(alloc, bytes, false),
        None => part(alloc, bytes, notation, DEPTH),
    }
}

fn some_atom(
    alloc: Global,
    bytes: &[u8],
    notation: Notation,
) -> Result<(Option<Atom>, &[u8]), ReadError>
    ensures { Reads (λ x. option_map atom_tree x.0) (λ x. x.1.now) (SomeAtom (tokens_of notation)) bytes.now result }
{
    let (atom, rest) = program_atom(alloc, bytes, notation)?;
    Ok((Some(atom), rest))
}

/// The next atom, or none at the bracket.
fn next_atom(
    alloc: Global,
    bytes: &[u8],
    notation: Notation,
    first: bool,
) -> Result<(Option<Atom>, &[u8]), ReadError>
    ensures { Reads (λ x. option_map atom_tree x.0) (λ x. x.1.now) (AtomStep (tokens_of notation) first) bytes.now result }
{
    if first {
        return match after(bytes, b')') {
            Some(_rest) => no_atom(bytes),
            None => some_atom(alloc, bytes, notation),
        };
    }
    match after(bytes, b',') {
        Some(rest) => some_atom(alloc, rest, notation),
        None => no_atom(bytes),
    }
}

/// The atoms up to the bracket, and the bytes after it.
fn atoms(alloc: Global, bytes: &[u8], notation: Notation) -> Result<(List<Atom>, &[u8]), ReadError>
    ensures { Reads (λ x. map atom_tree x.0) (λ x. x.1.now) (ProgramAtoms (tokens_of notation) true) bytes.now result }
{
    let mut atoms = List::new(alloc);
    let mut rest = bytes;
    let mut first = true;
    loop {
        let (next, after) = next_atom(alloc, rest, notation, first)?;
        let Some(atom) = next else {
            return Ok((atoms, after));
        };
        if atoms.push(atom).is_err() {
            return Err(ReadError::NoMemory);
        }
        rest = after;
        first = false;
    }
}

fn whole_program(
    alloc: Global,
    bytes: &[u8],
    notation: Notation,
) -> Result<(Program, &[u8]), ReadError>
    ensures { Reads (λ x. program_tree x.0) (λ x. x.1.now) (WholeProgram (tokens_of notation)) bytes.now result }
{
    let rest = word(bytes, b"Concat(")?;
    let (atoms, rest) = atoms(alloc, rest, notation)?;
    Ok((Program { atoms }, rest))
}

/// A program, and the bytes after it.
pub(crate) fn program(
    alloc: Global,
    bytes: &[u8],
    notation: Notation,
) -> Result<(Program, &[u8]), ReadError>
    ensures { Reads (λ x. program_tree x.0) (λ x. x.1.now) (ProgramFront (tokens_of notation)) bytes.now result }
{
    whole_program(alloc, bytes, notation)
}
