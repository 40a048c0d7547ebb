//! Sources, parts and conditions.
ghost use Rattle.std.specs.Prelude.{◌≡◌, ◌||◌, false, List, map, option_map};
ghost use Rattle.fill_tree.specs.Grammar.{is_part};
ghost use Rattle.fill_tree.specs.Meaning.{source_tree, atom_tree};
ghost use Rattle.fill_print.specs.Conditions.{ConditionFront, ConditionStep, Conditions, IsRoom, PartFront, SourceFront, at_start};
ghost use Rattle.fill_print.specs.Grammar.{Column, Constant, FirstCondition, LaterCondition, Lookup, NoAtom, SubPart, WholePart};
ghost use Rattle.fill_print.specs.Reading.{Reads};
ghost use Rattle.fill_print.specs.Tokens.{tokens_of};

use crate::notation::Notation;
use crate::read::bytes::{after, word};
use crate::read::error::ReadError;
use crate::read::numbers::number;
use crate::read::places::place;
use crate::read::texts::quoted;
use fill_text::List;
use fill_tree::{Atom, Select, Source};
use std::alloc::Global;

fn column(bytes: &[u8]) -> Result<(Source, &[u8]), ReadError>
    ensures { Reads (λ x. source_tree x.0) (λ x. x.1.now) Column bytes.now result }
{
    let rest = word(bytes, b"Col(")?;
    let (column, rest) = number(rest, u32::MAX, b')')?;
    Ok((Source::Col(column), rest))
}

/// A constant, and the bytes after it.
pub(crate) fn constant(
    alloc: Global,
    bytes: &[u8],
    may_be_empty: bool,
) -> Result<(Atom, &[u8]), ReadError>
    ensures { Reads (λ x. atom_tree x.0) (λ x. x.1.now) (Constant may_be_empty) bytes.now result }
{
    let rest = word(bytes, b"Const('")?;
    let (text, rest) = quoted(alloc, rest, may_be_empty)?;
    let rest = word(rest, b")")?;
    Ok((Atom::Const(text), rest))
}

/// No atom and no condition, and the bytes after the bracket.
pub(crate) fn no_atom(bytes: &[u8]) -> Result<(Option<Atom>, &[u8]), ReadError>
    ensures { Reads (λ x. option_map atom_tree x.0) (λ x. x.1.now) NoAtom bytes.now result }
{
    let rest = word(bytes, b")")?;
    Ok((None, rest))
}

/// A source in which lookups stand at most `depth` deep inside each other, and the bytes after it.
#[cycle(sources)]
fn source(
    alloc: Global,
    bytes: &[u8],
    notation: Notation,
    depth: u32,
) -> Result<(Source, &[u8]), ReadError>
    ensures { Reads (λ x. source_tree x.0) (λ x. x.1.now) (SourceFront (tokens_of notation) depth) bytes.now result }
{
    if depth == 0 {
        return column(bytes);
    }
    match after(bytes, b'S') {
        Some(_rest) => lookup(alloc, bytes, notation, depth - 1),
        None => column(bytes),
    }
}

#[cycle(sources)]
fn lookup(
    alloc: Global,
    bytes: &[u8],
    notation: Notation,
    depth: u32,
) -> Result<(Source, &[u8]), ReadError>
    ensures { Reads (λ x. source_tree x.0) (λ x. x.1.now) (Lookup (tokens_of notation) depth) bytes.now result }
{
    let rest = word(bytes, b"Select(")?;
    let (column, rest) = number(rest, u32::MAX, b',')?;
    let (table, rest) = number(rest, u32::MAX, b',')?;
    let (key, rest) = number(rest, u32::MAX, b',')?;
    let (conditions, rest) = conditions(alloc, rest, notation, depth)?;
    let select = Select {
        column,
        table,
        key,
        conditions,
    };
    let Ok(boxed) = Box::new(alloc, select) else {
        return Err(ReadError::NoMemory);
    };
    Ok((Source::Select(boxed), rest))
}

/// The conditions up to the bracket, and the bytes after it.
#[cycle(sources)]
fn conditions(
    alloc: Global,
    bytes: &[u8],
    notation: Notation,
    depth: u32,
) -> Result<(List<Atom>, &[u8]), ReadError>
    ensures { Reads (λ x. map atom_tree x.0) (λ x. x.1.now) (Conditions (tokens_of notation) depth at_start) bytes.now result }
{
    let mut conditions = List::new(alloc);
    let mut rest = bytes;
    let mut room = 3;
    let mut seen = false;
    loop {
        let (next, after) = next_condition(alloc, rest, notation, depth, room, seen)?;
        let Some(condition) = next else {
            return Ok((conditions, after));
        };
        seen = seen_with(seen, &condition);
        room -= 1;
        rest = after;
        if conditions.push(condition).is_err() {
            return Err(ReadError::NoMemory);
        }
    }
}

fn seen_with(seen: bool, atom: &Atom) -> bool
    ensures { result ≡ (seen || is_part (atom_tree atom.now)) }
{
    match atom {
        Atom::Const(_) => seen,
        Atom::Whole(_) => true,
        Atom::Sub(_, _, _) => true,
    }
}

/// The next condition, or none at the bracket.
#[cycle(sources)]
fn next_condition(
    alloc: Global,
    bytes: &[u8],
    notation: Notation,
    depth: u32,
    room: u32,
    seen: bool,
) -> Result<(Option<Atom>, &[u8]), ReadError>
    requires { IsRoom (record { room = room; seen = seen }) }
    ensures { Reads (λ x. option_map atom_tree x.0) (λ x. x.1.now) (ConditionStep (tokens_of notation) depth (record { room = room; seen = seen })) bytes.now result }
{
    if room == 3 {
        return first_condition(alloc, bytes, notation, depth);
    }
    if !seen {
        return later_condition(alloc, bytes, notation, depth, room == 1);
    }
    if room == 0 {
        return no_atom(bytes);
    }
    match after(bytes, b',') {
        Some(_rest) => later_condition(alloc, bytes, notation, depth, false),
        None => no_atom(bytes),
    }
}

#[cycle(sources)]
fn first_condition(
    alloc: Global,
    bytes: &[u8],
    notation: Notation,
    depth: u32,
) -> Result<(Option<Atom>, &[u8]), ReadError>
    ensures { Reads (λ x. option_map atom_tree x.0) (λ x. x.1.now) (FirstCondition (tokens_of notation) depth) bytes.now result }
{
    let (atom, rest) = condition(alloc, bytes, notation, depth, false)?;
    Ok((Some(atom), rest))
}

/// A condition behind a comma.
#[cycle(sources)]
fn later_condition(
    alloc: Global,
    bytes: &[u8],
    notation: Notation,
    depth: u32,
    only_part: bool,
) -> Result<(Option<Atom>, &[u8]), ReadError>
    ensures { Reads (λ x. option_map atom_tree x.0) (λ x. x.1.now) (LaterCondition (tokens_of notation) depth only_part) bytes.now result }
{
    let rest = word(bytes, b",")?;
    let (atom, rest) = condition(alloc, rest, notation, depth, only_part)?;
    Ok((Some(atom), rest))
}

/// A condition, which may have to be no constant.
#[cycle(sources)]
fn condition(
    alloc: Global,
    bytes: &[u8],
    notation: Notation,
    depth: u32,
    only_part: bool,
) -> Result<(Atom, &[u8]), ReadError>
    ensures { Reads (λ x. atom_tree x.0) (λ x. x.1.now) (ConditionFront (tokens_of notation) depth only_part) bytes.now result }
{
    if only_part {
        return part(alloc, bytes, notation, depth);
    }
    match after(bytes, b'C') {
        Some(_rest) => constant(alloc, bytes, true),
        None => part(alloc, bytes, notation, depth),
    }
}

/// An atom that is no constant, and the bytes after it.
#[cycle(sources)]
pub(crate) fn part(
    alloc: Global,
    bytes: &[u8],
    notation: Notation,
    depth: u32,
) -> Result<(Atom, &[u8]), ReadError>
    ensures { Reads (λ x. atom_tree x.0) (λ x. x.1.now) (PartFront (tokens_of notation) depth) bytes.now result }
{
    match after(bytes, b'S') {
        Some(_rest) => sub(alloc, bytes, notation, depth),
        None => whole(alloc, bytes, notation, depth),
    }
}

#[cycle(sources)]
fn whole(
    alloc: Global,
    bytes: &[u8],
    notation: Notation,
    depth: u32,
) -> Result<(Atom, &[u8]), ReadError>
    ensures { Reads (λ x. atom_tree x.0) (λ x. x.1.now) (WholePart (tokens_of notation) depth) bytes.now result }
{
    let rest = word(bytes, b"Whole(")?;
    let (source, rest) = source(alloc, rest, notation, depth)?;
    let rest = word(rest, b")")?;
    Ok((Atom::Whole(source), rest))
}

#[cycle(sources)]
fn sub(
    alloc: Global,
    bytes: &[u8],
    notation: Notation,
    depth: u32,
) -> Result<(Atom, &[u8]), ReadError>
    ensures { Reads (λ x. atom_tree x.0) (λ x. x.1.now) (SubPart (tokens_of notation) depth) bytes.now result }
{
    let rest = word(bytes, b"Sub(")?;
    let (source, rest) = source(alloc, rest, notation, depth)?;
    let rest = word(rest, b",")?;
    let (left, rest) = match place(rest, notation) {
        Ok(read) => read,
        Err(e) => return Err(e),
    };
    let rest = word(rest, b",")?;
    let (right, rest) = match place(rest, notation) {
        Ok(read) => read,
        Err(e) => return Err(e),
    };
    let rest = word(rest, b")")?;
    Ok((Atom::Sub(source, left, right), rest))
}
