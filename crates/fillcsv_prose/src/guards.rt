//! Conditions on rows, and rules for all rows.
use crate::names::{Names, put_number};
use crate::places::{put_seq, put_tokens};
use crate::programs::put_program;
use fill_tokens::Token;
use fill_tree::{Case, Guard, Literal, Switch};
use std::alloc::{AllocError, Global};

/// A rule in plain English, a line for each of its cases, without line ends.
///
/// `Name from the last capital on, " (", City, ")"` takes a piece of one cell, a text, another cell and a text. A line
/// that is not for all rows says first for which: `where Name has "@": ..` or `else: ..`.
pub fn rule_lines(
    alloc: Global,
    switch: &Switch,
    names: Names<'_>,
) -> Result<Vec<String>, AllocError> {
    let mut lines = Vec::new(alloc);
    for case in switch.cases.as_slice() {
        lines.push(case_line(alloc, case, names)?)?;
    }
    let mut last = String::new(alloc);
    if !lines.is_empty() {
        last.push_str("else: ")?;
    }
    put_program(&mut last, &switch.last, names)?;
    lines.push(last)?;
    Ok(lines)
}

/// The line of a case.
fn case_line(alloc: Global, case: &Case, names: Names<'_>) -> Result<String, AllocError> {
    let mut line = String::new(alloc);
    line.push_str("where ")?;
    put_guard(&mut line, &case.guard, names)?;
    line.push_str(": ")?;
    put_program(&mut line, &case.program, names)?;
    Ok(line)
}

fn put_guard(to: &mut String, guard: &Guard, names: Names<'_>) -> Result<(), AllocError> {
    put_literal(to, &guard.first, names)?;
    match &guard.second {
        Some(second) => {
            to.push_str(" and ")?;
            put_literal(to, second, names)
        }
        None => Ok(()),
    }
}

/// Puts a test of a cell at the end.
fn put_literal(to: &mut String, literal: &Literal, names: Names<'_>) -> Result<(), AllocError> {
    names.put_column(to, literal.column)?;
    let seq = &literal.seq;
    if literal.least == 1 && seq.len() > 1 {
        if matches!(seq.token(0), Token::Start) {
            to.push_str(if literal.negated {
                " does not begin with "
            } else {
                " begins with "
            })?;
            return put_tokens(to, seq, 1, seq.len());
        }
        if matches!(seq.token(seq.len() - 1), Token::End) {
            to.push_str(if literal.negated {
                " does not end with "
            } else {
                " ends with "
            })?;
            return put_tokens(to, seq, 0, seq.len() - 1);
        }
    }
    to.push_str(match (literal.least, literal.negated) {
        (1, false) => " has ",
        (1, true) => " has no ",
        (_, false) => " has at least ",
        (_, true) => " has fewer than ",
    })?;
    if literal.least != 1 {
        put_number(to, u32::from(literal.least))?;
        to.push_str(" of ")?;
    }
    put_seq(to, seq)
}
