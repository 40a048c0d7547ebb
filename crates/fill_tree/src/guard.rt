//! Conditional programs: which program a row takes.
use crate::tree::Program;
use fill_text::List;
use fill_tokens::Seq;

/// A test of one cell: the cell in the column has at least `least` matches of the sequence; where negated, it has fewer.
#[derive(Clone, Copy, Debug)]
pub struct Literal {
    pub negated: bool,
    pub column: u32,
    pub seq: Seq,
    pub least: u8,
}

/// A condition on a row: one literal, or two that hold together.
#[derive(Clone, Copy, Debug)]
pub struct Guard {
    pub first: Literal,
    pub second: Option<Literal>,
}

/// A program for the rows on which a guard holds.
#[derive(Debug, Drop)]
pub struct Case {
    pub guard: Guard,
    pub program: Program,
}

/// A conditional program: a row takes the program of the first case whose guard holds on it, and else the last one.
#[derive(Debug, Drop)]
pub struct Switch {
    pub cases: List<Case>,
    pub last: Program,
}
