//! The texts that conditions of a lookup have.
ghost use Rattle.std.specs.Prelude.{◌≡◌, ◌↔◌, ◌∷◌, ℕ, List as Items, false, true, Option, Some, None, IsTrue, IfOk, OnOk};
ghost use Rattle.fill_arena.specs.Contents.{EachIn};
ghost use Rattle.fill_eval.specs.Piece.{IsWithin};
ghost use Rattle.fill_doubt.specs.Answers.{Gains};
ghost use Rattle.fill_doubt.specs.Rows.{CellsHave, Choice, ChoicesHave, RowText, RowsHave, cell_choice, choice_of};
ghost use Rattle.fill_doubt.specs.declared.conditions.Cells.{Cells as CellList};

use crate::answers::Pieces;
use fill_text::{NoMemory, Text};
use std::alloc::Global;

/// A text of a condition, and whether the condition is no constant then.
#[derive(Clone, Copy)]
pub(crate) struct Cell<'a> {
    pub(crate) text: &'a [char],
    pub(crate) part: bool,
}

impl Cell<'_> {
    fn is(&self, text: &[char], part: bool) -> bool
        ensures { IsTrue result ↔ (cell_choice self.now ≡ choice_of text.now part) }
    {
        if self.part != part {
            return false;
        }
        self.text == text
    }
}

/// The texts of a condition, and whether it can be one that has none.
#[derive(Drop)]
pub(crate) struct Cells<'a> {
    pub(crate) cells: Vec<Cell<'a>>,
    pub(crate) none: bool,
}

impl<'a> Cells<'a> {
    /// One text more.
    fn put(&mut self, text: &'a [char], part: bool) -> Result<(), NoMemory>
        ensures { OnOk result (Gains (CellsHave self.old) (CellsHave self.new) (λ o. o ≡ Some (choice_of text.now part))) }
    {
        match self.cells.push(Cell { text, part }) {
            Ok(()) => Ok(()),
            Err(_) => Err(NoMemory),
        }
    }

    /// The constant too, if there is one.
    fn put_constant(&mut self, constant: &'a Option<Text>) -> Result<(), NoMemory>
        ensures { OnOk result (Gains (CellsHave self.old) (CellsHave self.new) (λ o. (t : Items ℕ) × (constant.now ≡ Some t) × (o ≡ Some (choice_of t false)))) }
    {
        match constant {
            Some(text) => self.put(text.as_slice(), false),
            None => Ok(()),
        }
    }

    /// Whether the text is one of them, where the condition is no constant or is one.
    pub(crate) fn has(&self, text: &[char], part: bool) -> bool
        ensures { IsTrue result ↔ CellsHave self.now (Some (choice_of text.now part)) }
    {
        for i in 0..self.cells.len() {
            if self.cells[i].is(text, part) {
                return true;
            }
        }
        false
    }

    /// Whether the condition has an answer: a text, or that it has none.
    fn is_some(&self) -> bool
        ensures { IsTrue result ↔ ((x : Option Choice) × CellsHave self.now x) }
    {
        if self.none {
            return true;
        }
        self.cells.len() > 0
    }
}

/// The texts of a condition that is the constant or one of the parts.
pub(crate) fn cells_of<'a>(
    alloc: Global,
    constant: &'a Option<Text>,
    parts: &Pieces<'a>,
) -> Result<Cells<'a>, NoMemory>
    requires { EachIn IsWithin parts.now.pieces.items }
    ensures { IfOk result (λ made. (o : Option Choice) → CellsHave made o ↔ ChoicesHave constant.now parts.now o) }
{
    let mut made = Cells {
        cells: Vec::new(alloc),
        none: parts.none,
    };
    made.put_constant(constant)?;
    for i in 0..parts.pieces.len() {
        made.put(parts.pieces[i].as_slice(), true)?;
    }
    Ok(made)
}

/// Whether in some way one of the conditions has no text, where those after the first are known to do so or not, and to have
/// some answer or none.
fn lack(first: &Cells<'_>, lacks: bool, some: bool) -> bool
    ensures { (rest : Items CellList) → (IsTrue lacks ↔ RowsHave rest None) → (IsTrue some ↔ ((o : Option RowText) × RowsHave rest o)) → IsTrue result ↔ RowsHave (first.now ∷ rest) None }
{
    if first.none {
        return some;
    }
    if !lacks {
        return false;
    }
    first.is_some()
}

/// Whether all conditions have an answer, where those after the first do or not.
fn have(first: &Cells<'_>, some: bool) -> bool
    ensures { (rest : Items CellList) → (IsTrue some ↔ ((o : Option RowText) × RowsHave rest o)) → IsTrue result ↔ ((o : Option RowText) × RowsHave (first.now ∷ rest) o) }
{
    if !some {
        return false;
    }
    first.is_some()
}

/// Whether in some way one of the conditions has no text.
pub(crate) fn lacks(conditions: &[Cells<'_>]) -> bool
    ensures { IsTrue result ↔ RowsHave conditions.now None }
{
    let mut lacks = false;
    let mut some = true;
    let mut left = conditions.len();
    while left > 0 {
        left -= 1;
        let first = &conditions[left];
        lacks = lack(first, lacks, some);
        some = have(first, some);
    }
    lacks
}

/// A look for a row by its key takes as long as comparing about this many texts.
const LOOK: usize = 32;

/// Whether a look for each way to put the texts together is no dearer than comparing them with the cells of this many rows.
pub(crate) fn are_few(conditions: &[Cells<'_>], rows: usize) -> bool {
    let mut ways: usize = 1;
    let mut texts: usize = 0;
    for condition in conditions {
        ways = ways.saturating_mul(condition.cells.len());
        texts = texts.saturating_add(condition.cells.len());
    }
    ways <= rows || ways.saturating_mul(LOOK) <= rows.saturating_mul(texts)
}
