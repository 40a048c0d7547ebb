//! The shape of a text.
ghost use Rattle.std.specs.Prelude.{◌≡◌, ◌<◌, ◌+◌, ◌++◌, ◌∷◌, [], length, slice_index, IfOk, OnOk};
ghost use Rattle.fill_spans.specs.Read.{AreClasses};
ghost use Rattle.fill_shapes.specs.Stretched.{IsStretched, AreBlocks};

use crate::marks::{Classed, alike, mark_of, marks, with_classes};
use fill_text::{NoMemory, Text};
use std::alloc::Global;

/// A text's shape: one character for each run of digits, and for each run of letters of upper, of lower or of no case
/// ('0', 'A', 'a' and 'ª'). Each sign of ASCII stands for itself, and a run of other characters for its first one.
#[derive(Drop)]
pub struct Shape {
    /// One character for each block of the text.
    pub text: Text,
    /// Where each block begins in the text, and the text's length.
    pub bounds: Vec<usize>,
}

/// Begins a block at the position, for which the other text's character at a place stands.
#[tactic(auto, using(crate::proofs::ReadLaws::range_one))]
fn begin_block(shape: &mut Shape, i: usize, from: &Text, at: usize) -> Result<(), NoMemory>
    requires { at < length from.now }
    ensures { OnOk result ((shape.new.text ≡ shape.old.text ++ slice_index from.now at ∷ [])
        × (shape.new.bounds.items ≡ shape.old.bounds.items ++ i ∷ [])) }
{
    let _length = from.len();
    shape.bounds.push(i)?;
    shape.text.append_piece(from, at, at + 1)
}

/// Goes on by one character, which is of the last block or begins one.
fn read_one(shape: &mut Shape, marks: &Classed, t: &Classed, i: usize) -> Result<(), NoMemory>
    requires marks { AreClasses marks.now.text marks.now.classes.items }
    requires text { AreClasses t.now.text t.now.classes.items }
    requires place { i < length t.now.text }
    ensures { OnOk result (AreBlocks i shape.old.text t.now.text (shape.old.bounds.items ++ i ∷ []) →
        AreBlocks (i + 1) shape.new.text t.now.text (shape.new.bounds.items ++ (i + 1) ∷ [])) }
{
    if i > 0 && alike(t, i - 1, t, i) {
        return Ok(());
    }
    match mark_of(marks, t, i) {
        Some(mark) => begin_block(shape, i, &marks.text, mark),
        None => begin_block(shape, i, &t.text, i),
    }
}

impl Shape {
    /// The shape of the text. It reads the text once.
    pub fn of(alloc: Global, t: &Text) -> Result<Shape, NoMemory>
        ensures { IfOk result (λ made. IsStretched made.text t.now made.bounds.items) }
    {
        let marks = marks(alloc)?;
        let read = with_classes(alloc, t.copy()?)?;
        let mut shape = Shape {
            text: Text::new(alloc),
            bounds: Vec::with_capacity(alloc, read.text.len() + 1)?,
        };
        for i in 0..read.text.len() {
            read_one(&mut shape, &marks, &read, i)?;
        }
        shape.bounds.push(read.text.len())?;
        Ok(shape)
    }
}
