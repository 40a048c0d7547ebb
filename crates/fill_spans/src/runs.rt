//! The runs of a class of characters.
ghost use Rattle.std.specs.Prelude.{◌≡◌, ℕ, List, Bool, ◌<◌, ◌+◌, length, slice_index, Some, OnOk, IfOk};
ghost use Rattle.fill_tokens.specs.Kind.{run_has};
ghost use Rattle.fill_tokens.specs.Span.{KindSpans};
ghost use Rattle.fill_tokens.specs.declared.kind.Kind.TheVariants.{Run};
ghost use Rattle.fill_tokens.specs.declared.kind.RunClass.{RunClass};
ghost use Rattle.fill_spans.specs.Pieces.{AreExactly};
ghost use Rattle.fill_spans.specs.Read.{AreClasses, AreRead};

use crate::pieces::{Pieces, no_pieces, put};
use fill_text::{Class, NoMemory, Text, class_of};
use fill_tokens::RunClass;
use std::alloc::Global;

/// The classes of the text's characters, each found once.
pub fn classes(alloc: Global, t: &Text) -> Result<Vec<Class>, NoMemory>
    ensures { IfOk result (λ classes. AreClasses t.now classes.items) }
{
    let mut classes = Vec::new(alloc);
    for i in 0..t.len() {
        classes.push(class_of(t.at(i)))?;
    }
    Ok(classes)
}

/// Whether the character of this place is in the class.
fn has_at(class: RunClass, classes: &[Class], i: usize, t: &Text) -> bool
    requires classes { AreClasses t.now classes.now }
    requires place { i < length t.now }
    ensures { result ≡ run_has class (slice_index t.now i) }
{
    let _text = t;
    class.is_among(&classes[i])
}

/// Goes on by one character, which is in the class or is not: puts the run to the list that ends before it, and gives the
/// start of the one that has it.
fn step(
    pieces: &mut Pieces,
    run: Option<usize>,
    has: bool,
    i: usize,
) -> Result<Option<usize>, NoMemory>
    ensures { IfOk result (λ now. (p : ℕ → Bool) (t : List ℕ) → i < length t → has ≡ p (slice_index t i) →
        AreRead p t i pieces.old.starts.items pieces.old.ends.items run →
        AreRead p t (i + 1) pieces.new.starts.items pieces.new.ends.items now) }
{
    match (run, has) {
        (None, false) => Ok(None),
        (None, true) => Ok(Some(i)),
        (Some(start), true) => Ok(Some(start)),
        (Some(start), false) => {
            put(pieces, start, i)?;
            Ok(None)
        }
    }
}

/// Puts the run to the list that goes on to the end, if there is one.
fn finish(pieces: &mut Pieces, run: Option<usize>, n: usize) -> Result<(), NoMemory>
    ensures { OnOk result ((class : RunClass) (t : List ℕ) → n ≡ length t →
        AreRead (run_has class) t n pieces.old.starts.items pieces.old.ends.items run →
        AreExactly (KindSpans (Run class) t) pieces.new.starts.items pieces.new.ends.items) }
{
    match run {
        None => Ok(()),
        Some(start) => put(pieces, start, n),
    }
}

/// The runs of the class.
pub fn runs(alloc: Global, class: RunClass, classes: &[Class], t: &Text) -> Result<Pieces, NoMemory>
    requires { AreClasses t.now classes.now }
    ensures { IfOk result (λ p. AreExactly (KindSpans (Run class) t.now) p.starts.items p.ends.items) }
{
    let mut pieces = no_pieces(alloc);
    let mut run = None;
    for i in 0..t.len() {
        run = step(&mut pieces, run, has_at(class, classes, i, t), i)?;
    }
    finish(&mut pieces, run, t.len())?;
    Ok(pieces)
}
