//! The pieces of one token.
ghost use Rattle.std.specs.Prelude.{◌≡◌, ◌<◌, ◌+◌, ◌++◌, ◌∷◌, [], length, OnOk, IfOk};
ghost use Rattle.fill_tokens.specs.Span.{KindSpans};
ghost use Rattle.fill_tokens.specs.declared.kind.Kind.TheVariants.{AtStart, AtEnd, Single};
ghost use Rattle.fill_spans.specs.Pieces.{AreExactly};
ghost use Rattle.fill_spans.specs.Read.{SinglesBelow};

use fill_text::{NoMemory, Text};
use std::alloc::Global;

/// Pieces of a text, from the first one to the last one: at the same place of the two lists stand the start of a piece
/// and its end, the position after its last character.
#[derive(Drop)]
pub struct Pieces {
    pub starts: Vec<usize>,
    pub ends: Vec<usize>,
}

/// No piece, which takes no memory.
pub fn no_pieces(alloc: Global) -> Pieces
    ensures { (result.starts.items ≡ []) × (result.ends.items ≡ []) }
{
    Pieces {
        starts: Vec::new(alloc),
        ends: Vec::new(alloc),
    }
}

/// Puts the piece at the end.
pub fn put(pieces: &mut Pieces, start: usize, end: usize) -> Result<(), NoMemory>
    ensures { OnOk result ((pieces.new.starts.items ≡ pieces.old.starts.items ++ start ∷ [])
        × (pieces.new.ends.items ≡ pieces.old.ends.items ++ end ∷ [])) }
{
    pieces.starts.push(start)?;
    pieces.ends.push(end)?;
    Ok(())
}

/// The empty piece at the start of the text.
pub fn start_of(alloc: Global, t: &Text) -> Result<Pieces, NoMemory>
    ensures { IfOk result (λ p. AreExactly (KindSpans AtStart t.now) p.starts.items p.ends.items) }
{
    let _text = t;
    let mut pieces = no_pieces(alloc);
    put(&mut pieces, 0, 0)?;
    Ok(pieces)
}

/// The empty piece at the end of the text.
pub fn end_of(alloc: Global, t: &Text) -> Result<Pieces, NoMemory>
    ensures { IfOk result (λ p. AreExactly (KindSpans AtEnd t.now) p.starts.items p.ends.items) }
{
    let mut pieces = no_pieces(alloc);
    let n = t.len();
    put(&mut pieces, n, n)?;
    Ok(pieces)
}

/// Puts the piece of the character at this place to the list, where it is the wanted one.
fn put_single(pieces: &mut Pieces, c: char, t: &Text, i: usize) -> Result<(), NoMemory>
    requires { i < length t.now }
    ensures { OnOk result (AreExactly (SinglesBelow c t.now i) pieces.old.starts.items pieces.old.ends.items →
        AreExactly (SinglesBelow c t.now (i + 1)) pieces.new.starts.items pieces.new.ends.items) }
{
    let _length = t.len();
    if t.at(i) != c {
        return Ok(());
    }
    put(pieces, i, i + 1)
}

/// The pieces of one character.
pub fn singles(alloc: Global, c: char, t: &Text) -> Result<Pieces, NoMemory>
    ensures { IfOk result (λ p. AreExactly (KindSpans (Single c) t.now) p.starts.items p.ends.items) }
{
    let mut pieces = no_pieces(alloc);
    for i in 0..t.len() {
        put_single(&mut pieces, c, t, i)?;
    }
    Ok(pieces)
}
