//! A text that was read for each token.
ghost use Rattle.std.specs.Prelude.{◌≡◌, ◌<◌, ◌+◌, IfOk, OnOk};
ghost use Rattle.fill_tokens.specs.TokenSet.{IsTokenOf};
ghost use Rattle.fill_tokens.specs.declared.token.TheConstants.{TOKEN_COUNT};
ghost use Rattle.fill_spans.specs.Pieces.{ArePieces};
ghost use Rattle.fill_spans.specs.Read.{AreClasses, AreRows};

use crate::pieces::{Pieces, end_of, no_pieces, singles, start_of};
use crate::runs::{classes, runs};
use fill_text::{Class, NoMemory, Text};
use fill_tokens::{Kind, TOKEN_COUNT, Token, TokenSet, token_at};
use std::alloc::Global;
use std::marker::Model;

/// A text that was read once for each token of a set. Contracts see it as the text and the set.
///
/// It keeps the pieces that the tokens span, and nothing for positions at which none begins or ends.
#[derive(Drop)]
pub struct Spans {
    text: Text,
    token_set: TokenSet,
    rows: Vec<Pieces>,
}

impl Model for Spans {
    ghost use Rattle.fill_tokens.specs.declared.token.TheConstants.{TOKEN_COUNT};
    ghost use Rattle.fill_spans.specs.View.{SpansView};
    ghost use Rattle.fill_spans.specs.Read.{AreRows};

    ghost Value = { SpansView };

    ghost view = { λ spans. record { text = spans.text; token_set = spans.token_set } };

    ghost invariant = { λ spans. AreRows spans.token_set TOKEN_COUNT spans.text spans.rows.items };
}

/// The pieces that the token spans, found from the classes of the text's characters.
pub fn pieces_of(
    alloc: Global,
    token: Token,
    t: &Text,
    classes: &[Class],
) -> Result<Pieces, NoMemory>
    requires { AreClasses t.now classes.now }
    ensures { IfOk result (ArePieces token t.now) }
{
    match token.kind() {
        Kind::AtStart => start_of(alloc, t),
        Kind::AtEnd => end_of(alloc, t),
        Kind::Run(class) => runs(alloc, class, classes, t),
        Kind::Single(c) => singles(alloc, c, t),
    }
}

/// Puts the pieces of the token of this place to the list, and none where the set has not the token.
fn push_row(
    alloc: Global,
    rows: &mut Vec<Pieces>,
    i: usize,
    token_set: TokenSet,
    t: &Text,
    classes: &[Class],
) -> Result<(), NoMemory>
    requires place { i < TOKEN_COUNT }
    requires classes { AreClasses t.now classes.now }
    ensures { OnOk result (AreRows token_set i t.now rows.old.items → AreRows token_set (i + 1) t.now rows.new.items) }
{
    let token = token_at(i);
    if !token.is_of(token_set) {
        rows.push(no_pieces(alloc))?;
        return Ok(());
    }
    let pieces = pieces_of(alloc, token, t, classes)?;
    rows.push(pieces)?;
    Ok(())
}

/// The pieces of each token of the set.
fn rows_of(
    alloc: Global,
    t: &Text,
    token_set: TokenSet,
    classes: &[Class],
) -> Result<Vec<Pieces>, NoMemory>
    requires { AreClasses t.now classes.now }
    ensures { IfOk result (λ rows. AreRows token_set TOKEN_COUNT t.now rows.items) }
{
    let mut rows = Vec::new(alloc);
    for i in 0..TOKEN_COUNT {
        push_row(alloc, &mut rows, i, token_set, t, classes)?;
    }
    Ok(rows)
}

impl Spans {
    /// Reads the text for the tokens of the set.
    pub fn new(alloc: Global, t: &Text, token_set: TokenSet) -> Result<Spans, NoMemory>
        ensures { IfOk result (λ spans. spans ≡ record { text = t.now; token_set = token_set }) }
    {
        let text = t.copy()?;
        let classes = classes(alloc, &text)?;
        let rows = rows_of(alloc, &text, token_set, &classes)?;
        Ok(Spans {
            text,
            token_set,
            rows,
        })
    }

    /// The pieces that the token spans in the text, in their order.
    pub fn pieces(&self, token: Token) -> &Pieces
        requires { IsTokenOf self.now.token_set token }
        ensures { ArePieces token self.now.text result.now }
    {
        &self.rows[usize::from(token.number()) - 1]
    }
}
