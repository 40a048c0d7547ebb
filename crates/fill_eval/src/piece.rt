//! Pieces of texts.
ghost use Rattle.std.specs.Prelude.{◌≡◌, ◌<◌, IfOk, IfSome, option_map};
ghost use Rattle.fill_tree.specs.Value.{IsFilled, IsPieceBetween, IsValue};
ghost use Rattle.fill_eval.specs.Piece.{IsWithin, piece_text};

use fill_text::{NoMemory, Text};
use fill_tokens::{Place, place_value};
use std::alloc::Global;

/// The characters of a text from `from` to `to`, that at `to` left out. The text is lent.
///
/// [`Piece::whole`] and [`Piece::between`] make pieces that lie within their texts.
#[derive(Clone, Copy)]
pub struct Piece<'a> {
    pub text: &'a Text,
    pub from: usize,
    pub to: usize,
}

impl<'a> Piece<'a> {
    /// The whole text.
    pub fn whole(text: &'a Text) -> Piece<'a>
        ensures value { piece_text result ≡ text.now }
        ensures within { IsWithin result }
    {
        Piece {
            text,
            from: 0,
            to: text.len(),
        }
    }

    /// The piece between two places of a text, if both have a value and the left one's is less than the right one's.
    pub fn between(text: &'a Text, left: &Place, right: &Place) -> Option<Piece<'a>>
        ensures value { IsValue (IsPieceBetween (λ t. t ≡ text.now) left.now right.now) (option_map piece_text result) }
        ensures within { IfSome result IsWithin }
    {
        let from = place_value(left, text)?;
        let to = place_value(right, text)?;
        if from < to {
            Some(Piece { text, from, to })
        } else {
            None
        }
    }

    /// The piece, if it has a character.
    pub fn filled(&self) -> Option<Piece<'a>>
        requires within { IsWithin self.now }
        ensures value { IsValue (IsFilled (λ t. t ≡ piece_text self.now)) (option_map piece_text result) }
        ensures within { IfSome result IsWithin }
    {
        if self.from < self.to {
            Some(*self)
        } else {
            None
        }
    }

    /// The characters.
    pub fn as_slice(&self) -> &'a [char]
        requires within { IsWithin self.now }
        ensures { result.now ≡ piece_text self.now }
    {
        &self.text.as_slice()[self.from..self.to]
    }

    /// A text of its own.
    pub fn copy(&self, alloc: Global) -> Result<Text, NoMemory>
        requires within { IsWithin self.now }
        ensures { IfOk result (λ text. text ≡ piece_text self.now) }
    {
        let mut copied = Text::new(alloc);
        copied.append_piece(self.text, self.from, self.to)?;
        Ok(copied)
    }
}
