//! The answers of what stands in a set: its values, each once, and whether some of it has none.
//!
//! Texts are lent by the sheet, the tables and the arena; a piece is a range of such a text, and pieces are compared in
//! place.
ghost use Rattle.std.specs.Prelude.{◌≡◌, ◌↔◌, ℕ, List as Items, Option, None, Some, true, IsTrue, IfOk, OnOk, MatchOption};
ghost use Rattle.fill_arena.specs.Contents.{EachIn};
ghost use Rattle.fill_eval.specs.Piece.{IsWithin, piece_text};
ghost use Rattle.fill_doubt.specs.Answers.{Gains, PiecesHave, PositionsHave, TextsHave};

use fill_eval::Piece;
use fill_text::{NoMemory, Text};
use std::alloc::Global;

/// Whole texts: the answers of sources.
#[derive(Drop)]
pub(crate) struct Texts<'a> {
    pub(crate) texts: Vec<&'a Text>,
    pub(crate) none: bool,
}

impl<'a> Texts<'a> {
    pub(crate) fn new(alloc: Global) -> Texts<'a>
        ensures { (o : Option (Items ℕ)) → ¬ (TextsHave result o) }
    {
        Texts {
            texts: Vec::new(alloc),
            none: false,
        }
    }

    fn has(&self, text: &Text) -> bool
        ensures { IsTrue result ↔ TextsHave self.now (Some text.now) }
    {
        for i in 0..self.texts.len() {
            if self.texts[i].same(text) {
                return true;
            }
        }
        false
    }

    /// One answer more: this text.
    pub(crate) fn put(&mut self, text: &'a Text) -> Result<(), NoMemory>
        ensures { OnOk result (Gains (TextsHave self.old) (TextsHave self.new) (λ o. o ≡ Some text.now)) }
    {
        if self.has(text) {
            return Ok(());
        }
        match self.texts.push(text) {
            Ok(()) => Ok(()),
            Err(_) => Err(NoMemory),
        }
    }

    /// No value is an answer too, where something lacks one.
    pub(crate) fn put_none(&mut self, lacks: bool)
        ensures gains { Gains (TextsHave self.old) (TextsHave self.new) (λ o. (o ≡ None) × (lacks ≡ true)) }
        ensures kept { self.new.texts ≡ self.old.texts }
    {
        if !lacks {
            return;
        }
        self.none = true;
    }
}

/// Pieces of texts: the answers of atoms.
#[derive(Drop)]
pub(crate) struct Pieces<'a> {
    pub(crate) pieces: Vec<Piece<'a>>,
    pub(crate) none: bool,
}

impl<'a> Pieces<'a> {
    pub(crate) fn new(alloc: Global) -> Pieces<'a>
        ensures none { (o : Option (Items ℕ)) → ¬ (PiecesHave result o) }
        ensures within { EachIn IsWithin result.pieces.items }
    {
        Pieces {
            pieces: Vec::new(alloc),
            none: false,
        }
    }

    fn has(&self, piece: &Piece<'a>) -> bool
        requires piece { IsWithin piece.now }
        requires within { EachIn IsWithin self.now.pieces.items }
        ensures { IsTrue result ↔ PiecesHave self.now (Some (piece_text piece.now)) }
    {
        for i in 0..self.pieces.len() {
            if self.pieces[i].as_slice() == piece.as_slice() {
                return true;
            }
        }
        false
    }

    /// One answer more: this piece.
    pub(crate) fn put(&mut self, piece: &Piece<'a>) -> Result<(), NoMemory>
        requires piece { IsWithin piece.now }
        requires within { EachIn IsWithin self.old.pieces.items }
        ensures within { EachIn IsWithin self.new.pieces.items }
        ensures gains { OnOk result (Gains (PiecesHave self.old) (PiecesHave self.new) (λ o. o ≡ Some (piece_text piece.now))) }
    {
        if self.has(piece) {
            return Ok(());
        }
        match self.pieces.push(*piece) {
            Ok(()) => Ok(()),
            Err(_) => Err(NoMemory),
        }
    }

    /// No value is an answer too, where something lacks one.
    pub(crate) fn put_none(&mut self, lacks: bool)
        ensures gains { Gains (PiecesHave self.old) (PiecesHave self.new) (λ o. (o ≡ None) × (lacks ≡ true)) }
        ensures kept { self.new.pieces ≡ self.old.pieces }
    {
        if !lacks {
            return;
        }
        self.none = true;
    }

    /// Whether there are two answers or more. What is found does not depend on it, but how soon.
    pub(crate) fn are_several(&self) -> bool {
        if self.none {
            return self.pieces.len() > 0;
        }
        self.pieces.len() > 1
    }

    /// One of the pieces, if there is one.
    pub(crate) fn first(&self) -> Option<Piece<'a>>
        requires within { EachIn IsWithin self.now.pieces.items }
        ensures { MatchOption result ((t : Items ℕ) → ¬ (PiecesHave self.now (Some t))) (λ piece. IsWithin piece × PiecesHave self.now (Some (piece_text piece))) }
    {
        if self.pieces.len() == 0 {
            return None;
        }
        let first = self.pieces[0];
        Some(first)
    }

    pub(crate) fn copy(&self, alloc: Global) -> Result<Pieces<'a>, NoMemory>
        ensures { IfOk result (λ copied. (copied.pieces.items ≡ self.now.pieces.items) × (copied.none ≡ self.now.none)) }
    {
        Ok(Pieces {
            pieces: Vec::from_slice(alloc, self.pieces.as_slice())?,
            none: self.none,
        })
    }
}

/// Positions of a text: the answers of places.
#[derive(Drop)]
pub(crate) struct Positions {
    pub(crate) positions: Vec<usize>,
    pub(crate) none: bool,
}

impl Positions {
    pub(crate) fn new(alloc: Global) -> Positions
        ensures { (o : Option ℕ) → ¬ (PositionsHave result o) }
    {
        Positions {
            positions: Vec::new(alloc),
            none: false,
        }
    }

    /// Forgets all answers, and keeps the memory that they took.
    pub(crate) fn clear(&mut self)
        ensures { (o : Option ℕ) → ¬ (PositionsHave self.new o) }
    {
        self.positions.clear();
        self.none = false;
    }

    fn has(&self, position: usize) -> bool
        ensures { IsTrue result ↔ PositionsHave self.now (Some position) }
    {
        for i in 0..self.positions.len() {
            if self.positions[i] == position {
                return true;
            }
        }
        false
    }

    /// One answer more: this position.
    pub(crate) fn put(&mut self, position: usize) -> Result<(), NoMemory>
        ensures { OnOk result (Gains (PositionsHave self.old) (PositionsHave self.new) (λ o. o ≡ Some position)) }
    {
        if self.has(position) {
            return Ok(());
        }
        match self.positions.push(position) {
            Ok(()) => Ok(()),
            Err(_) => Err(NoMemory),
        }
    }

    /// One answer more: a position, or that there is none.
    pub(crate) fn put_answer(&mut self, answer: Option<usize>) -> Result<(), NoMemory>
        ensures { OnOk result (Gains (PositionsHave self.old) (PositionsHave self.new) (λ o. o ≡ answer)) }
    {
        match answer {
            Some(position) => self.put(position),
            None => {
                self.none = true;
                Ok(())
            }
        }
    }

    /// No value is an answer too, where something lacks one.
    pub(crate) fn put_none(&mut self, lacks: bool)
        ensures { Gains (PositionsHave self.old) (PositionsHave self.new) (λ o. (o ≡ None) × (lacks ≡ true)) }
    {
        if !lacks {
            return;
        }
        self.none = true;
    }

    /// Whether there are two answers or more. What is found does not depend on it, but how soon.
    pub(crate) fn are_several(&self) -> bool {
        if self.none {
            return self.positions.len() > 0;
        }
        self.positions.len() > 1
    }

    /// Whether there is an answer.
    pub(crate) fn is_some(&self) -> bool
        ensures { IsTrue result ↔ ((o : Option ℕ) × PositionsHave self.now o) }
    {
        if self.none {
            return true;
        }
        self.positions.len() > 0
    }
}
