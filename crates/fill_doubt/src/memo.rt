//! What was found of sets on a row already, so that each set is looked at once.
ghost use Rattle.std.specs.Prelude.{◌≡◌, ◌↔◌, ◌++◌, ◌∷◌, [], ℕ, List as Items, Option, IfOk, IfSome, OnOk};
ghost use Rattle.fill_arena.specs.Contents.{EachIn};
ghost use Rattle.fill_eval.specs.Piece.{IsWithin};
ghost use Rattle.fill_doubt.specs.Answers.{PiecesHave};
ghost use Rattle.fill_doubt.specs.Memo.{IsMemoOf, IsTextAt, PartAnswers, SourceAnswers};
ghost use Rattle.fill_doubt.specs.Numbered.{AreNumbered, IsNumber, KeepsNumbers, NumberedHave};
ghost use Rattle.fill_doubt.specs.Shapes.{ShapesStand};
ghost use Rattle.fill_doubt.specs.declared.row.OnRow.{OnRow};

use crate::answers::{Pieces, Positions};
use crate::numbered::NumberedTexts;
use crate::shaped::Shaped;
use crate::shapes::Shapes;
use fill_arena::{AtomSet, SourceSet};
use fill_shapes::Shape;
use fill_text::{NoMemory, Text};
use std::alloc::Global;
use std::collections::HashMap;

/// How many characters a text has at most whose shape is looked at. A longer one has few twins, and lists of all that its
/// tokens span would take more memory than the text.
const LONG: usize = 8_192;

/// The texts of the set of sources that was read last.
#[derive(Drop)]
pub(crate) struct Last<'a> {
    set: SourceSet,
    texts: NumberedTexts<'a>,
}

/// The answers of sets, those of a set of atoms without its constants, the row's texts with their
/// shapes, and what was found of shapes; with room for the positions between which pieces stand.
///
/// Atoms of one set mostly read the sources of the atom before, so the texts that were read last are lent without a copy.
#[derive(Drop)]
pub(crate) struct Memo<'a> {
    sources: HashMap<SourceSet, NumberedTexts<'a>>,
    last: Option<Last<'a>>,
    parts: HashMap<AtomSet, Pieces<'a>>,
    pub(crate) texts: Vec<Shaped<'a>>,
    pub(crate) shapes: Shapes,
    pub(crate) lefts: Positions,
    pub(crate) rights: Positions,
}

impl<'a> Memo<'a> {
    pub(crate) fn new(alloc: Global, shapes: Shapes) -> Memo<'a>
        ensures { (on : OnRow) → ShapesStand on.arena.now shapes → IsMemoOf on result }
    {
        Memo {
            sources: HashMap::new(alloc),
            last: None,
            parts: HashMap::new(alloc),
            texts: Vec::new(alloc),
            shapes,
            lefts: Positions::new(alloc),
            rights: Positions::new(alloc),
        }
    }

    pub(crate) fn source(&self, s: SourceSet) -> Option<&NumberedTexts<'a>>
        ensures answers { (on : OnRow) → IsMemoOf on self.now → IfSome result (λ found. (o : Option (Items ℕ)) → NumberedHave found.now o ↔ SourceAnswers on s o) }
        ensures numbered { (on : OnRow) → IsMemoOf on self.now → IfSome result (λ found. AreNumbered self.now.texts.items found.now) }
    {
        self.sources.get(&s)
    }

    /// Takes the texts of the set out, if it is the one that was read last.
    pub(crate) fn take_last(&mut self, s: SourceSet) -> Option<NumberedTexts<'a>>
        ensures memo { (on : OnRow) → IsMemoOf on self.old → IsMemoOf on self.new }
        ensures texts { self.new.texts ≡ self.old.texts }
        ensures answers { (on : OnRow) → IsMemoOf on self.old → IfSome result (λ found. (o : Option (Items ℕ)) → NumberedHave found o ↔ SourceAnswers on s o) }
        ensures numbered { (on : OnRow) → IsMemoOf on self.old → IfSome result (AreNumbered self.old.texts.items) }
    {
        let Some(last) = self.last.take() else {
            return None;
        };
        if last.set.index() != s.index() {
            return None;
        }
        Some(last.texts)
    }

    /// Keeps the texts of a set as those that were read last.
    pub(crate) fn put_last(&mut self, set: SourceSet, texts: NumberedTexts<'a>)
        ensures { (on : OnRow) → IsMemoOf on self.old → AreNumbered self.old.texts.items texts.entry → ((o : Option (Items ℕ)) → NumberedHave texts.entry o ↔ SourceAnswers on set o) → IsMemoOf on self.new }
    {
        self.last = Some(Last { set, texts });
    }

    pub(crate) fn part(&self, s: AtomSet) -> Option<&Pieces<'a>>
        ensures answers { (on : OnRow) → IsMemoOf on self.now → IfSome result (λ found. (o : Option (Items ℕ)) → PiecesHave found.now o ↔ PartAnswers on s o) }
        ensures within { (on : OnRow) → IsMemoOf on self.now → IfSome result (λ found. EachIn IsWithin found.now.pieces.items) }
    {
        self.parts.get(&s)
    }

    pub(crate) fn keep_source(
        &mut self,
        s: SourceSet,
        found: NumberedTexts<'a>,
    ) -> Result<(), NoMemory>
        ensures memo { OnOk result ((on : OnRow) → IsMemoOf on self.old → AreNumbered self.old.texts.items found.entry → ((o : Option (Items ℕ)) → NumberedHave found.entry o ↔ SourceAnswers on s o) → IsMemoOf on self.new) }
        ensures texts { self.new.texts ≡ self.old.texts }
    {
        match self.sources.insert(s, found) {
            Ok(_) => Ok(()),
            Err(_) => Err(NoMemory),
        }
    }

    pub(crate) fn keep_part(&mut self, s: AtomSet, found: Pieces<'a>) -> Result<(), NoMemory>
        ensures { OnOk result ((on : OnRow) → IsMemoOf on self.old → EachIn IsWithin found.entry.pieces.items → ((o : Option (Items ℕ)) → PiecesHave found.entry o ↔ PartAnswers on s o) → IsMemoOf on self.new) }
    {
        match self.parts.insert(s, found) {
            Ok(_) => Ok(()),
            Err(_) => Err(NoMemory),
        }
    }

    /// Which one of the texts this one is.
    fn find(&self, text: &Text) -> Option<usize>
        ensures { IfSome result (IsTextAt self.now text.now) }
    {
        for i in 0..self.texts.len() {
            if self.texts[i].text.same(text) {
                return Some(i);
            }
        }
        None
    }

    /// The number of the text among those of the row whose shapes are kept, unless it is long.
    pub(crate) fn number_for(
        &mut self,
        alloc: Global,
        text: &'a Text,
    ) -> Result<Option<usize>, NoMemory>
        ensures memo { OnOk result ((on : OnRow) → IsMemoOf on self.old → IsMemoOf on self.new) }
        ensures kept { OnOk result (KeepsNumbers self.old.texts.items self.new.texts.items) }
        ensures there { IfOk result (IsNumber self.new.texts.items text.now) }
    {
        if text.len() > LONG {
            return Ok(None);
        }
        let n = self.number_of(alloc, text)?;
        Ok(Some(n))
    }

    fn number_of(&mut self, alloc: Global, text: &'a Text) -> Result<usize, NoMemory>
        ensures memo { OnOk result ((on : OnRow) → IsMemoOf on self.old → IsMemoOf on self.new) }
        ensures kept { OnOk result (KeepsNumbers self.old.texts.items self.new.texts.items) }
        ensures there { IfOk result (IsTextAt self.new text.now) }
    {
        if let Some(n) = self.find(text) {
            return Ok(n);
        }
        let n = self.texts.len();
        let shape = Shape::of(alloc, text)?;
        let number = self.shapes.number_of(alloc, &shape.text)?;
        let shaped = Shaped {
            text,
            shape,
            number,
        };
        put_text(&mut self.texts, shaped)?;
        Ok(n)
    }
}

fn put_text<'a>(texts: &mut Vec<Shaped<'a>>, shaped: Shaped<'a>) -> Result<(), NoMemory>
    ensures { OnOk result (texts.new.items ≡ texts.old.items ++ shaped.entry ∷ []) }
{
    match texts.push(shaped) {
        Ok(()) => Ok(()),
        Err(_) => Err(NoMemory),
    }
}
