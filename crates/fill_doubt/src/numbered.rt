//! The texts of a set of sources, each with its number among the row's texts.
ghost use Rattle.std.specs.Prelude.{◌≡◌, ◌↔◌, ℕ, List as Items, Option, Some, IfOk, OnOk};
ghost use Rattle.fill_doubt.specs.Answers.{Gains, TextsHave};
ghost use Rattle.fill_doubt.specs.Memo.{IsMemoOf};
ghost use Rattle.fill_doubt.specs.Numbered.{AreNumbered, NumberedHave};
ghost use Rattle.fill_doubt.specs.declared.row.OnRow.{OnRow};

use crate::answers::Texts;
use crate::memo::Memo;
use fill_text::{NoMemory, Text};
use std::alloc::Global;

/// A text, and its number among those of the row whose shapes are kept. A long text has none.
#[derive(Clone, Copy)]
pub(crate) struct Numbered<'a> {
    pub(crate) text: &'a Text,
    pub(crate) number: Option<usize>,
}

/// The answers of sources, where each text has its number, so that it is not sought for each piece that is cut from it.
#[derive(Drop)]
pub(crate) struct NumberedTexts<'a> {
    pub(crate) texts: Vec<Numbered<'a>>,
    pub(crate) none: bool,
}

impl<'a> NumberedTexts<'a> {
    pub(crate) fn copy(&self, alloc: Global) -> Result<NumberedTexts<'a>, NoMemory>
        ensures { IfOk result (λ copied. (copied.texts.items ≡ self.now.texts.items) × (copied.none ≡ self.now.none)) }
    {
        Ok(NumberedTexts {
            texts: Vec::from_slice(alloc, self.texts.as_slice())?,
            none: self.none,
        })
    }
}

/// The answers, each text with its number.
pub(crate) fn number_all<'a>(
    alloc: Global,
    memo: &mut Memo<'a>,
    found: &Texts<'a>,
) -> Result<NumberedTexts<'a>, NoMemory>
    ensures memo { OnOk result ((on : OnRow) → IsMemoOf on memo.old → IsMemoOf on memo.new) }
    ensures same { IfOk result (λ made. (o : Option (Items ℕ)) → NumberedHave made o ↔ TextsHave found.now o) }
    ensures numbered { IfOk result (AreNumbered memo.new.texts.items) }
{
    let mut made = NumberedTexts {
        texts: Vec::new(alloc),
        none: found.none,
    };
    for i in 0..found.texts.len() {
        put_numbered(alloc, memo, found.texts[i], &mut made)?;
    }
    Ok(made)
}

/// One text more.
fn put_numbered<'a>(
    alloc: Global,
    memo: &mut Memo<'a>,
    text: &'a Text,
    made: &mut NumberedTexts<'a>,
) -> Result<(), NoMemory>
    ensures memo { OnOk result ((on : OnRow) → IsMemoOf on memo.old → IsMemoOf on memo.new) }
    ensures gains { OnOk result (Gains (NumberedHave made.old) (NumberedHave made.new) (λ o. o ≡ Some text.now)) }
    ensures numbered { OnOk result (AreNumbered memo.old.texts.items made.old → AreNumbered memo.new.texts.items made.new) }
{
    let number = memo.number_for(alloc, text)?;
    match made.texts.push(Numbered { text, number }) {
        Ok(()) => Ok(()),
        Err(_) => Err(NoMemory),
    }
}
