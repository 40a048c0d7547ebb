//! The answers of sets of sources and atoms.
//!
//! What a set names is older than the set, so the way down ends.
ghost use Rattle.std.specs.Prelude.{◌≡◌, ◌↔◌, ℕ, List as Items, Option, false, IfOk, IfSome, OnOk};
ghost use Rattle.fill_arena.specs.Contents.{EachIn, IsAtomSet, IsPlaceSet, IsSourceSet};
ghost use Rattle.fill_arena.specs.WellMade.{IsAtomItem, IsConditionItem, IsSourceItem, OlderAtoms};
ghost use Rattle.fill_tree.specs.Value.{IsFilled, IsValue};
ghost use Rattle.fill_eval.specs.Piece.{IsWithin};
ghost use Rattle.fill_doubt.specs.Answers.{Gains, GainsSome, PiecesHave, TextsHave};
ghost use Rattle.fill_doubt.specs.Memo.{IsMemoOf, AtomAnswers, ChoiceAnswers, ConditionPartAnswers, ConstantItemAnswers, IsOnRow, PartAnswers, PartItemAnswers, RowAnswers, SourceAnswers, SourceItemAnswers};
ghost use Rattle.fill_doubt.specs.Gives.{ArePiecesOf, AreWholes, SubGives};
ghost use Rattle.fill_doubt.specs.Numbered.{AreNumbered, IsNumber, NumberedHave};
ghost use Rattle.fill_doubt.specs.Rows.{CellsHave, Choice, RowText, RowsHave};

use crate::answers::{Pieces, Texts};
use crate::conditions::{Cells, cells_of};
use crate::memo::Memo;
use crate::numbered::{Numbered, NumberedTexts, number_all};
use crate::positions::{find_positions, put_between};
use crate::row::OnRow;
use crate::rows::look_up;
use fill_arena::{AtomItem, AtomSet, ConditionItem, PlaceSet, SelectItem, SourceItem, SourceSet};
use fill_eval::{Piece, input_cell};
use fill_text::{NoMemory, Text};

/// The texts of the sources of a set.
#[cycle(sets)]
pub(crate) fn sources_of<'a>(
    on: &OnRow<'a>,
    memo: &mut Memo<'a>,
    s: SourceSet,
) -> Result<NumberedTexts<'a>, NoMemory>
    requires set { IsSourceSet on.now.arena.now s }
    requires row { IsOnRow on.now }
    requires memo { IsMemoOf on.now memo.old }
    ensures memo { OnOk result (IsMemoOf on.now memo.new) }
    ensures exact { IfOk result (λ found. (o : Option (Items ℕ)) → NumberedHave found o ↔ SourceAnswers on.now s o) }
    ensures numbered { IfOk result (AreNumbered memo.new.texts.items) }
{
    if let Some(found) = memo.take_last(s) {
        return Ok(found);
    }
    if let Some(found) = memo.source(s) {
        return found.copy(on.alloc);
    }
    let found = scan_sources(on, memo, s)?;
    let numbered = number_all(on.alloc, memo, &found)?;
    memo.keep_source(s, numbered.copy(on.alloc)?)?;
    Ok(numbered)
}

#[cycle(sets)]
fn scan_sources<'a>(
    on: &OnRow<'a>,
    memo: &mut Memo<'a>,
    s: SourceSet,
) -> Result<Texts<'a>, NoMemory>
    requires set { IsSourceSet on.now.arena.now s }
    requires row { IsOnRow on.now }
    requires memo { IsMemoOf on.now memo.old }
    ensures memo { OnOk result (IsMemoOf on.now memo.new) }
    ensures exact { IfOk result (λ found. (o : Option (Items ℕ)) → TextsHave found o ↔ SourceAnswers on.now s o) }
{
    let arena = on.arena;
    arena.keeps_made();
    let items = arena.sources(s);
    let mut found = Texts::new(on.alloc);
    for item in items {
        put_source(on, memo, s, item, &mut found)?;
    }
    Ok(found)
}

/// The texts of the sources that an item of the set stands for.
#[cycle(sets)]
fn put_source<'a>(
    on: &OnRow<'a>,
    memo: &mut Memo<'a>,
    set: SourceSet,
    item: &'a SourceItem,
    found: &mut Texts<'a>,
) -> Result<(), NoMemory>
    requires item { IsSourceItem on.now.arena.now set item.now }
    requires row { IsOnRow on.now }
    requires memo { IsMemoOf on.now memo.old }
    ensures memo { OnOk result (IsMemoOf on.now memo.new) }
    ensures gains { OnOk result (Gains (TextsHave found.old) (TextsHave found.new) (SourceItemAnswers on.now item.now)) }
{
    match item {
        SourceItem::Col(column) => put_cell(on, *column, found),
        SourceItem::Select(listed) => put_lookups(on, memo, set, listed, found),
    }
}

fn put_cell<'a>(on: &OnRow<'a>, column: u32, found: &mut Texts<'a>) -> Result<(), NoMemory>
    requires { IsOnRow on.now }
    ensures { OnOk result (Gains (TextsHave found.old) (TextsHave found.new) (SourceItemAnswers on.now (SourceItem.Col column))) }
{
    match input_cell(on.row, column, on.sheet) {
        Some(text) => found.put(text),
        None => {
            found.none = true;
            Ok(())
        }
    }
}

#[cycle(sets)]
fn put_lookups<'a>(
    on: &OnRow<'a>,
    memo: &mut Memo<'a>,
    set: SourceSet,
    item: &'a SelectItem,
    found: &mut Texts<'a>,
) -> Result<(), NoMemory>
    requires item { EachIn (IsConditionItem on.now.arena.now set) item.now.conditions }
    requires row { IsOnRow on.now }
    requires memo { IsMemoOf on.now memo.old }
    ensures memo { OnOk result (IsMemoOf on.now memo.new) }
    ensures gains { OnOk result (Gains (TextsHave found.old) (TextsHave found.new) (SourceItemAnswers on.now (SourceItem.Select item.now))) }
{
    let conditions = conditions_of(on, memo, set, item.conditions.as_slice())?;
    look_up(on.alloc, found, item, conditions.as_slice(), on.tables)
}

/// The texts of conditions.
#[cycle(sets)]
fn conditions_of<'a>(
    on: &OnRow<'a>,
    memo: &mut Memo<'a>,
    set: SourceSet,
    items: &'a [ConditionItem],
) -> Result<Vec<Cells<'a>>, NoMemory>
    requires items { EachIn (IsConditionItem on.now.arena.now set) items.now }
    requires row { IsOnRow on.now }
    requires memo { IsMemoOf on.now memo.old }
    ensures memo { OnOk result (IsMemoOf on.now memo.new) }
    ensures exact { IfOk result (λ made. (o : Option RowText) → RowsHave made.items o ↔ RowAnswers on.now items.now o) }
{
    let mut made = Vec::new(on.alloc);
    for i in 0..items.len() {
        let cells = condition_of(on, memo, set, &items[i])?;
        made.push(cells)?;
    }
    Ok(made)
}

/// The texts of a condition.
#[cycle(sets)]
fn condition_of<'a>(
    on: &OnRow<'a>,
    memo: &mut Memo<'a>,
    set: SourceSet,
    item: &'a ConditionItem,
) -> Result<Cells<'a>, NoMemory>
    requires item { IsConditionItem on.now.arena.now set item.now }
    requires row { IsOnRow on.now }
    requires memo { IsMemoOf on.now memo.old }
    ensures memo { OnOk result (IsMemoOf on.now memo.new) }
    ensures exact { IfOk result (λ made. (x : Option Choice) → CellsHave made x ↔ ChoiceAnswers on.now item.now x) }
{
    let parts = condition_parts(on, memo, set, item.atoms)?;
    cells_of(on.alloc, &item.constant, &parts)
}

/// The texts of a condition that is no constant.
#[cycle(sets)]
fn condition_parts<'a>(
    on: &OnRow<'a>,
    memo: &mut Memo<'a>,
    set: SourceSet,
    atoms: Option<AtomSet>,
) -> Result<Pieces<'a>, NoMemory>
    requires atoms { IfSome atoms (OlderAtoms on.now.arena.now set) }
    requires row { IsOnRow on.now }
    requires memo { IsMemoOf on.now memo.old }
    ensures memo { OnOk result (IsMemoOf on.now memo.new) }
    ensures within { IfOk result (λ found. EachIn IsWithin found.pieces.items) }
    ensures exact { IfOk result (λ found. (o : Option (Items ℕ)) → PiecesHave found o ↔ ConditionPartAnswers on.now atoms o) }
{
    match atoms {
        Some(s) => parts_of(on, memo, s),
        None => Ok(Pieces::new(on.alloc)),
    }
}

/// The texts of the atoms of a set that are no constants.
#[cycle(sets)]
fn parts_of<'a>(on: &OnRow<'a>, memo: &mut Memo<'a>, s: AtomSet) -> Result<Pieces<'a>, NoMemory>
    requires set { IsAtomSet on.now.arena.now s }
    requires row { IsOnRow on.now }
    requires memo { IsMemoOf on.now memo.old }
    ensures memo { OnOk result (IsMemoOf on.now memo.new) }
    ensures within { IfOk result (λ found. EachIn IsWithin found.pieces.items) }
    ensures exact { IfOk result (λ found. (o : Option (Items ℕ)) → PiecesHave found o ↔ PartAnswers on.now s o) }
{
    if let Some(found) = memo.part(s) {
        return found.copy(on.alloc);
    }
    let found = scan_parts(on, memo, s)?;
    memo.keep_part(s, found.copy(on.alloc)?)?;
    Ok(found)
}

#[cycle(sets)]
fn scan_parts<'a>(on: &OnRow<'a>, memo: &mut Memo<'a>, s: AtomSet) -> Result<Pieces<'a>, NoMemory>
    requires set { IsAtomSet on.now.arena.now s }
    requires row { IsOnRow on.now }
    requires memo { IsMemoOf on.now memo.old }
    ensures memo { OnOk result (IsMemoOf on.now memo.new) }
    ensures within { IfOk result (λ found. EachIn IsWithin found.pieces.items) }
    ensures exact { IfOk result (λ found. (o : Option (Items ℕ)) → PiecesHave found o ↔ PartAnswers on.now s o) }
{
    let arena = on.arena;
    arena.keeps_made();
    let items = arena.atoms(s);
    let mut found = Pieces::new(on.alloc);
    for item in items {
        put_part(on, memo, s, item, false, &mut found)?;
    }
    Ok(found)
}

/// The texts of the atoms that an item of the set stands for, if they are no constants: some where few will do, and else
/// all of them.
#[cycle(sets)]
pub(crate) fn put_part<'a>(
    on: &OnRow<'a>,
    memo: &mut Memo<'a>,
    set: AtomSet,
    item: &'a AtomItem,
    few: bool,
    found: &mut Pieces<'a>,
) -> Result<(), NoMemory>
    requires item { IsAtomItem on.now.arena.now set item.now }
    requires row { IsOnRow on.now }
    requires memo { IsMemoOf on.now memo.old }
    requires within { EachIn IsWithin found.old.pieces.items }
    ensures memo { OnOk result (IsMemoOf on.now memo.new) }
    ensures within { OnOk result (EachIn IsWithin found.new.pieces.items) }
    ensures some { OnOk result (GainsSome (PiecesHave found.old) (PiecesHave found.new) (PartItemAnswers on.now item.now)) }
    ensures all { OnOk result (few ≡ false → Gains (PiecesHave found.old) (PiecesHave found.new) (PartItemAnswers on.now item.now)) }
{
    match item {
        AtomItem::Const(_) => Ok(()),
        AtomItem::Whole(sources) => {
            let texts = sources_of(on, memo, *sources)?;
            put_wholes(&texts, found)?;
            memo.put_last(*sources, texts);
            Ok(())
        }
        AtomItem::Sub(sources, lefts, rights) => {
            let texts = sources_of(on, memo, *sources)?;
            put_subs(on, memo, &texts, *lefts, *rights, few, found)?;
            memo.put_last(*sources, texts);
            Ok(())
        }
    }
}

/// The texts that are not empty.
fn put_wholes<'a>(texts: &NumberedTexts<'a>, found: &mut Pieces<'a>) -> Result<(), NoMemory>
    requires within { EachIn IsWithin found.old.pieces.items }
    ensures within { EachIn IsWithin found.new.pieces.items }
    ensures gains { OnOk result (Gains (PiecesHave found.old) (PiecesHave found.new) (AreWholes (NumberedHave texts.now))) }
{
    found.put_none(texts.none);
    for i in 0..texts.texts.len() {
        put_whole(texts.texts[i].text, found)?;
    }
    Ok(())
}

fn put_whole<'a>(text: &'a Text, found: &mut Pieces<'a>) -> Result<(), NoMemory>
    requires within { EachIn IsWithin found.old.pieces.items }
    ensures within { EachIn IsWithin found.new.pieces.items }
    ensures gains { OnOk result (Gains (PiecesHave found.old) (PiecesHave found.new) (IsValue (IsFilled (λ t. t ≡ text.now)))) }
{
    match Piece::whole(text).filled() {
        Some(piece) => found.put(&piece),
        None => {
            found.none = true;
            Ok(())
        }
    }
}

/// The pieces of the texts between places of the two sets: some where few will do, and else all of them.
fn put_subs<'a>(
    on: &OnRow<'a>,
    memo: &mut Memo<'a>,
    texts: &NumberedTexts<'a>,
    lefts: PlaceSet,
    rights: PlaceSet,
    few: bool,
    found: &mut Pieces<'a>,
) -> Result<(), NoMemory>
    requires lefts { IsPlaceSet on.now.arena.now lefts }
    requires rights { IsPlaceSet on.now.arena.now rights }
    requires numbered { AreNumbered memo.old.texts.items texts.now }
    requires memo { IsMemoOf on.now memo.old }
    requires within { EachIn IsWithin found.old.pieces.items }
    ensures memo { OnOk result (IsMemoOf on.now memo.new) }
    ensures texts { OnOk result (memo.new.texts ≡ memo.old.texts) }
    ensures within { OnOk result (EachIn IsWithin found.new.pieces.items) }
    ensures some { OnOk result (GainsSome (PiecesHave found.old) (PiecesHave found.new) (ArePiecesOf on.now.arena.now lefts rights (NumberedHave texts.now))) }
    ensures all { OnOk result (few ≡ false → Gains (PiecesHave found.old) (PiecesHave found.new) (ArePiecesOf on.now.arena.now lefts rights (NumberedHave texts.now))) }
{
    found.put_none(texts.none);
    for i in 0..texts.texts.len() {
        put_pieces(on, memo, &texts.texts[i], lefts, rights, few, found)?;
    }
    Ok(())
}

fn put_pieces<'a>(
    on: &OnRow<'a>,
    memo: &mut Memo<'a>,
    text: &Numbered<'a>,
    lefts: PlaceSet,
    rights: PlaceSet,
    few: bool,
    found: &mut Pieces<'a>,
) -> Result<(), NoMemory>
    requires lefts { IsPlaceSet on.now.arena.now lefts }
    requires rights { IsPlaceSet on.now.arena.now rights }
    requires number { IsNumber memo.old.texts.items text.now.text.now text.now.number }
    requires memo { IsMemoOf on.now memo.old }
    requires within { EachIn IsWithin found.old.pieces.items }
    ensures memo { OnOk result (IsMemoOf on.now memo.new) }
    ensures texts { memo.new.texts ≡ memo.old.texts }
    ensures within { OnOk result (EachIn IsWithin found.new.pieces.items) }
    ensures some { OnOk result (GainsSome (PiecesHave found.old) (PiecesHave found.new) (SubGives on.now.arena.now lefts rights text.now.text.now)) }
    ensures all { OnOk result (few ≡ false → Gains (PiecesHave found.old) (PiecesHave found.new) (SubGives on.now.arena.now lefts rights text.now.text.now)) }
{
    find_positions(on, memo, text, lefts, rights, few)?;
    put_between(found, text.text, &memo.lefts, &memo.rights)
}

/// The texts of the atoms of a set.
pub(crate) fn atoms_of<'a>(
    on: &OnRow<'a>,
    memo: &mut Memo<'a>,
    s: AtomSet,
) -> Result<Pieces<'a>, NoMemory>
    requires set { IsAtomSet on.now.arena.now s }
    requires row { IsOnRow on.now }
    requires memo { IsMemoOf on.now memo.old }
    ensures memo { OnOk result (IsMemoOf on.now memo.new) }
    ensures within { IfOk result (λ found. EachIn IsWithin found.pieces.items) }
    ensures exact { IfOk result (λ found. (o : Option (Items ℕ)) → PiecesHave found o ↔ AtomAnswers on.now s o) }
{
    let mut found = parts_of(on, memo, s)?;
    let items = on.arena.atoms(s);
    for item in items {
        put_constant(item, &mut found)?;
    }
    Ok(found)
}

fn put_constant<'a>(item: &'a AtomItem, found: &mut Pieces<'a>) -> Result<(), NoMemory>
    requires within { EachIn IsWithin found.old.pieces.items }
    ensures within { EachIn IsWithin found.new.pieces.items }
    ensures gains { OnOk result (Gains (PiecesHave found.old) (PiecesHave found.new) (ConstantItemAnswers item.now)) }
{
    match item {
        AtomItem::Const(text) => put_whole(text, found),
        _ => Ok(()),
    }
}
