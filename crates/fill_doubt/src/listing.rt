//! The values of the atoms of a set.
ghost use Rattle.std.specs.Prelude.{◌≡◌, ◌≢◌, ◌↔◌, ◌⊎◌, ◌<◌, ◌≤◌, ℕ, List as Items, None, Some, length, map, slice_get, IsTrue, IfOk, OnOk};
ghost use Rattle.std.specs.List.{AllPairs};
ghost use Rattle.std.specs.Ordering.{nat_cmp};
ghost use Rattle.std.specs.Cmp.Lexicographic.{slice_cmp};
ghost use Rattle.std.specs.declared.cmp.Ordering.TheVariants.{Less};
ghost use Rattle.fill_arena.specs.Contents.{EachIn, In, IsAtomSet, SomeIn};
ghost use Rattle.fill_eval.specs.Piece.{IsWithin, piece_text};
ghost use Rattle.fill_eval.specs.declared.piece.Piece.{Piece as Listed};
ghost use Rattle.fill_doubt.specs.Values.{AreRising};
ghost use Rattle.fill_doubt.specs.Gives.{AtomGives};

use crate::memo::Memo;
use crate::row::OnRow;
use crate::sets::atoms_of;
use crate::shapes::Shapes;
use fill_arena::{Arena, AtomSet};
use fill_eval::Piece;
use fill_sheet::Sheet;
use fill_tables::Tables;
use fill_text::{List, NoMemory, Text};
use std::alloc::Global;
use std::cmp::Ordering;

/// The values that the atoms of a set have on a row, each once, in the order of [`Text::compare`], and whether one of them has
/// none.
#[derive(Debug, Drop)]
pub struct ValueSet {
    pub texts: List<Text>,
    pub none: bool,
}

/// The values on the row of the atoms that stand in the set.
pub fn values(
    alloc: Global,
    arena: &Arena,
    s: AtomSet,
    row: u32,
    sheet: &Sheet,
    tables: &Tables,
) -> Result<ValueSet, NoMemory>
    requires first { 1 ≤ row }
    requires last { row ≤ length sheet.now.rows }
    requires set { IsAtomSet arena.now s }
    ensures rising { IfOk result (λ set. AllPairs (λ v w. slice_cmp nat_cmp v w ≡ Less) set.texts) }
    ensures exact { IfOk result (λ set. (v : Items ℕ) → In v set.texts ↔ AtomGives arena.now sheet.now tables.now row s (Some v)) }
    ensures none { IfOk result (λ set. IsTrue set.none ↔ AtomGives arena.now sheet.now tables.now row s None) }
{
    arena.keeps_made();
    tables.keeps_keys();
    let on = OnRow {
        alloc,
        arena,
        row,
        sheet,
        tables,
    };
    let mut memo = Memo::new(alloc, Shapes::new(alloc));
    let found = atoms_of(&on, &mut memo, s)?;
    let texts = sorted(alloc, found.pieces.as_slice())?;
    Ok(ValueSet {
        texts,
        none: found.none,
    })
}

/// The texts of the pieces in order, each once.
fn sorted(alloc: Global, pieces: &[Piece]) -> Result<List<Text>, NoMemory>
    requires { EachIn IsWithin pieces.now }
    ensures rising { IfOk result (AllPairs (λ v w. slice_cmp nat_cmp v w ≡ Less)) }
    ensures exact { IfOk result (λ texts. (v : Items ℕ) → In v texts ↔ SomeIn (λ x. piece_text x ≡ v) pieces.now) }
{
    let mut order = Vec::new(alloc);
    for i in 0..pieces.len() {
        insert(&mut order, &pieces[i])?;
    }
    copies(alloc, order.as_slice())
}

/// The texts of the pieces.
fn copies(alloc: Global, pieces: &[Piece]) -> Result<List<Text>, NoMemory>
    requires { EachIn IsWithin pieces.now }
    ensures { IfOk result (λ texts. texts ≡ map piece_text pieces.now) }
{
    let mut texts = List::new(alloc);
    for i in 0..pieces.len() {
        texts.push(pieces[i].copy(alloc)?)?;
    }
    Ok(texts)
}

/// Puts the piece where it belongs, unless its text is there already.
fn insert<'a>(order: &mut Vec<Piece<'a>>, piece: &Piece<'a>) -> Result<(), NoMemory>
    requires piece { IsWithin piece.now }
    requires within { EachIn IsWithin order.old.items }
    requires rising { AreRising order.old.items }
    ensures within { EachIn IsWithin order.new.items }
    ensures rising { AreRising order.new.items }
    ensures gains { OnOk result ((v : Items ℕ) → SomeIn (λ x. piece_text x ≡ v) order.new.items ↔ (SomeIn (λ x. piece_text x ≡ v) order.old.items ⊎ (piece_text piece.now ≡ v))) }
{
    let at = place_in(order.as_slice(), piece);
    if is_at(order.as_slice(), at, piece) {
        return Ok(());
    }
    match order.insert(at, *piece) {
        Ok(()) => Ok(()),
        Err(_) => Err(NoMemory),
    }
}

/// How many pieces in order stand before this one.
fn place_in(order: &[Piece], piece: &Piece) -> usize
    requires piece { IsWithin piece.now }
    requires within { EachIn IsWithin order.now }
    ensures bound { result ≤ length order.now }
    ensures before { (k : ℕ) (x : Listed) → k < result → slice_get order.now k ≡ Some x → slice_cmp nat_cmp (piece_text x) (piece_text piece.now) ≡ Less }
    ensures here { (x : Listed) → slice_get order.now result ≡ Some x → slice_cmp nat_cmp (piece_text x) (piece_text piece.now) ≢ Less }
{
    for i in 0..order.len() {
        match order[i].as_slice().cmp(piece.as_slice()) {
            Ordering::Less => {}
            _ => return i,
        }
    }
    order.len()
}

/// Whether the piece at this place has the same text, if there is one.
fn is_at(order: &[Piece], at: usize, piece: &Piece) -> bool
    requires piece { IsWithin piece.now }
    requires within { EachIn IsWithin order.now }
    ensures { IsTrue result ↔ ((x : Listed) × (slice_get order.now at ≡ Some x) × (piece_text x ≡ piece_text piece.now)) }
{
    if at >= order.len() {
        return false;
    }
    order[at].as_slice() == piece.as_slice()
}
