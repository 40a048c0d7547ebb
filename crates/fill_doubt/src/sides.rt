//! Sequences that were looked for in a text.
ghost use Rattle.std.specs.Prelude.{◌≡◌, ◌<◌, ◌++◌, ◌∷◌, [], length, IsTrue, IfOk, IfSome, OnOk};
ghost use Rattle.fill_doubt.specs.Cuts.{HasAt};

use fill_text::NoMemory;
use fill_tokens::{Seq, TOKEN_COUNT};
use std::alloc::Global;
use std::cmp::Ordering;

/// A sequence, and the positions of a text in order at which it stands.
#[derive(Drop)]
pub(crate) struct Side {
    pub(crate) seq: Seq,
    pub(crate) positions: Vec<usize>,
}

/// How many hints are kept.
const HINTS: usize = 512;

/// The sequences before positions, or those after them. Where a sequence stands in the list is guessed: it is often the one
/// that was asked for last or the next one, and else a hint tells by its code which one it may be. Hints of two sequences
/// may be the same; then the one that was put first is looked for again, which costs time alone.
#[derive(Drop)]
pub(crate) struct Sides {
    pub(crate) sides: Vec<Side>,
    hints: Vec<usize>,
    last: usize,
}

/// Whether the sequences are the same.
pub(crate) fn are_same(a: &Seq, b: &Seq) -> bool
    ensures { IsTrue result → a.now ≡ b.now }
{
    match a.compare(b) {
        Ordering::Equal => true,
        _ => false,
    }
}

fn number_at(seq: &Seq, i: usize) -> u32
    requires { i < length seq.now }
    ensures { result < 256 }
{
    u32::from(seq.token(i).number())
}

/// The place of the sequence's hint.
fn slot_of(seq: &Seq) -> usize {
    let radix = TOKEN_COUNT as u32;
    let code = match seq.len() {
        0 => 0,
        1 => number_at(seq, 0),
        2 => number_at(seq, 0) * radix + number_at(seq, 1),
        _ => (number_at(seq, 0) * radix + number_at(seq, 1)) * radix + number_at(seq, 2),
    };
    code as usize % HINTS
}

fn keep_hint(alloc: Global, hints: &mut Vec<usize>, slot: usize, i: usize) -> Result<(), NoMemory> {
    if hints.len() == 0 {
        *hints = vec![in alloc; 0; HINTS]?;
    }
    if slot < hints.len() {
        hints[slot] = i;
    }
    Ok(())
}

impl Sides {
    /// No sequence.
    pub(crate) fn new(alloc: Global) -> Sides
        ensures { result.sides.items ≡ [] }
    {
        Sides {
            sides: Vec::new(alloc),
            hints: Vec::new(alloc),
            last: 0,
        }
    }

    /// Whether the sequence is the one at this place.
    fn has_at(&self, i: usize, seq: &Seq) -> bool
        ensures { IsTrue result → HasAt self.now seq.now i }
    {
        if i >= self.sides.len() {
            return false;
        }
        are_same(&self.sides[i].seq, seq)
    }

    /// Which one of them is the sequence, if it is the last one that was asked for or the next one.
    fn find_near(&self, seq: &Seq) -> Option<usize>
        ensures { IfSome result (HasAt self.now seq.now) }
    {
        let last = self.last;
        if self.has_at(last, seq) {
            return Some(last);
        }
        if last >= self.sides.len() {
            return None;
        }
        let next = last + 1;
        if !self.has_at(next, seq) {
            return None;
        }
        Some(next)
    }

    /// Which one of them is the sequence, where it was looked for already.
    fn find(&self, seq: &Seq) -> Option<usize>
        ensures { IfSome result (HasAt self.now seq.now) }
    {
        if let Some(i) = self.find_near(seq) {
            return Some(i);
        }
        let i = *self.hints.get(slot_of(seq))?;
        if !self.has_at(i, seq) {
            return None;
        }
        Some(i)
    }

    /// Which one of them is the sequence, where it was looked for already; it is the one that was asked for last then.
    pub(crate) fn ask(&mut self, seq: &Seq) -> Option<usize>
        ensures kept { self.new.sides ≡ self.old.sides }
        ensures there { IfSome result (HasAt self.new seq.now) }
    {
        let i = self.find(seq)?;
        self.last = i;
        Some(i)
    }

    /// Puts the sequence to the list, and gives its place.
    pub(crate) fn put(
        &mut self,
        alloc: Global,
        seq: &Seq,
        positions: Vec<usize>,
    ) -> Result<usize, NoMemory>
        ensures more { OnOk result (self.new.sides.items ≡ self.old.sides.items ++ (record { seq = seq.now; positions = positions }) ∷ []) }
        ensures there { IfOk result (HasAt self.new seq.now) }
    {
        let i = self.sides.len();
        self.sides.push(Side {
            seq: *seq,
            positions,
        })?;
        keep_hint(alloc, &mut self.hints, slot_of(seq), i)?;
        self.last = i;
        Ok(i)
    }
}
