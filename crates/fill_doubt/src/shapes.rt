//! What was found of the shapes of texts, kept from row to row.
ghost use Rattle.std.specs.Prelude.{◌≡◌, ◌++◌, ◌∷◌, [], List as Items, IfOk, IfSome, OnOk};
ghost use Rattle.fill_arena.specs.declared.entry.Entry.{Entry as Kept};
ghost use Rattle.fill_doubt.specs.Shapes.{IsReadAt, KeepsReads, ShapesStand};

use crate::read::Read;
use fill_text::{NoMemory, Text};
use std::alloc::Global;

/// How many shapes are kept from row to row at most.
const MOST: usize = 128;

/// How many characters the kept shapes may have together. Shapes of usual cells have some ten each.
const LONGEST: usize = 16_384;

/// What was found of the shapes of texts, kept from row to row. It is of one arena: what was found of a set is used
/// wherever the set is asked for again.
#[derive(Drop)]
pub struct Shapes {
    pub(crate) reads: Vec<Read>,
    /// How many characters the shapes have together.
    size: usize,
}

impl Shapes {
    /// Where nothing was found yet. This takes no memory.
    pub fn new(alloc: Global) -> Shapes
        ensures { (c : Items Kept) → ShapesStand c result }
    {
        Shapes {
            reads: Vec::new(alloc),
            size: 0,
        }
    }

    /// Forgets all shapes where they are too many or too long, so that memory stays bounded and a search short. Each row
    /// begins with it, so what is found on a row stays until its end.
    pub(crate) fn make_room(&mut self, alloc: Global)
        ensures { (c : Items Kept) → ShapesStand c self.old → ShapesStand c self.new }
    {
        if self.reads.len() < MOST && self.size < LONGEST {
            return;
        }
        self.reads = Vec::new(alloc);
        self.size = 0;
    }

    fn find(&self, w: &Text) -> Option<usize>
        ensures { IfSome result (IsReadAt self.now w.now) }
    {
        for i in 0..self.reads.len() {
            if self.reads[i].text.same(w) {
                return Some(i);
            }
        }
        None
    }

    /// The number of the shape with this text.
    pub(crate) fn number_of(&mut self, alloc: Global, w: &Text) -> Result<usize, NoMemory>
        ensures stand { OnOk result ((c : Items Kept) → ShapesStand c self.old → ShapesStand c self.new) }
        ensures kept { OnOk result (KeepsReads self.old self.new) }
        ensures there { IfOk result (IsReadAt self.new w.now) }
    {
        if let Some(n) = self.find(w) {
            return Ok(n);
        }
        self.add(alloc, w)
    }

    fn add(&mut self, alloc: Global, w: &Text) -> Result<usize, NoMemory>
        ensures stand { OnOk result ((c : Items Kept) → ShapesStand c self.old → ShapesStand c self.new) }
        ensures kept { OnOk result (KeepsReads self.old self.new) }
        ensures there { IfOk result (IsReadAt self.new w.now) }
    {
        let read = Read::new(alloc, w.copy()?)?;
        let n = self.reads.len();
        put_read(&mut self.reads, read)?;
        self.size = self.size.saturating_add(w.len());
        Ok(n)
    }
}

fn put_read(reads: &mut Vec<Read>, read: Read) -> Result<(), NoMemory>
    ensures { OnOk result (reads.new.items ≡ reads.old.items ++ read ∷ []) }
{
    match reads.push(read) {
        Ok(()) => Ok(()),
        Err(_) => Err(NoMemory),
    }
}
