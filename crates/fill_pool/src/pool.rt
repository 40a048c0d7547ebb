//! The pool.
ghost use Rattle.std.specs.Prelude.{◌≡◌, ◌+◌, ◌<◌, ◌≤◌, [], ◌∷◌, ◌++◌, length, take, IfOk, OnOk, OnErr, Some, slice_index_or};
ghost use Rattle.fill_pool.specs.Pool.{HasRoom};

use crate::chunk::Chunk;
use crate::numbers::{PoolMark, Span};
use fill_text::NoMemory;
use std::alloc::Global;
use std::marker::Model;

/// The room of a chunk, where no slice needs more.
const ROOM: usize = 1024;

/// Where a slice lies: its chunk, and the items of it from one number up to another.
#[derive(Clone, Copy, Debug)]
struct Extent {
    chunk: usize,
    from: usize,
    to: usize,
}

/// A list of slices, which contracts see as such.
#[derive(Debug, Drop)]
pub struct Pool<T> {
    chunks: Vec<Chunk<T>>,
    extents: Vec<Extent>,
}

impl<T> Model for Pool<T> {
    ghost use Rattle.std.specs.Prelude.{List};

    ghost Value = { List (List T) };

    ghost use Rattle.fill_pool.specs.Pool.{AreLaid, all_held, slices_of};

    ghost view = { λ pool. slices_of (all_held pool.chunks.items) pool.extents.items };

    ghost invariant = { λ pool. AreLaid (all_held pool.chunks.items) pool.extents.items };
}

impl<T> Pool<T> {
    /// A pool without slices, which takes no memory.
    pub fn new(alloc: Global) -> Pool<T>
        ensures { result ≡ [] }
    {
        Pool {
            chunks: Vec::new(alloc),
            extents: Vec::new(alloc),
        }
    }

    /// How many slices there are.
    pub fn len(&self) -> usize
        ensures { result ≡ length self.now }
    {
        self.extents.len()
    }

    /// A slice, which is not copied.
    pub fn slice(&self, span: Span) -> &[T]
        requires { span < length self.now }
        ensures { result.now ≡ slice_index_or self.now span [] }
    {
        let extent = self.extents[span.index()];
        self.chunks[extent.chunk].part(extent.from, extent.to)
    }

    /// A mark to cut back to.
    pub fn mark(&self) -> PoolMark
        ensures { result ≡ length self.now }
    {
        PoolMark::at(self.extents.len())
    }
}

impl<T: Copy> Pool<T> {
    /// Adds a slice at the end of the list.
    ///
    /// It takes at most one chunk, and none where the slice fits behind the last one.
    pub fn append(&mut self, items: &[T]) -> Result<Span, NoMemory>
        ensures ok { IfOk result (λ span. (span ≡ length self.old) × (self.new ≡ self.old ++ items.now ∷ [])) }
        ensures err { OnErr result (self.new ≡ self.old) }
    {
        self.extents.reserve(1)?;
        let chunk = with_room(&mut self.chunks, items.len())?;
        let from = self.chunks[chunk].len();
        let to = self.chunks[chunk].fill(items);
        let number = self.extents.len();
        self.extents.push_reserved(Extent { chunk, from, to });
        Ok(Span::at(number))
    }

    /// Takes away the slices that came after the mark, and frees the chunks that lie wholly past it.
    pub fn cut(&mut self, mark: PoolMark)
        requires { mark ≤ length self.old }
        ensures { self.new ≡ take mark self.old }
    {
        let count = mark.count();
        self.extents.truncate(count);
        if count == 0 {
            self.chunks.clear();
            return;
        }
        let last = self.extents[count - 1];
        self.chunks.truncate(last.chunk + 1);
        self.chunks[last.chunk].keep(last.to);
    }
}

/// The number of the last chunk, which has room for `count` items more: a new one where they do not fit into the old one.
fn with_room<T: Drop>(chunks: &mut Vec<Chunk<T>>, count: usize) -> Result<usize, NoMemory>
    ensures ok { OnOk result (HasRoom chunks.old.items chunks.new.items count) }
    ensures last { IfOk result (λ last. last + 1 ≡ length chunks.new.items) }
    ensures err { OnErr result (chunks.new.items ≡ chunks.old.items) }
{
    if let Some(last) = chunks.last() {
        if count <= last.room() {
            return Ok(chunks.len() - 1);
        }
    }
    let number = chunks.len();
    chunks.reserve(1)?;
    let fresh = Chunk::with_room(*chunks.allocator(), count.max(ROOM))?;
    chunks.push_reserved(fresh);
    Ok(number)
}
