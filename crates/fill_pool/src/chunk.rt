//! One block of memory, filled from its front.
ghost use Rattle.std.specs.Prelude.{◌≡◌, ◌+◌, ◌≤◌, [], ◌∷◌, ◌++◌, length, take, IfOk, slice_range};
ghost use Rattle.fill_pool.specs.Chunk.{held, size};

use crate::block::{Lease, Start, Store, give_back, take_block};
use fill_text::NoMemory;
use std::alloc::Global;
use std::fmt::{self, Debug, Formatter, Write};
use std::marker::Model;
use std_alloc::room::may_hold;

/// Items side by side, and room for more behind them. It never moves, and never gets larger.
///
/// Contracts see the items, and how many it can hold. An item that is let go is not dropped: items come by `fill`
/// alone, so their type is `Copy`.
pub(crate) struct Chunk<T> {
    start: Start<T>,
    room: usize,
    count: usize,
    store: Store<T>,
    lease: Lease<T, Global>,
    alloc: Global,
}

impl<T> Model for Chunk<T> {
    ghost use Rattle.std.specs.Prelude.{ℕ, List};

    ghost Value = { List T × ℕ };

    ghost use Rattle.fill_pool.specs.Held.{IsOneBlock};

    ghost view = { λ c. (c.store.items, c.room) };

    ghost invariant = { λ c. IsOneBlock c.start c.store c.lease c.alloc c.room c.count };
}

impl<T: Drop> Drop for Chunk<T> {
    fn drop(mut self) {
        self.keep(0);
        let Chunk {
            start,
            room,
            count: _,
            store,
            lease,
            alloc,
        } = self;
        give_back(&alloc, start, room, store, lease);
    }
}

impl<T: Debug> Debug for Chunk<T> {
    fn fmt<W: Write>(&self, f: &mut Formatter<W>) -> fmt::Result {
        Debug::fmt(self.part(0, self.count), f)
    }
}

impl<T> Chunk<T> {
    /// A chunk without items, with room for `room` of them.
    pub(crate) fn with_room(alloc: Global, room: usize) -> Result<Chunk<T>, NoMemory>
        ensures { IfOk result (λ chunk. (held chunk ≡ []) × (size chunk ≡ room)) }
    {
        if !may_hold::<T>(room) {
            return Err(NoMemory);
        }
        let (start, store, lease) = take_block(&alloc, room)?;
        Ok(Chunk {
            start,
            room,
            count: 0,
            store,
            lease,
            alloc,
        })
    }

    /// How many items there are.
    pub(crate) fn len(&self) -> usize
        ensures { result ≡ length (held self.now) }
    {
        self.count
    }

    /// How many more it takes.
    pub(crate) fn room(&self) -> usize
        ensures { length (held self.now) + result ≡ size self.now }
    {
        self.room - self.count
    }

    /// The items from one number up to another.
    pub(crate) fn part(&self, from: usize, to: usize) -> &[T]
        requires order { from ≤ to }
        requires within { to ≤ length (held self.now) }
        ensures { result.now ≡ slice_range (held self.now) from to }
    {
        self.store.lend(self.start, from, to - from)
    }

    /// Forgets all items but the first ones.
    pub(crate) fn keep(&mut self, count: usize)
        ensures items { held self.new ≡ take count (held self.old) }
        ensures size { size self.new ≡ size self.old }
    {
        if count < self.count {
            self.count = count;
            self.store.forget(count);
        }
    }
}

impl<T: Copy> Chunk<T> {
    /// Puts the items behind those that are there, and tells how many there are then.
    pub(crate) fn fill(&mut self, items: &[T]) -> usize
        requires { length (held self.old) + length items.now ≤ size self.old }
        ensures items { held self.new ≡ held self.old ++ items.now }
        ensures end { result ≡ length (held self.new) }
        ensures size { size self.new ≡ size self.old }
    {
        for i in 0..items.len() {
            self.push(items[i]);
        }
        self.len()
    }

    /// Puts one item behind those that are there.
    fn push(&mut self, item: T)
        requires { length (held self.old) + 1 ≤ size self.old }
        ensures items { held self.new ≡ held self.old ++ item ∷ [] }
        ensures size { size self.new ≡ size self.old }
    {
        self.store.put(self.start, self.count, item);
        self.count += 1;
    }
}
