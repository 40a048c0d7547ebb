//! The raw memory of a chunk.
//!
//! All that touches a raw pointer stands here: six small functions, whose proofs follow them step by step.
ghost use Rattle.std.specs.Prelude.{◌≡◌, ℕ, ◌+◌, ◌-◌, ◌<◌, ◌≤◌, List, [], ◌∷◌, ◌++◌, length, take, drop, IfOk, ⊤};
ghost use Rattle.std.specs.Vec.Ownership.{FitsInBlock};
ghost use base.Fml.{ftrue};
ghost use denote.RawPtr.{Ptr};
ghost use Rattle.fill_pool.specs.Ownership.{owns_store, lends_store, owns_lease};

use std::alloc::{AllocError, Allocator};
use std::marker::{Model, PhantomData};
use std::mem::{align_of, size_of};
use std::slice;

/// Where a block begins. It owns nothing.
pub(crate) struct Start<T> {
    at: *mut T,
}

impl<T> Clone for Start<T> {
    ghost is_clone = { λ x y. y ≡ x };

    ghost is_infallible = { λ _. ⊤ };

    fn clone(&self) -> Result<Start<T>, AllocError> {
        Ok(*self)
    }
}

impl<T> Copy for Start<T> {}

/// The items of a block, side by side from its start, and the room behind them, for `free` more. It takes no memory.
pub(crate) struct Store<T> {
    mark: PhantomData<*const T>,
    ghost at: { Ptr },
    ghost items: { List T },
    ghost free: { ℕ },
}

impl<T> Model for Store<T> {
    ghost also_owns = { λ s. owns_store T.row s.at s.items s.free };

    ghost also_shares = { λ s _ κ. lends_store T.row s.at s.items s.free κ };
}

/// The right to give a block of `room` places back to its allocator. It takes no memory.
pub(crate) struct Lease<T, A: Allocator> {
    mark: PhantomData<*const (T, A)>,
    ghost at: { Ptr },
    ghost room: { ℕ },
    ghost alloc: { A },
}

impl<T, A: Allocator> Model for Lease<T, A> {
    ghost also_owns = { λ l. owns_lease T.row (A.dealloc_token l.alloc) l.at l.room };

    ghost also_shares = { λ _ _ _. ftrue };
}

/// A block without items, with room for `room` of them.
pub(crate) fn take_block<T, A: Allocator>(
    alloc: &A,
    room: usize,
) -> Result<(Start<T>, Store<T>, Lease<T, A>), AllocError>
    requires { FitsInBlock T.row room }
    ensures { IfOk result (λ r. (r.1.at ≡ r.0.at) × (r.1.items ≡ []) × (r.1.free ≡ room) × (r.2.at ≡ r.0.at) × (r.2.room ≡ room) × (r.2.alloc ≡ alloc.now)) }
{
    match alloc.allocate(room * size_of::<T>(), align_of::<T>()) {
        Ok(block) => {
            let start = Start {
                at: block as *mut T,
            };
            Ok((
                start,
                Store { mark: PhantomData },
                Lease { mark: PhantomData },
            ))
        }
        Err(error) => Err(error),
    }
}

/// Gives a block without items back.
pub(crate) fn give_back<T, A: Allocator>(
    alloc: &A,
    start: Start<T>,
    room: usize,
    store: Store<T>,
    lease: Lease<T, A>,
)
    requires { (store.at ≡ start.at) × (store.items ≡ []) × (store.free ≡ room) × (lease.at ≡ start.at) × (lease.room ≡ room) × (lease.alloc ≡ alloc.now) }
{
    let Store { mark: _ } = store;
    let Lease { mark: _ } = lease;
    unsafe {
        alloc.deallocate(start.at as *mut u8, room * size_of::<T>(), align_of::<T>());
    }
}

impl<T> Store<T> {
    /// Puts an item behind the others, of which there are `count`.
    pub(crate) fn put(&mut self, start: Start<T>, count: usize, item: T)
        requires { (start.at ≡ self.old.at) × (count ≡ length self.old.items) × (0 < self.old.free) }
        ensures { (self.new.at ≡ self.old.at) × (self.new.items ≡ self.old.items ++ item ∷ []) × (self.new.free + 1 ≡ self.old.free) }
    {
        unsafe { start.at.add(count).write(item) }
    }

    /// So many items from one on.
    pub(crate) fn lend(&self, start: Start<T>, from: usize, count: usize) -> &[T]
        requires { (start.at ≡ self.now.at) × (from + count ≤ length self.now.items) }
        ensures { result.now ≡ take count (drop from self.now.items) }
    {
        unsafe { slice::from_raw_parts(start.at.add(from), count) }
    }

    /// Forgets all items but the first ones, whose places are room again. It does nothing.
    pub(crate) fn forget(&mut self, _kept: usize)
        ensures { (self.new.at ≡ self.old.at) × (self.new.items ≡ take _kept self.old.items) × (length self.new.items + self.new.free ≡ length self.old.items + self.old.free) }
    {}
}
