//! How long a file is.
ghost use Rattle.std.specs.Prelude.{◌≡◌, ◌≤◌, ℕ, length, IfOk, IsErrOf, replicate};
ghost use Rattle.fill_edge.specs.Outside.{Rose, NoneFell, NoneChanged, IsMissing, IsTooLong};
ghost use Rattle.fill_passes.specs.Files.{HasSize};

use fill_edge::{Cabinet, LAST_PLACE, ReadError};
use fill_text::NoMemory;
use std::alloc::Global;

/// The most bytes that one read asks for.
const CHUNK: usize = 65_536;

/// How many bytes a file has, at most `limit`. They are read to the end once, and not kept.
pub fn measure<C: Cabinet>(
    alloc: Global,
    cabinet: &mut C,
    name: &str,
    limit: usize,
) -> Result<usize, ReadError>
    requires { limit ≤ LAST_PLACE }

    ensures size { IfOk result (HasSize (C.files cabinet.old) name.now) }
    ensures fits { IfOk result (λ n. n ≤ limit) }

    ensures files { C.files cabinet.new ≡ C.files cabinet.old }
    ensures later { NoneFell (C.faults cabinet.old) (C.faults cabinet.new) }

    ensures unfailed { ¬ IsErrOf result ReadError.ReadFault → NoneChanged (C.faults cabinet.old) (C.faults cabinet.new) }
    ensures fault { IsErrOf result ReadError.ReadFault → Rose (C.faults cabinet.old name.now) (C.faults cabinet.new name.now) }
    ensures missing { IsErrOf result ReadError.Missing → IsMissing (C.files cabinet.old) name.now }
    ensures too_long { (n : ℕ) → IsErrOf result (ReadError.TooLong n) → (n ≡ limit) × IsTooLong (C.files cabinet.old) name.now limit }
{
    let mut buffer = zeros(alloc, CHUNK)?;
    let room = buffer.as_mut_slice();
    let mut done = 0;
    loop {
        let count = cabinet.read(name, done as u64, room)?;
        if count == 0 {
            return Ok(done);
        }
        if count > limit - done {
            return Err(ReadError::TooLong { limit });
        }
        done += count;
    }
}

/// A buffer of this many bytes, on the heap.
pub(crate) fn zeros(alloc: Global, size: usize) -> Result<Vec<u8>, NoMemory>
    ensures items { IfOk result (λ buffer. buffer.items ≡ replicate size 0) }
    ensures size { IfOk result (λ buffer. length buffer.items ≡ size) }
{
    let buffer = vec![in alloc; 0u8; size]?;
    Ok(buffer)
}
