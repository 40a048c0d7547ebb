//! Reading a whole file.
ghost use Rattle.std.specs.Prelude.{◌≡◌, ◌<◌, ◌≤◌, ℕ, length, IfOk, IsErrOf, replicate};
ghost use Rattle.fill_edge.specs.Outside.{Rose, RoseBeyond, counted, NoneFell, NoneChanged, IsFile, IsMissing, IsTooLong};
ghost use Rattle.fill_edge.specs.Reading.{read_error};
ghost use Rattle.fill_edge.specs.declared.reading.ReadError.TheVariants as error;

use crate::outside::LAST_PLACE;
use crate::{Cabinet, ReadRefusal};
use fill_text::{List, NoMemory};
use std::alloc::Global;
use thiserror::Error;

/// Why a file was not read.
#[derive(Clone, Copy, Debug, PartialEq, Eq, Error)]
pub enum ReadError {
    /// A read of the file failed, and the cabinet counted it.
    #[error("the file was not read")]
    ReadFault,
    /// The cabinet tells its files, and the name is not among them.
    #[error("no such file")]
    Missing,
    /// The file has more than `limit` bytes.
    #[error("the file has more than {limit} bytes")]
    TooLong { limit: usize },
    /// Out of memory.
    #[error("out of memory")]
    NoMemory,
}

impl From<ReadRefusal> for ReadError {
    ghost from_gives = { λ refusal e. e ≡ read_error refusal };

    fn from(refusal: ReadRefusal) -> ReadError {
        match refusal {
            ReadRefusal::Failed => ReadError::ReadFault,
            ReadRefusal::Missing => ReadError::Missing,
        }
    }
}

impl From<NoMemory> for ReadError {
    ghost from_gives = { λ _ e. e ≡ error.NoMemory };

    fn from(_refused: NoMemory) -> ReadError {
        ReadError::NoMemory
    }
}

/// The most bytes that one read asks for. An outside cabinet may open the file at each read, so
/// that few large reads are cheap.
const CHUNK: usize = 65_536;

/// The whole file, of at most `limit` bytes. No more than that is kept of a longer one.
///
/// After memory ran out the cabinet has given what was read so far.
pub fn read_all<C: Cabinet>(
    alloc: Global,
    cabinet: &mut C,
    name: &str,
    limit: usize,
) -> Result<List<u8>, ReadError>
    requires { limit ≤ LAST_PLACE }

    ensures whole { IfOk result (λ bytes. IsFile (C.files cabinet.old) name.now bytes) }
    ensures fits { IfOk result (λ bytes. length bytes ≤ limit) }
    ensures given { IfOk result (λ bytes. C.given cabinet.new ≡ counted (C.given cabinet.old) (length bytes)) }

    ensures files { C.files cabinet.new ≡ C.files cabinet.old }
    ensures later { NoneFell (C.faults cabinet.old) (C.faults cabinet.new) }
    ensures grew { C.given cabinet.old ≤ C.given cabinet.new }

    ensures unfailed { ¬ IsErrOf result ReadError.ReadFault → NoneChanged (C.faults cabinet.old) (C.faults cabinet.new) }
    ensures fault { IsErrOf result ReadError.ReadFault → Rose (C.faults cabinet.old name.now) (C.faults cabinet.new name.now) }
    ensures missing { IsErrOf result ReadError.Missing → IsMissing (C.files cabinet.old) name.now }
    ensures unchanged { IsErrOf result ReadError.Missing → NoneChanged (C.faults cabinet.old) (C.faults cabinet.new) × (C.given cabinet.new ≡ C.given cabinet.old) }
    ensures too_long { (n : ℕ) → IsErrOf result (ReadError.TooLong n) → (n ≡ limit) × IsTooLong (C.files cabinet.old) name.now limit × RoseBeyond (C.given cabinet.old) (C.given cabinet.new) limit }
{
    let mut bytes = List::new(alloc);
    let mut buffer = zeros(alloc, CHUNK.min(limit + 1))?;
    let room = buffer.as_mut_slice();
    loop {
        let count = cabinet.read(name, bytes.len() as u64, room)?;
        if count == 0 {
            return Ok(bytes);
        }
        if count > limit - bytes.len() {
            return Err(ReadError::TooLong { limit });
        }
        let (piece, _) = room.split_at(count);
        bytes.append(piece)?;
    }
}

/// A buffer of this many bytes, on the heap.
fn zeros(alloc: Global, size: usize) -> Result<Vec<u8>, NoMemory>
    ensures { IfOk result (λ buffer. buffer.items ≡ replicate size 0) }
{
    let buffer = vec![in alloc; 0u8; size]?;
    Ok(buffer)
}
