//! Files in memory, which tell everything.
ghost use Rattle.std.specs.Prelude.{◌≡◌, ◌≢◌, ℕ, List, ◌∷◌, ◌++◌, ◌↔◌, ◌<◌, ◌≤◌, [], min, length, take, drop, option_map, Contains, IfOk, OnOk, OnErr, IsErrOf};
ghost use Rattle.std.specs.Str.{bytes_eq};
ghost use Rattle.fill_edge.specs.Outside.{counted, GivesPiece};
ghost use Rattle.fill_edge.specs.Memory.{held, rest_from, after_read};

use crate::outside::LAST_PLACE;
use crate::{Cabinet, ReadRefusal};
use fill_text::NoMemory;
use std::alloc::Global;
use std::marker::Model;

#[derive(Drop)]
struct File {
    name: String,
    bytes: Vec<u8>,
}

impl Model for File {
    ghost use Rattle.std.specs.Prelude.{ℕ, List, string_bytes};

    ghost Value = { List ℕ × List ℕ };

    ghost view = { λ file. (string_bytes file.name, file.bytes.items) };
}

impl File {
    fn new(alloc: Global, name: &str, bytes: &[u8]) -> Result<File, NoMemory>
        ensures { IfOk result (λ file. file ≡ (name.now, bytes.now)) }
    {
        Ok(File {
            name: String::from_str(alloc, name)?,
            bytes: bytes.to_vec(alloc)?,
        })
    }

    fn is_named(&self, name: &str) -> bool
        ensures { result ≡ bytes_eq self.now.0 name.now }
    {
        self.name.as_str() == name
    }

    fn bytes(&self) -> &[u8]
        ensures { result.now ≡ self.now.1 }
    {
        &self.bytes
    }
}

/// Files in memory, for tests and for files that are made on the way.
///
/// A read gives at most `most` bytes, so that a small number shows what many short reads do. The
/// one count of faults is that of every name.
#[derive(Drop)]
pub struct MemoryCabinet {
    alloc: Global,
    files: Vec<File>,
    failing: Vec<u64>,
    calls: u64,
    faults: u64,
    given: u64,
    most: usize,
}

impl Model for MemoryCabinet {
    ghost use Rattle.std.specs.Prelude.{◌<◌};
    ghost use Rattle.fill_edge.specs.Memory.{Shelf};

    ghost Value = { Shelf };

    ghost view = { λ cabinet. record { files = cabinet.files.items; failing = cabinet.failing.items; calls = cabinet.calls; faults = cabinet.faults; given = cabinet.given; most = cabinet.most } };

    ghost invariant = { λ cabinet. 0 < cabinet.most };
}

impl MemoryCabinet {
    /// No files, and no call that is set to fail.
    pub fn new(alloc: Global, most: usize) -> MemoryCabinet
        requires { 0 < most }
        ensures { result ≡ record { files = []; failing = []; calls = 0; faults = 0; given = 0; most = most } }
    {
        MemoryCabinet {
            alloc,
            files: Vec::new(alloc),
            failing: Vec::new(alloc),
            calls: 0,
            faults: 0,
            given: 0,
            most,
        }
    }

    /// Sets a file. One of the same name that was put before is no longer seen.
    pub fn put(&mut self, name: &str, bytes: &[u8]) -> Result<(), NoMemory>
        ensures ok { OnOk result (self.new ≡ record self.old { files = (name.now, bytes.now) ∷ self.old.files }) }
        ensures seen { OnOk result (held self.new.files name.now ≡ Some bytes.now) }
        ensures others { OnOk result ((other : List ℕ) → other ≢ name.now → held self.new.files other ≡ held self.old.files other) }
        ensures err { OnErr result (self.new ≡ self.old) }
    {
        let file = File::new(self.alloc, name, bytes)?;
        self.files.insert(0, file)?;
        Ok(())
    }

    /// Makes the read of this number fail. Reads count from 1.
    pub fn fail_at(&mut self, call: u64) -> Result<(), NoMemory>
        ensures ok { OnOk result (self.new ≡ record self.old { failing = self.old.failing ++ call ∷ [] }) }
        ensures err { OnErr result (self.new ≡ self.old) }
    {
        self.failing.push(call)?;
        Ok(())
    }
}

impl Cabinet for MemoryCabinet {
    ghost use Rattle.std.specs.Prelude.{Some};
    ghost use Rattle.fill_edge.specs.Memory.{held};

    ghost files = { λ shelf. Some (λ name. held shelf.files name) };

    ghost faults = { λ shelf name. shelf.faults };

    ghost given = { λ shelf. shelf.given };

    /// A read fails exactly where its number was set to fail, and else misses its file exactly
    /// where there is none. It gives as many bytes as `most`, the buffer and the file allow.
    fn read(&mut self, name: &str, at: u64, buf: &mut [u8]) -> Result<usize, ReadRefusal>
        requires room { 0 < length buf.old }
        requires place { at ≤ LAST_PLACE }

        ensures bound { IfOk result (λ n. n ≤ length buf.old) }
        ensures piece { IfOk result (λ n. GivesPiece (Some (λ x. held self.old.files x)) name.now at n buf.new) }
        ensures count { IfOk result (λ n. n ≡ min (min (length (rest_from (held self.old.files name.now) at)) self.old.most) (length buf.old)) }
        ensures after { self.new ≡ after_read self.old result }
        ensures grew { self.old.given ≤ self.new.given }
        ensures later { self.old.faults ≤ self.new.faults }

        ensures failed { IsErrOf result ReadRefusal.Failed ↔ Contains self.old.failing (counted self.old.calls 1) }
        ensures missing { IsErrOf result ReadRefusal.Missing ↔ (held self.old.files name.now ≡ None) × (¬ Contains self.old.failing (counted self.old.calls 1)) }
    {
        self.calls = self.calls.saturating_add(1);
        if self.failing.contains(&self.calls) {
            self.faults = self.faults.saturating_add(1);
            return Err(ReadRefusal::Failed);
        }
        let Some(file) = find(&self.files, name) else {
            return Err(ReadRefusal::Missing);
        };
        let count = copy_piece(file, at as usize, self.most, buf);
        self.given = self.given.saturating_add(count as u64);
        Ok(count)
    }
}

/// The bytes of the first file of this name.
fn find<'a>(files: &'a [File], name: &str) -> Option<&'a [u8]>
    ensures { option_map (λ bytes. bytes.now) result ≡ held files.now name.now }
{
    let file = files.iter().find(|file| file.is_named(name))?;
    Some(file.bytes())
}

/// Copies bytes of a file from a place on into the buffer, at most `most` of them.
fn copy_piece(file: &[u8], at: usize, most: usize, buf: &mut [u8]) -> usize
    ensures count { result ≡ min (min (length (drop at file.now)) most) (length buf.old) }
    ensures piece { take result buf.new ≡ take result (drop at file.now) }
{
    if at >= file.len() {
        return 0;
    }
    let (_, rest) = file.split_at(at);
    let count = rest.len().min(most).min(buf.len());
    let (piece, _) = rest.split_at(count);
    buf[..count].copy_from_slice(piece);
    count
}

#[cfg(test)]
mod tests {
    use super::MemoryCabinet;
    use crate::{Cabinet, ReadRefusal};
    use std::test::Fail;

    #[test]
    fn counts_stand_still_at_their_last_value(rt: HostRuntime) -> Result<(), Fail> {
        let mut cabinet = MemoryCabinet::new(rt.alloc(), 4);
        cabinet.put("é", b"abc")?;
        cabinet.fail_at(1)?;
        cabinet.faults = u64::MAX;
        cabinet.given = u64::MAX - 1;
        let mut buf = [0u8; 4];
        assert_eq!(rt; cabinet.read("é", 0, &mut buf), Err(ReadRefusal::Failed));
        assert_eq!(rt; cabinet.read("é", 0, &mut buf), Ok(3));
        assert_eq!(rt; cabinet.faults, u64::MAX);
        assert_eq!(rt; cabinet.given, u64::MAX);
        Ok(())
    }
}
