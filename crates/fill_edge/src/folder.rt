//! The real files, of which nothing is told but counts.
ghost use Rattle.std.specs.Prelude.{◌≡◌, ◌≢◌, ◌<◌, ◌≤◌, length, IfOk, IfErr, OnErr, IsErrOf, Some};
ghost use Rattle.std.specs.IoError.{error_kind};
ghost use Rattle.std.specs.Io.Cursor.{cursor_inner};
ghost use Rattle.fill_edge.specs.Outside.{IsPieceOf};
ghost use Rattle.fill_edge.specs.Real.{counts_after, IsPlaced, GivesFrom, GivesOfFile};

use crate::interruption::is_interrupted;
use crate::outside::LAST_PLACE;
use crate::{Cabinet, ReadRefusal};
use std::alloc::Global;
use std::io::{ErrorKind, Read, Seek, SeekFrom};
use std::marker::Model;
use std::rt::Files;
use std::{fs, io};

/// The files of the system, a name being a path from the current folder on.
///
/// The file that was read last stays open until another name is read or a read fails. Whatever the
/// system refuses is a counted fault, also a file that is not there, so that no read answers
/// `Missing`; only where it is interrupted is a read made again, from the opening on.
#[derive(Drop)]
pub struct FolderCabinet<R: Files + Drop> {
    files: OpenFiles<R>,
    faults: u64,
    given: u64,
}

impl<R: Files + Drop> Model for FolderCabinet<R> {
    ghost use Rattle.fill_edge.specs.Real.{Counts};

    ghost Value = { Counts };

    ghost view = { λ cabinet. record { faults = cabinet.faults; given = cabinet.given } };
}

impl<R: Files + Drop> FolderCabinet<R> {
    /// The files that this runtime opens.
    pub fn new(alloc: Global, rt: R) -> FolderCabinet<R>
        ensures { result ≡ record { faults = 0; given = 0 } }
    {
        FolderCabinet {
            files: OpenFiles {
                alloc,
                rt,
                last: None,
            },
            faults: 0,
            given: 0,
        }
    }

    /// Counts what the system answered, an interruption being no answer.
    fn count(&mut self, answer: io::Result<usize>) -> Result<usize, ReadRefusal>
        requires { IfErr answer (λ e. error_kind e ≢ ErrorKind.Interrupted) }
        ensures given { IfOk answer (λ n. result ≡ Ok n) }
        ensures refused { OnErr answer (IsErrOf result ReadRefusal.Failed) }
        ensures after { self.new ≡ counts_after self.old result }
        ensures grew { self.old.given ≤ self.new.given }
        ensures later { self.old.faults ≤ self.new.faults }
    {
        match answer {
            Ok(count) => {
                self.given = self.given.saturating_add(count as u64);
                Ok(count)
            }
            Err(_) => {
                self.faults = self.faults.saturating_add(1);
                Err(ReadRefusal::Failed)
            }
        }
    }
}

impl<R: Files + Drop> Cabinet for FolderCabinet<R> {
    ghost use Rattle.std.specs.Prelude.{None};

    ghost files = { λ counts. None };

    ghost faults = { λ counts name. counts.faults };

    ghost given = { λ counts. counts.given };

    fn read(&mut self, name: &str, at: u64, buf: &mut [u8]) -> Result<usize, ReadRefusal>
        requires room { 0 < length buf.old }
        requires place { at ≤ LAST_PLACE }

        ensures bound { IfOk result (λ n. n ≤ length buf.old) }
        ensures there { OnErr result (IsErrOf result ReadRefusal.Failed) }
        ensures after { self.new ≡ counts_after self.old result }
        ensures grew { self.old.given ≤ self.new.given }
        ensures later { self.old.faults ≤ self.new.faults }
    {
        let answer = self.files.read_at(name, at, buf);
        self.count(answer)
    }
}

/// The system's files, of which the one that was read last stays open.
#[derive(Drop)]
struct OpenFiles<R: Files + Drop> {
    alloc: Global,
    rt: R,
    last: Option<OpenFile<R::File>>,
}

/// An open file, and the name that it was opened by, if there was memory for it.
#[derive(Drop)]
struct OpenFile<F: Drop> {
    name: Option<String>,
    file: F,
}

impl<F: Drop> OpenFile<F> {
    fn is_named(&self, name: &str) -> bool {
        match &self.name {
            Some(own) => own.as_str() == name,
            None => false,
        }
    }
}

impl<R: Files + Drop> OpenFiles<R> {
    /// The real read, from a place of the file on, made again as long as it is interrupted.
    fn read_at(&mut self, name: &str, at: u64, buf: &mut [u8]) -> io::Result<usize>
        requires { 0 < length buf.old }
        ensures bound { IfOk result (λ n. n ≤ length buf.old) }
        ensures again { IfErr result (λ e. error_kind e ≢ ErrorKind.Interrupted) }
        ensures piece { IsPlaced R.File.remaining R.File.stream_position R.File.stream_bytes → IfOk result (λ n. GivesOfFile R.File.stream_position R.File.stream_bytes at n buf.new) }
    {
        for _ in 0..u64::MAX {
            match self.open_and_read(name, at, buf) {
                Err(e) if is_interrupted(&e) => {}
                answer => return answer,
            }
        }
        Err(io::Error::from(ErrorKind::TimedOut))
    }

    /// One read. The file stays open if it does not fail.
    fn open_and_read(&mut self, name: &str, at: u64, buf: &mut [u8]) -> io::Result<usize>
        requires { 0 < length buf.old }
        ensures bound { IfOk result (λ n. n ≤ length buf.old) }
        ensures piece { IsPlaced R.File.remaining R.File.stream_position R.File.stream_bytes → IfOk result (λ n. GivesOfFile R.File.stream_position R.File.stream_bytes at n buf.new) }
    {
        let mut open = self.take(name)?;
        let count = read_from(&mut open.file, at, buf)?;
        self.last = Some(open);
        Ok(count)
    }

    /// The file of this name: the open one, or else one that is opened now. No other stays open.
    fn take(&mut self, name: &str) -> io::Result<OpenFile<R::File>> {
        if let Some(open) = self.last.take() {
            if open.is_named(name) {
                return Ok(open);
            }
        }
        let file = fs::open(&self.rt, name)?;
        Ok(OpenFile {
            name: String::from_str(self.alloc, name).ok(),
            file,
        })
    }
}

/// One read of an open file, from a place on.
fn read_from<F: Read + Seek>(file: &mut F, at: u64, buf: &mut [u8]) -> io::Result<usize>
    requires { 0 < length buf.old }
    ensures bound { IfOk result (λ n. n ≤ length buf.old) }
    ensures piece { IsPlaced F.remaining F.stream_position F.stream_bytes → IfOk result (λ n. GivesFrom (F.stream_position file.old) (F.stream_bytes file.old) at n buf.new) }
{
    file.seek(SeekFrom::Start(at))?;
    file.read(buf)
}

#[cfg(test)]
mod tests {
    use super::read_from;
    use std::io;
    use std::test::Fail;

    /// The bytes of a cursor from a place on, wherever it stood.
    fn read_cursor(cursor: &mut io::Cursor<&[u8]>, at: u64, buf: &mut [u8]) -> io::Result<usize>
        requires { 0 < length buf.old }
        ensures { IfOk result (λ n. IsPieceOf (Some (cursor_inner cursor.old).now) at n buf.new) }
    {
        read_from(cursor, at, buf)
    }

    #[test]
    fn a_read_begins_at_its_place(rt: HostRuntime) -> Result<(), Fail> {
        let bytes: &[u8] = b"abcde";
        let mut cursor = io::Cursor::new(bytes);
        let mut buf = [0u8; 4];
        for (at, count, wanted) in [(3, 2, *b"de\0\0"), (1, 4, *b"bcde"), (5, 0, *b"bcde")] {
            assert_eq!(rt; read_cursor(&mut cursor, at, &mut buf)?, count);
            assert_eq!(rt; buf, wanted);
        }
        Ok(())
    }
}
