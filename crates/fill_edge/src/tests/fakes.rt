//! A writer and a file system that refuse calls in turn.
use std::alloc::Allocator;
use std::cell::Cell;
use std::fs::{Files, Metadata, OpenFile, OpenOptions};
use std::io;
use std::io::{Error, ErrorKind, Read, Seek, SeekFrom, Write};

/// Refuses its first calls so, in turn, and then takes at most two bytes at a call.
#[derive(Drop)]
pub struct RefusingWriter<'a> {
    pub refusals: &'a [ErrorKind],
    pub taken: Vec<u8>,
}

impl Write for RefusingWriter<'_> {
    fn write(&mut self, buf: &[u8]) -> io::Result<usize> {
        if let Some((kind, later)) = self.refusals.split_first() {
            self.refusals = later;
            return Err(Error::from(*kind));
        }
        let count = buf.len().min(2);
        self.taken.extend_from_slice(&buf[..count])?;
        Ok(count)
    }

    fn flush(&mut self) -> io::Result<()> {
        Ok(())
    }
}

/// The calls that a read of a file takes.
#[derive(Clone, Copy, PartialEq, Eq)]
pub enum Call {
    Open,
    Seek,
    Read,
}

/// A call that is refused, and how.
#[derive(Clone, Copy)]
pub struct Refusal(pub Call, pub ErrorKind);

impl Refusal {
    fn at(&self, call: Call) -> io::Result<()> {
        if self.0 == call {
            return Err(Error::from(self.1));
        }
        Ok(())
    }
}

/// Has the file `abcde` under every name. Each time that it is opened one of its calls is refused, in
/// turn, and none when the refusals are used up.
#[derive(Drop)]
pub struct RefusingFiles {
    refusals: Vec<Refusal>,
    opened: Cell<usize>,
}

impl RefusingFiles {
    pub fn new(refusals: Vec<Refusal>) -> RefusingFiles {
        RefusingFiles {
            refusals,
            opened: Cell::new(0),
        }
    }
}

/// An open file, read up to a place.
/// It holds no reference: what a file type of a runtime borrows has no name in the type of a cabinet.
#[derive(Drop)]
pub struct RefusingFile {
    at: u64,
    refusal: Option<Refusal>,
}

impl RefusingFile {
    fn check(&self, call: Call) -> io::Result<()> {
        match self.refusal {
            Some(refusal) => refusal.at(call),
            None => Ok(()),
        }
    }
}

/// The bytes of the file, from a place on.
fn bytes_from(at: u64) -> io::Result<io::Cursor<&'static [u8]>> {
    let bytes: &'static [u8] = b"abcde";
    let mut cursor = io::Cursor::new(bytes);
    cursor.seek(SeekFrom::Start(at))?;
    Ok(cursor)
}

fn unsupported() -> Error {
    Error::from(ErrorKind::Unsupported)
}

impl Read for RefusingFile {
    fn read(&mut self, buf: &mut [u8]) -> io::Result<usize> {
        self.check(Call::Read)?;
        let mut bytes = bytes_from(self.at)?;
        let count = bytes.read(buf)?;
        self.at = bytes.position();
        Ok(count)
    }
}

impl Seek for RefusingFile {
    fn seek(&mut self, to: SeekFrom) -> io::Result<u64> {
        self.check(Call::Seek)?;
        self.at = bytes_from(self.at)?.seek(to)?;
        Ok(self.at)
    }
}

impl Write for RefusingFile {
    fn write(&mut self, _buf: &[u8]) -> io::Result<usize> {
        Err(unsupported())
    }

    fn flush(&mut self) -> io::Result<()> {
        Err(unsupported())
    }
}

impl OpenFile for RefusingFile {
    fn metadata(&self) -> io::Result<Metadata> {
        Err(unsupported())
    }

    fn set_len(&self, _size: u64) -> io::Result<()> {
        Err(unsupported())
    }

    fn sync_all(&self) -> io::Result<()> {
        Err(unsupported())
    }

    fn sync_data(&self) -> io::Result<()> {
        Err(unsupported())
    }
}

impl Files for RefusingFiles {
    type File = RefusingFile;

    type Dir = RefusingFile;

    fn open_file(&self, _how: &OpenOptions, _path: &str) -> io::Result<RefusingFile> {
        let opened = self.opened.get();
        self.opened.set(opened.saturating_add(1));
        let file = RefusingFile {
            at: 0,
            refusal: self.refusals.get(opened).copied(),
        };
        file.check(Call::Open)?;
        Ok(file)
    }

    fn open_dir(&self, _path: &str) -> io::Result<RefusingFile> {
        Err(unsupported())
    }

    fn metadata(&self, _path: &str) -> io::Result<Metadata> {
        Err(unsupported())
    }

    fn symlink_metadata(&self, _path: &str) -> io::Result<Metadata> {
        Err(unsupported())
    }

    fn copy(&self, _from: &str, _to: &str) -> io::Result<u64> {
        Err(unsupported())
    }

    fn rename(&self, _from: &str, _to: &str) -> io::Result<()> {
        Err(unsupported())
    }

    fn remove_file(&self, _path: &str) -> io::Result<()> {
        Err(unsupported())
    }

    fn create_dir(&self, _path: &str) -> io::Result<()> {
        Err(unsupported())
    }

    fn remove_dir(&self, _path: &str) -> io::Result<()> {
        Err(unsupported())
    }

    fn remove_dir_all<B: Allocator>(&self, _alloc: B, _path: &str) -> io::Result<()> {
        Err(unsupported())
    }
}
