//! Writing a file so that the one that was there stays whole until the new one is.
//!
//! The bytes go into a new file in the same folder, which then takes the place of the old one. Where a call fails on the way,
//! the new file is removed and the old one is as it was.
use std::alloc::{AllocError, Global};
use std::fs::{File, OpenFile, OpenOptions, Permissions};
use std::io::{Error, ErrorKind, Write};
use std::rt::Files;
use std::{fs, io};

/// How many names are tried for the new file. One that is there already was left by a run that was cut off.
const NAMES: u8 = 100;

/// Saves bytes as the file of a name, in place of one that is there.
pub(crate) fn save_whole<R: Files>(
    alloc: Global,
    files: &R,
    name: &str,
    bytes: &[u8],
) -> io::Result<()> {
    let Ok(old) = files.metadata(name) else {
        return replace(alloc, files, name, bytes, None);
    };
    // a device or a pipe keeps nothing, and a folder takes nothing
    if !old.is_file() {
        return fs::write(files, name, bytes);
    }
    // where the name is a link, the file that it leads to
    let path = files.canonicalize(alloc, name)?;
    check_writable(files, path.as_str())?;
    replace(alloc, files, path.as_str(), bytes, Some(old.permissions()))
}

/// Refuses a file that may not be written. Without this, one could be replaced that is only to be read.
fn check_writable<R: Files>(files: &R, path: &str) -> io::Result<()> {
    let mut how = OpenOptions::new();
    how.write(true);
    let _file = files.open_file(&how, path)?;
    Ok(())
}

/// Puts a new file of these bytes in the place of a path, with these permissions, if any.
fn replace<R: Files>(
    alloc: Global,
    files: &R,
    path: &str,
    bytes: &[u8],
    permissions: Option<Permissions>,
) -> io::Result<()> {
    for number in 0..NAMES {
        let beside = name_beside(alloc, path, number)?;
        match File::create_new(files, beside.as_str()) {
            Ok(file) => {
                let written = write_all(file, bytes, permissions);
                return put_in_place(files, written, beside.as_str(), path);
            }
            Err(e) if e.kind() == ErrorKind::AlreadyExists => {}
            Err(e) => return Err(e),
        }
    }
    Err(Error::from(ErrorKind::AlreadyExists))
}

/// The name of a new file in the folder of a path.
fn name_beside(alloc: Global, path: &str, number: u8) -> Result<String, AllocError> {
    match path.rsplit_once('/') {
        Some((folder, _)) => format!(in alloc; "{folder}/.fillcsv-saving-{number}"),
        None => format!(in alloc; ".fillcsv-saving-{number}"),
    }
}

/// Writes a new file to its end, down to the disk, and closes it.
fn write_all<F: Write + OpenFile + Drop>(
    mut file: F,
    bytes: &[u8],
    permissions: Option<Permissions>,
) -> io::Result<()> {
    if let Some(permissions) = permissions {
        file.set_permissions(permissions)?;
    }
    file.write_all(bytes)?;
    file.flush()?;
    file.sync_all()
}

/// Gives a file that was written beside a path its place; where that fails, or it was not written whole, it is removed.
fn put_in_place<R: Files>(
    files: &R,
    written: io::Result<()>,
    beside: &str,
    path: &str,
) -> io::Result<()> {
    let placed = match written {
        Ok(()) => files.rename(beside, path),
        Err(e) => Err(e),
    };
    if placed.is_err() {
        let _ = files.remove_file(beside);
    }
    placed
}
