//! The files of `made N`.
use fill_open::{MadeFiles, made};
use fill_text::NoMemory;
use std::alloc::Global;
use std::test::Fail;

/// The session over the generated sheet.
const SESSION: &[u8] = b"sheet,made.csv\ninputs,1\noutput,2\nbegin\nprograms\ncount\n";

/// Whether the files are the session and a sheet of this size, which begins as it is to and ends with this.
fn have_ends(files: &MadeFiles, size: usize, last: &[u8]) -> bool {
    let sheet = files.sheet.as_slice();
    files.session.as_slice() == SESSION
        && sheet.len() == size
        && sheet.ends_with(last)
        && sheet.starts_with(b"Ab Cd,Cd\n")
}

/// Whether this many lines are made with these ends.
fn made_with(alloc: Global, n: u32, size: usize, last: &[u8]) -> Result<bool, NoMemory> {
    if n < 1 || 2_000 < n {
        return Ok(false);
    }
    let files = made(alloc, n)?;
    Ok(have_ends(&files, size, last))
}

/// Whether six lines are made as this sheet.
fn six_are(alloc: Global, sheet: &[u8]) -> Result<bool, NoMemory> {
    let files = made(alloc, 6)?;
    Ok(files.sheet.as_slice() == sheet)
}

/// The two files at some numbers of lines: the sheet's size, and how it begins and ends.
#[test]
fn files_have_their_lines(rt: HostRuntime) -> Result<(), Fail> {
    let rows: [(u32, usize, &[u8]); 6] = [
        (1, 9, b"Ab Cd,Cd\n"),
        (2, 22, b"Efgh Ijk,Ijk\n"),
        (3, 29, b"Ij Kl,\n"),
        (10, 90, b"Kl Mn Op,\n"),
        (11, 97, b"Op Qr,\n"),
        (2000, 17_005, b"Op Qr St,\n"),
    ];
    for (n, size, last) in rows {
        assert!(rt; made_with(rt.alloc(), n, size, last)?, "at {n}");
    }
    let six = b"Ab Cd,Cd\nEfgh Ijk,Ijk\nIj Kl,\nMnop Qrs,\nQr St,\nUvwx Yza,\n";
    assert!(rt; six_are(rt.alloc(), six)?);
    Ok(())
}
