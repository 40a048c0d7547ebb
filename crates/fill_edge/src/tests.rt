//! Whole reads and writes over the fakes and over the system's own files and streams.
ghost use Rattle.std.specs.Prelude.{◌≡◌, ◌<◌, ◌≤◌};

mod fakes;

use super::*;
use fakes::{Call, Refusal, RefusingFiles, RefusingWriter};
use fill_text::NoMemory;
use std::alloc::Global;
use std::fs;
use std::io::ErrorKind;
use std::marker::Brand;
use std::sync::ledger::Blank;
use std::test::Fail;

/// Two files: five bytes, and none under a name beyond ASCII.
fn two_files(alloc: Global, most: usize) -> Result<MemoryCabinet, NoMemory>
    requires { 0 < most }
{
    let mut cabinet = MemoryCabinet::new(alloc, most);
    cabinet.put("five.csv", b"other")?;
    cabinet.put("größe 表.csv", b"")?;
    cabinet.put("five.csv", b"abcde")?;
    Ok(cabinet)
}

/// Whether the file is read whole within the limit, as these bytes.
fn reads(
    alloc: Global,
    cabinet: &mut MemoryCabinet,
    (name, limit): (&str, usize),
    expected: &[u8],
) -> bool {
    if limit > LARGEST_FILE {
        return false;
    }
    match read_all(alloc, cabinet, name, limit) {
        Ok(bytes) => bytes.as_slice() == expected,
        Err(_) => false,
    }
}

/// Whether it is refused so.
fn refuses(
    alloc: Global,
    cabinet: &mut MemoryCabinet,
    (name, limit): (&str, usize),
    reason: ReadError,
) -> bool {
    if limit > LARGEST_FILE {
        return false;
    }
    read_all(alloc, cabinet, name, limit).err() == Some(reason)
}

/// Whether the file of five bytes is read within each limit that it fits, and refused by the others.
fn keeps_to_limits(alloc: Global, cabinet: &mut MemoryCabinet) -> bool {
    for limit in [5, 6, LARGEST_FILE] {
        if !reads(alloc, cabinet, ("five.csv", limit), b"abcde") {
            return false;
        }
    }
    for limit in [0, 4] {
        if !refuses(
            alloc,
            cabinet,
            ("five.csv", limit),
            ReadError::TooLong { limit },
        ) {
            return false;
        }
    }
    true
}

/// Whether the file without bytes is read, and there is none under a name like its own.
fn tells_names_apart(alloc: Global, cabinet: &mut MemoryCabinet) -> bool {
    reads(alloc, cabinet, ("größe 表.csv", 0), b"")
        && refuses(alloc, cabinet, ("grösse 表.csv", 5), ReadError::Missing)
}

#[test]
fn a_file_is_read_whole_or_refused(rt: HostRuntime) -> Result<(), Fail> {
    for most in [1, 2, 5, 9] {
        let mut cabinet = two_files(rt.alloc(), most)?;
        assert!(rt; keeps_to_limits(rt.alloc(), &mut cabinet));
        assert!(rt; tells_names_apart(rt.alloc(), &mut cabinet));
    }
    Ok(())
}

/// A cabinet that gives two bytes at a call, and fails at this one.
fn failing_at(alloc: Global, call: u64) -> Result<MemoryCabinet, NoMemory> {
    let mut cabinet = two_files(alloc, 2)?;
    cabinet.fail_at(call)?;
    Ok(cabinet)
}

/// Whether the file of five bytes is read.
fn reads_five(alloc: Global, cabinet: &mut MemoryCabinet) -> bool {
    reads(alloc, cabinet, ("five.csv", 5), b"abcde")
}

/// Whether it is not, and then is.
fn fails_and_reads_five(alloc: Global, cabinet: &mut MemoryCabinet) -> bool {
    refuses(alloc, cabinet, ("five.csv", 5), ReadError::ReadFault) && reads_five(alloc, cabinet)
}

#[test]
fn a_read_fails_at_its_call_alone(rt: HostRuntime) -> Result<(), Fail> {
    // Two, two and one byte, and then the end: four calls.
    for call in [1, 2, 3, 4] {
        let mut cabinet = failing_at(rt.alloc(), call)?;
        assert!(rt; fails_and_reads_five(rt.alloc(), &mut cabinet), "{call}");
    }
    Ok(())
}

#[test]
fn a_read_does_not_fail_behind_its_calls(rt: HostRuntime) -> Result<(), Fail> {
    let mut cabinet = failing_at(rt.alloc(), 5)?;
    assert!(rt; reads_five(rt.alloc(), &mut cabinet));
    Ok(())
}

/// Whether a sink with room for seven bytes takes five, none, two of three, and none.
fn takes_seven(sink: &mut MemorySink) -> bool {
    for (piece, answer) in [
        (b"abcde".as_slice(), Ok(())),
        (b"", Ok(())),
        (b"fgh", Err(WriteFault)),
        (b"", Ok(())),
    ] {
        if write_all(sink, piece) != answer {
            return false;
        }
    }
    sink.written() == b"abcdefg".as_slice()
}

#[test]
fn a_piece_is_written_whole(rt: HostRuntime) -> Result<(), Fail> {
    for most in [1, 2, 9] {
        let mut sink = MemorySink::new(rt.alloc(), 7, most)?;
        assert!(rt; takes_seven(&mut sink), "{most}");
    }
    Ok(())
}

/// A sink that takes two bytes at a call, and fails at this one.
fn sink_failing_at(alloc: Global, call: u64) -> Result<MemorySink, NoMemory> {
    let mut sink = MemorySink::new(alloc, 20, 2)?;
    sink.fail_at(call)?;
    Ok(sink)
}

/// Whether the first of two writes fails alone, and this is written then.
fn fails_and_writes(sink: &mut MemorySink, written: &[u8]) -> bool {
    write_all(sink, b"abcde") == Err(WriteFault)
        && write_all(sink, b"abcde") == Ok(())
        && sink.written() == written
}

#[test]
fn a_write_fails_at_its_call_alone(rt: HostRuntime) -> Result<(), Fail> {
    // Two, two and one byte: three calls.
    for (call, written) in [
        (1, b"abcde".as_slice()),
        (2, b"ababcde".as_slice()),
        (3, b"abcdabcde".as_slice()),
    ] {
        let mut sink = sink_failing_at(rt.alloc(), call)?;
        assert!(rt; fails_and_writes(&mut sink, written), "{call}");
    }
    Ok(())
}

/// Whether a read of a folder's file from a place comes to this.
fn comes_to(
    cabinet: &mut FolderCabinet<HostRuntime>,
    name: &str,
    at: u64,
    answer: Result<usize, ReadRefusal>,
    wanted: [u8; 4],
) -> bool
    requires { at ≤ LAST_PLACE }
{
    let mut buf = [0u8; 4];
    cabinet.read(name, at, &mut buf) == answer && buf == wanted
}

/// Whether a read of the whole file is refused so.
fn folder_refuses(
    alloc: Global,
    cabinet: &mut FolderCabinet<HostRuntime>,
    (name, limit): (&str, usize),
    reason: ReadError,
) -> bool {
    if limit > LARGEST_FILE {
        return false;
    }
    read_all(alloc, cabinet, name, limit).err() == Some(reason)
}

/// Whether the folder's file is read as `abcde`, whole and from its places.
fn gives_five(alloc: Global, cabinet: &mut FolderCabinet<HostRuntime>, name: &str) -> bool {
    let Ok(bytes) = read_all(alloc, cabinet, name, 5) else {
        return false;
    };
    if bytes.as_slice() != b"abcde".as_slice() {
        return false;
    }
    comes_to(cabinet, name, 3, Ok(2), *b"de\0\0")
        && comes_to(cabinet, name, 5, Ok(0), [0; 4])
        && folder_refuses(alloc, cabinet, (name, 4), ReadError::TooLong { limit: 4 })
}

/// Whether nothing can be read under this name.
fn gives_nothing(alloc: Global, cabinet: &mut FolderCabinet<HostRuntime>, name: &str) -> bool {
    comes_to(cabinet, name, 0, Err(ReadRefusal::Failed), [0; 4])
        && folder_refuses(alloc, cabinet, (name, 5), ReadError::ReadFault)
}

#[test]
fn the_folder_gives_its_files(rt: HostRuntime) -> Result<(), Fail> {
    let name = "fill_edge größe.csv";
    fs::write(&rt, name, b"abcde".as_slice())?;
    let mut cabinet = FolderCabinet::new(rt.alloc(), rt);
    assert!(rt; gives_five(rt.alloc(), &mut cabinet, name));
    fs::remove_file(&rt, name)?;
    // The folder itself, and a file that is not there.
    for refused in [".", name] {
        assert!(rt;
            gives_nothing(rt.alloc(), &mut cabinet, refused),
            "{refused}"
        );
    }
    Ok(())
}

/// The file that was read last stays open, also where it is removed, until another name is read.
#[test]
fn the_folder_keeps_its_last_file_open(rt: HostRuntime) -> Result<(), Fail> {
    let (name, other) = ("fill_edge last.csv", "fill_edge other.csv");
    fs::write(&rt, name, b"abcde".as_slice())?;
    fs::write(&rt, other, b"fghij".as_slice())?;
    let mut cabinet = FolderCabinet::new(rt.alloc(), rt);
    assert!(rt; comes_to(&mut cabinet, name, 3, Ok(2), *b"de\0\0"));
    fs::remove_file(&rt, name)?;
    assert!(rt; comes_to(&mut cabinet, name, 1, Ok(4), *b"bcde"));
    assert!(rt; comes_to(&mut cabinet, other, 1, Ok(4), *b"ghij"));
    assert!(rt; comes_to(&mut cabinet, name, 3, Err(ReadRefusal::Failed), [0; 4]));
    fs::remove_file(&rt, other)?;
    Ok(())
}

#[test]
fn a_stream_is_written(rt: HostRuntime) {
    let mut out = StdSink::new(rt.stdout());
    assert_eq!(rt; write_all(&mut out, b"abcde\n"), Ok(()));
}

#[test]
fn a_file_that_was_opened_to_be_read_takes_nothing(rt: HostRuntime) -> Result<(), Fail> {
    let name = "fill_edge stream.csv";
    fs::write(&rt, name, b"".as_slice())?;
    let mut refusing = StdSink::new(fs::open(&rt, name)?);
    assert_eq!(rt; write_all(&mut refusing, b"abcde"), Err(WriteFault));
    fs::remove_file(&rt, name)?;
    Ok(())
}

#[test]
fn a_slice_takes_nothing_where_it_is_full(rt: HostRuntime) {
    let mut room = [0u8; 3];
    let mut small = StdSink::new(room.as_mut_slice());
    assert_eq!(rt; write_all(&mut small, b"abcde"), Err(WriteFault));
    assert_eq!(rt; room, *b"abc");
}

/// Whether a writer that refuses its first calls so answers this, and has taken these bytes.
fn writes(
    alloc: Global,
    refusals: &[ErrorKind],
    answer: Result<(), WriteFault>,
    taken: &[u8],
) -> bool {
    let mut writer = RefusingWriter {
        refusals,
        taken: Vec::new(alloc),
    };
    let found = write_all(&mut StdSink::new(&mut writer), b"abc");
    found == answer && writer.taken.as_slice() == taken
}

#[test]
fn an_interrupted_write_is_made_again(rt: HostRuntime) {
    use ErrorKind::{BrokenPipe, Interrupted};
    let rows: [(&[ErrorKind], Result<(), WriteFault>, &[u8]); 3] = [
        (&[Interrupted, Interrupted], Ok(()), b"abc"),
        (&[BrokenPipe], Err(WriteFault), b""),
        (&[Interrupted, BrokenPipe], Err(WriteFault), b""),
    ];
    for (refusals, answer, taken) in rows {
        assert!(rt; writes(rt.alloc(), refusals, answer, taken));
    }
}

/// Whether the first read over files that refuse so answers this, and the second gives two bytes.
fn first_read_is(alloc: Global, refusals: &[Refusal], answer: Result<usize, ReadRefusal>) -> bool {
    let Ok(refusals) = refusals.to_vec(alloc) else {
        return false;
    };
    let mut cabinet = FolderCabinet::new(alloc, RefusingFiles::new(refusals));
    let mut buf = [0u8; 4];
    cabinet.read("five.csv", 3, &mut buf) == answer
        && cabinet.read("five.csv", 3, &mut buf) == Ok(2)
        && buf == *b"de\0\0"
}

/// A call of the system that fails is a fault of one read, and an interrupted one is made again.
#[test]
fn a_read_of_a_file_begins_at_its_place_or_fails(rt: HostRuntime) {
    use ErrorKind::{Interrupted, NotFound, NotSeekable, TimedOut};
    let failed = Err(ReadRefusal::Failed);
    let rows: [(&[Refusal], Result<usize, ReadRefusal>); 6] = [
        (&[], Ok(2)),
        (&[Refusal(Call::Open, NotFound)], failed),
        (&[Refusal(Call::Seek, NotSeekable)], failed),
        (&[Refusal(Call::Read, TimedOut)], failed),
        (
            &[
                Refusal(Call::Open, Interrupted),
                Refusal(Call::Seek, Interrupted),
                Refusal(Call::Read, Interrupted),
            ],
            Ok(2),
        ),
        (
            &[
                Refusal(Call::Read, Interrupted),
                Refusal(Call::Seek, NotSeekable),
            ],
            failed,
        ),
    ];
    for (refusals, answer) in rows {
        assert!(rt; first_read_is(rt.alloc(), refusals, answer));
    }
}

/// A ledger of one part, two steps, and what contracts know of the counter then.
fn take_two_steps<L: Ledger>(blank: Blank)
    requires name { blank.name ≡ L.name }
    requires parts { blank.parts ≡ L.parts }
    requires one { blank.parts ≡ 1 }
{
    let (book, share) = blank.open::<L>();
    let mut steps = Steps::new(book, share);
    steps.tick();
    steps.tick();
    expect_two(&steps);
}

fn expect_two<L: Ledger>(steps: &Steps<L>)
    requires { steps.now ≡ 2 }
{
    let _ = steps;
}

#[test]
fn steps_are_counted() {
    take_two_steps::<Brand>(Blank::new(1));
}
