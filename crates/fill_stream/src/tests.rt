//! Streams in memory, and a reader of std.
use super::*;
use fill_edge::Failed;
use std::test::Fail;

/// Whether the first two reads of a stream answer so, and the buffer then holds these bytes.
fn gives<S: Source>(
    source: &mut S,
    first: Result<usize, Failed>,
    second: Result<usize, Failed>,
    bytes: [u8; 4],
) -> bool {
    let mut buf = [0u8; 4];
    source.read(&mut buf) == first && source.read(&mut buf) == second && buf == bytes
}

#[test]
fn short_reads_follow_each_other(rt: HostRuntime) -> Result<(), Fail> {
    let mut source = MemorySource::new(b"abcde", 3, 0);
    assert!(rt; gives(&mut source, Ok(3), Ok(2), *b"dec\0"));
    assert!(rt; gives(&mut source, Ok(0), Ok(0), [0; 4]));
    Ok(())
}

#[test]
fn a_read_fails_where_it_is_set_to(rt: HostRuntime) -> Result<(), Fail> {
    let mut source = MemorySource::new(b"abcde", 9, 2);
    assert!(rt; gives(&mut source, Ok(4), Err(Failed), *b"abcd"));
    assert!(rt; gives(&mut source, Ok(1), Ok(0), *b"e\0\0\0"));
    Ok(())
}

#[test]
fn a_reader_of_std_is_a_stream(rt: HostRuntime) -> Result<(), Fail> {
    let bytes: &[u8] = b"abcde";
    let mut source = StdSource::new(bytes);
    assert!(rt; gives(&mut source, Ok(4), Ok(1), *b"ebcd"));
    Ok(())
}
