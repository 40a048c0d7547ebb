//! The lines of a source, each as soon as it is there.
ghost use Rattle.std.specs.Prelude.{◌≡◌, ◌≤◌, [], All, IfOk, MatchOption, false, option_to_list};
ghost use Rattle.std.specs.Io.KnownBytes.{prepend_known};
ghost use Rattle.std.specs.Str.Lines.{lines, strip_carriage_return};
ghost use Rattle.fillcsv_dialogue.specs.Lines.{IsNextLine};
ghost use Rattle.fillcsv_dialogue.specs.Cuts.{IsCut, IsFirstEnd, Reads, is_newline};

use fill_stream::Source;
use fill_text::{List, NoMemory};
use std::alloc::Global;
use std::mem;

/// The byte at the end of a line.
const NEWLINE: u8 = b'\n';

/// The byte that may stand before it.
const RETURN: u8 = b'\r';

/// Lines of a source.
#[derive(Drop)]
pub(crate) struct Lines {
    alloc: Global,
    /// The bytes that were read and are no line yet.
    pub held: List<u8>,
}

/// What a read brought.
enum More {
    Bytes,
    Nothing,
    Failed,
}

/// A line, and the bytes after it.
#[derive(Drop)]
struct Cut {
    line: List<u8>,
    rest: List<u8>,
}

impl Lines {
    pub(crate) fn new(alloc: Global) -> Lines
        ensures { result.held ≡ [] }
    {
        Lines {
            alloc,
            held: List::new(alloc),
        }
    }

    /// The next line, without its end. None at the end of the source, or where a read fails.
    pub(crate) fn next<S: Source>(&mut self, source: &mut S) -> Result<Option<List<u8>>, NoMemory>
        ensures line { IfOk result (λ found. IsNextLine (prepend_known self.old.held (S.left source.old)) (prepend_known self.new.held (S.left source.new)) (S.faults source.old) (S.faults source.new) found) }
        ensures later { S.faults source.old ≤ S.faults source.new }
    {
        for _ in 0..u64::MAX {
            if let Some(cut) = first_line(self.alloc, self.held.as_slice())? {
                self.held = cut.rest;
                return Ok(Some(cut.line));
            }
            match read_more(&mut self.held, source)? {
                More::Bytes => {}
                More::Nothing => return Ok(self.last_line()),
                More::Failed => return Ok(None),
            }
        }
        Err(NoMemory)
    }

    /// What is left at the end of the source, which is a line where it is not empty.
    #[tactic(auto, using(crate::proofs::Cutting::last_none, crate::proofs::Cutting::last_some))]
    fn last_line(&mut self) -> Option<List<u8>>
        requires { All (λ b. is_newline b ≡ false) self.old.held }
        ensures line { lines self.old.held ≡ option_to_list result }
        ensures empty { self.new.held ≡ [] }
    {
        if self.held.len() == 0 {
            return None;
        }
        Some(mem::replace(&mut self.held, List::new(self.alloc)))
    }
}

/// The line at the front of bytes, where its end is among them.
fn first_line(alloc: Global, bytes: &[u8]) -> Result<Option<Cut>, NoMemory>
    ensures { IfOk result (λ found. MatchOption found (All (λ b. is_newline b ≡ false) bytes.now) (λ cut. IsCut bytes.now cut.line cut.rest)) }
{
    match newline_in(bytes) {
        Some(at) => Ok(Some(cut_at(alloc, bytes, at)?)),
        None => Ok(None),
    }
}

/// The place of the first end of a line.
fn newline_in(bytes: &[u8]) -> Option<usize>
    ensures { MatchOption result (All (λ b. is_newline b ≡ false) bytes.now) (IsFirstEnd bytes.now) }
{
    for (at, byte) in bytes.iter().enumerate() {
        if *byte == NEWLINE {
            return Some(at);
        }
    }
    None
}

/// The line that ends at a place, and the bytes after it.
#[tactic(auto, using(crate::proofs::Cutting::cut_from))]
fn cut_at(alloc: Global, bytes: &[u8], at: usize) -> Result<Cut, NoMemory>
    requires { IsFirstEnd bytes.now at }
    ensures { IfOk result (λ cut. IsCut bytes.now cut.line cut.rest) }
{
    let (front, back) = bytes.split_at(at);
    let mut line = List::new(alloc);
    line.append(without_return(front))?;
    let (_, after) = back.split_at(1);
    let mut rest = List::new(alloc);
    rest.append(after)?;
    Ok(Cut { line, rest })
}

/// A line without the byte that may stand before its end.
fn without_return(line: &[u8]) -> &[u8]
    ensures { result.now ≡ strip_carriage_return line.now }
{
    if line.is_empty() || line[line.len() - 1] != RETURN {
        return line;
    }
    let (front, _) = line.split_at(line.len() - 1);
    front
}

/// How many bytes are read at once.
const READ: usize = 1024;

/// Reads what is there, and puts it at the end.
fn read_more<S: Source>(held: &mut List<u8>, source: &mut S) -> Result<More, NoMemory>
    ensures reads { IfOk result (λ more. Reads more held.old held.new (prepend_known held.old (S.left source.old)) (prepend_known held.new (S.left source.new)) (S.left source.new) (S.faults source.old) (S.faults source.new)) }
    ensures later { S.faults source.old ≤ S.faults source.new }
{
    let mut buffer = [0u8; READ];
    match source.read(&mut buffer) {
        Ok(0) => Ok(More::Nothing),
        Ok(count) => {
            held.append(&buffer[..count])?;
            Ok(More::Bytes)
        }
        Err(_) => Ok(More::Failed),
    }
}
