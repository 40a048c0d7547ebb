//! The programs `flashfill` and `fillcsv` as one function for other languages: a request of bytes in, an answer of bytes out.
#![tactic(auto)]

ghost use Rattle.std.specs.Prelude.{◌≡◌, IfOk};
ghost use Rattle.fill_engine.specs.Answer.{AnswerData, Leaves, answer_bytes, answer_data, malformed};
ghost use Rattle.fill_engine.specs.Programs.{Answers, AnswersCall};
ghost use Rattle.fill_engine.specs.Request.{request_in};

mod answer;
mod files;
mod input;
mod page;
mod programs;
mod request;

use answer::Answer;
use fill_text::NoMemory;
use programs::run_program;
use request::{Call, read_request};
use std::alloc::Global;

/// The status of a request that has not the form of one.
const MALFORMED: u8 = 7;

/// The answer where memory runs out: status 6, and three empty texts.
const NO_MEMORY: [u8; 25] = [
    6, 0, 0, 0, 0, 0, 0, 0, 0, 0, 0, 0, 0, 0, 0, 0, 0, 0, 0, 0, 0, 0, 0, 0, 0,
];

/// Answers a request: leaves the bytes of the answer at the front of the room, and returns
/// their number. Where that is more than the room has, the room stays as it was: call again with one of that size.
///
/// A request is a program's name, `flashfill` or `fillcsv`, the number of its words, the words, the number of files, and the
/// name and the bytes of each; of two files with one name the later one is seen, and `-` is standard input. A number has
/// eight bytes, the lowest first; a text is the number of its bytes and then these. Names and words are UTF-8.
///
/// An answer is the status of the program, one byte, the texts that it wrote to its output and to its errors, and the bytes of
/// the file that it saved, none where it saved none. What has not the form of a request is answered by status 7, and a lack of
/// memory by 6, each with three empty texts.
#[unsafe(no_mangle)]
pub extern "C" fn fill_engine(alloc: Global, request: &[u8], room: &mut [u8]) -> usize
    ensures { (answer : AnswerData) × Answers request.now answer × Leaves room.old room.new result (answer_bytes answer) }
{
    match bytes_of(alloc, request) {
        Ok(bytes) => leave(&bytes, room),
        Err(NoMemory) => leave(&NO_MEMORY, room),
    }
}

/// The bytes of the answer of a request.
fn bytes_of(alloc: Global, request: &[u8]) -> Result<Vec<u8>, NoMemory>
    ensures { IfOk result (λ bytes. (answer : AnswerData) × AnswersCall (request_in request.now) answer × (bytes.items ≡ answer_bytes answer)) }
{
    let answer = answer_of(alloc, request)?;
    answer.bytes(alloc)
}

/// The answer of a request.
fn answer_of(alloc: Global, request: &[u8]) -> Result<Answer, NoMemory>
    ensures { IfOk result (λ answer. AnswersCall (request_in request.now) (answer_data answer)) }
{
    match read_request(alloc, request)? {
        Some(
            Call {
                program,
                words,
                files,
            },
        ) => run_program(alloc, program, &words, files),
        None => Ok(malformed(alloc)),
    }
}

/// The answer of bytes that have not the form of a request.
fn malformed(alloc: Global) -> Answer
    ensures { answer_data result ≡ malformed }
{
    Answer {
        status: MALFORMED,
        out: Vec::new(alloc),
        err: Vec::new(alloc),
        saved: Vec::new(alloc),
    }
}

/// Leaves bytes at the front of a room that has place for them, and answers their number.
fn leave(bytes: &[u8], room: &mut [u8]) -> usize
    ensures { Leaves room.old room.new result bytes.now }
{
    let count = bytes.len();
    if count <= room.len() {
        room[..count].copy_from_slice(bytes);
    }
    count
}
