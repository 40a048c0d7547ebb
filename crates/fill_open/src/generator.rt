//! The generator: a session that fills the second column of a sheet of any number of lines.
ghost use Rattle.std.specs.Prelude.{◌≡◌, ◌≤◌, ◌<◌, ◌++◌, IfOk, OnOk};
ghost use Rattle.fill_open.specs.Made.{made_session, made_sheet, pattern, character, made_output, made_line};

use crate::MOST_MADE_LINES;
use fill_text::{List, NoMemory};
use std::alloc::Global;

/// The bytes of a session file and of its sheet, `made.csv`.
#[derive(Debug, Drop)]
pub struct MadeFiles {
    pub session: List<u8>,
    pub sheet: List<u8>,
}

const SESSION: &[u8] = b"sheet,made.csv\ninputs,1\noutput,2\nbegin\nprograms\ncount\n";

/// What a pattern has at one place: a letter, by its place among the line's letters, or a space.
#[derive(Clone, Copy, Debug, PartialEq, Eq)]
enum Sign {
    Capital(u8),
    Small(u8),
    Space,
}

impl Sign {
    /// The character, where the line's first letter has this number.
    fn character(self, first: u32) -> u8
        requires { first < 10000 }
        ensures { result ≡ character first self }
    {
        match self {
            Sign::Capital(place) => b'A' + ((first + u32::from(place)) % 26) as u8,
            Sign::Small(place) => b'a' + ((first + u32::from(place)) % 26) as u8,
            Sign::Space => b' ',
        }
    }
}

/// The pattern of a line by its number: three words, two short ones, or a longer and a shorter one.
fn pattern(line: u32) -> &'static [Sign]
    ensures { result.now ≡ pattern line }
{
    use Sign::{Capital, Small, Space};
    if line % 10 == 0 {
        &[
            Capital(0),
            Small(1),
            Space,
            Capital(2),
            Small(3),
            Space,
            Capital(4),
            Small(5),
        ]
    } else if line % 2 == 1 {
        &[Capital(0), Small(1), Space, Capital(2), Small(3)]
    } else {
        &[
            Capital(0),
            Small(1),
            Small(2),
            Small(3),
            Space,
            Capital(4),
            Small(5),
            Small(6),
        ]
    }
}

/// The text of the output cell of a line: only the first two lines have one.
fn output(line: u32) -> &'static [u8]
    ensures { result.now ≡ made_output line }
{
    match line {
        1 => b"Cd",
        2 => b"Ijk",
        _ => b"",
    }
}

/// Puts the line of this number at the end, or a part of it where memory is wanted.
fn push_line(sheet: &mut List<u8>, line: u32) -> Result<(), NoMemory>
    requires first { 1 ≤ line }
    requires last { line ≤ MOST_MADE_LINES }
    ensures { OnOk result (sheet.new ≡ sheet.old ++ made_line line) }
{
    let first = 4 * (line - 1);
    let signs = pattern(line);
    for sign in signs {
        sheet.push(sign.character(first))?;
    }
    sheet.push(b',')?;
    sheet.append(output(line))?;
    sheet.push(b'\n')
}

/// A session of two examples and its sheet of `n` lines.
#[tactic(auto, using(crate::proofs::MadeLines::sheet_more))]
pub fn made(alloc: Global, n: u32) -> Result<MadeFiles, NoMemory>
    requires first { 1 ≤ n }
    requires last { n ≤ MOST_MADE_LINES }
    ensures session { IfOk result (λ files. files.session ≡ made_session) }
    ensures sheet { IfOk result (λ files. files.sheet ≡ made_sheet n) }
{
    let mut session = List::new(alloc);
    session.append(SESSION)?;
    let mut sheet = List::new(alloc);
    for above in 0..n {
        push_line(&mut sheet, above + 1)?;
    }
    Ok(MadeFiles { session, sheet })
}
