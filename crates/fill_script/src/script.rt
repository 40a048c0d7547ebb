//! Scripts.
ghost use Rattle.std.specs.Prelude.{◌≡◌, ◌≢◌, ◌≤◌, length, position, Ok, Err, IfOk, IfErr};
ghost use Rattle.fill_script.specs.Line.{is_begin};
ghost use Rattle.fill_script.specs.Script.{IsScript, read_script, script_in, script_of, profile_of};

use crate::ScriptError;
use crate::entries::entries_of;
use crate::line::is_begin;
use crate::opening::Opening;
use fill_records::{Record, first_records, read_records};
use fill_text::{List, Name};
use fill_tree::{Constants, Edit, Profile, Settings};
use std::alloc::Global;

/// What a session file asks for.
#[derive(Debug, Drop)]
pub struct Script {
    /// The file of the sheet.
    pub sheet: Name,
    /// Whether the sheet's first record is no row.
    pub header: bool,
    /// The input columns, from 1, in the order in which they are named.
    pub inputs: List<u32>,
    /// The output column.
    pub output: Option<u32>,
    /// The tables and keys, in the order in which they are added.
    pub tables: List<TableLine>,
    pub settings: Settings,
    /// The lines after `begin`.
    pub entries: List<Entry>,
}

/// A line that adds a table or a key, with its number.
#[derive(Debug, Drop)]
pub enum TableLine {
    /// Adds the table of a file under a name.
    Table {
        number: u32,
        name: Name,
        file: Name,
    },
    /// Adds a key to the table of a name.
    Key {
        number: u32,
        name: Name,
        columns: List<u32>,
    },
}

/// A line after `begin`.
#[derive(Debug, Drop)]
pub enum Entry {
    /// Change the examples.
    Edit(Edit),
    /// Take the last accepted edit back.
    Undo,
    /// Make the last edit that was taken back again.
    Redo,
    /// Print the branches with their programs.
    Programs,
    /// Print the program for all rows.
    Switch,
    /// Print each row's answer.
    Fill,
    /// Print how many rows have each state.
    Count,
    /// Print a row's answer.
    Answer { row: u32 },
    /// Print the simplest program that explains the examples of a row's branch and answers otherwise there.
    Object { row: u32 },
    /// Print the first `k` programs of a branch, one at least, and no more than there may be; all of them where they are fewer. Branches count from 1.
    Best { branch: u32, k: u32 },
}

/// How many lines a session file may have.
pub const MOST_LINES: usize = 1_000;

/// The refusal of the line after the last that a session file may have.
const TOO_MANY: ScriptError = ScriptError::TooManyRecords {
    limit: MOST_LINES as u32,
};

impl Script {
    /// The script of a session file's bytes.
    ///
    /// The first line that breaks a rule is told, and of its faults the first in the order of `ScriptError`.
    pub fn read(alloc: Global, bytes: &[u8]) -> Result<Script, ScriptError>
        ensures ok { IfOk result (λ script. read_script bytes.now ≡ Ok script) }
        ensures err { IfErr result (λ e. e ≢ ScriptError.NoMemory → read_script bytes.now ≡ Err e) }
        ensures proper { IfOk result IsScript }
    {
        let records = read_records(alloc, bytes, MOST_LINES + 1)?;
        Script::of_records(alloc, records.as_slice())
    }

    /// The script of a file's records, or of the first of them, more than a session may have.
    fn of_records(alloc: Global, records: &[Record]) -> Result<Script, ScriptError>
        ensures ok { IfOk result (λ script. script_of records.now ≡ Ok script) }
        ensures err { IfErr result (λ e. e ≢ ScriptError.NoMemory → script_of records.now ≡ Err e) }
    {
        let lines = first_records(records, MOST_LINES);
        Script::of_lines(alloc, lines, records.len() > MOST_LINES)
    }

    /// The script of lines, after which there are more or none.
    fn of_lines(alloc: Global, lines: &[Record], more: bool) -> Result<Script, ScriptError>
        requires { length lines.now ≤ MOST_LINES }
        ensures ok { IfOk result (λ script. script_in lines.now more ≡ Ok script) }
        ensures err { IfErr result (λ e. e ≢ ScriptError.NoMemory → script_in lines.now more ≡ Err e) }
    {
        let Some(place) = begin_in(lines) else {
            let _opening = Opening::of_lines(alloc, lines)?;
            return Err(if more {
                TOO_MANY
            } else {
                ScriptError::MissingBegin
            });
        };
        let Opening {
            sheet,
            header,
            inputs,
            output,
            tables,
            depth,
            constants,
            profile,
        } = Opening::of_lines(alloc, &lines[..place])?;
        let Some(sheet) = sheet else {
            return Err(ScriptError::MissingSheet);
        };
        let Some(inputs) = inputs else {
            return Err(ScriptError::MissingInputs);
        };
        let entries = entries_of(alloc, &lines[place + 1..], place as u32 + 2)?;
        if more {
            return Err(TOO_MANY);
        }
        Ok(Script {
            sheet,
            header,
            inputs,
            output,
            tables,
            settings: Settings {
                depth: depth.unwrap_or(1),
                constants: constants.unwrap_or(Constants::Any),
                profile: profile_of(profile.unwrap_or(1)),
            },
            entries,
        })
    }
}

/// The profile of a number of the session file.
fn profile_of(number: u8) -> Profile
    ensures { result ≡ profile_of number }
{
    if number == 2 {
        Profile::SECOND
    } else {
        Profile::FIRST
    }
}

/// The place of the line `begin`.
fn begin_in(lines: &[Record]) -> Option<usize>
    ensures { result ≡ position is_begin lines.now }
{
    lines.iter().position(|line| is_begin(line))
}
