//! The rule that was learned, and what else cells in doubt could be, in plain English. No contract says these texts.
ghost use Rattle.std.specs.Prelude.{◌≤◌, length};

use crate::desk::Doubts;
use crate::opening::SheetFile;
use fill_session::Session;
use fill_sheet::Sheet;
use fill_text::{NoMemory, Text};
use fillcsv_blocks::Block;
use fillcsv_options::{Asked, Lookup};
use fillcsv_prose::{Named, Names, program_text, put_quoted, rule_lines};
use fillcsv_rows::Counts;
use std::alloc::Global;

/// The names of the columns that rules may read, where the first record names them, and of the tables.
#[derive(Drop)]
pub(crate) struct Spoken {
    columns: Vec<Named>,
    tables: Vec<Named>,
}

impl Spoken {
    /// The names of a sheet and its tables.
    pub(crate) fn of(alloc: Global, asked: &Asked, read: &SheetFile) -> Result<Spoken, NoMemory> {
        let mut columns = Vec::new(alloc);
        if let Some(header) = &read.header {
            for column in &read.choice.from {
                let field = header.get((*column as usize).saturating_sub(1));
                if let Ok(name) = str::from_utf8(field.unwrap_or(b"")) {
                    let name = String::from_str(alloc, name)?;
                    columns.push(Named {
                        number: *column,
                        name,
                    })?;
                }
            }
        }
        let tables = tables_of(alloc, &asked.lookups)?;
        Ok(Spoken { columns, tables })
    }

    /// The names of the columns.
    pub(crate) fn columns(&self) -> &[Named] {
        &self.columns
    }

    fn names(&self) -> Names<'_> {
        Names {
            columns: &self.columns,
            tables: &self.tables,
        }
    }

    /// The rule for all rows, a line for each of its cases; none where nothing was learned.
    pub(crate) fn rule_of(
        &self,
        alloc: Global,
        session: &Session,
    ) -> Result<Vec<String>, NoMemory> {
        match session.switch()? {
            Some(switch) => Ok(rule_lines(alloc, &switch, self.names())?),
            None => Ok(Vec::new(alloc)),
        }
    }

    /// Both answers for the cell of a row: its text, and the one that the simplest rule with another one gives, followed by
    /// that rule if asked for. It is empty where no rule gives another one.
    pub(crate) fn doubt_of(
        &self,
        alloc: Global,
        session: &Session,
        row: u32,
        with_rule: bool,
    ) -> Result<String, NoMemory>
        requires first { 1 ≤ row }
        requires last { row ≤ length session.now.spaces.ground.sheet.rows }
    {
        let mut line = String::new(alloc);
        let Some(objection) = session.object(row)? else {
            return Ok(line);
        };
        let answer = session.answer(row)?;
        put_answers(&mut line, &answer.text, &objection.text)?;
        if with_rule {
            line.push_str(" by: ")?;
            let other = program_text(alloc, &objection.program, self.names())?;
            line.push_str(other.as_str())?;
        }
        Ok(line)
    }
}

/// What can be told of rows in doubt.
#[derive(Clone, Copy)]
pub(crate) struct Speech<'a> {
    /// By which names rules are told.
    pub spoken: &'a Spoken,
    /// What is told of the first cells in doubt.
    pub doubts: Doubts,
    /// The rows that are told of, beside those of the examples.
    pub block: &'a Block,
}

/// With more rows in doubt only those who ask for rules are told which one to look at next: rows without a pattern take up to
/// half a millisecond each.
const MOST_ASKED: u32 = 1000;

impl Speech<'_> {
    /// What is told of the cells of the first rows in doubt, as far as memory goes. Rows count from 1, and 0 ends them. Without
    /// being asked nothing is told where one of these rows is long, since the search could take minutes there.
    pub(crate) fn doubts_of(&self, alloc: Global, rows: &[u32]) -> Vec<String> {
        let mut doubts = Vec::new(alloc);
        let with_rule = match self.doubts {
            Doubts::Untold => return doubts,
            Doubts::Answers => false,
            Doubts::Rules => true,
        };
        if !with_rule && self.has_long(rows) {
            return doubts;
        }
        for number in rows {
            let Some(row) = self.block.row(*number) else {
                break;
            };
            let session = self.block.session();
            let Ok(doubt) = self.spoken.doubt_of(alloc, session, row, with_rule) else {
                break;
            };
            if doubts.push(doubt).is_err() {
                break;
            }
        }
        doubts
    }

    /// Whether one of these rows has many characters to read. Rows count from 1, and 0 ends them.
    fn has_long(&self, rows: &[u32]) -> bool {
        for number in rows {
            let Some(row) = self.block.row(*number) else {
                break;
            };
            if is_long(self.block.session().sheet(), row) {
                return true;
            }
        }
        false
    }

    /// The row to look at next, where several are in doubt and both answers are told, as far as memory goes.
    pub(crate) fn next_of(&self, alloc: Global, counts: &Counts) -> Option<Next> {
        let doubtful = counts.doubt.saturating_add(counts.nothing_in_doubt);
        let told = match self.doubts {
            Doubts::Untold => false,
            Doubts::Answers => doubtful <= MOST_ASKED && !self.has_long(&counts.doubtful),
            Doubts::Rules => true,
        };
        if !told || doubtful < 2 {
            return None;
        }
        next_of(alloc, self.block).unwrap_or(None)
    }
}

/// A row to look at, and what its cell could be.
#[derive(Drop)]
pub(crate) struct Next {
    pub row: u32,
    /// Both answers.
    pub answers: String,
}

/// The row to look at next; none where no row is in doubt.
fn next_of(alloc: Global, block: &Block) -> Result<Option<Next>, NoMemory> {
    let Some(found) = block.session().suggest()? else {
        return Ok(None);
    };
    let mut answers = String::new(alloc);
    put_answers(&mut answers, &found.answer, &found.objection.text)?;
    Ok(Some(Next {
        row: block.number(found.row),
        answers,
    }))
}

/// With more characters to read a row is long: in texts of one pattern the search then takes seconds a row.
const MOST_READ: usize = 200;

/// Whether a row has many characters to read.
pub(crate) fn is_long(sheet: &Sheet, row: u32) -> bool
    requires first { 1 ≤ row }
    requires last { row ≤ length sheet.now.rows }
{
    let mut length: usize = 0;
    for column in sheet.inputs() {
        length = length.saturating_add(sheet.cell(row, *column).len());
    }
    length > MOST_READ
}

/// Puts what stands in a cell and what else it could be at the end.
fn put_answers(to: &mut String, said: &Option<Text>, other: &Option<Text>) -> Result<(), NoMemory> {
    put_answer(to, said)?;
    to.push_str(", or ")?;
    put_answer(to, other)
}

/// Puts an answer at the end: a text in quotes, or the word `none`.
fn put_answer(to: &mut String, answer: &Option<Text>) -> Result<(), NoMemory> {
    match answer {
        Some(text) => Ok(put_quoted(to, text.as_slice())?),
        None => Ok(to.push_str("none")?),
    }
}

/// The names of the tables, by their order.
fn tables_of(alloc: Global, lookups: &[Lookup]) -> Result<Vec<Named>, NoMemory> {
    let mut tables = Vec::new(alloc);
    let mut number: u32 = 0;
    for lookup in lookups {
        if let Lookup::Table { name, .. } = lookup {
            number = number.saturating_add(1);
            let name = String::from_str(alloc, name.as_str())?;
            tables.push(Named { number, name })?;
        }
    }
    Ok(tables)
}
