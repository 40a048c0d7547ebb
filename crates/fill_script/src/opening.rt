//! The opening section of a session.
ghost use Rattle.std.specs.Prelude.{◌≡◌, ◌≢◌, ◌≤◌, length, Ok, Err, IfOk, IfErr, OnOk};
ghost use Rattle.fill_script.specs.Opening.{after_line, after_lines, is_said, is_understood, is_wide, unset, with_statement};

use crate::script::MOST_LINES;
use crate::statement::{Statement, statement_in};
use crate::{ScriptError, TableLine};
use fill_numbers::is_among;
use fill_records::Record;
use fill_text::{List, Name, NoMemory};
use fill_tree::Constants;
use std::alloc::Global;

/// What the lines before `begin` have set.
#[derive(Debug, Drop)]
pub(crate) struct Opening {
    pub(crate) sheet: Option<Name>,
    pub(crate) header: bool,
    pub(crate) inputs: Option<List<u32>>,
    pub(crate) output: Option<u32>,
    pub(crate) tables: List<TableLine>,
    pub(crate) depth: Option<u8>,
    pub(crate) constants: Option<Constants>,
    pub(crate) profile: Option<u8>,
}

impl Opening {
    /// Nothing is set.
    fn unset(alloc: Global) -> Opening
        ensures { result ≡ unset }
    {
        Opening {
            sheet: None,
            header: false,
            inputs: None,
            output: None,
            tables: List::new(alloc),
            depth: None,
            constants: None,
            profile: None,
        }
    }

    /// What these lines set, the first of which is line 1.
    pub(crate) fn of_lines(alloc: Global, lines: &[Record]) -> Result<Opening, ScriptError>
        requires { length lines.now ≤ MOST_LINES }
        ensures ok { IfOk result (λ opening. after_lines unset 1 lines.now ≡ Ok opening) }
        ensures err { IfErr result (λ e. e ≢ ScriptError.NoMemory → after_lines unset 1 lines.now ≡ Err e) }
    {
        let mut opening = Opening::unset(alloc);
        let mut number = 1;
        for line in lines {
            opening.take(alloc, number, line)?;
            number += 1;
        }
        Ok(opening)
    }

    /// Takes the line of a number.
    fn take(&mut self, alloc: Global, number: u32, line: &Record) -> Result<(), ScriptError>
        ensures ok { OnOk result (after_line self.old number line.now ≡ Ok self.new) }
        ensures err { IfErr result (λ e. e ≢ ScriptError.NoMemory → after_line self.old number line.now ≡ Err e) }
    {
        if !line.is_text() {
            return Err(ScriptError::NotUtf8 { number });
        }
        let Some(statement) = statement_in(alloc, number, line)? else {
            return Err(ScriptError::BadRecord { number });
        };
        if !self.understands(&statement) {
            return Err(ScriptError::BadRecord { number });
        }
        if self.has_said(&statement) {
            return Err(ScriptError::Again { number });
        }
        self.put(statement)?;
        Ok(())
    }

    /// Whether a line is understood beside the earlier ones.
    fn understands(&self, statement: &Statement) -> bool
        ensures { result ≡ is_understood self.now statement.now }
    {
        match statement {
            Statement::Inputs(columns) => match self.output {
                Some(column) => !is_among(columns.as_slice(), column),
                None => true,
            },
            Statement::Output(column) => match &self.inputs {
                Some(columns) => !is_among(columns.as_slice(), *column),
                None => true,
            },
            Statement::Depth(depth) => *depth <= 2 || self.is_wide(),
            _ => true,
        }
    }

    /// Whether the second profile was set.
    fn is_wide(&self) -> bool
        ensures { result ≡ is_wide self.now.profile }
    {
        match self.profile {
            Some(profile) => profile == 2,
            None => false,
        }
    }

    /// Whether an earlier line said the same kind of thing, which only one line may.
    fn has_said(&self, statement: &Statement) -> bool
        ensures { result ≡ is_said self.now statement.now }
    {
        match statement {
            Statement::Sheet(_) => self.sheet.is_some(),
            Statement::Header => self.header,
            Statement::Inputs(_) => self.inputs.is_some(),
            Statement::Output(_) => self.output.is_some(),
            Statement::Lookup(_) => false,
            Statement::Depth(_) => self.depth.is_some(),
            Statement::Constants(_) => self.constants.is_some(),
            Statement::Profile(_) => self.profile.is_some(),
        }
    }

    /// Sets what a line says.
    fn put(&mut self, statement: Statement) -> Result<(), NoMemory>
        ensures { OnOk result (self.new ≡ with_statement self.old statement) }
    {
        match statement {
            Statement::Sheet(file) => self.sheet = Some(file),
            Statement::Header => self.header = true,
            Statement::Inputs(columns) => self.inputs = Some(columns),
            Statement::Output(column) => self.output = Some(column),
            Statement::Lookup(line) => self.tables.push(line)?,
            Statement::Depth(depth) => self.depth = Some(depth),
            Statement::Constants(which) => self.constants = Some(which),
            Statement::Profile(profile) => self.profile = Some(profile),
        }
        Ok(())
    }
}
