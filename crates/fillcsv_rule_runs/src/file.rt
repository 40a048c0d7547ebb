//! The run of a rule that stands in a file.
ghost use Rattle.std.specs.Prelude.{◌≡◌, ◌≢◌, ℕ, IfErr, IfOk, List, true};
ghost use Rattle.fill_edge.specs.Outside.{NoneFell};
ghost use Rattle.fillcsv_rules.specs.Rule.{IsRule, rule_data};
ghost use Rattle.fillcsv_rule_runs.specs.Loaded.{loaded_data};
ghost use Rattle.fillcsv_rule_runs.specs.RuleFile.{HasLoaded, HasNoRule, HasRule, RanFile, TellsNoRule, status_of};
ghost use Rattle.fillcsv_rule_runs.specs.Said.{Says};

use crate::lines::{MEMORY_LINE, no_rule_line, say};
use crate::{LoadedRule, Ran, run_rule};
use fill_edge::{Cabinet, LARGEST_FILE, ReadError, Sink, read_all};
use fill_opening::Stop;
use fill_stream::Source;
use fillcsv_rules::{Rule, RuleError, read_rule};
use fillcsv_tables::{Line, open_tables};
use std::alloc::{AllocError, Global};

/// The file of a rule, and how much is said of its run.
#[derive(Clone, Copy, Debug)]
pub struct RuleFile<'a> {
    /// The name of the file in the cabinet.
    pub name: &'a str,
    /// Whether nothing is said of a run that succeeds.
    pub quiet: bool,
}

/// Why there is no rule to run.
#[derive(Debug, Drop)]
pub(crate) enum NoRule {
    /// There is no such file, or a read of it failed.
    Unread,
    /// The file has more bytes than one may have.
    TooLong,
    /// The line of this number, from 1, is the first that no rule has there.
    BadLine { number: usize },
    /// The tables that it looks up in do not open.
    NoTables(Stop<Line>),
    /// Out of memory.
    NoMemory,
}

/// Runs the rule that stands in a file over a stream, as `run_rule` does.
///
/// The tables that the rule looks up in are read first. Where there is no rule, or a table does not open, a line on `err`
/// says why, with the name of the file, and neither is the stream read nor anything written to `out`.
pub fn run_rule_file<C: Cabinet, S: Source + Drop, O: Sink, E: Sink>(
    alloc: Global,
    file: RuleFile<'_>,
    cabinet: &mut C,
    source: S,
    out: &mut O,
    err: &mut E,
) -> Ran<S>
    ensures ran { RanFile file.entry.name.now (C.files cabinet.old) (C.faults cabinet.old) (C.faults cabinet.new) result.status (S.left source) (S.left result.source) (S.faults source) (S.faults result.source)
        (O.written out.old) (O.written out.new) (O.faults out.old) (O.faults out.new) (Says (E.written err.old) (E.written err.new) (E.faults err.old) (E.faults err.new)) }
    ensures whole { S.whole result.source ≡ S.whole source }
    ensures silent { file.entry.quiet ≡ true → result.status ≡ 0 → err.new ≡ err.old }
    ensures files { C.files cabinet.new ≡ C.files cabinet.old }
    ensures later { NoneFell (C.faults cabinet.old) (C.faults cabinet.new) }
{
    match load_rule(alloc, cabinet, file.name) {
        Ok(loaded) => run_rule(alloc, &loaded, source, file.quiet, out, err),
        Err(why) => {
            let status = tell_no_rule(alloc, file.name, &why, err);
            Ran { status, source }
        }
    }
}

/// The rule in the file of this name, with its tables.
fn load_rule<C: Cabinet>(alloc: Global, cabinet: &mut C, name: &str) -> Result<LoadedRule, NoRule>
    ensures ok { IfOk result (λ loaded. HasLoaded (C.files cabinet.old) name.now (loaded_data loaded)) }
    ensures rule { IfOk result (λ loaded. IsRule (rule_data loaded.rule)) }
    ensures err { IfErr result (HasNoRule (C.files cabinet.old) name.now (C.faults cabinet.old) (C.faults cabinet.new)) }
    ensures files { C.files cabinet.new ≡ C.files cabinet.old }
    ensures later { NoneFell (C.faults cabinet.old) (C.faults cabinet.new) }
{
    match open_rule(alloc, cabinet, name) {
        Ok(rule) => match open_tables(alloc, cabinet, &rule.lookups) {
            Ok(tables) => Ok(LoadedRule { rule, tables }),
            Err(stop) => Err(NoRule::NoTables(stop)),
        },
        Err(why) => Err(why),
    }
}

/// The rule in the file of this name.
fn open_rule<C: Cabinet>(alloc: Global, cabinet: &mut C, name: &str) -> Result<Rule, NoRule>
    ensures ok { IfOk result (λ rule. HasRule (C.files cabinet.old) name.now (rule_data rule)) }
    ensures rule { IfOk result (λ rule. IsRule (rule_data rule)) }
    ensures err { IfErr result (HasNoRule (C.files cabinet.old) name.now (C.faults cabinet.old) (C.faults cabinet.new)) }
    ensures files { C.files cabinet.new ≡ C.files cabinet.old }
    ensures later { NoneFell (C.faults cabinet.old) (C.faults cabinet.new) }
{
    let bytes = match read_all(alloc, cabinet, name, LARGEST_FILE) {
        Ok(bytes) => bytes,
        Err(ReadError::ReadFault) => return Err(NoRule::Unread),
        Err(ReadError::Missing) => return Err(NoRule::Unread),
        Err(ReadError::TooLong { .. }) => return Err(NoRule::TooLong),
        Err(ReadError::NoMemory) => return Err(NoRule::NoMemory),
    };
    match read_rule(alloc, bytes.as_slice()) {
        Ok(rule) => Ok(rule),
        Err(RuleError::BadLine { number }) => Err(NoRule::BadLine { number }),
        Err(RuleError::NoMemory) => Err(NoRule::NoMemory),
    }
}

/// Writes the line that says why there is no rule, and answers the status. Where there is no memory for a line that is
/// made, that is said instead.
fn tell_no_rule<E: Sink>(alloc: Global, name: &str, why: &NoRule, err: &mut E) -> u8
    ensures told { TellsNoRule name.now why.now result (Says (E.written err.old) (E.written err.new) (E.faults err.old) (E.faults err.new)) }
    ensures lent { (line : List ℕ) → why.now ≡ NoRule.NoTables (Stop.Refused line) → result ≡ 5 }
    ensures some { result ≢ 0 }
{
    match no_rule_line(alloc, name, why) {
        Ok(line) => {
            say(err, line.as_str().as_bytes());
            status_of(why)
        }
        Err(AllocError) => {
            say(err, MEMORY_LINE);
            6
        }
    }
}

/// The status of a command that has no rule.
fn status_of(why: &NoRule) -> u8
    ensures { result ≡ status_of why.now }
{
    match why {
        NoRule::Unread => 3,
        NoRule::TooLong => 5,
        NoRule::BadLine { .. } => 5,
        NoRule::NoTables(Stop::Unread(_)) => 3,
        NoRule::NoTables(Stop::Refused(_)) => 5,
        NoRule::NoTables(Stop::NoMemory) => 6,
        NoRule::NoMemory => 6,
    }
}
