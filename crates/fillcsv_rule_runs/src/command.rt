//! The run of a rule as a command does it: a status, and lines that say how it goes.
ghost use Rattle.std.specs.Prelude.{◌≡◌, true};
ghost use Rattle.fillcsv_rules.specs.Rule.{IsRule, rule_data};
ghost use Rattle.fillcsv_rule_runs.specs.Loaded.{loaded_data};
ghost use Rattle.fillcsv_rule_runs.specs.Run.{RanAs, code_of};

use crate::lines::say_why;
use crate::progress::Progress;
use crate::run::filter_stream;
use crate::{Ended, LoadedRule, Status};
use fill_edge::Sink;
use fill_stream::{Counts, Source};
use std::alloc::Global;

/// What a command leaves: its status, and the source.
#[derive(Drop)]
pub struct Ran<S> {
    /// 0 where all was done; 3 where a file or the stream could not be read, 4 where the output could not be written, 5
    /// where a file or the stream is refused, 6 where memory ran out.
    pub status: u8,
    pub source: S,
}

/// Runs a rule over a stream.
///
/// On `err` a line says why the run ended before the stream did. Unless it is to be quiet, a line says at the end how many
/// rows there were and how many of them were filled, and one each million rows how far it is.
pub fn run_rule<S: Source + Drop, O: Sink, E: Sink>(
    alloc: Global,
    loaded: &LoadedRule,
    source: S,
    quiet: bool,
    out: &mut O,
    err: &mut E,
) -> Ran<S>
    requires { IsRule (rule_data loaded.now.rule) }
    ensures ran { RanAs (loaded_data loaded.now) result.status (S.left source) (S.left result.source) (S.faults source) (S.faults result.source) (O.written out.old) (O.written out.new) (O.faults out.old) (O.faults out.new) }
    ensures whole { S.whole result.source ≡ S.whole source }
    ensures silent { quiet ≡ true → result.status ≡ 0 → err.new ≡ err.old }
{
    if quiet {
        let mut counts = Counts::new();
        let ended = filter_stream(alloc, loaded, source, out, &mut counts);
        let _ = say_why(err, ended.status);
        left_by(ended)
    } else {
        let mut progress = Progress::new(err);
        let ended = filter_stream(alloc, loaded, source, out, &mut progress);
        let _ = progress.end(ended.status);
        left_by(ended)
    }
}

/// What a command leaves whose run ended so.
fn left_by<S>(ended: Ended<'_, S>) -> Ran<S>
    ensures status { result.status ≡ code_of ended.entry.status }
    ensures source { result.source ≡ ended.entry.source }
{
    Ran {
        status: code_of(ended.status),
        source: ended.source,
    }
}

/// The status of a run that ended so.
fn code_of(status: Status<'_>) -> u8
    ensures { result ≡ code_of status.entry }
{
    match status {
        Status::Done => 0,
        Status::ReadFault => 3,
        Status::WriteFault => 4,
        Status::Missing(_) => 5,
        Status::Ambiguous(_) => 5,
        Status::NotText { .. } => 5,
        Status::NoMemory => 6,
    }
}
