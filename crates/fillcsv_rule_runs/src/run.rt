//! The run of a rule over a stream.
ghost use Rattle.std.specs.Prelude.{◌≡◌};
ghost use Rattle.std.specs.Io.KnownBytes.{prepend_known};
ghost use Rattle.fillcsv_rules.specs.Rule.{IsRule, rule_data};
ghost use Rattle.fill_stream.specs.Fronts.{IsMarked};
ghost use Rattle.fillcsv_rule_runs.specs.Loaded.{loaded_data};
ghost use Rattle.fillcsv_rule_runs.specs.Passing.{status_after};
ghost use Rattle.fillcsv_rule_runs.specs.Run.{EndsSink, EndsSource, RunWrites};

use crate::pass::{How, pass};
use crate::{Ended, LoadedRule, Status};
use fill_edge::Sink;
use fill_stream::{Fronted, RecordStream, Source, Start, Tap, Watch};
use std::alloc::Global;
use std::marker::Brand;

/// Runs a rule over a stream: reads record after record, and writes what is made of each.
///
/// A byte order mark in front is kept. Where the rule has names, the first record is the header, by which its columns are
/// found, and nothing is written before they are. Of the records one is kept at a time, and 64 KB of what is to be written.
pub fn filter_stream<'r, S: Source + Drop, K: Sink, W: Watch>(
    alloc: Global,
    loaded: &'r LoadedRule,
    source: S,
    sink: &mut K,
    watch: &mut W,
) -> Ended<'r, S>
    requires { IsRule (rule_data loaded.now.rule) }
    ensures writes { RunWrites (loaded_data loaded.now) result.status (S.left source) (K.written sink.old) (K.written sink.new) }
    ensures source { EndsSource result.status (S.left result.source) (S.faults source) (S.faults result.source) }
    ensures whole { S.whole result.source ≡ S.whole source }
    ensures sink { EndsSink result.status (K.faults sink.old) (K.faults sink.new) }
{
    let mut fronted = Fronted::new(source);
    match fronted.is_marked() {
        Ok(marked) => filter_from::<S, K, W, Brand>(alloc, loaded, marked, fronted, sink, watch),
        Err(_) => Ended {
            status: Status::ReadFault,
            source: fronted.into_inner(),
        },
    }
}

/// Runs a rule over a stream of which it is known whether a byte order mark stands in front.
fn filter_from<'r, S: Source + Drop, K: Sink, W: Watch, B: Start>(
    alloc: Global,
    loaded: &'r LoadedRule,
    marked: bool,
    source: Fronted<S>,
    sink: &mut K,
    watch: &mut W,
) -> Ended<'r, S>
    requires rule { IsRule (rule_data loaded.now.rule) }
    requires marked { IsMarked (prepend_known source.front (S.left source.source)) marked }
    requires before { B.before ≡ S.faults source.source }
    requires whole { B.whole ≡ S.whole source.source }
    ensures writes { RunWrites (loaded_data loaded.now) result.status (prepend_known source.front (S.left source.source)) (K.written sink.old) (K.written sink.new) }
    ensures source { EndsSource result.status (S.left result.source) (S.faults source.source) (S.faults result.source) }
    ensures whole { S.whole result.source ≡ S.whole source.source }
    ensures sink { EndsSink result.status (K.faults sink.old) (K.faults sink.new) }
{
    let mut records = RecordStream::new(alloc, Tap::<Fronted<S>, B>::new(source));
    let how = pass(alloc, loaded, marked, &mut records, sink, watch);
    let tap = records.into_inner();
    let status = status_of(how, tap.failed(), tap.ended());
    Ended {
        status,
        source: tap.into_source().into_inner(),
    }
}

/// How a run ended whose pass ended so, over a source of which a read failed or the last one found the end.
fn status_of<'r>(how: How<'r>, failed: bool, ended: bool) -> Status<'r>
    ensures { result ≡ status_after how.entry failed ended }
{
    match how {
        How::Missing(name) => Status::Missing(name),
        How::Ambiguous(name) => Status::Ambiguous(name),
        How::NotText { record, column } => Status::NotText { record, column },
        How::WriteFault => Status::WriteFault,
        How::All => {
            if failed {
                Status::ReadFault
            } else if ended {
                Status::Done
            } else {
                Status::NoMemory
            }
        }
        How::Broken => {
            if failed {
                Status::ReadFault
            } else {
                Status::NoMemory
            }
        }
    }
}
