//! What a question for best programs writes.
ghost use Rattle.std.specs.Prelude.{◌≡◌, ◌↔◌, ◌≤◌, length, map, IfOk, IsErrOf, IsTrue};
ghost use Rattle.fill_edge.specs.Outside.{Rose};
ghost use Rattle.fill_tree.specs.Meaning.{program_tree};
ghost use Rattle.fill_report.specs.Entries.{QueryBegins, QueryWrites};
ghost use Rattle.fill_report.specs.Output.{Leaves};
ghost use Rattle.fill_report.specs.Records.{best_record, best_records, no_branch_record};
ghost use Rattle.fill_report.specs.Writing.{LeavesFirst};
ghost use Rattle.fill_report.specs.declared.tasks.Query.TheVariants as query;

use crate::queries::write_made;
use fill_edge::Sink;
use fill_output::{Halt, Record};
use fill_print::print_program;
use fill_session::{Branch, Session};
use fill_text::NoMemory;
use fill_tree::{MOST_PROGRAMS, Program};
use std::alloc::Global;

/// The record of the best program of a number, of a branch.
fn best_record(
    alloc: Global,
    branch: u32,
    number: u32,
    program: &Program,
) -> Result<Record, NoMemory>
    ensures { IfOk result (λ made. made ≡ best_record branch number (program_tree program.now)) }
{
    let program = print_program(alloc, program)?;
    Record::of(alloc, b"best")?
        .with_number(branch)?
        .with_number(number)?
        .with(program.as_slice())
}

/// Writes the records of programs of a branch, each when it is made.
fn write_programs<O: Sink>(
    alloc: Global,
    branch: u32,
    programs: &[Program],
    out: &mut O,
) -> Result<bool, Halt>
    requires { length programs.now ≤ MOST_PROGRAMS }
    ensures leaves { LeavesFirst (best_records branch 1 (map program_tree programs.now)) result (O.written out.old) (O.written out.new) }
    ensures fault { IsErrOf result Halt.Fault → Rose (O.faults out.old) (O.faults out.new) }
    ensures later { O.faults out.old ≤ O.faults out.new }
{
    for (i, program) in programs.iter().enumerate() {
        match write_made(
            best_record(alloc, branch, i as u32 + 1, program),
            false,
            out,
        ) {
            Ok(_) => {}
            Err(halt) => return Err(halt),
        }
    }
    Ok(false)
}

/// The record of best programs that were asked for of a branch that there is not.
pub(crate) fn no_branch_record(alloc: Global, branch: u32) -> Result<Record, NoMemory>
    ensures { IfOk result (λ made. made ≡ no_branch_record branch) }
{
    Record::of(alloc, b"refused")?
        .with(b"best")?
        .with_number(branch)?
        .with(b"no such branch")
}

/// Whether there is the branch.
fn has_branch(branches: &[Branch], branch: u32) -> bool
    ensures { IsTrue result ↔ ((1 ≤ branch) × (branch ≤ length branches.now)) }
{
    1 <= branch && branch as usize <= branches.len()
}

/// Writes the records of the first `k` programs of a branch, each when it is made, or that of a refusal where there is no
/// such branch.
pub(crate) fn write_best<O: Sink>(
    alloc: Global,
    session: &Session,
    branch: u32,
    k: u32,
    out: &mut O,
) -> Result<bool, Halt>
    requires some { 1 ≤ k }
    requires few { k ≤ MOST_PROGRAMS }
    ensures leaves { Leaves (QueryWrites session.now.spaces.ground session.now.examples (query.Best branch k))
        (QueryBegins session.now.spaces.ground session.now.examples (query.Best branch k)) result (O.written out.old) (O.written out.new) 0 0 }
    ensures fault { IsErrOf result Halt.Fault → Rose (O.faults out.old) (O.faults out.new) }
    ensures later { O.faults out.old ≤ O.faults out.new }
{
    if !has_branch(session.branches(), branch) {
        return write_made(no_branch_record(alloc, branch), true, out);
    }
    match session.best(branch, k) {
        Ok(programs) => write_programs(alloc, branch, programs.as_slice(), out),
        Err(NoMemory) => Err(Halt::NoMemory),
    }
}
