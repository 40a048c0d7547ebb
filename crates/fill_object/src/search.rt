//! The least rests of programs, from a node of a graph on, that answer what is wanted.
//!
//! A rest is looked for within a limit of its cost, which is raised until one is found. What a rest costs at least is known
//! of each node, so most edges are passed over, and only those that are not are read on the row.
ghost use Rattle.std.specs.Prelude.{◌≡◌, ◌<◌, ◌≤◌, ℕ, length, slice_get, IfOk, OnOk, Some};
ghost use Rattle.fill_tree.specs.Meaning.{atom_tree};
ghost use Rattle.fill_arena.specs.declared.entry.Edge.{Edge as Listed};
ghost use Rattle.fill_object.specs.Chains.{IsLeastWithin};
ghost use Rattle.fill_object.specs.Kinds.{atoms_on};
ghost use Rattle.fill_object.specs.Outs.{NoneOutFrom};
ghost use Rattle.fill_object.specs.Rests.{AreFound, IsAlong, IsEnd, IsSearch, IsThen, RestStands};
ghost use Rattle.fill_object.specs.Wants.{RestAgrees};

use crate::chain::{Least, led_by, left_after};
use crate::costs::sum_of;
use crate::edges::atoms_of;
use crate::guide::Guide;
use crate::memo::Memo;
use crate::rests::Rests;
use crate::row::OnRow;
use crate::valued::ValuedAtom;
use crate::wanted::Wanted;
use fill_arena::Edge;
use fill_text::NoMemory;
use fill_tree::Chain;
use std::alloc::Global;
use std::rc::Rc;

/// How much more than the least a rest may cost where none was found for that.
const SLACK: u64 = 8;

/// A graph's edges, what leads through them, the last node, and the text that was said.
#[derive(Clone, Copy)]
pub(crate) struct Search<'a> {
    pub on: OnRow<'a>,
    pub edges: &'a [Edge],
    pub guide: &'a Guide,
    pub last: usize,
    pub answer: &'a [char],
}

/// What was found on the row.
#[derive(Drop)]
pub(crate) struct Findings {
    pub memo: Memo,
    pub rests: Rests,
}

/// The least rest from a node on.
#[cycle(rests)]
pub(crate) fn least_rest(
    search: &Search<'_>,
    findings: &mut Findings,
    node: usize,
    wanted: Wanted,
    limit: u64,
) -> Result<Least, NoMemory>
    requires search { IsSearch search.now }
    requires within { node ≤ search.now.last }
    requires findings { AreFound search.now findings.old }
    ensures findings { OnOk result (AreFound search.now findings.new) }
    ensures least { IfOk result (IsLeastWithin search.now.on.prices.now limit (RestStands search.now node) (RestAgrees search.now.on search.now.answer.now wanted)) }
{
    let mut within = search.guide.bounds.rest(node);
    if within > limit {
        return Ok(Least::Absent);
    }
    let mut slack = SLACK;
    while within < limit {
        let rest = rest_within(search, findings, node, wanted, within)?;
        if rest.is_found() {
            return Ok(rest);
        }
        within = raised(within, slack);
        slack = sum_of(sum_of(slack, slack), sum_of(slack, slack));
    }
    let rest = rest_within(search, findings, node, wanted, within)?;
    Ok(rest.within(limit))
}

/// The limit with the slack; the greatest number where it would be above.
fn raised(within: u64, slack: u64) -> u64
    requires { within < u64.MAX }
    ensures { within < result }
{
    if slack == 0 || slack > u64::MAX - within {
        return u64::MAX;
    }
    within + slack
}

/// The least rest within the limit, looked for once for each limit.
#[cycle(rests)]
fn rest_within(
    search: &Search<'_>,
    findings: &mut Findings,
    node: usize,
    wanted: Wanted,
    limit: u64,
) -> Result<Least, NoMemory>
    requires search { IsSearch search.now }
    requires within { node ≤ search.now.last }
    requires findings { AreFound search.now findings.old }
    ensures findings { OnOk result (AreFound search.now findings.new) }
    ensures least { IfOk result (IsLeastWithin search.now.on.prices.now limit (RestStands search.now node) (RestAgrees search.now.on search.now.answer.now wanted)) }
{
    if let Some(least) = findings.rests.recall(node, wanted, limit) {
        return Ok(least.copy()?.within(limit));
    }
    let least = along_edges(search, findings, node, wanted, limit)?;
    findings.rests.keep(node, wanted, limit, least.copy()?)?;
    Ok(least)
}

/// The rest without atoms, if the node is the last one and it answers what is wanted.
fn ended(search: &Search<'_>, node: usize, wanted: Wanted) -> Result<Least, NoMemory>
    ensures { (limit : ℕ) → IfOk result (IsLeastWithin search.now.on.prices.now limit (IsEnd search.now node) (RestAgrees search.now.on search.now.answer.now wanted)) }
{
    if node != search.last {
        return Ok(Least::Absent);
    }
    if !wanted.is_end(search.answer) {
        return Ok(Least::Absent);
    }
    let chain = Rc::new(search.on.alloc, Chain::empty(search.on.alloc))?;
    Ok(Least::Found(chain))
}

/// The place after the last edge from the node.
fn last_out(search: &Search<'_>, node: usize) -> usize
    requires { IsSearch search.now }
    ensures most { result ≤ length search.now.edges.now }
    ensures none { NoneOutFrom search.now.edges.now node result }
{
    let place = search.guide.outs.latest(node);
    if place < search.edges.len() {
        place
    } else {
        search.edges.len()
    }
}

/// The place after the last edge from the node that stands before this place.
fn out_before(search: &Search<'_>, i: usize, node: usize) -> usize
    requires search { IsSearch search.now }
    requires edge { i < length search.now.edges.now }
    ensures less { result ≤ i }
    ensures none { (k : ℕ) (e : Listed) → slice_get search.now.edges.now k ≡ Some e → e.from ≡ node → k < i → k < result }
{
    if search.edges[i].from != node {
        return i;
    }
    search.guide.outs.before(i)
}

/// The least rest along any of the edges, or without one, that costs no more than the limit.
#[cycle(rests)]
fn along_edges(
    search: &Search<'_>,
    findings: &mut Findings,
    node: usize,
    wanted: Wanted,
    limit: u64,
) -> Result<Least, NoMemory>
    requires search { IsSearch search.now }
    requires within { node ≤ search.now.last }
    requires findings { AreFound search.now findings.old }
    ensures findings { OnOk result (AreFound search.now findings.new) }
    ensures least { IfOk result (IsLeastWithin search.now.on.prices.now limit (RestStands search.now node) (RestAgrees search.now.on search.now.answer.now wanted)) }
{
    let mut best = ended(search, node, wanted)?;
    let mut left = last_out(search, node);
    while left > 0 {
        let i = left - 1;
        let within = best.limit(limit);
        let next = along_edge(search, findings, i, node, wanted, within)?;
        best = best.or(next);
        left = out_before(search, i, node);
    }
    Ok(best)
}

/// The least rest along one edge, if that is an edge from the node, that costs no more than the limit.
#[cycle(rests)]
fn along_edge(
    search: &Search<'_>,
    findings: &mut Findings,
    i: usize,
    node: usize,
    wanted: Wanted,
    limit: u64,
) -> Result<Least, NoMemory>
    requires search { IsSearch search.now }
    requires edge { i < length search.now.edges.now }
    requires findings { AreFound search.now findings.old }
    ensures findings { OnOk result (AreFound search.now findings.new) }
    ensures least { IfOk result (λ o. (e : Listed) → slice_get search.now.edges.now i ≡ Some e →
        IsLeastWithin search.now.on.prices.now limit (IsAlong search.now node e) (RestAgrees search.now.on search.now.answer.now wanted) o) }
{
    let edge = search.edges[i];
    if edge.from != node {
        return Ok(Least::Absent);
    }
    if search.guide.bounds.along(i, edge.to) > limit {
        return Ok(Least::Absent);
    }
    let atoms = atoms_of(&search.on, &mut findings.memo, edge.atoms)?;
    let mut best = Least::Absent;
    for atom in atoms.as_slice() {
        let within = best.limit(limit);
        let next = with_atom(search, findings, atom, edge.to, wanted, within)?;
        best = best.or(next);
    }
    Ok(best)
}

/// The least rest that begins with an atom and goes on from a node, and costs no more than the limit.
#[cycle(rests)]
fn with_atom(
    search: &Search<'_>,
    findings: &mut Findings,
    atom: &ValuedAtom,
    to: usize,
    wanted: Wanted,
    limit: u64,
) -> Result<Least, NoMemory>
    requires search { IsSearch search.now }
    requires within { to ≤ search.now.last }
    requires atom { (atoms_on search.now.on).Right atom.now }
    requires findings { AreFound search.now findings.old }
    ensures findings { OnOk result (AreFound search.now findings.new) }
    ensures least { IfOk result (IsLeastWithin search.now.on.prices.now limit (IsThen (λ a. a ≡ atom_tree atom.now.atom) (RestStands search.now to)) (RestAgrees search.now.on search.now.answer.now wanted)) }
{
    let Some(next) = wanted.after(search.answer, &atom.text) else {
        return Ok(Least::Absent);
    };
    let Some(left) = left_after(search.on.prices, &atom.atom, limit) else {
        return Ok(Least::Absent);
    };
    let rest = least_rest(search, findings, to, next, left)?;
    let made = led_by(search.on.alloc, &atom.atom, limit - left, rest)?;
    Ok(made)
}
