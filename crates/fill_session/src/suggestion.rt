//! Which row to look at next.
ghost use Rattle.std.specs.Prelude.{◌≡◌, ◌↔◌, ◌<◌, ◌≤◌, ◌^◌, suc, length, IfOk, IfSome, Contains, IsTrue, MatchOption, OnOk, option_map};
ghost use Rattle.fill_tree.specs.Cost.{program_cost};
ghost use Rattle.fill_tree.specs.Meaning.{program_tree};
ghost use Rattle.fill_doubt.specs.Shapes.{ShapesStand};
ghost use Rattle.fill_space.specs.Objector.{objection_tree};
ghost use Rattle.fill_session.specs.Answers.{AnswerIs};
ghost use Rattle.fill_session.specs.Suggested.{FirstAsked, IsAskedAt, IsFew, LeadsStand, NoneAsked, ObjectorWithin, SuggestionIs, asked_of, cost_of, is_silent};
ghost use Rattle.fill_session.specs.declared.answer.State.TheVariants.{Doubt};

use crate::answers::taken_on;
use crate::candidates::{Verdict, comes_first, told_of};
use crate::leads::{Lead, leads_of};
use crate::session::Session;
use crate::{Answer, State};
use fill_space::{Objection, Shapes};
use fill_text::{NoMemory, Text};
use fill_tree::Prices;
use std::alloc::Global;

/// A row in doubt that is worth a look.
#[derive(Debug, Drop)]
pub struct Suggestion {
    /// The row, which counts from 1.
    pub row: u32,
    /// What is answered there; none where the branch's program has no value.
    pub answer: Option<Text>,
    /// The least program that explains the branch's examples and answers otherwise, with its value.
    pub objection: Objection,
}

/// Rows that are asked: those with an answer, or those without one.
#[derive(Clone, Copy)]
struct Asking<'a> {
    alloc: Global,
    session: &'a Session,
    /// What leads the search for objectors, for each branch.
    leads: &'a [Lead],
    /// Rows that are passed over.
    passed: &'a [u32],
    silent: bool,
}

/// Which row to look at next, beside those passed over: first those in doubt without an answer, then that whose objector
/// comes first; none where no other row is in doubt.
pub(crate) fn suggest_beside(
    alloc: Global,
    session: &Session,
    passed: &[u32],
) -> Result<Option<Suggestion>, NoMemory>
    ensures { IfOk result (λ found. SuggestionIs session.now.spaces.ground session.now.examples passed.now (option_map asked_of found)) }
{
    let leads = leads_of(alloc, session)?;
    let asking = Asking {
        alloc,
        session,
        leads: leads.as_slice(),
        passed,
        silent: true,
    };
    let silent = first_asked(&asking)?;
    if silent.is_some() {
        return Ok(silent);
    }
    first_asked(&Asking {
        silent: false,
        ..asking
    })
}

/// The row to look at first of those that are asked.
fn first_asked(asking: &Asking<'_>) -> Result<Option<Suggestion>, NoMemory>
    requires { LeadsStand asking.now.session.now asking.now.leads.now }
    ensures { let s = asking.now.session.now in IfOk result (FirstAsked s.spaces.ground s.examples asking.now.passed.now asking.now.silent (length s.spaces.ground.sheet.rows)) }
{
    let mut shapes = Shapes::new(asking.alloc);
    let mut best: Option<Suggestion> = None;
    for above in 0..asking.session.sheet().rows() {
        ask(asking, &mut shapes, above, &mut best)?;
    }
    Ok(best)
}

/// Asks the row `above + 1`, and keeps it if it is to be looked at before the best so far.
fn ask(
    asking: &Asking<'_>,
    shapes: &mut Shapes,
    above: u32,
    best: &mut Option<Suggestion>,
) -> Result<(), NoMemory>
    requires leads { LeadsStand asking.now.session.now asking.now.leads.now }
    requires row { above < length asking.now.session.now.spaces.ground.sheet.rows }
    requires small { above < 4294967295 }
    requires shapes { ShapesStand asking.now.session.now.spaces.arena shapes.old }
    requires first { FirstAsked asking.now.session.now.spaces.ground asking.now.session.now.examples asking.now.passed.now asking.now.silent above best.old }
    requires few { IfSome best.old (IsFew asking.now.session.now.spaces.ground.settings.profile.prices) }
    ensures shapes { ShapesStand asking.now.session.now.spaces.arena shapes.new }
    ensures first { OnOk result (FirstAsked asking.now.session.now.spaces.ground asking.now.session.now.examples asking.now.passed.now asking.now.silent (suc above) best.new) }
    ensures few { OnOk result (IfSome best.new (IsFew asking.now.session.now.spaces.ground.settings.profile.prices)) }
{
    if let Some(next) = asked_on(asking, shapes, above + 1, best)? {
        *best = Some(next);
    }
    Ok(())
}

/// The row, if it is one of those that are asked, and its objector comes before that of the best row so far, if there is one.
fn asked_on(
    asking: &Asking<'_>,
    shapes: &mut Shapes,
    row: u32,
    best: &Option<Suggestion>,
) -> Result<Option<Suggestion>, NoMemory>
    requires leads { LeadsStand asking.now.session.now asking.now.leads.now }
    requires first { 1 ≤ row }
    requires last { row ≤ length asking.now.session.now.spaces.ground.sheet.rows }
    requires shapes { ShapesStand asking.now.session.now.spaces.arena shapes.old }
    requires best { IfSome best.now (IsFew asking.now.session.now.spaces.ground.settings.profile.prices) }
    ensures shapes { ShapesStand asking.now.session.now.spaces.arena shapes.new }
    ensures asked { let s = asking.now.session.now in IfOk result (λ found. MatchOption found
        (NoneAsked s.spaces.ground s.examples asking.now.passed.now asking.now.silent row best.now)
        (IsAskedAt s.spaces.ground s.examples asking.now.passed.now asking.now.silent row best.now)) }
    ensures few { IfOk result (λ found. IfSome found (IsFew asking.now.session.now.spaces.ground.settings.profile.prices)) }
{
    if is_among(row, asking.passed) {
        return Ok(None);
    }
    let session = asking.session;
    session.spaces().tables().keeps_keys();
    let Some(taken) = taken_on(asking.alloc, session, row)? else {
        return Ok(None);
    };
    if !is_alike(&taken.text, asking.silent) {
        return Ok(None);
    }
    let lead = &asking.leads[taken.branch as usize - 1];
    match told_of(asking.alloc, session.spaces(), lead, row, &taken.text, best)? {
        Verdict::Found(objection) => Ok(Some(Suggestion {
            row,
            answer: taken.text,
            objection,
        })),
        Verdict::Nothing => Ok(None),
        Verdict::Unknown => searched_on(asking, shapes, row, best),
    }
}

/// As [`asked_on`], for a row that is not passed over, by the graph of its branch.
fn searched_on(
    asking: &Asking<'_>,
    shapes: &mut Shapes,
    row: u32,
    best: &Option<Suggestion>,
) -> Result<Option<Suggestion>, NoMemory>
    requires leads { LeadsStand asking.now.session.now asking.now.leads.now }
    requires first { 1 ≤ row }
    requires last { row ≤ length asking.now.session.now.spaces.ground.sheet.rows }
    requires left { ¬ (Contains asking.now.passed.now row) }
    requires shapes { ShapesStand asking.now.session.now.spaces.arena shapes.old }
    requires best { IfSome best.now (IsFew asking.now.session.now.spaces.ground.settings.profile.prices) }
    ensures shapes { ShapesStand asking.now.session.now.spaces.arena shapes.new }
    ensures asked { let s = asking.now.session.now in IfOk result (λ found. MatchOption found
        (NoneAsked s.spaces.ground s.examples asking.now.passed.now asking.now.silent row best.now)
        (IsAskedAt s.spaces.ground s.examples asking.now.passed.now asking.now.silent row best.now)) }
    ensures few { IfOk result (λ found. IfSome found (IsFew asking.now.session.now.spaces.ground.settings.profile.prices)) }
{
    asking.session.spaces().tables().keeps_keys();
    let answer = asking.session.answer_with(shapes, row)?;
    if !is_asked(&answer, asking.silent) {
        return Ok(None);
    }
    let prices = &asking.session.spaces().settings().profile.prices;
    let limit = limit_of(best, prices);
    let Some(objection) = objector_within(asking, row, &answer, limit)? else {
        return Ok(None);
    };
    if !comes_first(best, &objection.program, prices) {
        return Ok(None);
    }
    Ok(Some(Suggestion {
        row,
        answer: answer.text,
        objection,
    }))
}

/// What the objector of the best row so far costs.
fn limit_of(best: &Option<Suggestion>, prices: &Prices) -> Option<u64>
    requires { IfSome best.now (IsFew prices.now) }
    ensures { result ≡ cost_of prices.now best.now }
{
    match best {
        Some(best) => best.objection.program.cost(prices),
        None => None,
    }
}

/// Whether the row is one of these.
fn is_among(row: u32, rows: &[u32]) -> bool
    ensures { IsTrue result ↔ Contains rows.now row }
{
    rows.contains(&row)
}

/// Whether an answer is in doubt and one of those that are asked.
fn is_asked(answer: &Answer, silent: bool) -> bool
    ensures { IsTrue result ↔ ((answer.now.state ≡ Doubt) × (is_silent answer.now.text ≡ silent)) }
{
    match answer.state {
        State::Doubt => is_alike(&answer.text, silent),
        State::Given => false,
        State::Sure => false,
    }
}

/// Whether there is no text, if that is asked, or some text.
fn is_alike(text: &Option<Text>, silent: bool) -> bool
    ensures { IsTrue result ↔ (is_silent text.now ≡ silent) }
{
    is_silent(text) == silent
}

/// Whether there is no text.
fn is_silent(text: &Option<Text>) -> bool
    ensures { result ≡ is_silent text.now }
{
    match text {
        Some(_) => false,
        None => true,
    }
}

/// The objector of a row in doubt, if it costs no more than the limit, if there is one.
fn objector_within(
    asking: &Asking<'_>,
    row: u32,
    answer: &Answer,
    limit: Option<u64>,
) -> Result<Option<Objection>, NoMemory>
    requires leads { LeadsStand asking.now.session.now asking.now.leads.now }
    requires first { 1 ≤ row }
    requires last { row ≤ length asking.now.session.now.spaces.ground.sheet.rows }
    requires answer { AnswerIs asking.now.session.now.spaces.ground asking.now.session.now.examples row answer.now }
    requires doubt { answer.now.state ≡ Doubt }
    ensures within { let s = asking.now.session.now in IfOk result (λ found. ObjectorWithin s.spaces.ground s.examples row limit (option_map objection_tree found)) }
    ensures few { IfOk result (λ found. IfSome found (λ o. program_cost asking.now.session.now.spaces.ground.settings.profile.prices (program_tree o.program) < 2 ^ 64)) }
{
    let Some(limit) = limit else {
        return asking.session.object(row);
    };
    let lead = &asking.leads[answer.branch as usize - 1];
    asking
        .session
        .spaces()
        .object_within(&lead.guide, lead.space, row, answer.text.as_ref(), limit)
}
