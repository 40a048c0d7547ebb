//! What the first programs of a branch tell of a row.
ghost use Rattle.std.specs.Prelude.{◌≡◌, ◌<◌, ◌≤◌, ◌^◌, length, IfOk, IfSome, IsTrue, ◌↔◌, List as Listed, MatchOption};
ghost use Rattle.fill_tree.specs.Cost.{program_cost};
ghost use Rattle.fill_tree.specs.Meaning.{program_tree};
ghost use Rattle.fill_tree.specs.declared.user.Example.{Example};
ghost use Rattle.fill_object.specs.Objector.{Answers};
ghost use Rattle.fill_space.specs.Spaces.{SpaceStands};
ghost use Rattle.fill_session.specs.Suggested.{ComesFirst, IsFew, LeadStands, ObjectsBy, VerdictFew, VerdictIs};

use crate::leads::Lead;
use crate::suggestion::Suggestion;
use fill_eval::program_value;
use fill_space::{Objection, Spaces};
use fill_text::{NoMemory, Text};
use fill_tree::{MOST_PROGRAMS, Prices, Program};
use std::alloc::Global;

/// What the candidates of a branch tell of a row.
#[derive(Drop)]
pub(crate) enum Verdict {
    /// The objection there, which comes before that of the best row so far.
    Found(Objection),
    /// None there does.
    Nothing,
    /// All candidates agree, and a later program may object.
    Unknown,
}

/// What the candidates of a row's branch tell of the row, where this is answered.
pub(crate) fn told_of(
    alloc: Global,
    spaces: &Spaces,
    lead: &Lead,
    row: u32,
    said: &Option<Text>,
    best: &Option<Suggestion>,
) -> Result<Verdict, NoMemory>
    requires lead { LeadStands spaces.now lead.now }
    requires first { 1 ≤ row }
    requires last { row ≤ length spaces.now.ground.sheet.rows }
    requires best { IfSome best.now (IsFew spaces.now.ground.settings.profile.prices) }
    ensures told { IfOk result (λ told. (l : Listed Example) → SpaceStands spaces.now lead.now.space l → VerdictIs spaces.now.ground l row said.now best.now told) }
    ensures few { IfOk result (VerdictFew spaces.now.ground.settings.profile.prices) }
{
    let prices = &spaces.settings().profile.prices;
    let candidates = lead.candidates.as_slice();
    for i in 0..candidates.len() {
        let candidate = &candidates[i];
        if !comes_first(best, candidate, prices) {
            return Ok(Verdict::Nothing);
        }
        if let Some(objection) = objection_by(alloc, spaces, candidate, row, said)? {
            return Ok(Verdict::Found(objection));
        }
    }
    if candidates.len() < MOST_PROGRAMS as usize {
        Ok(Verdict::Nothing)
    } else {
        Ok(Verdict::Unknown)
    }
}

/// Whether the program comes before the objector of the best row so far, if there is one.
pub(crate) fn comes_first(best: &Option<Suggestion>, program: &Program, prices: &Prices) -> bool
    requires best { IfSome best.now (IsFew prices.now) }
    requires next { program_cost prices.now (program_tree program.now) < 2 ^ 64 }
    ensures { IsTrue result ↔ ComesFirst prices.now best.now (program_tree program.now) }
{
    match best {
        Some(best) => program.before(&best.objection.program, prices),
        None => true,
    }
}

/// The program and its value on the row, if that is not what was said there.
fn objection_by(
    alloc: Global,
    spaces: &Spaces,
    program: &Program,
    row: u32,
    said: &Option<Text>,
) -> Result<Option<Objection>, NoMemory>
    requires first { 1 ≤ row }
    requires last { row ≤ length spaces.now.ground.sheet.rows }
    ensures { let g = spaces.now.ground in IfOk result (λ found. MatchOption found
        (Answers g.sheet g.tables row said.now (program_tree program.now))
        (ObjectsBy g row said.now (program_tree program.now))) }
{
    let text = program_value(alloc, program, row, spaces.sheet(), spaces.tables())?;
    if is_same(&text, said) {
        return Ok(None);
    }
    let program = program.copy(alloc)?;
    Ok(Some(Objection { program, text }))
}

/// Whether two answers are the same.
fn is_same(text: &Option<Text>, said: &Option<Text>) -> bool
    ensures { IsTrue result ↔ (text.now ≡ said.now) }
{
    match (text, said) {
        (Some(text), Some(said)) => text.same(said),
        (None, None) => true,
        (_, _) => false,
    }
}
