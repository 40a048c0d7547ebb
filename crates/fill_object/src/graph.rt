//! The least program that objects.
ghost use Rattle.std.specs.Prelude.{◌≡◌, ◌<◌, ◌≤◌, ◌^◌, length, IfOk, IfSome, MatchOption, option_copied};
ghost use Rattle.fill_tree.specs.Cost.{program_cost};
ghost use Rattle.fill_tree.specs.Meaning.{program_tree};
ghost use Rattle.fill_tree.specs.Tree.{Atoms};
ghost use Rattle.fill_arena.specs.Contents.{IsGraph};
ghost use Rattle.fill_arena.specs.Stands.{ProgramStands};
ghost use Rattle.fill_object.specs.Chains.{IsLeastWithin};
ghost use Rattle.fill_object.specs.Guide.{IsGuideOf};
ghost use Rattle.fill_object.specs.Memo.{IsOnRow};
ghost use Rattle.fill_object.specs.Objector.{AllDearer, Answers, IsObjection};
ghost use Rattle.fill_object.specs.Pieces.{text_or_empty};
ghost use Rattle.fill_object.specs.Rests.{IsProgramOf, IsSearch, RestStands};
ghost use Rattle.fill_object.specs.Wants.{RestAgrees, wanted_first};

use crate::chain::Least;
use crate::guide::Guide;
use crate::memo::Memo;
use crate::rests::Rests;
use crate::row::OnRow;
use crate::search::{Findings, Search, least_rest};
use crate::wanted::Wanted;
use fill_arena::{Arena, GraphId};
use fill_eval::program_value;
use fill_sheet::Sheet;
use fill_tables::Tables;
use fill_text::{NoMemory, Text};
use fill_tree::{Chain, Prices, Program};
use std::alloc::Global;

/// A program that answers otherwise than was said, and its value on the row.
#[derive(Debug, Drop)]
pub struct Objection {
    pub program: Program,
    pub text: Option<Text>,
}

/// The least of the graph's programs, by the prices, whose value on the row is not what was said, which is a text or none.
///
/// It lists no programs. It goes over pairs of a node and what is still wanted there: another text than the rest of the
/// said one, some text, or anything, once a program answers otherwise already. What a rest costs at least is known of each
/// node, so few of these pairs are looked at.
pub fn object(
    alloc: Global,
    prices: &Prices,
    arena: &Arena,
    g: GraphId,
    row: u32,
    answer: Option<&Text>,
    sheet: &Sheet,
    tables: &Tables,
) -> Result<Option<Objection>, NoMemory>
    requires first { 1 ≤ row }
    requires last { row ≤ length sheet.now.rows }
    requires graph { IsGraph arena.now g }
    ensures objection { let told = option_copied answer.entry in IfOk result (λ found. MatchOption found
        ((p : Atoms) → ProgramStands arena.now g p → Answers sheet.now tables.now row told p)
        (IsObjection prices.now arena.now g sheet.now tables.now row told)) }
    ensures few { IfOk result (λ found. IfSome found (λ o. program_cost prices.now (program_tree o.program) < 2 ^ 64)) }
{
    let guide = guide_of(alloc, prices, arena, g)?;
    let on = OnRow {
        alloc,
        prices,
        arena,
        row,
        sheet,
        tables,
    };
    arena.keeps_made();
    prices.keep_small();
    let least = least_on(&on, &guide, g, answer, u64::MAX)?;
    match least {
        Least::Found(chain) => objection_of(&on, &chain),
        Least::Absent => Ok(None),
        Least::Dearer => unreachable!(),
    }
}

/// As [`object`], if the program costs no more than the limit; none where each program that answers otherwise costs more.
/// The guide is that of the graph.
pub fn object_within(
    on: &OnRow<'_>,
    guide: &Guide,
    g: GraphId,
    answer: Option<&Text>,
    limit: u64,
) -> Result<Option<Objection>, NoMemory>
    requires row { IsOnRow on.now }
    requires graph { IsGraph on.now.arena.now g }
    requires guide { IsGuideOf on.now.prices.now on.now.arena.now g guide.now }
    ensures objection { let told = option_copied answer.entry in IfOk result (λ found. MatchOption found
        (AllDearer on.now.prices.now on.now.arena.now g on.now.sheet.now on.now.tables.now on.now.row told limit)
        (IsObjection on.now.prices.now on.now.arena.now g on.now.sheet.now on.now.tables.now on.now.row told)) }
    ensures few { IfOk result (λ found. IfSome found (λ o. program_cost on.now.prices.now (program_tree o.program) < 2 ^ 64)) }
{
    let least = least_on(on, guide, g, answer, limit)?;
    match least {
        Least::Found(chain) => objection_of(on, &chain),
        Least::Absent => Ok(None),
        Least::Dearer => Ok(None),
    }
}

/// What leads the search through the graph, on any row.
pub fn guide_of(
    alloc: Global,
    prices: &Prices,
    arena: &Arena,
    g: GraphId,
) -> Result<Guide, NoMemory>
    requires { IsGraph arena.now g }
    ensures { IfOk result (IsGuideOf prices.now arena.now g) }
{
    arena.keeps_made();
    Guide::of(alloc, prices, arena, arena.edges(g), arena.nodes(g))
}

/// The least program of the graph that answers otherwise on the row, within a limit of its cost.
fn least_on(
    on: &OnRow<'_>,
    guide: &Guide,
    g: GraphId,
    answer: Option<&Text>,
    limit: u64,
) -> Result<Least, NoMemory>
    requires row { IsOnRow on.now }
    requires graph { IsGraph on.now.arena.now g }
    requires guide { IsGuideOf on.now.prices.now on.now.arena.now g guide.now }
    ensures { IfOk result (IsLeastWithin on.now.prices.now limit (ProgramStands on.now.arena.now g) (Answers on.now.sheet.now on.now.tables.now on.now.row (option_copied answer.entry))) }
{
    on.arena.keeps_made();
    let edges = on.arena.edges(g);
    let search = Search {
        on: *on,
        edges,
        guide,
        last: on.arena.nodes(g) - 1,
        answer: characters(answer),
    };
    least_of(&search, first_wanted(answer), limit)
}

/// The least rest from the first node on, within a limit of its cost.
fn least_of(search: &Search<'_>, wanted: Wanted, limit: u64) -> Result<Least, NoMemory>
    requires search { IsSearch search.now }
    ensures { IfOk result (IsLeastWithin search.now.on.prices.now limit (RestStands search.now 0) (RestAgrees search.now.on search.now.answer.now wanted)) }
{
    let alloc = search.on.alloc;
    let memo = Memo::new(alloc);
    let rests = Rests::new(alloc, search.last)?;
    let mut findings = Findings { memo, rests };
    least_rest(search, &mut findings, 0, wanted, limit)
}

/// The program of a chain, with its value on the row.
fn objection_of(on: &OnRow<'_>, chain: &Chain) -> Result<Option<Objection>, NoMemory>
    requires { IsOnRow on.now }
    ensures { IfOk result (IsProgramOf on.now chain.now.atoms) }
{
    let program = chain.atoms.copy(on.alloc)?;
    let text = program_value(on.alloc, &program, on.row, on.sheet, on.tables)?;
    Ok(Some(Objection { program, text }))
}

/// The characters of the text, if there is one.
fn characters(text: Option<&Text>) -> &[char]
    ensures { result.now ≡ text_or_empty (option_copied text.entry) }
{
    match text {
        Some(text) => text.as_slice(),
        None => &[],
    }
}

/// What is wanted of a whole program.
fn first_wanted(answer: Option<&Text>) -> Wanted
    ensures { result ≡ wanted_first (option_copied answer.entry) }
{
    match answer {
        Some(_) => Wanted::Other(0),
        None => Wanted::Value,
    }
}
