//! What leads the search for the objectors of many rows.
ghost use Rattle.std.specs.Prelude.{◌≡◌, IfOk, List as Listed};
ghost use Rattle.fill_tree.specs.declared.user.Example.{Example};
ghost use Rattle.fill_space.specs.Spaces.{SpaceStands};
ghost use Rattle.fill_session.specs.Suggested.{LeadStands, LeadsStand};

use crate::session::Session;
use fill_space::{Guide, Space, Spaces};
use fill_text::{List, NoMemory};
use fill_tree::{MOST_PROGRAMS, Program};
use std::alloc::Global;

/// The space of a branch, and what leads the search for objections there.
#[derive(Drop)]
pub(crate) struct Lead {
    pub space: Space,
    pub guide: Guide,
    /// The first programs of the branch, in order, as many as [`Spaces::best`] gives; all of them where they are fewer. They
    /// are asked one by one before the graph is: to ask one on a row takes well below a microsecond, and to search the graph
    /// there some hundred.
    pub candidates: List<Program>,
}

/// A lead for each branch.
pub(crate) fn leads_of(alloc: Global, session: &Session) -> Result<Vec<Lead>, NoMemory>
    ensures { IfOk result (λ leads. LeadsStand session.now leads.items) }
{
    let mut leads = Vec::new(alloc);
    let count = session.branches().len() as u32;
    for k in 0..count {
        let space = session.space(k + 1);
        let lead = lead_of(session.spaces(), space)?;
        leads.push(lead)?;
    }
    Ok(leads)
}

/// The lead of a space.
fn lead_of(spaces: &Spaces, space: Space) -> Result<Lead, NoMemory>
    requires { (l : Listed Example) × SpaceStands spaces.now space l }
    ensures space { IfOk result (λ lead. lead.space ≡ space) }
    ensures stands { IfOk result (LeadStands spaces.now) }
{
    spaces.keep_costs();
    let guide = spaces.guide(space)?;
    let candidates = spaces.best(space, MOST_PROGRAMS)?;
    Ok(Lead {
        space,
        guide,
        candidates,
    })
}
