//! Rests of programs that were found already.
ghost use Rattle.std.specs.Prelude.{IfOk, IfSome, OnOk};
ghost use Rattle.fill_object.specs.Chains.{IsLeastWithin};
ghost use Rattle.fill_object.specs.Rests.{AreRests, IsKnown, IsRestAt, RestStands};
ghost use Rattle.fill_object.specs.Wants.{RestAgrees};
ghost use Rattle.fill_object.specs.declared.search.Search.{Search};

use crate::chain::Least;
use crate::wanted::Wanted;
use fill_text::NoMemory;
use std::alloc::Global;

/// The least rest of a program from a node on that answers what is wanted, within a limit of its cost.
#[derive(Drop)]
pub(crate) struct Rest {
    pub node: usize,
    pub wanted: Wanted,
    pub limit: u64,
    pub least: Least,
    /// The place after that of the one from the same node that was found before it; 0 where there is none.
    earlier: usize,
}

/// What was found, and for each node the place after that of the one that was found last.
#[derive(Drop)]
pub(crate) struct Rests {
    pub entries: Vec<Rest>,
    latest: Vec<usize>,
}

impl Rests {
    pub fn new(alloc: Global, nodes: usize) -> Result<Rests, NoMemory>
        ensures { (s : Search) → IfOk result (AreRests s) }
    {
        Ok(Rests {
            entries: Vec::new(alloc),
            latest: vec![in alloc; 0; nodes]?,
        })
    }

    /// The place of what was found last for the node and what is wanted. Where to look is a hint, since what is there is
    /// compared.
    fn place_of(&self, node: usize, wanted: Wanted) -> Option<usize>
        ensures { IfSome result (IsRestAt self.now.entries.items node wanted) }
    {
        let mut left = place_or_none(self.latest.as_slice(), node);
        while left > 0 {
            let i = left - 1;
            if i >= self.entries.len() {
                return None;
            }
            let rest = &self.entries[i];
            if rest.node == node && rest.wanted.same(wanted) {
                return Some(i);
            }
            if rest.earlier > i {
                return None;
            }
            left = rest.earlier;
        }
        None
    }

    /// What is known of the least rest within the limit, if it was looked for already.
    pub fn recall(&self, node: usize, wanted: Wanted, limit: u64) -> Option<&Least>
        ensures { IfSome result (λ o. IsKnown self.now.entries.items node wanted limit o.now) }
    {
        let rest = &self.entries[self.place_of(node, wanted)?];
        if limit <= rest.limit {
            return Some(&rest.least);
        }
        if !rest.least.is_found() {
            return None;
        }
        Some(&rest.least)
    }

    pub fn keep(
        &mut self,
        node: usize,
        wanted: Wanted,
        limit: u64,
        least: Least,
    ) -> Result<(), NoMemory>
        ensures { OnOk result ((s : Search) → AreRests s self.old →
            IsLeastWithin s.on.prices.now limit (RestStands s node) (RestAgrees s.on s.answer.now wanted) least → AreRests s self.new) }
    {
        let earlier = place_or_none(self.latest.as_slice(), node);
        if node < self.latest.len() {
            self.latest[node] = self.entries.len() + 1;
        }
        self.entries.push(Rest {
            node,
            wanted,
            limit,
            least,
            earlier,
        })?;
        Ok(())
    }
}

/// The place that is kept for the node, if there is one.
fn place_or_none(places: &[usize], node: usize) -> usize {
    if node < places.len() { places[node] } else { 0 }
}
