//! Where known texts go together with the example's text.
ghost use Rattle.std.specs.Prelude.{◌≡◌, ◌<◌, length, IfOk, OnOk};
ghost use Rattle.fill_sources.specs.Sets.{texts_of};
ghost use Rattle.fill_build.specs.Hits.{AreHits, GoTogether, HitsText, spot_of, wide};

use fill_sources::{RowTexts, Spot};
use fill_text::NoMemory;
use std::alloc::Global;

/// A place of a known text, from which on `run` characters are those that the example's text goes on with, and no more.
#[derive(Clone, Copy)]
pub(crate) struct Hit {
    /// The number of the text.
    pub(crate) text: usize,
    pub(crate) at: usize,
    pub(crate) run: usize,
}

impl Hit {
    /// Where the hit is.
    pub(crate) fn spot(self) -> Spot
        ensures { result ≡ spot_of self }
    {
        Spot {
            text: self.text,
            at: self.at,
        }
    }
}

/// The places of all known texts that begin as the rest of the example's text does.
pub(crate) fn find_hits<'a>(
    alloc: Global,
    row_texts: &RowTexts<'a>,
    rest: &[char],
) -> Result<Vec<Hit>, NoMemory>
    ensures { IfOk result (λ hits. AreHits (texts_of row_texts.now) rest.now 1 hits.items) }
{
    let mut hits = Vec::new(alloc);
    for k in 0..row_texts.len() {
        put_hits(&mut hits, k, row_texts.text(k).as_slice(), rest)?;
    }
    Ok(hits)
}

/// Puts the places of the text of number `k` to the others.
fn put_hits(hits: &mut Vec<Hit>, k: usize, text: &[char], rest: &[char]) -> Result<(), NoMemory>
    ensures { OnOk result (HitsText k text.now rest.now (length text.now) hits.old.items hits.new.items) }
{
    for at in 0..text.len() {
        let run = common(&text[at..], rest);
        if run == 0 {
            continue;
        }
        hits.push(Hit { text: k, at, run })?;
    }
    Ok(())
}

/// How many of the first characters are the same.
pub(crate) fn common(xs: &[char], ys: &[char]) -> usize
    ensures { GoTogether xs.now ys.now result }
{
    let most = xs.len().min(ys.len());
    for i in 0..most {
        if xs[i] != ys[i] {
            return i;
        }
    }
    most
}

/// Keeps the places that go together for this many characters.
pub(crate) fn narrow(hits: &mut Vec<Hit>, width: usize)
    ensures { hits.new.items ≡ wide width hits.old.items }
{
    hits.retain(|hit| hit.run >= width);
}
