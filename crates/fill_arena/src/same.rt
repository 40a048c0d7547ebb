//! Whether contents are equal.
ghost use Rattle.std.specs.Prelude.{◌≡◌, ◌↔◌, IsTrue};
ghost use Rattle.fill_arena.specs.Entries.{entry_of};

use crate::entries::Content;
use crate::entry::{AtomItem, ConditionItem, Edge, Entry, SelectItem, SourceItem};
use crate::numbers::AtomSet;
use fill_text::Text;
use fill_tokens::Place;

/// Whether both are of one kind and list the same.
pub(crate) fn same_entry(a: Content<'_>, b: &Entry) -> bool
    ensures { IsTrue result ↔ (entry_of a.entry ≡ b.now) }
{
    match (a, b) {
        (Content::Places(xs), Entry::Places(ys)) => same_places(xs, ys.as_slice()),
        (Content::Sources(xs), Entry::Sources(ys)) => same_sources(xs, ys.as_slice()),
        (Content::Atoms(xs), Entry::Atoms(ys)) => same_atoms(xs, ys.as_slice()),
        (Content::Graph(m, xs), Entry::Graph(n, ys)) => {
            if m != *n {
                return false;
            }
            same_edges(xs.as_slice(), ys.as_slice())
        }
        _ => false,
    }
}

fn same_places(xs: &[Place], ys: &[Place]) -> bool
    ensures { IsTrue result ↔ (xs.now ≡ ys.now) }
{
    if xs.len() != ys.len() {
        return false;
    }
    for i in 0..xs.len() {
        if !xs[i].same(&ys[i]) {
            return false;
        }
    }
    true
}

fn same_sources(xs: &[SourceItem], ys: &[SourceItem]) -> bool
    ensures { IsTrue result ↔ (xs.now ≡ ys.now) }
{
    if xs.len() != ys.len() {
        return false;
    }
    for i in 0..xs.len() {
        if !same_source(&xs[i], &ys[i]) {
            return false;
        }
    }
    true
}

fn same_source(x: &SourceItem, y: &SourceItem) -> bool
    ensures { IsTrue result ↔ (x.now ≡ y.now) }
{
    match (x, y) {
        (SourceItem::Col(a), SourceItem::Col(b)) => *a == *b,
        (SourceItem::Select(a), SourceItem::Select(b)) => same_select(a, b),
        _ => false,
    }
}

fn same_select(x: &SelectItem, y: &SelectItem) -> bool
    ensures { IsTrue result ↔ (x.now ≡ y.now) }
{
    if x.column != y.column || x.table != y.table || x.key != y.key {
        return false;
    }
    same_conditions(x.conditions.as_slice(), y.conditions.as_slice())
}

fn same_conditions(xs: &[ConditionItem], ys: &[ConditionItem]) -> bool
    ensures { IsTrue result ↔ (xs.now ≡ ys.now) }
{
    if xs.len() != ys.len() {
        return false;
    }
    for i in 0..xs.len() {
        if !same_condition(&xs[i], &ys[i]) {
            return false;
        }
    }
    true
}

fn same_condition(x: &ConditionItem, y: &ConditionItem) -> bool
    ensures { IsTrue result ↔ (x.now ≡ y.now) }
{
    if !same_number(x.atoms, y.atoms) {
        return false;
    }
    same_constant(&x.constant, &y.constant)
}

fn same_number(x: Option<AtomSet>, y: Option<AtomSet>) -> bool
    ensures { IsTrue result ↔ (x ≡ y) }
{
    match (x, y) {
        (None, None) => true,
        (Some(s), Some(t)) => s.index() == t.index(),
        _ => false,
    }
}

fn same_constant(x: &Option<Text>, y: &Option<Text>) -> bool
    ensures { IsTrue result ↔ (x.now ≡ y.now) }
{
    match (x, y) {
        (None, None) => true,
        (Some(t), Some(u)) => t.same(u),
        _ => false,
    }
}

fn same_atoms(xs: &[AtomItem], ys: &[AtomItem]) -> bool
    ensures { IsTrue result ↔ (xs.now ≡ ys.now) }
{
    if xs.len() != ys.len() {
        return false;
    }
    for i in 0..xs.len() {
        if !same_atom(&xs[i], &ys[i]) {
            return false;
        }
    }
    true
}

fn same_atom(x: &AtomItem, y: &AtomItem) -> bool
    ensures { IsTrue result ↔ (x.now ≡ y.now) }
{
    match (x, y) {
        (AtomItem::Const(t), AtomItem::Const(u)) => t.same(u),
        (AtomItem::Whole(s), AtomItem::Whole(t)) => s.index() == t.index(),
        (AtomItem::Sub(s, p, q), AtomItem::Sub(t, v, w)) => {
            s.index() == t.index() && p.index() == v.index() && q.index() == w.index()
        }
        _ => false,
    }
}

fn same_edges(xs: &[Edge], ys: &[Edge]) -> bool
    ensures { IsTrue result ↔ (xs.now ≡ ys.now) }
{
    if xs.len() != ys.len() {
        return false;
    }
    for i in 0..xs.len() {
        if !same_edge(xs[i], ys[i]) {
            return false;
        }
    }
    true
}

fn same_edge(x: Edge, y: Edge) -> bool
    ensures { IsTrue result ↔ (x ≡ y) }
{
    x.from == y.from && x.to == y.to && x.atoms.index() == y.atoms.index()
}
