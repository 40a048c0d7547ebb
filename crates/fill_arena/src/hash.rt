//! Hashes of contents.
//!
//! Nothing rests on them but the speed with which equal contents are found.
ghost use Rattle.std.specs.Prelude.{◌≡◌, slice_get};
ghost use Rattle.fill_arena.specs.Hash.{atom_hash, condition_hash, conditions_hash, constant_hash, edge_hash, entry_hash, mixed, number_hash, place_hash, sample_hash, select_hash, seq_hash, signed_hash, source_hash, text_hash};

use crate::entry::{AtomItem, ConditionItem, Edge, Entry, SelectItem, SourceItem};
use crate::numbers::AtomSet;
use fill_text::Text;
use fill_tokens::{Place, Seq};

/// How many places of a set its hash looks at. They and the length tell most sets apart.
const SAMPLES: usize = 8;

/// The hash of what came so far, and of one number more.
#[tactic(auto, unfolding(crate::specs::Hash::mixed))]
pub fn mix(hash: u64, number: u64) -> u64
    ensures { result ≡ mixed hash number }
{
    hash.wrapping_mul(0x9E37_79B9_7F4A_7C15)
        .wrapping_add(number)
}

/// The hash of an entry.
pub(crate) fn hash_entry(entry: &Entry) -> u64
    ensures { result ≡ entry_hash entry.now }
{
    match entry {
        Entry::Places(places) => hash_places(places.as_slice()),
        Entry::Sources(items) => hash_sources(items.as_slice()),
        Entry::Atoms(items) => hash_atoms(items.as_slice()),
        Entry::Graph(nodes, edges) => hash_graph(*nodes, edges.as_slice()),
    }
}

fn hash_places(places: &[Place]) -> u64
    ensures { result ≡ entry_hash (Entry.Places places.now) }
{
    let step = places.len() / SAMPLES + 1;
    let mut hash = mix(1, places.len() as u64);
    for i in 0..SAMPLES {
        hash = hash_sample(hash, places, i * step);
    }
    hash
}

/// The hash with the place at an index, where there is one.
fn hash_sample(hash: u64, places: &[Place], index: usize) -> u64
    ensures { result ≡ sample_hash hash (slice_get places.now index) }
{
    match places.get(index) {
        Some(place) => hash_place(hash, place),
        None => hash,
    }
}

fn hash_sources(items: &[SourceItem]) -> u64
    ensures { result ≡ entry_hash (Entry.Sources items.now) }
{
    let mut hash = 2;
    for item in items {
        hash = hash_source(hash, item);
    }
    hash
}

fn hash_atoms(items: &[AtomItem]) -> u64
    ensures { result ≡ entry_hash (Entry.Atoms items.now) }
{
    let mut hash = 3;
    for item in items {
        hash = hash_atom(hash, item);
    }
    hash
}

fn hash_graph(nodes: usize, edges: &[Edge]) -> u64
    ensures { result ≡ entry_hash (Entry.Graph nodes edges.now) }
{
    let mut hash = mix(4, nodes as u64);
    for i in 0..edges.len() {
        hash = hash_edge(hash, edges[i]);
    }
    hash
}

fn hash_signed(hash: u64, number: i32) -> u64
    ensures { result ≡ signed_hash hash number }
{
    let sign = if number < 0 { 1 } else { 0 };
    mix(mix(hash, sign), u64::from(number.unsigned_abs()))
}

fn hash_seq(hash: u64, seq: &Seq) -> u64
    ensures { result ≡ seq_hash hash seq.now }
{
    let mut made = mix(hash, seq.len() as u64);
    for i in 0..seq.len() {
        made = mix(made, u64::from(seq.token(i).number()));
    }
    made
}

/// The hash of what came so far, and of a place.
pub fn hash_place(hash: u64, place: &Place) -> u64
    ensures { result ≡ place_hash hash place.now }
{
    match place {
        Place::CPos(position) => hash_signed(mix(hash, 1), *position),
        Place::Pos(left, right, count) => {
            hash_signed(hash_seq(hash_seq(mix(hash, 2), left), right), *count)
        }
    }
}

fn hash_text(hash: u64, text: &Text) -> u64
    ensures { result ≡ text_hash hash text.now }
{
    let mut made = mix(hash, text.len() as u64);
    for i in 0..text.len() {
        made = mix(made, text.at(i) as u64);
    }
    made
}

fn hash_constant(hash: u64, constant: &Option<Text>) -> u64
    ensures { result ≡ constant_hash hash constant.now }
{
    match constant {
        None => mix(hash, 0),
        Some(text) => hash_text(mix(hash, 1), text),
    }
}

fn hash_number(hash: u64, number: Option<AtomSet>) -> u64
    ensures { result ≡ number_hash hash number }
{
    match number {
        None => mix(hash, 0),
        Some(s) => mix(mix(hash, 1), s.index() as u64),
    }
}

fn hash_condition(hash: u64, item: &ConditionItem) -> u64
    ensures { result ≡ condition_hash hash item.now }
{
    hash_number(hash_constant(hash, &item.constant), item.atoms)
}

fn hash_select(hash: u64, item: &SelectItem) -> u64
    ensures { result ≡ select_hash hash item.now }
{
    let column = mix(hash, u64::from(item.column));
    let numbers = mix(mix(column, u64::from(item.table)), u64::from(item.key));
    hash_conditions(numbers, item.conditions.as_slice())
}

fn hash_conditions(hash: u64, items: &[ConditionItem]) -> u64
    ensures { result ≡ conditions_hash hash items.now }
{
    let mut made = mix(hash, items.len() as u64);
    for item in items {
        made = hash_condition(made, item);
    }
    made
}

fn hash_source(hash: u64, item: &SourceItem) -> u64
    ensures { result ≡ source_hash hash item.now }
{
    match item {
        SourceItem::Col(column) => mix(mix(hash, 1), u64::from(*column)),
        SourceItem::Select(listed) => hash_select(mix(hash, 2), listed),
    }
}

fn hash_atom(hash: u64, item: &AtomItem) -> u64
    ensures { result ≡ atom_hash hash item.now }
{
    match item {
        AtomItem::Const(text) => hash_text(mix(hash, 1), text),
        AtomItem::Whole(sources) => mix(mix(hash, 2), sources.index() as u64),
        AtomItem::Sub(sources, lefts, rights) => {
            let source = mix(mix(hash, 3), sources.index() as u64);
            mix(mix(source, lefts.index() as u64), rights.index() as u64)
        }
    }
}

fn hash_edge(hash: u64, edge: Edge) -> u64
    ensures { result ≡ edge_hash hash edge }
{
    let nodes = mix(mix(hash, edge.from as u64), edge.to as u64);
    mix(nodes, edge.atoms.index() as u64)
}
