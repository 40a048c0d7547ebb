//! The texts of a row, each once, with where it comes from.
ghost use Rattle.std.specs.Prelude.{◌≡◌, ◌<◌, [], ◌∷◌, ◌++◌, ℕ, List as Listed, cond, length, Some, slice_get, slice_set, OnOk};
ghost use Rattle.std.specs.Str.{bytes_eq};
ghost use Rattle.fill_sources.specs.Origins.{AreNumbered, Grown, number_in};
ghost use Rattle.fill_sources.specs.declared.texts.Named.{Named as NamedText};

use fill_reach::ReachedRow;
use fill_text::{List, NoMemory, Text};
use std::alloc::Global;
use std::collections::BTreeMap;

/// Where a text comes from.
#[derive(Clone, Copy)]
pub(crate) enum Origin {
    /// The row's cell in an input column.
    Col(u32),
    /// The cell of a table's row that lookups reach, in a column that is free of the key.
    Cell(ReachedRow, u32),
}

/// A text, and all that it comes from.
#[derive(Drop)]
pub(crate) struct Named<'a> {
    pub(crate) text: &'a Text,
    pub(crate) origins: List<Origin>,
}

/// Texts, each once, and the number of each.
///
/// The texts are those of strangers, so they are kept in order: no choice of texts makes it slow to look for one.
#[derive(Drop)]
pub(crate) struct Texts<'a> {
    pub(crate) named: Vec<Named<'a>>,
    numbers: BTreeMap<&'a [char], usize>,
}

impl<'a> Texts<'a> {
    /// No texts.
    pub(crate) fn new(alloc: Global) -> Texts<'a>
        ensures named { result.named.items ≡ [] }
        ensures numbered { AreNumbered result }
    {
        Texts {
            named: Vec::new(alloc),
            numbers: BTreeMap::new(alloc),
        }
    }

    /// The number of a text, if it is one of these.
    fn number(&self, text: &'a Text) -> Option<usize>
        ensures { result ≡ number_in self.now text.now }
    {
        match self.numbers.get(&text.as_slice()) {
            Some(k) => Some(*k),
            None => None,
        }
    }

    /// Keeps the number of a text.
    fn keep_number(&mut self, text: &'a Text, k: usize) -> Result<(), NoMemory>
        ensures numbers { OnOk result ((v : Listed ℕ) → number_in self.new v ≡ cond (bytes_eq text.now v) (Some k) (number_in self.old v)) }
        ensures named { OnOk result (self.new.named.items ≡ self.old.named.items) }
    {
        match self.numbers.insert(text.as_slice(), k) {
            Ok(_) => Ok(()),
            Err(_) => Err(NoMemory),
        }
    }

    /// Puts where a text comes from to the text of a number.
    fn put_origin(&mut self, k: usize, origin: Origin) -> Result<(), NoMemory>
        requires { k < length self.old.named.items }
        ensures named { OnOk result ((n : NamedText) → slice_get self.old.named.items k ≡ Some n →
            self.new.named.items ≡ slice_set self.old.named.items k (record n { origins = n.origins ++ origin ∷ [] })) }
        ensures numbers { OnOk result ((v : Listed ℕ) → number_in self.new v ≡ number_in self.old v) }
    {
        self.named[k].origins.push(origin)
    }

    /// Puts a text that is not one of these, with where it comes from.
    fn put_text(&mut self, alloc: Global, text: &'a Text, origin: Origin) -> Result<(), NoMemory>
        ensures named { OnOk result ((n : NamedText) × (self.new.named.items ≡ self.old.named.items ++ n ∷ []) × (n.text.now ≡ text.now) × (n.origins ≡ origin ∷ [])) }
        ensures numbers { OnOk result ((v : Listed ℕ) → number_in self.new v ≡ cond (bytes_eq text.now v) (Some (length self.old.named.items)) (number_in self.old v)) }
    {
        let k = self.named.as_slice().len();
        let mut origins = List::new(alloc);
        origins.push(origin)?;
        self.named.push(Named { text, origins })?;
        self.keep_number(text, k)
    }

    /// Puts a text, with where it comes from.
    pub(crate) fn put(
        &mut self,
        alloc: Global,
        text: &'a Text,
        origin: Origin,
    ) -> Result<(), NoMemory>
        requires { AreNumbered self.old }
        ensures numbered { OnOk result (AreNumbered self.new) }
        ensures grown { OnOk result (Grown self.old.named.items self.new.named.items (λ v o. (v ≡ text.now) × (o ≡ origin))) }
    {
        if let Some(k) = self.number(text) {
            return self.put_origin(k, origin);
        }
        self.put_text(alloc, text, origin)
    }
}
