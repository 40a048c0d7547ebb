//! Marks of the positions of a text, a bit for each, so that the positions that are marked twice are counted by words.
ghost use Rattle.std.specs.Prelude.{◌≡◌, ◌⊎◌, ◌↔◌, ℕ, ◌<◌, ◌≤◌, ◌+◌, ◌-◌, ◌*◌, ◌/◌, ◌^◌, ◌∷◌, ◌==◌, true, false, length, slice_get, slice_index, Some, IfOk, IsTrue, bit_and};
ghost use Rattle.std.specs.Int.{bit_at};
ghost use Rattle.fill_tokens.specs.Value.{IsCount};
ghost use Rattle.fill_places.specs.Marks.{AreAll, Common};
ghost use Rattle.fill_places.specs.Bits.{AreEqual, BothSet, IsSetBit, flag_of};

use fill_text::NoMemory;
use std::alloc::Global;
use std::marker::Model;

/// A mark for each position. Contracts see it as the list of the marks.
///
/// The first 64 positions have a word of their own, so that the marks of a short text take no memory elsewhere.
#[derive(Drop)]
pub struct Marks {
    size: usize,
    first: u64,
    more: Vec<u64>,
}

impl Model for Marks {
    ghost use Rattle.std.specs.Prelude.{◌≤◌, ◌+◌, ◌*◌, ◌∷◌, Bool, List, length};
    ghost use Rattle.fill_places.specs.Bits.{flags_of};

    ghost Value = { List Bool };

    ghost view = { λ marks. flags_of (marks.first ∷ marks.more.items) marks.size };

    ghost invariant = { λ marks. marks.size ≤ 64 * (length marks.more.items + 1) };
}

impl Marks {
    /// No position is marked.
    pub fn none(alloc: Global, size: usize) -> Result<Marks, NoMemory>
        requires { size < 2 ^ 63 }
        ensures { IfOk result (AreAll false size) }
    {
        let more = further_words(alloc, 0, size)?;
        Ok(Marks {
            size,
            first: 0,
            more,
        })
    }

    /// All positions are marked.
    pub fn all(alloc: Global, size: usize) -> Result<Marks, NoMemory>
        requires { size < 2 ^ 63 }
        ensures { IfOk result (AreAll true size) }
    {
        let more = further_words(alloc, u64::MAX, size)?;
        Ok(Marks {
            size,
            first: u64::MAX,
            more,
        })
    }

    /// Whether the position is marked.
    pub fn has(&self, k: usize) -> bool
        requires { k < length self.now }
        ensures { IsTrue result ↔ (slice_get self.now k ≡ Some true) }
    {
        flag(self.first, &self.more, k)
    }

    /// Marks the position.
    pub fn set(&mut self, k: usize)
        requires { k < length self.old }
        ensures long { length self.new ≡ length self.old }
        ensures sound { (j : ℕ) → slice_get self.new j ≡ Some true → (j ≡ k) ⊎ (slice_get self.old j ≡ Some true) }
        ensures keeps { (j : ℕ) → slice_get self.old j ≡ Some true → slice_get self.new j ≡ Some true }
        ensures there { slice_get self.new k ≡ Some true }
    {
        set_flag(&mut self.first, &mut self.more, k);
    }

    /// How many positions below `k` are marked in both.
    pub fn common_below(&self, other: &Marks, k: usize) -> usize
        requires left { k ≤ length self.now }
        requires right { k ≤ length other.now }
        requires small { k < 2 ^ 62 }
        ensures { IsCount (Common self.now other.now) k result }
    {
        common_in(self.first, &self.more, other.first, &other.more, k)
    }
}

/// This many words that are all the same.
fn equal_words(alloc: Global, word: u64, m: usize) -> Result<Vec<u64>, NoMemory>
    requires { m < 2 ^ 60 }
    ensures { IfOk result (λ words. AreEqual word m words.items) }
{
    let words = vec![in alloc; word; m]?;
    Ok(words)
}

/// The words, all the same, of the positions past the first 64.
fn further_words(alloc: Global, word: u64, size: usize) -> Result<Vec<u64>, NoMemory>
    requires { size < 2 ^ 63 }
    ensures { IfOk result (λ words. AreEqual word ((size - 1) / 64) words.items) }
{
    if size <= 64 {
        return Ok(Vec::new(alloc));
    }
    equal_words(alloc, word, (size - 1) / 64)
}

/// The bit of the word.
fn bit(w: u64, i: usize) -> bool
    requires { i < 64 }
    ensures { result ≡ (bit_at w i == 1) }
{
    (w >> i) & 1 == 1
}

/// The flag of the position in the words.
fn flag_among(words: &[u64], k: usize) -> bool
    requires { k < 64 * length words.now }
    ensures { result ≡ flag_of words.now k }
{
    bit(words[k / 64], k % 64)
}

/// The flag of the position in the first word and the further ones.
fn flag(first: u64, more: &[u64], k: usize) -> bool
    requires { k < 64 * (length more.now + 1) }
    ensures { result ≡ flag_of (first ∷ more.now) k }
{
    if k < 64 {
        return bit(first, k);
    }
    flag_among(more, k - 64)
}

/// Sets the flag of the position in the words.
fn set_among(words: &mut Vec<u64>, k: usize)
    requires { k < 64 * length words.old.items }
    ensures long { length words.new.items ≡ length words.old.items }
    ensures there { flag_of words.new.items k ≡ true }
    ensures others { (j : ℕ) → (j ≡ k → ⊥) → flag_of words.new.items j ≡ flag_of words.old.items j }
{
    words[k / 64] |= 1 << (k % 64);
}

/// Sets the flag of the position in the first word and the further ones.
fn set_flag(first: &mut u64, more: &mut Vec<u64>, k: usize)
    requires { k < 64 * (length more.old.items + 1) }
    ensures long { length more.new.items ≡ length more.old.items }
    ensures there { flag_of (first.new ∷ more.new.items) k ≡ true }
    ensures others { (j : ℕ) → (j ≡ k → ⊥) → flag_of (first.new ∷ more.new.items) j ≡ flag_of (first.old ∷ more.old.items) j }
{
    if k < 64 {
        *first |= 1 << k;
        return;
    }
    set_among(more, k - 64);
}

/// The flags of a word that are set in both.
fn common(a: &[u64], b: &[u64], i: usize) -> u64
    requires left { i < length a.now }
    requires right { i < length b.now }
    ensures { result ≡ bit_and (slice_index a.now i) (slice_index b.now i) }
{
    a[i] & b[i]
}

/// How many bits of the word are set.
fn ones(w: u64) -> usize
    ensures count { (n : ℕ) → n ≡ 64 → IsCount (IsSetBit w) n result }
    ensures most { result ≤ 64 }
{
    w.count_ones() as usize
}

/// How many of the lowest bits of the word are set.
fn ones_below(w: u64, m: usize) -> usize
    requires { m < 64 }
    ensures count { IsCount (IsSetBit w) m result }
    ensures most { result ≤ 64 }
{
    (w & ((1 << m) - 1)).count_ones() as usize
}

/// How many positions of the first `m` words are flagged in both.
fn common_words(a: &[u64], b: &[u64], m: usize) -> usize
    requires left { m ≤ length a.now }
    requires right { m ≤ length b.now }
    requires small { m < 2 ^ 56 }
    ensures count { IsCount (BothSet a.now b.now) (64 * m) result }
    ensures most { result ≤ 64 * m }
{
    let mut count = 0;
    for i in 0..m {
        count += ones(common(a, b, i));
    }
    count
}

/// How many positions below `k` are flagged in both lists of words.
fn common_among(a: &[u64], b: &[u64], k: usize) -> usize
    requires left { k ≤ 64 * length a.now }
    requires right { k ≤ 64 * length b.now }
    requires small { k < 2 ^ 62 }
    ensures count { IsCount (BothSet a.now b.now) k result }
    ensures most { result ≤ k + 64 }
{
    let full = k / 64;
    let rest = k % 64;
    let count = common_words(a, b, full);
    if rest == 0 {
        return count;
    }
    count + ones_below(common(a, b, full), rest)
}

/// How many positions below `k` are flagged in both, where each has a first word and further ones.
fn common_in(a: u64, more_a: &[u64], b: u64, more_b: &[u64], k: usize) -> usize
    requires left { k ≤ 64 * (length more_a.now + 1) }
    requires right { k ≤ 64 * (length more_b.now + 1) }
    requires small { k < 2 ^ 62 }
    ensures { IsCount (BothSet (a ∷ more_a.now) (b ∷ more_b.now)) k result }
{
    if k < 64 {
        return ones_below(a & b, k);
    }
    ones(a & b) + common_among(more_a, more_b, k - 64)
}
