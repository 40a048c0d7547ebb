//! Texts.
ghost use Rattle.std.specs.Prelude.{All, ◌≡◌, ◌+◌, ◌<◌, ◌≤◌, ◌^◌, ◌↔◌, IsTrue, [], ◌++◌, length, IfOk, IfErr, OnOk, OnErr, IsUtf8, encode_utf8_all, slice_index, slice_range, string_bytes};
ghost use Rattle.std.specs.Char.{IsScalar};
ghost use Rattle.std.specs.Str.{IsAscii, chars};
ghost use Rattle.std.specs.Ordering.{nat_cmp};
ghost use Rattle.std.specs.Cmp.Lexicographic.{slice_cmp};
ghost use Rattle.fill_text.specs.Text.{Refuses};

use crate::{List, NoMemory, TextError};
use std::alloc::{AllocError, Global};
use std::cmp::Ordering;
use std::marker::Model;

/// A text, which contracts see as the list of its characters, each a Unicode scalar value.
///
/// A character takes four bytes, so that the one at a place is found at once.
#[derive(Debug, Drop)]
pub struct Text {
    chars: Vec<char>,
}

impl Model for Text {
    ghost use Rattle.std.specs.Prelude.{ℕ, List, All};
    ghost use Rattle.std.specs.Char.{IsScalar};

    ghost Value = { List ℕ };

    ghost view = { λ text. text.chars.items };

    ghost invariant = { λ text. All IsScalar text.chars.items };
}

/// Whether each byte is a character of ASCII.
pub fn is_ascii(bytes: &[u8]) -> bool
    ensures { IsTrue result ↔ IsAscii bytes.now }
{
    for byte in bytes {
        if *byte >= 128 {
            return false;
        }
    }
    true
}

impl Text {
    /// The empty text, which takes no memory.
    pub fn new(alloc: Global) -> Text
        ensures { result ≡ [] }
    {
        Text {
            chars: Vec::new(alloc),
        }
    }

    /// The text that these bytes spell in UTF-8.
    pub fn from_utf8(alloc: Global, bytes: &[u8]) -> Result<Text, TextError>
        ensures ok { IfOk result (λ text. text ≡ chars bytes.now) }
        ensures spelled { OnOk result (IsUtf8 bytes.now) }
        ensures err { IfErr result (λ e. Refuses bytes.now e) }
    {
        if is_ascii(bytes) {
            return match Text::from_ascii(alloc, bytes) {
                Ok(text) => Ok(text),
                Err(_) => Err(TextError::NoMemory),
            };
        }
        Text::decoded(alloc, bytes)
    }

    /// The text that these bytes spell, character by character.
    fn decoded(alloc: Global, bytes: &[u8]) -> Result<Text, TextError>
        ensures ok { IfOk result (λ text. text ≡ chars bytes.now) }
        ensures spelled { OnOk result (IsUtf8 bytes.now) }
        ensures err { IfErr result (λ e. Refuses bytes.now e) }
    {
        match str::from_utf8(bytes) {
            Ok(spelled) => match spelled.chars().collect(alloc) {
                Ok(chars) => Ok(Text { chars }),
                Err(_) => Err(TextError::NoMemory),
            },
            Err(e) => Err(TextError::NotUtf8 {
                at: e.valid_up_to(),
            }),
        }
    }

    /// The text of these bytes, each of which is a character of ASCII.
    fn from_ascii(alloc: Global, bytes: &[u8]) -> Result<Text, AllocError>
        requires { IsAscii bytes.now }
        ensures { IfOk result (λ text. text ≡ bytes.now) }
    {
        let mut chars = vec![in alloc; '\0'; bytes.len()]?;
        for i in 0..bytes.len() {
            chars[i] = char::from(bytes[i]);
        }
        Ok(Text { chars })
    }

    /// The number of characters.
    pub fn len(&self) -> usize
        ensures value { result ≡ length self.now }
        ensures small { result < 2 ^ 61 }
    {
        self.chars.as_slice().len()
    }

    /// The characters in order.
    pub fn as_slice(&self) -> &[char]
        ensures { result.now ≡ self.now }
    {
        self.chars.as_slice()
    }

    /// What every text keeps: its characters are Unicode scalar values. It does nothing.
    pub fn keeps_scalars(&self)
        ensures { All IsScalar self.now }
    {
        let _kept = &self.chars;
    }

    /// The character at a place, from 0.
    pub fn at(&self, i: usize) -> char
        requires { i < length self.now }
        ensures { result ≡ slice_index self.now i }
    {
        self.chars[i]
    }

    /// Whether both are the same characters in the same order.
    pub fn same(&self, other: &Text) -> bool
        ensures { IsTrue result ↔ (self.now ≡ other.now) }
    {
        self.chars.as_slice() == other.chars.as_slice()
    }

    /// The order by character numbers from the left, a proper prefix first.
    pub fn compare(&self, other: &Text) -> Ordering
        ensures { result ≡ slice_cmp nat_cmp self.now other.now }
    {
        self.chars.as_slice().cmp(other.chars.as_slice())
    }

    /// Whether the characters from `a` to `b`, that at `b` left out, are those of the other text.
    pub fn piece_is(&self, a: usize, b: usize, other: &Text) -> bool
        requires order { a ≤ b }
        requires within { b ≤ length self.now }
        ensures { IsTrue result ↔ (slice_range self.now a b ≡ other.now) }
    {
        &self.chars.as_slice()[a..b] == other.chars.as_slice()
    }

    /// An equal text of its own memory.
    pub fn copy(&self) -> Result<Text, NoMemory>
        ensures { IfOk result (λ copied. copied ≡ self.now) }
    {
        let chars = Vec::from_slice(*self.chars.allocator(), &self.chars)?;
        Ok(Text { chars })
    }

    /// The characters from `a` to `b`, that at `b` left out.
    pub fn piece(&self, a: usize, b: usize) -> Result<Text, NoMemory>
        requires order { a ≤ b }
        requires within { b ≤ length self.now }
        ensures { IfOk result (λ piece. piece ≡ slice_range self.now a b) }
    {
        let chars = Vec::from_slice(*self.chars.allocator(), &self.chars[a..b])?;
        Ok(Text { chars })
    }

    /// Puts the other text's characters at the end.
    pub fn append(&mut self, other: &Text) -> Result<(), NoMemory>
        ensures ok { OnOk result (self.new ≡ self.old ++ other.now) }
        ensures err { OnErr result (self.new ≡ self.old) }
    {
        self.chars.extend_from_slice(&other.chars)?;
        Ok(())
    }

    /// Puts the other text's characters from `a` to `b`, that at `b` left out, at the end.
    pub fn append_piece(&mut self, other: &Text, a: usize, b: usize) -> Result<(), NoMemory>
        requires order { a ≤ b }
        requires within { b ≤ length other.now }
        ensures ok { OnOk result (self.new ≡ self.old ++ slice_range other.now a b) }
        ensures err { OnErr result (self.new ≡ self.old) }
    {
        self.chars.extend_from_slice(&other.chars[a..b])?;
        Ok(())
    }

    /// Puts the text's UTF-8 at the end of a list of bytes.
    pub fn push_utf8(&self, to: &mut List<u8>) -> Result<(), NoMemory>
        ensures ok { OnOk result (to.new ≡ to.old ++ encode_utf8_all self.now) }
        ensures err { OnErr result (to.new ≡ to.old) }
    {
        let spelled = spelling(*self.chars.allocator(), &self.chars)?;
        to.append(spelled.as_bytes())
    }
}

/// The UTF-8 of characters.
fn spelling(alloc: Global, chars: &[char]) -> Result<String, NoMemory>
    ensures { IfOk result (λ spelled. string_bytes spelled ≡ encode_utf8_all chars.now) }
{
    let mut spelled = String::new(alloc);
    for c in chars {
        spelled.push(*c)?;
    }
    Ok(spelled)
}
