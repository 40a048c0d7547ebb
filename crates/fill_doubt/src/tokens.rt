//! The pieces that tokens span in a text, found for each token when it is first asked for, and the positions that
//! sequences of them come to.
ghost use Rattle.std.specs.Prelude.{◌≡◌, ◌++◌, ◌∷◌, [], List as Items, Some, IsTrue, IfOk, IfSome, OnOk};
ghost use Rattle.std.specs.List.Sorted.{IsStrictlyIncreasing};
ghost use Rattle.fill_tokens.specs.Cuts.{IsRisingListOf};
ghost use Rattle.fill_tokens.specs.Span.{Begins, Ends};
ghost use Rattle.fill_tokens.specs.declared.token.Token.{Token as Listed};
ghost use Rattle.fill_doubt.specs.Tokens.{AreReadIn, HasToken};

use crate::hops::{positions, reach};
use fill_spans::{Pieces, classes, pieces_of};
use fill_text::{Class, NoMemory, Text};
use fill_tokens::{Seq, Token};
use std::alloc::Global;

/// A token, and the pieces of the text that it spans.
#[derive(Drop)]
pub(crate) struct TokenPieces {
    pub(crate) token: Token,
    pub(crate) pieces: Pieces,
}

/// What was read of a text: the classes of its characters, and the pieces of the tokens that were asked for.
#[derive(Drop)]
pub(crate) struct Tokens {
    pub(crate) classes: Vec<Class>,
    pub(crate) read: Vec<TokenPieces>,
}

fn is_of(x: &TokenPieces, token: Token) -> bool
    ensures { IsTrue result → x.now.token ≡ token }
{
    x.token.number() == token.number()
}

impl Tokens {
    /// Where no token was asked for yet.
    pub(crate) fn new(alloc: Global, t: &Text) -> Result<Tokens, NoMemory>
        ensures { IfOk result (AreReadIn t.now) }
    {
        let classes = classes(alloc, t)?;
        Ok(Tokens {
            classes,
            read: Vec::new(alloc),
        })
    }

    fn find(&self, token: Token) -> Option<usize>
        ensures { IfSome result (HasToken self.now token) }
    {
        for i in 0..self.read.len() {
            if is_of(&self.read[i], token) {
                return Some(i);
            }
        }
        None
    }

    /// The place of the token among those that are read.
    fn place_of(&mut self, alloc: Global, token: Token, t: &Text) -> Result<usize, NoMemory>
        requires { AreReadIn t.now self.old }
        ensures kept { OnOk result (AreReadIn t.now self.new) }
        ensures there { IfOk result (HasToken self.new token) }
    {
        if let Some(i) = self.find(token) {
            return Ok(i);
        }
        let pieces = pieces_of(alloc, token, t, &self.classes)?;
        let i = self.read.len();
        self.read.push(TokenPieces { token, pieces })?;
        Ok(i)
    }

    /// The ends of the pieces that the token spans.
    fn ends_of(&mut self, alloc: Global, token: Token, t: &Text) -> Result<Vec<usize>, NoMemory>
        requires { AreReadIn t.now self.old }
        ensures kept { OnOk result (AreReadIn t.now self.new) }
        ensures ends { IfOk result (λ ks. IsRisingListOf (Ends (token ∷ []) t.now) ks.items) }
    {
        let i = self.place_of(alloc, token, t)?;
        let ends = Vec::from_slice(alloc, self.read[i].pieces.ends.as_slice())?;
        Ok(ends)
    }

    /// The ends of the pieces that the token spans from one of the positions on.
    fn ends_after(
        &mut self,
        alloc: Global,
        token: Token,
        t: &Text,
        stops: &[usize],
    ) -> Result<Vec<usize>, NoMemory>
        requires read { AreReadIn t.now self.old }
        requires stops { IsStrictlyIncreasing stops.now }
        ensures kept { OnOk result (AreReadIn t.now self.new) }
        ensures ends { IfOk result (λ ks. (r : Items Listed) → IsRisingListOf (Ends r t.now) stops.now → IsRisingListOf (Ends (r ++ token ∷ []) t.now) ks.items) }
    {
        let i = self.place_of(alloc, token, t)?;
        let mut ends = Vec::new(alloc);
        let pieces = &self.read[i].pieces;
        reach(
            stops,
            pieces.starts.as_slice(),
            pieces.ends.as_slice(),
            &mut ends,
        )?;
        Ok(ends)
    }

    /// The starts of the pieces that the token spans.
    fn starts_of(&mut self, alloc: Global, token: Token, t: &Text) -> Result<Vec<usize>, NoMemory>
        requires { AreReadIn t.now self.old }
        ensures kept { OnOk result (AreReadIn t.now self.new) }
        ensures starts { IfOk result (λ ks. IsRisingListOf (Begins (token ∷ []) t.now) ks.items) }
    {
        let i = self.place_of(alloc, token, t)?;
        let starts = Vec::from_slice(alloc, self.read[i].pieces.starts.as_slice())?;
        Ok(starts)
    }

    /// The starts of the pieces that the token spans up to one of the positions.
    fn starts_before(
        &mut self,
        alloc: Global,
        token: Token,
        t: &Text,
        rest: &[usize],
    ) -> Result<Vec<usize>, NoMemory>
        requires read { AreReadIn t.now self.old }
        requires rest { IsStrictlyIncreasing rest.now }
        ensures kept { OnOk result (AreReadIn t.now self.new) }
        ensures starts { IfOk result (λ ks. (r : Items Listed) → IsRisingListOf (Begins r t.now) rest.now → IsRisingListOf (Begins (token ∷ r) t.now) ks.items) }
    {
        let i = self.place_of(alloc, token, t)?;
        let mut starts = Vec::new(alloc);
        let pieces = &self.read[i].pieces;
        reach(
            rest,
            pieces.ends.as_slice(),
            pieces.starts.as_slice(),
            &mut starts,
        )?;
        Ok(starts)
    }

    /// The positions in order up to which the sequence spans a piece.
    pub(crate) fn stops(
        &mut self,
        alloc: Global,
        seq: &Seq,
        t: &Text,
    ) -> Result<Vec<usize>, NoMemory>
        requires { AreReadIn t.now self.old }
        ensures kept { OnOk result (AreReadIn t.now self.new) }
        ensures stops { IfOk result (λ ks. IsRisingListOf (Ends seq.now t.now) ks.items) }
    {
        let count = seq.len();
        if count == 0 {
            return positions(alloc, t.len());
        }
        let mut stops = self.ends_of(alloc, seq.token(0), t)?;
        for i in 1..count {
            stops = self.ends_after(alloc, seq.token(i), t, stops.as_slice())?;
        }
        Ok(stops)
    }

    /// The positions in order from which on the sequence spans a piece.
    pub(crate) fn starts(
        &mut self,
        alloc: Global,
        seq: &Seq,
        t: &Text,
    ) -> Result<Vec<usize>, NoMemory>
        requires { AreReadIn t.now self.old }
        ensures kept { OnOk result (AreReadIn t.now self.new) }
        ensures starts { IfOk result (λ ks. IsRisingListOf (Begins seq.now t.now) ks.items) }
    {
        let count = seq.len();
        if count == 0 {
            return positions(alloc, t.len());
        }
        let mut left = count - 1;
        let mut starts = self.starts_of(alloc, seq.token(left), t)?;
        while left > 0 {
            left -= 1;
            starts = self.starts_before(alloc, seq.token(left), t, starts.as_slice())?;
        }
        Ok(starts)
    }
}
