//! Laws of the definitions that the contracts of this crate cite.
//!
//! Each function does nothing: what it tells is its clauses, which hold for all texts, tokens and places.
ghost use Rattle.std.specs.Prelude.{◌≡◌, ◌≢◌, ◌↔◌, ◌+◌, ◌-◌, ◌≤◌, ℕ, ℤ, List, length, reverse, slice_get};
ghost use Rattle.std.specs.Ordering.{ordering_reverse};
ghost use Rattle.std.specs.Cmp.{IsTotalOrder};
ghost use Rattle.std.specs.declared.cmp.Ordering.TheVariants.{Equal};
ghost use Rattle.fill_text.specs.Data.{nth};
ghost use Rattle.fill_tokens.specs.Token.{token_number, token_name};
ghost use Rattle.fill_tokens.specs.Span.{Spans, Begins};
ghost use Rattle.fill_tokens.specs.Value.{HasValue, IsCount, IsCutFromLeft, IsCutFromRight};
ghost use Rattle.fill_tokens.specs.Cuts.{AreCuts, AreMatches};
ghost use Rattle.fill_tokens.specs.Place.{place_cmp, seq_cmp, signed_cmp};
ghost use Rattle.fill_tokens.specs.TokenSet.{IsTokenOf};
ghost use Rattle.fill_tokens.specs.declared.token.Token.{Token};
ghost use Rattle.fill_tokens.specs.declared.token.Token.TheVariants.{Dollar, NonDigit, NonAlpha};
ghost use Rattle.fill_tokens.specs.declared.token_set.TheConstants.TokenSet as token_set;
ghost use Rattle.fill_tokens.specs.declared.place.Place.{Place};
ghost use Rattle.fill_tokens.specs.declared.prices.TheConstants.Prices as price;

use crate::token::Token;

/// Tokens of one number are the same, and so are tokens of one name.
#[tactic(auto, using(crate::proofs::TokenLaws::number_exact, crate::proofs::TokenLaws::name_exact))]
pub fn tokens_are_told_apart()
    ensures numbers { (x y : Token) → token_number x ≡ token_number y → x ≡ y }
    ensures names { (x y : Token) → token_name x ≡ token_name y → x ≡ y }
{}

/// The list of all tokens has each of them at the place of its number.
#[tactic(auto, using(crate::proofs::TokenLaws::listed))]
pub fn all_tokens_are_listed()
    ensures { (x : Token) → slice_get Token.ALL (token_number x - 1) ≡ Some x }
{}

/// The first set has the tokens up to the last sign of the first ones, the second one also the runs of negated classes,
/// and the third one all tokens but two of these.
#[tactic(auto, using(crate::proofs::TokenLaws::in_first, crate::proofs::TokenLaws::in_second, crate::proofs::TokenLaws::in_third, crate::proofs::TokenLaws::in_all))]
pub fn sets_have_their_tokens()
    ensures first { (x : Token) → IsTokenOf token_set.FIRST x ↔ (token_number x ≤ token_number Dollar) }
    ensures second { (x : Token) → IsTokenOf token_set.SECOND x ↔ (token_number x ≤ token_number NonAlpha) }
    ensures third { (x : Token) → IsTokenOf token_set.THIRD x ↔ ((x ≢ NonDigit) × (x ≢ NonAlpha)) }
    ensures all { (x : Token) → IsTokenOf token_set.ALL x }
{}

/// What the parts of a program cost by the first two profiles, and by the third.
pub fn prices_are_as_specified()
    ensures first { price.FIRST ≡ record {
      atom = 5;
      constant = 10;
      separator = 1;
      character = 12;
      whole = 2;
      piece = 6;
      column = 0;
      lookup = 8;
      constant_condition = 15;
      condition = 2;
      text_end = 1;
      position = 10;
      cut = 2;
      edge = 2;
      sign = 2;
      run = 2;
      step = 2;
      from_right = 0;
    } }
    ensures third { price.THIRD ≡ record {
      atom = 5;
      constant = 10;
      separator = 1;
      character = 40;
      whole = 2;
      piece = 6;
      column = 0;
      lookup = 8;
      constant_condition = 40;
      condition = 2;
      text_end = 1;
      position = 10;
      cut = 2;
      edge = 2;
      sign = 1;
      run = 4;
      step = 2;
      from_right = 2;
    } }
{}

/// From each position a token spans at most one piece, and up to each position too.
pub fn tokens_span_one_piece()
    ensures end { (x : Token) (t : List ℕ) (a b c : ℕ) → Spans x t a b → Spans x t a c → b ≡ c }
    ensures start { (x : Token) (t : List ℕ) (a b c : ℕ) → Spans x t a c → Spans x t b c → a ≡ b }
    ensures within { (x : Token) (t : List ℕ) (a b : ℕ) → Spans x t a b → (a ≤ b) × (b ≤ length t) }
{}

/// A place has at most one value in a text, and it is a position of the text.
pub fn places_have_one_value()
    ensures one { (p : Place) (t : List ℕ) (k l : ℕ) → HasValue p t k → HasValue p t l → k ≡ l }
    ensures within { (p : Place) (t : List ℕ) (k : ℕ) → HasValue p t k → k ≤ length t }
{}

/// Below a number there is at most one count of matches, and the count below a larger number is no less.
pub fn match_counts_are_unique()
    ensures one { (r : List Token) (t : List ℕ) (n c d : ℕ) →
        IsCount (Begins r t) n c → IsCount (Begins r t) n d → c ≡ d }
    ensures monotone { (r : List Token) (t : List ℕ) (m n c d : ℕ) → m ≤ n →
        IsCount (Begins r t) m c → IsCount (Begins r t) n d → c ≤ d }
{}

/// Places are in a total order, and only equal places are alike in it.
#[tactic(auto, using(crate::proofs::PlaceLaws::place_total, crate::proofs::PlaceLaws::place_antisymm, crate::proofs::PlaceLaws::exact_places))]
pub fn places_are_ordered()
    ensures antisymmetric { (p q : Place) → place_cmp p q ≡ ordering_reverse (place_cmp q p) }
    ensures total { IsTotalOrder place_cmp }
    ensures exact { (p q : Place) → place_cmp p q ≡ Equal → p ≡ q }
{}

/// Sequences of tokens are in a total order, and only equal sequences are alike in it.
#[tactic(auto, using(crate::proofs::PlaceLaws::seq_total, crate::proofs::PlaceLaws::seq_antisymm, crate::proofs::PlaceLaws::exact_seqs))]
pub fn sequences_are_ordered()
    ensures antisymmetric { (r s : List Token) → seq_cmp r s ≡ ordering_reverse (seq_cmp s r) }
    ensures total { IsTotalOrder seq_cmp }
    ensures exact { (r s : List Token) → seq_cmp r s ≡ Equal → r ≡ s }
{}

/// Signed numbers are in a total order, and only equal numbers are alike in it.
#[tactic(auto, using(crate::proofs::PlaceLaws::signed_total, crate::proofs::PlaceLaws::signed_antisymm, crate::proofs::PlaceLaws::exact_signed))]
pub fn signed_numbers_are_ordered()
    ensures antisymmetric { (a b : ℤ) → signed_cmp a b ≡ ordering_reverse (signed_cmp b a) }
    ensures total { IsTotalOrder signed_cmp }
    ensures exact { (a b : ℤ) → signed_cmp a b ≡ Equal → a ≡ b }
{}

/// A match count is the length of the rising list of the positions at which a match begins, which every text has.
pub fn matches_are_counted()
    ensures listed { (r : List Token) (t : List ℕ) → (ks : List ℕ) × AreMatches r t ks }
    ensures counted { (r : List Token) (t ks : List ℕ) → AreMatches r t ks →
        (c : ℕ) → IsCount (Begins r t) (length t + 1) c ↔ (c ≡ length ks) }
{}

/// A cut's number from the left is its place in the rising list of all cuts, which every text has, and its number from
/// the right its place in that list turned round. Both count from 1.
pub fn cuts_are_numbered()
    ensures listed { (r s : List Token) (t : List ℕ) → (ks : List ℕ) × AreCuts r s t ks }
    ensures left { (r s : List Token) (t ks : List ℕ) → AreCuts r s t ks →
        (c k : ℕ) → IsCutFromLeft r s t c k ↔ (nth ks c ≡ Some k) }
    ensures right { (r s : List Token) (t ks : List ℕ) → AreCuts r s t ks →
        (c k : ℕ) → IsCutFromRight r s t c k ↔ (nth (reverse ks) c ≡ Some k) }
{}
