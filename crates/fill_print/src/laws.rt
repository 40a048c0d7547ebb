//! Laws of the notation.
//!
//! Each function does nothing: what it tells is its clause.
ghost use Rattle.std.specs.Prelude.{◌≡◌};
ghost use Rattle.fill_tokens.specs.TokenSet.{IsTokenOf};
ghost use Rattle.fill_tokens.specs.declared.token.Token.{Token};
ghost use Rattle.fill_tokens.specs.declared.token_set.TokenSet.{TokenSet};
ghost use Rattle.fill_tree.specs.Switch.{SwitchTree};
ghost use Rattle.fill_print.specs.Notation.{switch_text};
ghost use Rattle.fill_print.specs.Rules.{IsSwitch};

/// Different conditional programs that keep the rules of the notation have different spellings.
pub fn spellings_differ()
    ensures { (token_set : TokenSet) (s t : SwitchTree) → IsSwitch token_set s → IsSwitch token_set t → switch_text s ≡ switch_text t → s ≡ t }
{}

/// A conditional program by tokens of a set is one by tokens of each larger set.
pub fn larger_sets_have_more_programs()
    ensures { (small large : TokenSet) (s : SwitchTree) →
        ((x : Token) → IsTokenOf small x → IsTokenOf large x) → IsSwitch small s → IsSwitch large s }
{}
