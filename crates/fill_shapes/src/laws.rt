//! What a text and its shape have in common.
ghost use Rattle.std.specs.Prelude.{◌≡◌, ◌↔◌, ◌+◌, ◌<◌, ℕ, ℤ, List, length, slice_get, Some};
ghost use Rattle.fill_tokens.specs.Value.{HasValue};
ghost use Rattle.fill_tokens.specs.declared.token.Token.{Token};
ghost use Rattle.fill_tokens.specs.declared.place.Place.TheVariants.{Pos};
ghost use Rattle.fill_shapes.specs.Stretched.{IsStretched};

/// The values of a place between token sequences, not both empty, in a text are those in its shape, carried over by the
/// bounds. The function does nothing: what it tells is its clause.
pub fn values_are_stretched()
    ensures { (w t bounds : List ℕ) → IsStretched w t bounds → (r s : List Token) (c : ℤ) → 0 < length r + length s →
        (k : ℕ) → HasValue (Pos r s c) t k ↔ ((i : ℕ) × (slice_get bounds i ≡ Some k) × HasValue (Pos r s c) w i) }
{}
