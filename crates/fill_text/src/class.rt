//! The classes of characters that tokens match runs of.
ghost use Rattle.std.specs.Prelude.{◌≡◌, ◌||◌};
ghost use Rattle.fill_text.specs.Classes.{class_of, is_separator, is_digit_category, is_upper_category, is_lower_category, is_alpha_category};

use unicode::properties::{GeneralCategory, is_white_space};

/// Which classes a character is in. A character may be in several, or in none.
#[derive(Clone, Copy, Debug, PartialEq, Eq)]
pub struct Class {
    /// A decimal digit of any script.
    pub digit: bool,
    /// An uppercase letter; a titlecase letter is none.
    pub upper: bool,
    /// A lowercase letter.
    pub lower: bool,
    /// A letter, also one without case.
    pub alpha: bool,
    /// White space.
    pub space: bool,
}

fn is_digit(category: GeneralCategory) -> bool
    ensures { result ≡ is_digit_category category }
{
    matches!(category, GeneralCategory::DecimalNumber)
}

fn is_upper(category: GeneralCategory) -> bool
    ensures { result ≡ is_upper_category category }
{
    matches!(category, GeneralCategory::UppercaseLetter)
}

fn is_lower(category: GeneralCategory) -> bool
    ensures { result ≡ is_lower_category category }
{
    matches!(category, GeneralCategory::LowercaseLetter)
}

fn is_alpha(category: GeneralCategory) -> bool
    ensures { result ≡ is_alpha_category category }
{
    match category {
        GeneralCategory::UppercaseLetter
        | GeneralCategory::LowercaseLetter
        | GeneralCategory::TitlecaseLetter
        | GeneralCategory::ModifierLetter
        | GeneralCategory::OtherLetter => true,
        _ => false,
    }
}

/// The classes of a character, by its Unicode general category and White_Space.
#[tactic(auto, unfolding(crate::specs::Classes::class_of))]
pub fn class_of(c: char) -> Class
    ensures { result ≡ class_of c }
{
    let category = GeneralCategory::for_char(c);
    Class {
        digit: is_digit(category),
        upper: is_upper(category),
        lower: is_lower(category),
        alpha: is_alpha(category),
        space: is_white_space(c),
    }
}

/// Whether a character is neither a letter nor a digit.
pub fn is_separator(c: char) -> bool
    ensures { result ≡ is_separator c }
{
    let class = class_of(c);
    !(class.alpha || class.digit)
}
