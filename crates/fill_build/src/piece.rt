//! A piece of the example's text.
use fill_text::Text;

/// The characters of a text from `from` on, `width` of them, and whether a constant may be all of them.
///
/// Contracts see it as `piece_text`, where `IsWithin` holds.
#[derive(Clone, Copy)]
pub(crate) struct Piece<'a> {
    pub(crate) text: &'a Text,
    pub(crate) from: usize,
    pub(crate) width: usize,
    pub(crate) constant: bool,
}
