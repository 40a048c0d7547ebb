//! A text of the row with its shape.
use fill_shapes::Shape;
use fill_text::Text;

/// A text, its shape, and the number of what is found of the shape.
#[derive(Drop)]
pub(crate) struct Shaped<'a> {
    pub(crate) text: &'a Text,
    pub(crate) shape: Shape,
    pub(crate) number: usize,
}
