//! Shapes of small texts, worked by hand.
use fill_shapes::Shape;
use fill_text::Text;
use std::alloc::Global;
use std::test::Fail;

/// Whether the shape is spelled so, with these bounds.
fn is(alloc: Global, made: &Shape, shape: &str, bounds: &[usize]) -> Result<bool, Fail> {
    let wanted = Text::from_utf8(alloc, shape.as_bytes())?;
    Ok(made.text.same(&wanted) && made.bounds.as_slice() == bounds)
}

/// Whether the text's shape is.
fn text_has(alloc: Global, text: &Text, shape: &str, bounds: &[usize]) -> Result<bool, Fail> {
    let made = Shape::of(alloc, text)?;
    is(alloc, &made, shape, bounds)
}

fn has_shape(alloc: Global, spelled: &str, shape: &str, bounds: &[usize]) -> Result<bool, Fail> {
    let text = Text::from_utf8(alloc, spelled.as_bytes())?;
    text_has(alloc, &text, shape, bounds)
}

#[test]
fn shapes_are_those_worked_by_hand(rt: HostRuntime) -> Result<(), Fail> {
    let rows: [(&str, &str, &[usize]); 8] = [
        ("", "", &[0]),
        ("Olga Byron", "Aa Aa", &[0, 1, 4, 5, 6, 10]),
        ("(879) 555-8364", "(0) 0-0", &[0, 1, 4, 5, 6, 9, 10, 14]),
        ("a--B", "a--A", &[0, 1, 2, 3, 4]),
        ("\u{df}A", "aA", &[0, 1, 2]),
        ("7\u{661}x", "0a", &[0, 2, 3]),
        ("\u{aa}b", "\u{aa}a", &[0, 1, 2]),
        ("\u{20ac}\u{20ac}\t_", "\u{20ac}\t_", &[0, 2, 3, 4]),
    ];
    for (spelled, shape, bounds) in rows {
        assert!(rt; has_shape(rt.alloc(), spelled, shape, bounds)?, "{spelled}");
    }
    Ok(())
}
