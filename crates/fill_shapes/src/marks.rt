//! The characters that stand for blocks of letters and of digits.
ghost use Rattle.std.specs.Prelude.{◌≡◌, ◌<◌, length, false, slice_index, IfSome, IfOk, IsTrue};
ghost use Rattle.fill_text.specs.Classes.{class_of};
ghost use Rattle.fill_spans.specs.Read.{AreClasses};
ghost use Rattle.fill_shapes.specs.Stretched.{is_sign};

use fill_spans::classes;
use fill_text::{Class, NoMemory, Text, TextError};
use std::alloc::Global;

/// A text, and the classes of its characters.
#[derive(Drop)]
pub struct Classed {
    pub text: Text,
    pub classes: Vec<Class>,
}

/// The text with its classes.
pub fn with_classes(alloc: Global, text: Text) -> Result<Classed, NoMemory>
    ensures text { IfOk result (λ c. c.text ≡ text) }
    ensures classes { IfOk result (λ c. AreClasses c.text c.classes.items) }
{
    let classes = classes(alloc, &text)?;
    Ok(Classed { text, classes })
}

/// One character of each kind that makes blocks: the letters of lower, of upper and of no case, and
/// the digits.
pub fn marks(alloc: Global) -> Result<Classed, NoMemory>
    ensures { IfOk result (λ marks. AreClasses marks.text marks.classes.items) }
{
    match Text::from_utf8(alloc, "aA0\u{aa}".as_bytes()) {
        Ok(text) => with_classes(alloc, text),
        Err(_) => Err(NoMemory),
    }
}

/// Whether the character is a sign of ASCII, as each token of one character is.
pub fn is_sign(c: char) -> bool
    ensures { result ≡ is_sign c }
{
    let n = u32::from(c);
    n < 48 || (58 <= n && n <= 64) || (91 <= n && n <= 96) || (123 <= n && n <= 126)
}

/// Whether the characters at the two places are in the same classes, and neither is a sign.
pub fn alike(s: &Classed, i: usize, t: &Classed, k: usize) -> bool
    requires first { AreClasses s.now.text s.now.classes.items }
    requires second { AreClasses t.now.text t.now.classes.items }
    requires place { i < length s.now.text }
    requires other { k < length t.now.text }
    ensures same { IsTrue result → class_of (slice_index s.now.text i) ≡ class_of (slice_index t.now.text k) }
    ensures left { IsTrue result → is_sign (slice_index s.now.text i) ≡ false }
    ensures right { IsTrue result → is_sign (slice_index t.now.text k) ≡ false }
{
    if is_sign(s.text.at(i)) || is_sign(t.text.at(k)) {
        return false;
    }
    s.classes[i] == t.classes[k]
}

/// The place of the mark that is alike.
pub fn mark_of(marks: &Classed, t: &Classed, k: usize) -> Option<usize>
    requires marks { AreClasses marks.now.text marks.now.classes.items }
    requires text { AreClasses t.now.text t.now.classes.items }
    requires place { k < length t.now.text }
    ensures within { IfSome result (λ m. m < length marks.now.text) }
    ensures same { IfSome result (λ m. class_of (slice_index marks.now.text m) ≡ class_of (slice_index t.now.text k)) }
    ensures mark { IfSome result (λ m. is_sign (slice_index marks.now.text m) ≡ false) }
    ensures character { IfSome result (λ m. is_sign (slice_index t.now.text k) ≡ false) }
{
    for m in 0..marks.text.len() {
        if alike(marks, m, t, k) {
            return Some(m);
        }
    }
    None
}
