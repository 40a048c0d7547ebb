//! Fields of texts that need not be there.
ghost use Rattle.std.specs.Prelude.{◌≡◌, IfOk};
ghost use Rattle.fill_output.specs.Fields.{answer_field, value_word};

use fill_text::{List, NoMemory, Text};
use std::alloc::Global;

/// The text of an answer in UTF-8, empty where there is none.
pub fn answer_field(alloc: Global, text: &Option<Text>) -> Result<List<u8>, NoMemory>
    ensures { IfOk result (λ made. made ≡ answer_field text.now) }
{
    let mut made = List::new(alloc);
    if let Some(text) = text {
        text.push_utf8(&mut made)?;
    }
    Ok(made)
}

/// Whether there is a text.
pub fn value_word(text: &Option<Text>) -> &'static [u8]
    ensures { result.now ≡ value_word text.now }
{
    match text {
        Some(_) => b"some",
        None => b"none",
    }
}
