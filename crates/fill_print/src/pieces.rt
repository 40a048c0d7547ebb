//! The parts of the notation that hold no tree: numbers, texts and places.
ghost use Rattle.std.specs.Prelude.{◌≡◌, ◌++◌, OnOk};
ghost use Rattle.std.specs.Fmt.{decimal, signed_decimal};
ghost use Rattle.fill_print.specs.Notation.{seq_text, place_text, char_text, chars_text};

use fill_text::{List, NoMemory, Text};
use fill_tokens::{Place, Seq};

/// Puts a part of the notation at the end.
pub(crate) fn put(to: &mut List<u8>, text: &str) -> Result<(), NoMemory>
    ensures { OnOk result (to.new ≡ to.old ++ text.now) }
{
    to.append(text.as_bytes())
}

pub(crate) fn put_number(to: &mut List<u8>, n: u32) -> Result<(), NoMemory>
    ensures { OnOk result (to.new ≡ to.old ++ decimal n) }
{
    let mut buffer = itoa::Buffer::new();
    put(to, buffer.format(n))
}

fn put_signed(to: &mut List<u8>, n: i32) -> Result<(), NoMemory>
    ensures { OnOk result (to.new ≡ to.old ++ signed_decimal n) }
{
    let mut buffer = itoa::Buffer::new();
    put(to, buffer.format(n))
}

pub(crate) fn put_seq(to: &mut List<u8>, seq: &Seq) -> Result<(), NoMemory>
    ensures { OnOk result (to.new ≡ to.old ++ seq_text seq.now) }
{
    put(to, "[")?;
    if seq.len() > 0 {
        put(to, seq.token(0).name())?;
    }
    for i in 1..seq.len() {
        put(to, " ")?;
        let token = seq.token(i);
        put(to, token.name())?;
    }
    put(to, "]")
}

pub(crate) fn put_place(to: &mut List<u8>, place: &Place) -> Result<(), NoMemory>
    ensures { OnOk result (to.new ≡ to.old ++ place_text place.now) }
{
    match place {
        Place::CPos(k) => {
            put(to, "CPos(")?;
            put_signed(to, *k)?;
            put(to, ")")
        }
        Place::Pos(left, right, count) => {
            put(to, "Pos(")?;
            put_seq(to, left)?;
            put(to, ",")?;
            put_seq(to, right)?;
            put(to, ",")?;
            put_signed(to, *count)?;
            put(to, ")")
        }
    }
}

fn put_char(to: &mut List<u8>, c: char) -> Result<(), NoMemory>
    ensures { OnOk result (to.new ≡ to.old ++ char_text c) }
{
    match c {
        '\'' => put(to, "\\'"),
        '\\' => put(to, "\\\\"),
        _ => {
            let mut buffer = [0; 4];
            put(to, c.encode_utf8(&mut buffer))
        }
    }
}

pub(crate) fn put_chars(to: &mut List<u8>, text: &Text) -> Result<(), NoMemory>
    ensures { OnOk result (to.new ≡ to.old ++ chars_text text.now) }
{
    for c in text.as_slice() {
        put_char(to, *c)?;
    }
    Ok(())
}
