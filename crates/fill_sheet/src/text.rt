//! The text of a record, field by field, as a CSV file has it.
//!
//! It is that of `csv`'s writer. Each such writer clears 8 KB of its own when it is made, which is too much for one record.
ghost use Rattle.std.specs.Prelude.{◌≡◌, ◌==◌, ◌++◌, ◌∷◌, [], OnOk, if◌then◌else◌, length};
ghost use Rattle.std.specs.List.{list_any};
ghost use Rattle.csv.specs.Quoting.{needs_byte};
ghost use Rattle.csv.specs.Writing.{default_writer, escaped, field_text, next_sep, quoted};

use fill_text::{List, NoMemory};

/// The mark round fields that need it.
const QUOTE: u8 = b'"';

/// Puts what stands before the field at a place at the end.
pub fn push_sep(i: usize, to: &mut List<u8>) -> Result<(), NoMemory>
    ensures { OnOk result (to.new ≡ to.old ++ next_sep default_writer i) }
{
    if i == 0 {
        return Ok(());
    }
    to.push(b',')?;
    Ok(())
}

/// Puts the text of a field at the end.
pub fn push_field(field: &[u8], to: &mut List<u8>) -> Result<(), NoMemory>
    ensures { OnOk result (to.new ≡ to.old ++ field_text default_writer field.now) }
{
    if needs_quotes(field) {
        return push_quoted(field, to);
    }
    to.append(field)?;
    Ok(())
}

/// Whether a field needs quotes.
fn needs_quotes(field: &[u8]) -> bool
    ensures { result ≡ list_any (needs_byte default_writer) field.now }
{
    for byte in field {
        if needs_byte(*byte) {
            return true;
        }
    }
    false
}

/// Whether a field with this byte needs them.
fn needs_byte(byte: u8) -> bool
    ensures { result ≡ needs_byte default_writer byte }
{
    if byte == b',' {
        return true;
    }
    if byte == QUOTE {
        return true;
    }
    if byte == b'\r' {
        return true;
    }
    byte == b'\n'
}

/// Puts a field between quotes at the end.
#[tactic(auto, using(crate::proofs::Texts::quoted_start, crate::proofs::Texts::quoted_more, crate::proofs::Texts::quoted_whole))]
fn push_quoted(field: &[u8], to: &mut List<u8>) -> Result<(), NoMemory>
    ensures { OnOk result (to.new ≡ to.old ++ quoted default_writer field.now) }
{
    to.push(QUOTE)?;
    for byte in field {
        push_byte(*byte, to)?;
    }
    to.push(QUOTE)?;
    Ok(())
}

/// Puts a byte of a field between quotes at the end.
#[tactic(auto, unfolding(csv::specs::Writing::escaped))]
fn push_byte(byte: u8, to: &mut List<u8>) -> Result<(), NoMemory>
    ensures { OnOk result (to.new ≡ to.old ++ escaped default_writer (byte ∷ [])) }
{
    if byte == QUOTE {
        to.append(b"\"\"")?;
        return Ok(());
    }
    to.push(byte)?;
    Ok(())
}

/// Puts what ends a record at the end: where no byte of it is shown, two quotes stand for its one field.
pub fn push_end(to: &mut List<u8>) -> Result<(), NoMemory>
    ensures { OnOk result (to.new ≡ to.old ++ ((if length to.old == 0 then 34 ∷ 34 ∷ [] else []) ++ 10 ∷ [])) }
{
    if to.len() == 0 {
        to.append(b"\"\"\n")?;
        return Ok(());
    }
    to.push(b'\n')?;
    Ok(())
}
