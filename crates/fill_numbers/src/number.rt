//! Numbers as a session file has them.
ghost use Rattle.std.specs.Prelude.{◌≡◌, ◌↔◌, IsTrue};
ghost use Rattle.std.specs.Fmt.{decimal};
ghost use Rattle.fill_numbers.specs.Number.{number_in};

/// Whether the bytes are the plain decimal of the number.
fn is_decimal(number: u32, bytes: &[u8]) -> bool
    ensures { IsTrue result ↔ (decimal number ≡ bytes.now) }
{
    let mut buffer = itoa::Buffer::new();
    buffer.format(number).as_bytes() == bytes
}

/// The number whose plain decimal these bytes are: no sign, and no zero in front of other digits.
pub fn number_in(bytes: &[u8]) -> Option<u32>
    ensures { result ≡ number_in bytes.now }
{
    let Ok(text) = str::from_utf8(bytes) else {
        return None;
    };
    let Ok(number) = text.parse::<u32>() else {
        return None;
    };
    if !is_decimal(number, bytes) {
        return None;
    }
    Some(number)
}
