//! Bytes in hexadecimal.

ghost use Rattle.std.specs.Prelude.{◌≡◌, ◌<◌, ◌/◌, ◌%◌, ◌++◌, [], ◌∷◌, IfOk, OnOk};
ghost use Rattle.std.specs.List.{flat_map};
ghost use Rattle.fam_outcomes.specs.Texts.{byte_text, bytes_text};

use fam_base::{OutOfMemory, hex_digit, put_bytes};
use std::alloc::Global;

/// The two digits of a byte.
pub(crate) fn byte_digits(byte: u8) -> [u8; 2]
    ensures { result ≡ byte_text byte }
{
    [hex_digit(byte / 16), hex_digit(byte % 16)]
}

/// Adds two digits for each byte.
fn put_digits(bytes: &[u8], into: &mut Vec<u8>) -> Result<(), OutOfMemory>
    ensures { OnOk result (into.new.items ≡ into.old.items ++ flat_map byte_text bytes.now) }
{
    for byte in bytes {
        put_bytes(&byte_digits(*byte), into)?;
    }
    Ok(())
}

/// Two digits for each byte, or `-` for none.
pub(crate) fn bytes_text(alloc: Global, bytes: &[u8]) -> Result<Vec<u8>, OutOfMemory>
    ensures { IfOk result (λ text. text.items ≡ bytes_text bytes.now) }
{
    let mut text = Vec::new(alloc);
    if bytes.is_empty() {
        put_bytes(b"-", &mut text)?;
    } else {
        put_digits(bytes, &mut text)?;
    }
    Ok(text)
}
