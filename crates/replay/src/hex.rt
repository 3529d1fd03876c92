// Bytes as a script has them: two small digits each, and `-` for none at all. The kit's `hex` takes capitals too.
ghost use Rattle.std.specs.Prelude.{◌<◌, IfSome};

use std::alloc::{AllocError, Global};

fn digit(byte: u8) -> Option<u8>
    ensures { IfSome result (λ d. d < 16) }
{
    match byte {
        b'0'..=b'9' => Some(byte - b'0'),
        b'a'..=b'f' => Some(byte - b'a' + 10),
        _ => None,
    }
}

fn byte(digits: &[u8]) -> Option<u8> {
    match digits {
        [high, low] => Some(digit(*high)? * 16 + digit(*low)?),
        _ => None,
    }
}

// The bytes of a word; None where it is not written so.
pub(crate) fn unhex(alloc: Global, word: &str) -> Result<Option<Vec<u8>>, AllocError> {
    let mut bytes = Vec::new(alloc);
    if word == "-" {
        return Ok(Some(bytes));
    }
    for digits in word.as_bytes().chunks(2) {
        match byte(digits) {
            Some(x) => bytes.push(x)?,
            None => return Ok(None),
        }
    }
    Ok(Some(bytes))
}

// Puts bytes behind a text, as a word.
pub(crate) fn push_hex(out: &mut String, bytes: &[u8]) -> Result<(), AllocError> {
    if bytes.is_empty() {
        return write!(out, "-");
    }
    for byte in bytes {
        write!(out, "{byte:02x}")?;
    }
    Ok(())
}
