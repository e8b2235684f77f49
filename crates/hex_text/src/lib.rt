// Bytes as text: two hexadecimal digits each, spaces between bytes.
#![tactic(auto)]

ghost use Rattle.hex_text.specs.Hex.{byte_of, digit_of, hex_of};
ghost use Rattle.std.specs.Option.{option_map};
ghost use Rattle.std.specs.Prelude.{◌≡◌, ◌<◌, IfSome, IfOk, vec_items};

use std::alloc::{AllocError, Global};

// The value of a digit.
fn digit(b: u8) -> Option<u8>
    ensures value { result ≡ digit_of b }
    ensures small { IfSome result (λ d. d < 16) }
{
    match b {
        b'0'..=b'9' => Some(b - b'0'),
        b'A'..=b'F' => Some(b - b'A' + 10),
        b'a'..=b'f' => Some(b - b'a' + 10),
        _ => None,
    }
}

// The byte of two digits, if both are.
fn byte_of(high: u8, low: u8) -> Option<u8>
    ensures { result ≡ byte_of (digit_of high) (digit_of low) }
{
    let h = digit(high)?;
    let l = digit(low)?;
    Some(16 * h + l)
}

// The bytes that a text writes, if it writes bytes.
pub fn read_hex(heap: Global, text: &[u8]) -> Result<Option<Vec<u8>>, AllocError>
    ensures { IfOk result (λ o. option_map vec_items o ≡ hex_of text.now) }
{
    let mut rest = text;
    let mut bytes = Vec::new(heap);
    while let [first, behind @ ..] = rest {
        if *first == b' ' {
            rest = behind;
        } else {
            let [second, more @ ..] = behind else {
                return Ok(None);
            };
            let Some(byte) = byte_of(*first, *second) else {
                return Ok(None);
            };
            bytes.push(byte)?;
            rest = more;
        }
    }
    Ok(Some(bytes))
}
