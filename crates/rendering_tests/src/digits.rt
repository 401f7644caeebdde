// Bytes as hexadecimal digits.
ghost use Rattle.std.specs.Prelude.{◌<◌};

use std::alloc::{AllocError, Global};

// Any other byte counts as the digit 0, capital letters too, which `char::to_digit` would read.
fn digit(byte: u8) -> u8
    ensures { result < 16 }
{
    match byte {
        b'0'..=b'9' => byte - b'0',
        b'a'..=b'f' => byte - b'a' + 10,
        _ => 0,
    }
}

// The bytes that pairs of digits write; a digit left over at the end is not read.
pub(crate) fn bytes_of(heap: Global, digits: &str) -> Result<Vec<u8>, AllocError> {
    let (pairs, _) = digits.as_bytes().as_chunks::<2>();
    pairs
        .iter()
        .map(|[high, low]| digit(*high) * 16 + digit(*low))
        .collect(heap)
}

// The digits of bytes, up to the last that is not zero; a dash if there is none.
pub(crate) fn text_of(heap: Global, bytes: &[u8]) -> Result<String, AllocError> {
    match bytes.iter().rposition(|byte| *byte != 0) {
        Some(last) => hex::encode(heap, &bytes[..=last]),
        None => String::from_str(heap, "-"),
    }
}
