//! The vectors of the format, under their names in `docs/SPECIFICATION.md`, in hexadecimal. Spaces are for reading
//! only.

use std::alloc::Global;

/// The first head of master 1, empty.
pub const FIRST: &str =
    "01 0000000000000001 0000000000000001 00 02 00000001 0000000000000001 03 0000000000000001";

/// The first head of master 1, empty, with the length of each segment in its digest.
pub const LENGTHS: &str = "01 0000000000000001 0000000000000001 00 \
    06 00000001 0000000000000001 0000000000000030 03 0000000000000001";

/// Table 1, version 1, key `a`, value `x`.
pub const OBJECT: &str = "04 0000000000000001 0000000000000001 0001 00000001 61 78";

/// Table 1, version 1, segment 1, key `a`.
pub const TOMBSTONE: &str = "05 0000000000000001 0000000000000001 0000000000000001 0001 61";

/// The header of survivor 3 of master 1.
pub const SURVIVOR: &str = "01 0000000000000001 0000000000000003 01";

/// An object with the greatest version and an empty value.
pub const GREATEST: &str = "04 0000000000000001 4000000000000000 0001 00000000 61";

/// The greatest safe version.
pub const SAFE: &str = "03 4000000000000001";

/// Appends the bytes of a text.
fn append(text: &str, bytes: &mut Vec<u8>) -> bool {
    let mut high: Option<u8> = None;
    for byte in text.as_bytes() {
        let Some(digit) = char::from(*byte).to_digit(16) else {
            continue;
        };
        let digit = digit as u8;
        match high.take() {
            None => high = Some(digit << 4),
            Some(high) => {
                if bytes.push(high | digit).is_err() {
                    return false;
                }
            }
        }
    }
    true
}

/// The bytes of these texts, one after another, if memory is left.
pub fn bytes_of(alloc: Global, texts: &[&str]) -> Option<Vec<u8>> {
    let mut bytes = Vec::new(alloc);
    for text in texts {
        if !append(text, &mut bytes) {
            return None;
        }
    }
    Some(bytes)
}

/// Whether these texts, one after another, spell these bytes.
pub fn are_spelt(alloc: Global, texts: &[&str], bytes: &[u8]) -> bool {
    match bytes_of(alloc, texts) {
        Some(spelt) => spelt.as_slice() == bytes,
        None => false,
    }
}
