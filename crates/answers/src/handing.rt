//! Handing bytes to a writer, so that it is known what the writer took even if it fails.

ghost use Rattle.answers.specs.Errors.{IsHanded};

use std::io::{ErrorKind, Write};

/// The writer failed.
#[derive(Clone, Copy, Debug, PartialEq, Eq)]
pub struct WriteFailed;

/// Hands all of the bytes to the writer. If the writer fails, it has taken a front of them. A write that was
/// interrupted is tried again.
pub fn hand<W: Write>(writer: &mut W, bytes: &[u8]) -> Result<(), WriteFailed>
    ensures { IsHanded (W.contents writer.old) (W.contents writer.new) bytes.now result }
{
    let mut rest = bytes;
    for _ in 0..u64::MAX {
        if rest.is_empty() {
            return Ok(());
        }
        match writer.write(rest) {
            Ok(0) => return Err(WriteFailed),
            Ok(taken) => rest = &rest[taken..],
            Err(error) if error.kind() == ErrorKind::Interrupted => {}
            Err(_) => return Err(WriteFailed),
        }
    }
    Err(WriteFailed)
}
