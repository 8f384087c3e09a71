//! Writing the text of an op.

ghost use Rattle.std.specs.Prelude.{◌≡◌, ◌<◌, ◌^◌, ◌++◌, ◌∷◌, OnOk};
ghost use Rattle.entry.specs.Format.{number_bytes};
ghost use Rattle.replica.specs.Op.{shown_act, shown_op};
ghost use Rattle.op_text.specs.OpText.{FitsText, kind_of, op_text};

use byteorder::{BigEndian, ByteOrder};
use entry::NoMemory;
use replica::{Act, Op};

/// How many bytes the kind and the numbers of an op take.
const FRONT_LEN: usize = 17;

/// The kind and the numbers of an op.
#[tactic(auto, unfolding(entry::specs::Format::number_bytes))]
fn front(kind: u8, master: u64, segment: u64) -> [u8; FRONT_LEN]
    ensures text { result ≡ kind ∷ number_bytes 8 master ++ number_bytes 8 segment }
    ensures master { master < 2 ^ 64 }
    ensures segment { segment < 2 ^ 64 }
{
    let mut bytes = [kind; FRONT_LEN];
    BigEndian::write_u64(&mut bytes[1..], master);
    BigEndian::write_u64(&mut bytes[9..], segment);
    bytes
}

/// The eight bytes of a number.
#[tactic(auto, unfolding(entry::specs::Format::number_bytes))]
fn spelled(number: u64) -> [u8; 8]
    ensures text { result ≡ number_bytes 8 number }
    ensures fits { number < 2 ^ 64 }
{
    let mut bytes = [0; 8];
    BigEndian::write_u64(&mut bytes, number);
    bytes
}

/// The byte of an act.
fn kind_byte(act: &Act<'_>) -> u8
    ensures { result ≡ kind_of (shown_act act.now) }
{
    match act {
        Act::Open(_) => 1,
        Act::Extend { .. } => 2,
        Act::Close => 3,
        Act::Seal(_) => 4,
        Act::Free => 5,
    }
}

/// Appends the text of an op to `out`. After `NoMemory` a front of it may have been appended.
pub fn write_op(out: &mut Vec<u8>, op: &Op<'_>) -> Result<(), NoMemory>
    ensures text { OnOk result (out.new.items ≡ out.old.items ++ op_text (shown_op op.now)) }
    ensures fits { OnOk result (FitsText (shown_op op.now)) }
{
    out.extend_from_slice(&front(kind_byte(&op.act), op.master, op.segment))?;
    match op.act {
        Act::Open(bytes) | Act::Seal(bytes) => out.extend_from_slice(bytes),
        Act::Extend { at, bytes } => {
            out.extend_from_slice(&spelled(at as u64))?;
            out.extend_from_slice(bytes)
        }
        Act::Close | Act::Free => Ok(()),
    }
}
