//! Reading an op from its text.

ghost use Rattle.std.specs.Prelude.{◌≡◌, ◌+◌, ◌≤◌, length};
ghost use Rattle.std.specs.Option.{option_map};
ghost use Rattle.entry.specs.Format.{number_at};
ghost use Rattle.replica.specs.Op.{shown_act, shown_op};
ghost use Rattle.op_text.specs.OpText.{act_in, op_behind, op_in};

use byteorder::{BigEndian, ByteOrder};
use replica::{Act, Op};

/// The number in the eight bytes from a place on.
#[tactic(auto, unfolding(entry::specs::Format::number_at))]
fn number_at(bytes: &[u8], at: usize) -> u64
    requires { at + 8 ≤ length bytes.now }
    ensures { result ≡ number_at 8 at bytes.now }
{
    BigEndian::read_u64(&bytes[at..])
}

/// The act of a kind and of what stands behind the numbers of its op.
fn read_act(kind: u8, rest: &[u8]) -> Option<Act<'_>>
    ensures { option_map shown_act result ≡ act_in kind rest.entry.now }
{
    match kind {
        1 => Some(Act::Open(rest)),
        2 if rest.len() >= 8 => Some(Act::Extend {
            at: number_at(rest, 0) as usize,
            bytes: &rest[8..],
        }),
        3 if rest.is_empty() => Some(Act::Close),
        4 => Some(Act::Seal(rest)),
        5 if rest.is_empty() => Some(Act::Free),
        _ => None,
    }
}

/// The op whose text is this kind, and behind it these bytes.
fn read_behind(kind: u8, rest: &[u8]) -> Option<Op<'_>>
    ensures { option_map shown_op result ≡ op_behind kind rest.entry.now }
{
    if rest.len() < 16 {
        return None;
    }
    match read_act(kind, &rest[16..]) {
        Some(act) => Some(Op {
            master: number_at(rest, 0),
            segment: number_at(rest, 8),
            act,
        }),
        None => None,
    }
}

/// Reads the op of a text. The answer is `None` if the text is no op's. The bytes of the op stay in the text.
pub fn read_op(text: &[u8]) -> Option<Op<'_>>
    ensures { option_map shown_op result ≡ op_in text.entry.now }
{
    match text {
        [kind, rest @ ..] => read_behind(*kind, rest),
        [] => None,
    }
}
