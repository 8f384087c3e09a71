//! Byte strings that allocate memory only if they are long.

ghost use Rattle.std.specs.Prelude.{◌≡◌, ◌<◌, length, IfOk, OnErr};

use std::alloc::{AllocError, Global};
use std::fmt;
use std::marker::Model;

/// A copy of up to this many bytes lies in the value itself.
const INLINE_LEN: usize = 15;

/// A byte string. A copy of up to 15 bytes lies in the value itself, and a longer one in allocated memory. A contract
/// sees the bytes as a list.
#[derive(Clone, Drop)]
pub(crate) struct ShortBytes {
    /// The number of bytes in `inline`. If it is 0, then all bytes lie in `heap`.
    len: u8,
    inline: [u8; INLINE_LEN],
    heap: Vec<u8>,
}

impl Model for ShortBytes {
    ghost use Rattle.std.specs.Prelude.{◌≡◌, ◌≤◌, ◌++◌, ◌⊎◌, [], ℕ, List, take};

    ghost Value = { List ℕ };

    ghost view = { λ b. take b.len b.inline ++ b.heap.items };

    ghost invariant = { λ b. (b.len ≤ 15) × ((b.len ≡ 0) ⊎ (b.heap.items ≡ [])) };
}

impl ShortBytes {
    /// Takes over these bytes, without a copy.
    pub(crate) fn of_vec(bytes: Vec<u8>) -> ShortBytes
        ensures { result ≡ bytes.items }
    {
        ShortBytes {
            len: 0,
            inline: [0; INLINE_LEN],
            heap: bytes,
        }
    }

    /// Copies these bytes. The call allocates memory only if there are more than 15 bytes.
    pub(crate) fn from_slice(alloc: Global, bytes: &[u8]) -> Result<ShortBytes, AllocError>
        ensures copy { IfOk result (λ copy. copy ≡ bytes.now) }
        ensures few { OnErr result (15 < length bytes.now) }
    {
        let len = bytes.len();
        if len > INLINE_LEN {
            return Ok(ShortBytes::of_vec(Vec::from_slice(alloc, bytes)?));
        }
        let mut inline = [0; INLINE_LEN];
        inline[..len].copy_from_slice(bytes);
        Ok(ShortBytes {
            len: len as u8,
            inline,
            heap: Vec::new(alloc),
        })
    }

    #[inline]
    pub(crate) fn as_slice(&self) -> &[u8]
        ensures { result.now ≡ self.now }
    {
        if self.len > 0 {
            &self.inline[..self.len as usize]
        } else {
            self.heap.as_slice()
        }
    }
}

impl fmt::Debug for ShortBytes {
    fn fmt<W: fmt::Write>(&self, f: &mut fmt::Formatter<W>) -> fmt::Result {
        f.debug_list().entries(self.as_slice()).finish()
    }
}
