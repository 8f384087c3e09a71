//! Digests: which segments a log has, by their ids alone or with the length of each.

ghost use Rattle.std.specs.Prelude.{◌≡◌, length};
ghost use Rattle.entry.specs.Limits.{AreLengths};
ghost use Rattle.entry.specs.Format.{digest_spelling, is_within, IsDigest};

use crate::kind::DIGEST_LEN;
use crate::limits::Ids;
use std::marker::Model;

/// The fewest bytes of a segment: those of its header.
const MIN_LEN: u64 = 18;

/// The most bytes of a segment.
const MAX_LEN: u64 = 8_388_608;

/// Returns true if a segment may have `len` bytes: 18 to 8,388,608.
pub(crate) fn is_len(len: u64) -> bool
    ensures { result ≡ is_within 18 8388608 len }
{
    MIN_LEN <= len && len <= MAX_LEN
}

/// A segment that a digest lists, with its length in bytes.
#[derive(Clone, Copy)]
pub struct Listed {
    pub id: u64,
    pub len: u64,
}

/// The segments of a digest with their lengths. Their ids rise strictly. There are fewer than 2^32 segments, and each
/// has 18 to 8,388,608 bytes. A contract sees them as a list.
#[derive(Clone, Drop)]
pub struct Lengths {
    segments: Vec<Listed>,
}

impl Model for Lengths {
    ghost use Rattle.std.specs.Prelude.{List};
    ghost use Rattle.entry.specs.declared.digest.Listed.{Listed};
    ghost use Rattle.entry.specs.Limits.{AreLengths};

    ghost Value = { List Listed };

    ghost view = { λ d. d.segments.items };

    ghost invariant = { λ d. AreLengths d.segments.items };
}

impl Lengths {
    /// Makes the list from these segments. This call allocates no memory.
    pub fn new(segments: Vec<Listed>) -> Lengths
        requires { AreLengths segments.items }
        ensures { result ≡ segments.items }
    {
        Lengths { segments }
    }

    pub fn as_slice(&self) -> &[Listed]
        ensures segments { result.now ≡ self.now }
        ensures valid { AreLengths self.now }
    {
        self.segments.as_slice()
    }
}

/// A list of the segments of a log: their ids alone (format 1), or their ids and lengths (format 2).
#[derive(Clone, Drop)]
pub enum Digest {
    Ids(Ids),
    Lengths(Lengths),
}

impl Digest {
    /// Returns how many bytes the digest has as an entry of a text.
    pub fn spelled_len(&self) -> usize
        ensures len { result ≡ length (digest_spelling self.now) }
        ensures valid { IsDigest self.now }
    {
        match self {
            Digest::Ids(ids) => DIGEST_LEN + 8 * ids.as_slice().len(),
            Digest::Lengths(segments) => DIGEST_LEN + 16 * segments.as_slice().len(),
        }
    }
}
