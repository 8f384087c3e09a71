//! A new log into which objects are loaded, and the memory that they need.

ghost use Rattle.std.specs.Prelude.{◌≡◌, ◌<◌, ◌≤◌, ◌+◌, ◌^◌, None, IfSome};
ghost use Rattle.packing.specs.Packing.{empty_log, most_ids, opening_len, seglets_at, with_object};
ghost use Rattle.packing.specs.Packing.{AreSound, IsSmall};

use crate::sizes::Sizes;

/// How far a new log has come while objects are loaded into it.
#[derive(Clone, Copy)]
pub struct NewLog {
    /// How many segments are closed.
    pub closed: u64,
    /// How many seglets the closed segments count together.
    pub used: u64,
    /// The bytes of the head.
    pub len: u64,
}

/// The bytes of the opening of a head whose digest lists so many segments.
fn opening_len(sizes: &Sizes, listed: u64) -> u64
    requires few { listed ≤ 2 ^ 32 }
    ensures { result ≡ opening_len sizes.now listed }
{
    if sizes.format == 2 {
        32 + 16 * listed
    } else {
        32 + 8 * listed
    }
}

impl NewLog {
    /// A log into which nothing was loaded.
    pub fn new(sizes: &Sizes) -> NewLog
        requires sound { AreSound sizes.now }
        ensures log { result ≡ empty_log sizes.now }
        ensures small { IsSmall sizes.now result }
    {
        NewLog {
            closed: 0,
            used: 0,
            len: opening_len(sizes, 1),
        }
    }

    /// The log with one object more, of so many bytes. If the head has no room for it, the head is closed, and the next
    /// head begins with the object. None if the digest has too few places for one more head.
    pub fn with_object(&self, sizes: &Sizes, length: u64) -> Option<NewLog>
        requires sound { AreSound sizes.now }
        requires small { IsSmall sizes.now self.now }
        requires length { length ≤ 8388608 }
        ensures log { IfSome result (λ l. l ≡ with_object sizes.now self.now length) }
        ensures small { IfSome result (λ l. IsSmall sizes.now l) }
        ensures none { result ≡ None → most_ids sizes.now < (with_object sizes.now self.now length).closed + 2 }
    {
        if self.len + length <= sizes.segment {
            return Some(NewLog {
                closed: self.closed,
                used: self.used,
                len: self.len + length,
            });
        }
        if self.closed + 3 > sizes.segment / 32 {
            return None;
        }
        Some(NewLog {
            closed: self.closed + 1,
            used: self.used + self.len.div_ceil(sizes.seglet),
            len: opening_len(sizes, self.closed + 2) + length,
        })
    }

    /// How many seglets a master needs, so that each roll up to this log may begin. The number of seglets in `sizes`
    /// plays no part.
    pub fn seglets_needed(&self, sizes: &Sizes) -> u64
        requires sound { AreSound sizes.now }
        requires small { IsSmall sizes.now self.now }
        ensures { result ≡ seglets_at sizes.now self.now }
    {
        3 * (sizes.segment / sizes.seglet) + self.used
    }
}
