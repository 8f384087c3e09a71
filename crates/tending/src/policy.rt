//! When a cleaner begins something, and what.

ghost use Rattle.std.specs.Prelude.{◌≡◌, ◌+◌, ◌*◌, ◌/◌, nat_lt};
ghost use Rattle.tending.specs.Low.{is_low, is_short, is_tight, usual_for};

use crate::weighing::Weight;
use driving::master::{Config, Master};
use entry::HEADER_LEN;
use replica::Fleet;

/// When a cleaner begins something, and whether it compacts a segment or begins a pass. These numbers decide what is
/// done, and never whether it is right. Contracts say when something has to begin, and not which of the two it is.
#[derive(Clone, Copy)]
pub struct Policy {
    /// The bytes of a segment, as in the master's configuration.
    pub segment: u64,
    /// The bytes of a seglet, as in the master's configuration.
    pub seglet: u64,
    /// A cleaner begins something while fewer whole segments than this are free, or the digest has room for fewer.
    pub spare: u64,
    /// A pass comes first if the closed segments, each counted whole, are so many percent of memory or more.
    pub stored: u64,
    /// A pass comes first, too, if tombstones are so many percent or more of the memory that objects and the spared
    /// segments leave.
    pub stones: u64,
}

/// The product of two numbers.
pub(crate) fn product(left: u64, right: u64) -> u128
    ensures { result ≡ left * right }
{
    left as u128 * right as u128
}

impl Policy {
    /// The usual policy for a master of this configuration.
    pub fn of(config: &Config) -> Policy
        ensures { result ≡ usual_for config.now }
    {
        let whole = config.segment / config.seglet.max(1);
        let segments = config.seglets / whole.max(1);
        Policy {
            segment: config.segment,
            seglet: config.seglet,
            spare: 4 + (segments / 256).min(4),
            stored: 130,
            stones: 25,
        }
    }

    /// Whether fewer whole segments are free than the policy spares.
    fn is_short<F: Fleet>(&self, master: &Master<F>) -> bool
        ensures { result ≡ is_short self.now master.now.knows }
    {
        product(master.free_seglets(), self.seglet) < product(self.spare, self.segment)
    }

    /// Whether fewer whole segments are free than the policy spares, less one.
    pub(crate) fn is_tight<F: Fleet>(&self, master: &Master<F>) -> bool
        ensures { result ≡ is_tight self.now master.now.knows }
    {
        let spare = self.spare.saturating_sub(1);
        product(master.free_seglets(), self.seglet) < product(spare, self.segment)
    }

    /// Whether a digest that lists so many segments has room for fewer than the policy spares.
    pub(crate) fn is_crowded_by(&self, listed: u64) -> bool
        ensures { result ≡ nat_lt (self.now.segment / 32) (listed + self.now.spare) }
    {
        ((self.segment / 32) as u128) < listed as u128 + self.spare as u128
    }

    /// Whether something has to begin: few whole segments are free, or the digest has little room.
    pub(crate) fn is_low<F: Fleet>(&self, master: &Master<F>) -> bool
        ensures { result ≡ is_low self.now master.now.knows }
    {
        self.is_short(master) || self.is_crowded_by(master.digest_len())
    }

    /// Whether so many closed segments, each counted whole, are many for a memory of so many bytes.
    pub(crate) fn is_long(&self, closed: u64, memory: u64) -> bool {
        let stored = closed.saturating_mul(self.segment);
        product(stored, 100) >= product(self.stored, memory)
    }

    /// Whether tombstones of these segments fill much of the memory, of so many bytes, that their objects and the
    /// spared segments leave.
    pub(crate) fn is_buried(&self, weights: &[Weight], memory: u64) -> bool {
        let mut left = memory.saturating_sub(self.spare.saturating_mul(self.segment));
        let mut stones: u64 = 0;
        for weight in weights {
            left = left.saturating_sub(weight.kept.saturating_sub(weight.stones));
            stones = stones.saturating_add(weight.stones);
        }
        product(stones, 100) >= product(self.stones, left)
    }

    /// The seglets of so many bytes.
    pub(crate) fn seglets(&self, bytes: u64) -> u64 {
        bytes.div_ceil(self.seglet.max(1))
    }

    /// Whether there is memory for so many survivors and the head of the commit.
    pub(crate) fn has_memory_for(&self, free: u64, survivors: u64) -> bool {
        product(free, self.seglet) >= product(survivors.saturating_add(1), self.segment)
    }

    /// How many survivors a pass may have if so many seglets are free: a put's roll finds two whole segments free then,
    /// beside what the old head counts. It is at least one.
    pub(crate) fn survivors_in(&self, free: u64) -> u64 {
        let whole = self.segment / self.seglet.max(1);
        (free / whole.max(1)).saturating_sub(3).max(1).min(4)
    }

    /// How many kept bytes fit so many survivors, whatever they are. No entry is longer than a quarter of a segment, so
    /// a survivor with another one behind it is three quarters full.
    pub(crate) fn space_of(&self, survivors: u64) -> u64 {
        let last = self.segment.saturating_sub(HEADER_LEN as u64);
        let others = survivors
            .saturating_sub(1)
            .saturating_mul(self.three_quarters());
        last.saturating_add(others)
    }

    /// How many survivors so many kept bytes fill at most.
    pub(crate) fn survivors_for(&self, kept: u64) -> u64 {
        let last = self.segment.saturating_sub(HEADER_LEN as u64);
        kept.saturating_sub(last)
            .div_ceil(self.three_quarters().max(1))
            .saturating_add(1)
    }

    /// How full a survivor is at least if an entry didn't fit it any more, in bytes.
    fn three_quarters(&self) -> u64 {
        self.segment
            .saturating_sub(HEADER_LEN as u64)
            .saturating_sub(self.segment / 4)
    }

    /// Whether so many survivors would leave less than two whole segments free.
    pub(crate) fn leaves_little(&self, free: u64, survivors: u64) -> bool {
        product(free, self.seglet) < product(survivors.saturating_add(2), self.segment)
    }

    /// Whether a digest may list so many segments and two heads: the old one, and that of the commit.
    pub(crate) fn has_places(&self, closed: u64) -> bool {
        closed.saturating_add(2) <= self.segment / 32
    }
}
