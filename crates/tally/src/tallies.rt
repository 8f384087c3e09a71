//! What is counted of each segment.

ghost use Rattle.std.specs.Prelude.{◌≡◌, [], None, IfSome};
ghost use Rattle.entry.specs.Bag.{IsAmong};
ghost use Rattle.tally.specs.Rows.{IsChangedAt, IsCommitted, WithOne, less, more, staled, of_nothing, exact, HasNo};
ghost use Rattle.tally.specs.Rows.{OthersAreKept, AllAreKept, IsKeptAt, AreKeptBut, Fits};

use crate::placing::{is_above_all, place_for, place_near, place_of, stale, take_out};
use std::alloc::Global;
use std::marker::Model;

/// What is counted of a segment.
#[derive(Clone, Copy)]
pub struct Tally {
    /// The segment's id.
    pub segment: u64,
    /// The bytes of its live objects.
    pub live: u32,
    /// The bytes of its tombstones that name a segment of the log, if `is_fresh`; else they are as many or fewer.
    pub stones: u32,
    /// True if `stones` is exact.
    pub is_fresh: bool,
}

impl Tally {
    /// Returns what is counted with so many bytes more of objects and tombstones. Returns None if a count would be
    /// above 2^32 - 1.
    fn more(&self, live: usize, stones: usize) -> Option<Tally>
        ensures some { IfSome result (λ row. row ≡ more live stones self.now) }
        ensures none { result ≡ None → Fits (more live stones self.now) → ⊥ }
    {
        let live = self.live.checked_add(u32::try_from(live).ok()?)?;
        let stones = self.stones.checked_add(u32::try_from(stones).ok()?)?;
        Some(Tally {
            live,
            stones,
            ..*self
        })
    }

    /// Returns what is counted with so many bytes of objects less.
    fn less(&self, live: usize) -> Tally
        ensures { result ≡ less live self.now }
    {
        let live = u32::try_from(live).unwrap_or(u32::MAX);
        Tally {
            live: self.live.saturating_sub(live),
            ..*self
        }
    }

    /// Returns what is counted once some of the tombstones may not be kept any more.
    pub(crate) fn staled(&self) -> Tally
        ensures { result ≡ staled self.now }
    {
        Tally {
            is_fresh: self.is_fresh && self.stones == 0,
            ..*self
        }
    }
}

/// What is counted of a log's segments, by rising id. A segment may be left out: whoever asks for it has to count.
#[derive(Drop)]
pub struct Tallies {
    rows: Vec<Tally>,
    /// Where the last segment was whose bytes were counted less: a pass counts its victim so entry by entry. The hint
    /// only spares a search.
    near: usize,
}

impl Model for Tallies {
    ghost use Rattle.std.specs.Prelude.{List};
    ghost use Rattle.tally.specs.declared.tallies.Tally.{Tally};
    ghost use Rattle.tally.specs.Rows.{AreRising};

    ghost Value = { List Tally };

    ghost view = { λ t. t.rows.items };

    ghost invariant = { λ t. AreRising t.rows.items };
}

impl Tallies {
    /// Makes an empty list. It takes no memory.
    pub fn new(alloc: Global) -> Tallies
        ensures { result ≡ [] }
    {
        Tallies {
            rows: Vec::new(alloc),
            near: 0,
        }
    }

    /// Returns what is counted of this segment, if it is in the list. The cost grows with the logarithm of the list's
    /// length.
    pub fn get(&self, segment: u64) -> Option<Tally>
        ensures some { IfSome result (λ row. IsAmong row self.now × (row.segment ≡ segment)) }
        ensures none { result ≡ None → HasNo segment self.now }
    {
        match place_of(self.rows.as_slice(), segment) {
            Some(at) => Some(self.rows[at]),
            None => None,
        }
    }

    /// Returns all tallies, by rising id of their segments.
    pub fn as_slice(&self) -> &[Tally]
        ensures { result.now ≡ self.entry.now }
    {
        self.rows.as_slice()
    }

    /// Reserves memory for so many more, if there is some.
    pub fn reserve(&mut self, more: usize)
        ensures { self.new ≡ self.old }
    {
        let _is_there = self.rows.reserve(more).is_ok();
    }

    /// Adds a segment that has neither objects nor tombstones. It is left out if no memory was reserved, or if its id
    /// isn't above all others.
    pub fn begin(&mut self, segment: u64)
        ensures begun { WithOne (of_nothing segment) self.old self.new }
        ensures kept { AllAreKept self.old self.new }
    {
        if self.rows.len() < self.rows.capacity() && is_above_all(self.rows.as_slice(), segment) {
            self.rows.push_reserved(Tally {
                segment,
                live: 0,
                stones: 0,
                is_fresh: true,
            });
        }
    }

    /// Counts so many bytes more of a segment. A segment whose count would be above 2^32 - 1 leaves the list.
    #[inline]
    pub fn grow(&mut self, segment: u64, live: usize, stones: usize)
        ensures grown { IsChangedAt segment (more live stones) self.old self.new }
        ensures kept { IsKeptAt segment (more live stones) self.old self.new }
        ensures others { OthersAreKept segment self.old self.new }
    {
        let Some(at) = place_of(self.rows.as_slice(), segment) else {
            return;
        };
        match self.rows[at].more(live, stones) {
            Some(row) => self.rows[at] = row,
            None => {
                let _row = self.rows.remove(at);
            }
        }
    }

    /// Counts so many bytes of a segment's objects less.
    #[inline]
    pub fn shrink(&mut self, segment: u64, live: usize)
        ensures shrunk { IsChangedAt segment (less live) self.old self.new }
        ensures kept { IsKeptAt segment (less live) self.old self.new }
        ensures others { OthersAreKept segment self.old self.new }
    {
        if let Some(at) = place_near(self.rows.as_slice(), segment, self.near) {
            self.near = at;
            self.rows[at] = self.rows[at].less(live);
        }
    }

    /// Takes out the victims of a pass. Of the others with tombstones it isn't known any more how many are kept.
    pub fn commit(&mut self, victims: &[u64])
        ensures committed { IsCommitted victims.now self.old self.new }
        ensures kept { AreKeptBut victims.now self.old self.new }
    {
        take_out(&mut self.rows, victims);
        stale(self.rows.as_mut_slice());
    }

    /// Puts in what was counted of a segment. It is left out if there is no memory, or if a count is above 2^32 - 1.
    pub fn put(&mut self, segment: u64, live: usize, stones: usize)
        ensures put { WithOne (exact segment live stones) self.old self.new }
        ensures kept { OthersAreKept segment self.old self.new }
    {
        let (Ok(live), Ok(stones)) = (u32::try_from(live), u32::try_from(stones)) else {
            return;
        };
        let row = Tally {
            segment,
            live,
            stones,
            is_fresh: true,
        };
        match place_of(self.rows.as_slice(), segment) {
            Some(at) => self.rows[at] = row,
            None => {
                let at = place_for(self.rows.as_slice(), segment);
                let _is_there = self.rows.insert(at, row).is_ok();
            }
        }
    }

    /// Takes all out.
    pub fn clear(&mut self)
        ensures { self.new ≡ [] }
    {
        self.rows.clear();
    }
}
