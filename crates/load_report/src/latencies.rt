//! How long calls took, counted by classes.

ghost use Rattle.std.specs.Prelude.{◌≡◌, ◌≤◌, ◌<◌, IfOk, max};

use std::alloc::{AllocError, Global};
use std::marker::Model;

/// How many classes there are: each time of 64 bits has one.
const CLASSES: u64 = 1_920;

/// Times below this have a class each.
const FINE: u64 = 64;

/// How many classes there are for the times between a power of two and the next one.
const PARTS: u64 = 32;

/// How many calls took how long. Times are nanoseconds. A class is as wide as one part in 32 of its least time, or
/// narrower. It keeps 15 kilobytes.
#[derive(Drop)]
pub struct Latencies {
    counts: Vec<u64>,
    calls: u64,
    greatest: u64,
}

impl Model for Latencies {
    ghost use Rattle.std.specs.Prelude.{◌≡◌, ℕ, length};
    ghost use Rattle.load_report.specs.Classes.{LatenciesValue};

    ghost Value = { LatenciesValue };

    ghost view = { λ l. record { calls = l.calls; greatest = l.greatest } };

    ghost invariant = { λ l. length l.counts.items ≡ 1920 };
}

/// The class of a time.
fn class_of(nanos: u64) -> u64
    ensures { result < 1920 }
{
    let mut rest = nanos;
    for turn in 0..58 {
        if rest < FINE {
            return turn * PARTS + rest;
        }
        rest /= 2;
    }
    58 * PARTS + rest.min(FINE - 1)
}

/// The greatest time of a class.
fn top_of(class: u64) -> u64 {
    if class < FINE {
        return class;
    }
    let turns = class / PARTS - 1;
    let mut top = class - turns * PARTS;
    for _turn in 0..turns {
        top = top.saturating_mul(2).saturating_add(1);
    }
    top
}

impl Latencies {
    /// No calls.
    pub fn new(alloc: Global) -> Result<Latencies, AllocError>
        ensures { IfOk result (λ l. (l.calls ≡ 0) × (l.greatest ≡ 0)) }
    {
        let mut counts = Vec::new(alloc);
        for _class in 0..CLASSES {
            counts.push(0)?;
        }
        Ok(Latencies {
            counts,
            calls: 0,
            greatest: 0,
        })
    }

    /// How many calls were counted.
    pub fn calls(&self) -> u64
        ensures { result ≡ self.now.calls }
    {
        self.calls
    }

    /// The longest time.
    pub fn greatest(&self) -> u64
        ensures { result ≡ self.now.greatest }
    {
        self.greatest
    }

    /// Counts a call that took so long.
    pub fn note(&mut self, nanos: u64)
        ensures greatest { self.new.greatest ≡ max self.old.greatest nanos }
    {
        let class = class_of(nanos) as usize;
        self.counts[class] = self.counts[class].saturating_add(1);
        self.calls = self.calls.saturating_add(1);
        self.greatest = self.greatest.max(nanos);
    }

    /// Counts what others counted.
    pub fn add(&mut self, other: &Latencies)
        ensures greatest { self.new.greatest ≡ max self.old.greatest other.now.greatest }
    {
        for class in 0..CLASSES as usize {
            let more = match other.counts.get(class) {
                Some(count) => *count,
                None => 0,
            };
            self.counts[class] = self.counts[class].saturating_add(more);
        }
        self.calls = self.calls.saturating_add(other.calls);
        self.greatest = self.greatest.max(other.greatest);
    }

    /// A time that at least `part` of 10,000 calls didn't exceed, and the others took at least as long but for the
    /// width of a class. 0 if there are no calls.
    pub fn percentile(&self, part: u64) -> u64
        ensures { result ≤ self.now.greatest }
    {
        let wanted = self.calls as u128 * part as u128;
        let mut seen: u128 = 0;
        for class in 0..CLASSES as usize {
            seen = seen.saturating_add(self.counts[class] as u128 * 10_000);
            if seen >= wanted && seen > 0 {
                return top_of(class as u64).min(self.greatest);
            }
        }
        self.greatest
    }
}
