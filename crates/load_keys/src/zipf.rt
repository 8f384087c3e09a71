//! Zipf's law with exponent 0.99.

ghost use Rattle.std.specs.Prelude.{◌≡◌, ◌<◌, length, IfOk};
ghost use Rattle.load_keys.specs.Ranks.{IsRankOf};

use crate::words::Words;
use std::alloc::{AllocError, Global};
use std::marker::Model;

/// Ranks from 0, of which rank r is drawn with a weight of 1 / (r + 1)^0.99. It keeps 8 bytes for each rank.
#[derive(Drop)]
pub struct Zipf {
    /// The sum of the weights of all ranks up to each one.
    sums: Vec<u64>,
}

impl Model for Zipf {
    ghost use Rattle.std.specs.Prelude.{◌<◌, ℕ, List, length};

    ghost Value = { List ℕ };

    ghost view = { λ z. z.sums.items };

    ghost invariant = { λ z. 0 < length z.sums.items };
}

/// The number 1, in 2^32nds.
const ONE: u64 = 1 << 32;

/// The hundredth root of 2, in 2^32nds.
const ROOT: u64 = 4324841156;

/// The weights of ranks, one after another. The weight of the n-th rank is n^0.01 / n. The power is exact where n is a
/// power of 2, and lies on a line between two of these: it is less than a thousandth too small.
#[derive(Clone, Copy)]
struct Weights {
    /// The rank that comes next, counted from 1.
    next: u64,
    /// The greatest power of 2 that isn't above it.
    span: u64,
    /// That power to the 0.01, in 2^32nds.
    low: u64,
    /// Twice that power, to the 0.01, in 2^32nds.
    high: u64,
}

impl Weights {
    fn new() -> Weights {
        Weights {
            next: 1,
            span: 1,
            low: ONE,
            high: ROOT,
        }
    }

    /// The weight of the next rank, in 2^40ths. It is never 0 below 2^40 ranks.
    fn weight(&self) -> u64 {
        let rise = self.high.saturating_sub(self.low) as u128;
        let past = self.next.saturating_sub(self.span) as u128;
        let power = self.low as u128 + rise * past / self.span.max(1) as u128;
        scaled(power, self.next)
    }

    /// Goes on to the rank behind.
    fn advance(&mut self) {
        self.next = self.next.saturating_add(1);
        if self.next == self.span.saturating_mul(2) {
            self.span = self.next;
            self.low = self.high;
            self.high = product(self.high, ROOT);
        }
    }
}

/// A number of 2^32nds over `number`, in 2^40ths.
fn scaled(power: u128, number: u64) -> u64 {
    let weight = power.saturating_mul(256) / number.max(1) as u128;
    weight.min(u64::MAX as u128) as u64
}

/// The product of two numbers of 2^32nds, in 2^32nds.
fn product(left: u64, right: u64) -> u64 {
    let whole = left as u128 * right as u128 / ONE as u128;
    whole.min(u64::MAX as u128) as u64
}

impl Zipf {
    /// The law over so many ranks.
    pub fn new(alloc: Global, ranks: u64) -> Result<Zipf, AllocError>
        requires { 0 < ranks }
        ensures { IfOk result (λ z. length z ≡ ranks) }
    {
        let mut sums = Vec::new(alloc);
        let mut weights = Weights::new();
        let mut total: u64 = 0;
        for _rank in 0..ranks {
            total = total.saturating_add(weights.weight());
            sums.push(total)?;
            weights.advance();
        }
        Ok(Zipf { sums })
    }

    /// The sum of all weights.
    pub fn total(&self) -> u64 {
        match self.sums.last() {
            Some(total) => *total,
            None => 0,
        }
    }

    /// The rank of a number: the sums up to the ranks before it aren't above the number, and its own sum is above it,
    /// or it is the last rank.
    pub fn rank(&self, number: u64) -> usize
        ensures { IsRankOf self.now number result }
    {
        let mut low = 0;
        let mut high = self.sums.len() - 1;
        while low < high {
            let middle = low + (high - low) / 2;
            if self.sums[middle] <= number {
                low = middle + 1;
            } else {
                high = middle;
            }
        }
        low
    }

    /// A rank of the law.
    pub fn draw(&self, words: &mut Words) -> usize
        ensures { result < length self.now }
    {
        let total = self.total();
        self.rank(words.below(total.max(1)))
    }
}
