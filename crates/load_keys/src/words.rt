//! Pseudorandom words.

ghost use Rattle.std.specs.Prelude.{◌<◌};

/// Vigna's SplitMix64: a counter whose steps are mixed. It isn't for secrets.
#[derive(Clone, Copy)]
pub struct Words {
    state: u64,
}

/// By how much the counter rises at each step.
const STEP: u64 = 0x9e3779b97f4a7c15;

/// The word, mixed so that each of its bits moves about half of the result's. No two words give one result.
pub fn mixed(word: u64) -> u64 {
    let once = (word ^ (word >> 30)).wrapping_mul(0xbf58476d1ce4e5b9);
    let twice = (once ^ (once >> 27)).wrapping_mul(0x94d049bb133111eb);
    twice ^ (twice >> 31)
}

impl Words {
    /// The words of a seed.
    pub fn new(seed: u64) -> Words {
        Words { state: seed }
    }

    /// The next word.
    pub fn word(&mut self) -> u64 {
        self.state = self.state.wrapping_add(STEP);
        mixed(self.state)
    }

    /// A number below the bound. No number is likelier than another one by more than `bound` in 2^64.
    pub fn below(&mut self, bound: u64) -> u64
        requires { 0 < bound }
        ensures { result < bound }
    {
        self.word() % bound
    }
}
