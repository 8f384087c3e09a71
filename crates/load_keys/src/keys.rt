//! Keys of a load.

ghost use Rattle.std.specs.Prelude.{◌<◌};

use crate::words::{Words, mixed};
use crate::zipf::Zipf;
use std::alloc::{AllocError, Global};

/// How calls are spread over keys.
#[derive(Clone, Copy, PartialEq, Eq)]
pub enum Spread {
    /// Each key is as likely as any other.
    Uniform,
    /// Keys are drawn by Zipf's law, and which keys are frequent is scrambled. Two ranks may have one key.
    Zipf,
    /// The last key is the most frequent one, by Zipf's law.
    Latest,
}

/// Draws keys. Threads share it.
#[derive(Drop)]
pub struct Keys {
    spread: Spread,
    zipf: Zipf,
}

impl Keys {
    /// Draws from about so many keys. Without Zipf's law it keeps no table.
    pub fn new(alloc: Global, spread: Spread, records: u64) -> Result<Keys, AllocError> {
        let ranks = match spread {
            Spread::Uniform => 1,
            Spread::Zipf => records.max(1),
            Spread::Latest => records.max(1),
        };
        let zipf = Zipf::new(alloc, ranks)?;
        Ok(Keys { spread, zipf })
    }

    /// The number of a key, if so many keys were made.
    pub fn draw(&self, words: &mut Words, made: u64) -> u64
        requires { 0 < made }
        ensures { result < made }
    {
        match self.spread {
            Spread::Uniform => words.below(made),
            Spread::Zipf => mixed(self.zipf.draw(words) as u64) % made,
            Spread::Latest => {
                let last = made - 1;
                last.saturating_sub(self.zipf.draw(words) as u64)
            }
        }
    }
}
