//! How far survivors are filled.

ghost use Rattle.std.specs.Prelude.{◌≡◌, ◌+◌, ◌<◌, ◌^◌};
ghost use Rattle.cleaner.specs.Filling.{first_level, filled_one};

use entry::HEADER_LEN;

/// How far the survivors of a pass are filled.
#[derive(Clone, Copy)]
pub struct Level {
    /// Which survivor is filled, counted from 0. Those before it are full.
    pub survivor: usize,
    /// How many bytes it has, its header among them.
    pub len: usize,
}

impl Level {
    /// Returns the level before the first entry: the first survivor has its header alone.
    pub fn first() -> Level
        ensures { result ≡ first_level }
    {
        Level {
            survivor: 0,
            len: HEADER_LEN,
        }
    }

    /// Returns the level after one more entry of `len` bytes. An entry that doesn't fit the survivor begins the next
    /// one.
    pub(crate) fn with(self, len: usize, segment: usize) -> Level
        requires survivors { self.survivor < 2 ^ 32 }
        requires bytes { self.len + len < 2 ^ 32 }
        ensures { result ≡ filled_one segment self len }
    {
        if self.len + len <= segment {
            Level {
                survivor: self.survivor,
                len: self.len + len,
            }
        } else {
            Level {
                survivor: self.survivor + 1,
                len: HEADER_LEN + len,
            }
        }
    }
}
