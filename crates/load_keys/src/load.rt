//! The core loads of the Yahoo Cloud Serving Benchmark, and one of updates alone.

ghost use Rattle.std.specs.Prelude.{◌≡◌};
ghost use Rattle.load_keys.specs.Loads.{act_of, other_of, reads_of};

use crate::keys::Spread;

/// A load. Load E scans, and isn't here: the store has no scans.
#[derive(Clone, Copy, PartialEq, Eq)]
pub enum Load {
    /// Half reads, half updates.
    A,
    /// 95 % reads, 5 % updates.
    B,
    /// Reads.
    C,
    /// 95 % reads of the latest keys, 5 % new keys.
    D,
    /// Half reads; half reads that are followed by a put under the condition of the version that was read.
    F,
    /// Updates. It is none of the benchmark's.
    W,
}

/// What one operation of a load does.
#[derive(Clone, Copy, PartialEq, Eq)]
pub enum Act {
    Read,
    Update,
    Insert,
    Modify,
}

impl Load {
    /// The load of a letter.
    pub fn of(name: &str) -> Option<Load> {
        match name {
            "A" => Some(Load::A),
            "B" => Some(Load::B),
            "C" => Some(Load::C),
            "D" => Some(Load::D),
            "F" => Some(Load::F),
            "W" => Some(Load::W),
            _ => None,
        }
    }

    /// How the load is spread over keys, if nothing else is said.
    pub fn spread(self) -> Spread {
        match self {
            Load::D => Spread::Latest,
            _ => Spread::Zipf,
        }
    }

    /// What an operation does for which this percent was drawn.
    pub fn act(self, percent: u64) -> Act
        ensures { result ≡ act_of self percent }
    {
        if percent < self.reads() {
            Act::Read
        } else {
            self.other()
        }
    }

    /// How many percent of the operations are plain reads.
    fn reads(self) -> u64
        ensures { result ≡ reads_of self }
    {
        match self {
            Load::A => 50,
            Load::B => 95,
            Load::C => 100,
            Load::D => 95,
            Load::F => 50,
            Load::W => 0,
        }
    }

    /// What the other operations do.
    fn other(self) -> Act
        ensures { result ≡ other_of self }
    {
        match self {
            Load::A => Act::Update,
            Load::B => Act::Update,
            Load::C => Act::Read,
            Load::D => Act::Insert,
            Load::F => Act::Modify,
            Load::W => Act::Update,
        }
    }
}
