//! What a master knows of the backups that failed, and of the failover that is open.

ghost use Rattle.std.specs.Prelude.{◌≡◌, ◌<◌, ◌∷◌, [], length, true};
ghost use Rattle.log_head.specs.log_laws.Ids.{has};

use arrayvec::ArrayVec;
use segment::Segment;
use std::marker::Model;

/// The part of a failover that is under way. The parts come in this order.
#[derive(Clone, Copy, PartialEq, Eq)]
pub enum Part {
    /// The replicas of the head that are left get all its units, and a lost replica of the head is replaced.
    Mends,
    /// The new head is opened, and then the registry is raised to it.
    Opens,
    /// The old head is closed.
    Closes,
    /// Lost replicas of closed segments are sealed anew.
    Repairs,
}

/// A failover that is open.
#[derive(Drop)]
pub struct Failover {
    pub part: Part,
    /// How many of the first records were durable as the failover began.
    pub frozen: u64,
    /// How many replicas of the old head an earlier roll had closed as the failover began, without the lost one.
    pub closed: usize,
    /// The image of the abandoned head that this roll was opening. It is dropped once the new head's first Open was
    /// taken.
    pub abandoned: Option<Segment>,
    /// True if no head of the master was opened on all its homes before the failover.
    pub is_first: bool,
}

/// The backups that failed.
#[derive(Drop)]
pub struct Failed {
    backups: ArrayVec<u64, 64>,
}

impl Model for Failed {
    ghost use Rattle.std.specs.Prelude.{List, ℕ, reverse};

    ghost Value = { List ℕ };

    // the backup that failed last comes first
    ghost view = { λ f. reverse f.backups.items };
}

impl Failed {
    /// Makes the empty list: no backup failed.
    pub fn none() -> Failed
        ensures { result ≡ [] }
    {
        Failed {
            backups: ArrayVec::new(),
        }
    }

    /// Returns true if this backup failed.
    #[inline(always)]
    pub fn has(&self, backup: u64) -> bool
        ensures { result ≡ has self.now backup }
    {
        self.backups.as_slice().contains(&backup)
    }

    /// Returns true if no backup failed.
    #[inline(always)]
    pub fn is_empty(&self) -> bool
        ensures { result ≡ true → self.now ≡ [] }
    {
        self.backups.len() == 0
    }

    /// How many backups failed.
    pub fn count(&self) -> usize
        ensures { result ≡ length self.now }
    {
        self.backups.len()
    }

    /// Adds a backup that failed. At most 64 backups fit.
    pub fn add(&mut self, backup: u64)
        requires { length self.old < 64 }
        ensures { self.new ≡ backup ∷ self.old }
    {
        self.backups.push(backup);
    }
}
