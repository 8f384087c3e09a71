//! A master with its fleet, or the fleet that it left.

ghost use Rattle.std.specs.Prelude.{◌≡◌, true};
ghost use Rattle.embedded.specs.Lives.{Crashes, Loses, is_up};

use backup::MemoryFleet;
use recovery::master::Master;
use std::mem::replace;

/// A master with its fleet, or the fleet that it left.
#[derive(Drop)]
pub enum Life {
    /// The master serves.
    Up(Master<MemoryFleet>),
    /// There is no master, and the backups are left.
    Down(MemoryFleet),
    /// A life is this only while its master is being dropped or made.
    Changing,
}

impl Life {
    /// Whether there is a master.
    pub fn is_up(&self) -> bool
        ensures { result ≡ is_up self.now }
    {
        match self {
            Life::Up(_) => true,
            _ => false,
        }
    }

    /// Drops the master. The fleet stays as it is. True if there was a master.
    pub(crate) fn crash(&mut self) -> bool
        ensures { Crashes self.old result self.new }
    {
        if !self.is_up() {
            return false;
        }
        self.drop_master();
        true
    }

    /// Drops the master of a life that has one.
    fn drop_master(&mut self)
        requires { is_up self.old ≡ true }
        ensures { Crashes self.old true self.new }
    {
        let Life::Up(master) = replace(self, Life::Changing) else {
            unreachable!();
        };
        *self = Life::Down(master.crash());
    }

    /// Makes a backup lose all that it holds. True if there is no master: with one, nothing changes.
    pub(crate) fn lose(&mut self, backup: u64) -> bool
        ensures { Loses self.old backup result self.new }
    {
        match self {
            Life::Down(fleet) => {
                fleet.lose(backup);
                true
            }
            _ => false,
        }
    }

    /// Puts a life in the place of this one.
    pub(crate) fn set(&mut self, life: Life)
        ensures { self.new ≡ life }
    {
        *self = life;
    }
}
