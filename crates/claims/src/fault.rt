//! Why a log is not replayed.

ghost use Rattle.std.specs.Prelude.{◌≡◌, Some};
ghost use Rattle.claims.specs.declared.fault.ReplayFault.TheVariants as replay_fault;
ghost use Rattle.claims.specs.Texts.{replay_fault_text};

use entry::Key;
use std::alloc::{AllocError, AllocFailed};
use std::error::Error;
use std::fmt;

/// Why a replay is refused. The numbers are fixed.
#[derive(Debug, Drop)]
pub enum ReplayFault {
    /// 1: a group of this segment was taken before.
    Double(u64),
    /// 2: the group belongs to no segment that is replayed, or to another partition.
    Stranger,
    /// 3: no group of this segment was taken.
    MissingGroup(u64),
    /// 4: memory ran out.
    NoMemory,
    /// 5: two objects of one key and version have different values.
    Clash,
    /// 6: the key is in no partition.
    Stray(Key),
}

impl Error for ReplayFault {}

impl fmt::Display for ReplayFault {
    ghost output = { λ fault. Some (replay_fault_text fault) };

    fn fmt<W: fmt::Write>(&self, f: &mut fmt::Formatter<W>) -> fmt::Result {
        match self {
            ReplayFault::Double(segment) => write!(f, "Double {segment}"),
            ReplayFault::Stranger => write!(f, "Stranger"),
            ReplayFault::MissingGroup(segment) => write!(f, "MissingGroup {segment}"),
            ReplayFault::NoMemory => write!(f, "NoMemory"),
            ReplayFault::Clash => write!(f, "Clash"),
            ReplayFault::Stray(_) => write!(f, "Stray"),
        }
    }
}

impl From<AllocError> for ReplayFault {
    ghost from_gives = { λ _ e. e ≡ replay_fault.NoMemory };

    fn from(_error: AllocError) -> ReplayFault {
        ReplayFault::NoMemory
    }
}

impl<T: Drop> From<AllocFailed<T>> for ReplayFault {
    ghost from_gives = { λ _ e. e ≡ replay_fault.NoMemory };

    fn from(_error: AllocFailed<T>) -> ReplayFault {
        ReplayFault::NoMemory
    }
}
