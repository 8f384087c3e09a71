//! Why the lists of a log are not made.

ghost use Rattle.std.specs.Prelude.{◌≡◌};
ghost use Rattle.partitions.specs.declared.setback.Setback.TheVariants as setback;

use entry::NoMemory;
use std::alloc::{AllocError, AllocFailed};

/// What keeps a partition from its list, or the lists from being joined.
#[derive(Clone, Copy, PartialEq, Eq)]
pub enum Setback {
    /// Memory ran out.
    NoMemory,
    /// Two objects of one key and version have different values.
    Clash,
    /// A key is in no partition.
    Stray,
    /// A group did not come, came twice or came to another partition, or a worker was not started, or lists were not
    /// joined in the order of their partitions and keys.
    NotWhole,
}

impl From<AllocError> for Setback {
    ghost from_gives = { λ _ e. e ≡ setback.NoMemory };

    fn from(_error: AllocError) -> Setback {
        Setback::NoMemory
    }
}

impl<T: Drop> From<AllocFailed<T>> for Setback {
    ghost from_gives = { λ _ e. e ≡ setback.NoMemory };

    fn from(_error: AllocFailed<T>) -> Setback {
        Setback::NoMemory
    }
}
