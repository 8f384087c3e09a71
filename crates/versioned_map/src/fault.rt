//! The error of a command that isn't applied.

ghost use Rattle.std.specs.Prelude.{◌≡◌};
ghost use Rattle.versioned_map.specs.declared.fault.ApplyFault.TheVariants as apply_fault;

use std::alloc::{AllocError, AllocFailed};
use thiserror::Error;

/// The reason why a command wasn't applied. Such a command changed nothing.
#[derive(Clone, Copy, Debug, PartialEq, Eq, Error)]
pub enum ApplyFault {
    /// The put would need a version above 2^62, the greatest version.
    #[error("no version is left")]
    VersionsSpent,
    #[error("no memory")]
    NoMemory,
}

impl From<AllocError> for ApplyFault {
    ghost from_gives = { λ _ e. e ≡ apply_fault.NoMemory };

    fn from(_error: AllocError) -> ApplyFault {
        ApplyFault::NoMemory
    }
}

impl<T: Drop> From<AllocFailed<T>> for ApplyFault {
    ghost from_gives = { λ _ e. e ≡ apply_fault.NoMemory };

    fn from(_error: AllocFailed<T>) -> ApplyFault {
        ApplyFault::NoMemory
    }
}
