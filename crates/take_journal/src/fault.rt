//! Why a call of a journal was refused, or failed.

ghost use Rattle.std.specs.Prelude.{◌≡◌};
ghost use Rattle.take_journal.specs.declared.fault.JournalFault.TheVariants as journal_fault;
ghost use Rattle.take_journal.specs.declared.fault.OpenFault.TheVariants as open_fault;

use crate::DeviceFailed;
use std::alloc::AllocError;
use thiserror::Error;

/// Why texts were not acknowledged.
#[derive(Clone, Copy, Debug, PartialEq, Eq, Error)]
pub enum JournalFault {
    /// Nothing was done: memory ran out.
    #[error("no memory")]
    NoMemory,
    /// Nothing was done: the file has 2^60 bytes.
    #[error("the journal is full")]
    Full,
    /// Nothing was done: the journal is not open.
    #[error("the journal is not open")]
    Closed,
    /// The device failed. The journal is closed, and nothing more is asked of the device.
    #[error("the disk failed")]
    Failed,
}

impl From<AllocError> for JournalFault {
    ghost from_gives = { λ _ e. e ≡ journal_fault.NoMemory };

    fn from(_error: AllocError) -> JournalFault {
        JournalFault::NoMemory
    }
}

impl From<DeviceFailed> for JournalFault {
    ghost from_gives = { λ _ e. e ≡ journal_fault.Failed };

    fn from(_error: DeviceFailed) -> JournalFault {
        JournalFault::Failed
    }
}

/// Why a file was not opened as a journal.
#[derive(Clone, Copy, Debug, PartialEq, Eq, Error)]
pub enum OpenFault {
    /// Nothing was done: memory ran out.
    #[error("no memory")]
    NoMemory,
    /// Nothing was done: the first text does not begin with the version of this format.
    #[error("the file has another version")]
    OtherVersion,
    /// Nothing was done: the file is damaged from this byte on. No crash can have left it.
    #[error("the file is damaged at byte {0}")]
    Damaged(usize),
    /// The device failed. The journal is closed, and nothing more is asked of the device.
    #[error("the disk failed")]
    Failed,
}

impl From<AllocError> for OpenFault {
    ghost from_gives = { λ _ e. e ≡ open_fault.NoMemory };

    fn from(_error: AllocError) -> OpenFault {
        OpenFault::NoMemory
    }
}

impl From<DeviceFailed> for OpenFault {
    ghost from_gives = { λ _ e. e ≡ open_fault.Failed };

    fn from(_error: DeviceFailed) -> OpenFault {
        OpenFault::Failed
    }
}
